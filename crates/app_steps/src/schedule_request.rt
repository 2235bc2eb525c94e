//! `schedule`: single steps, made in a manner or from a script.
ghost use Rattle.std.specs.Prelude.{◌≤◌, IfOk};
ghost use Rattle.app_steps.specs.Requests.{AreWithin, IsScheduleWithin};

use app_commands::{
    CONSTANT, FILE, FROM, NAMES, NAMES_ARGUMENT, NETWORK, NUMBER, PROGRAM, PlanPaths, ROUND,
    whole_percents,
};
use app_table::{Argument, Command, Kind, OPTION, Reading, Subcommand, Value, WordsFault};
use rounds_plan::MOST_ROUNDS;
use std::alloc::{AllocError, Global};
use unison_trace::MOST_STEPS;

pub(crate) const STOP: Argument = Argument {
    name: "stop",
    value: ROUND,
    value_name: "T",
    help: "The round at which a node stops, counted from round 0: 0 to 1000000000, which stands where it is left out",
    ..OPTION
};

/// `STOP`, as it is read.
pub(crate) static STOP_ARGUMENT: Argument = STOP;

const COUNT: Argument = Argument {
    name: "count",
    value: Value::Number {
        least: 0,
        most: MOST_STEPS,
    },
    value_name: "K",
    help: "So many steps at most: 0 to 1000000, which stands where it is left out",
    ..OPTION
};

/// `COUNT`, as it is read.
static COUNT_ARGUMENT: Argument = COUNT;

const SEED: Argument = Argument {
    name: "seed",
    value: NUMBER,
    value_name: "S",
    help: "The same seed draws the same steps on every machine: 0 to 4294967295, and 0 where it is left out",
    ..OPTION
};

/// `SEED`, as it is read.
static SEED_ARGUMENT: Argument = SEED;

const REFUSED: Argument = Argument {
    name: "refused",
    value_name: "PERCENT",
    help: "Mix in steps that change nothing: so many of a hundred, as 40%: 0% to 99%",
    ..OPTION
};

/// `REFUSED`, as it is read.
static REFUSED_ARGUMENT: Argument = REFUSED;

const NODE: Argument = Argument {
    name: "node",
    kind: Kind::Positional,
    value_name: "NODE",
    help: "The node, by its number, or by its name where --names is given",
    ..OPTION
};

/// `NODE`, as it is read.
static NODE_ARGUMENT: Argument = NODE;

const NEIGHBOUR: Argument = Argument {
    name: "neighbour",
    kind: Kind::Positional,
    value_name: "NEIGHBOUR",
    help: "A neighbour of NODE, by its number, or by its name where --names is given",
    ..OPTION
};

/// `NEIGHBOUR`, as it is read.
static NEIGHBOUR_ARGUMENT: Argument = NEIGHBOUR;

const SHARE: Argument = Argument {
    name: "share",
    value_name: "PERCENT",
    help: "Each enabled node with so many chances of a hundred, as 40%: 0% to 100%, and 50% where it is left out",
    ..OPTION
};

/// The share where it is left out.
const HALF: u32 = 50;

/// `SHARE`, as it is read.
static SHARE_ARGUMENT: Argument = SHARE;

const LINES: Argument = Argument {
    name: "lines",
    help: "The file of the lines, or - for standard input",
    ..FILE
};

/// `LINES`, as it is read.
static LINES_ARGUMENT: Argument = LINES;

/// What a manner that names no node takes.
const OF_ALL: [Argument; 8] = [PROGRAM, NETWORK, STOP, COUNT, SEED, REFUSED, FROM, CONSTANT];

/// What a manner that names a node takes.
const OF_A_NODE: [Argument; 10] = [
    NODE, PROGRAM, NETWORK, NAMES, STOP, COUNT, SEED, REFUSED, FROM, CONSTANT,
];

/// What the manner of a share takes.
const OF_A_SHARE: [Argument; 9] = [
    PROGRAM, NETWORK, SHARE, STOP, COUNT, SEED, REFUSED, FROM, CONSTANT,
];

/// What a manner that names two neighbours takes.
const OF_A_PAIR: [Argument; 11] = [
    NODE, NEIGHBOUR, PROGRAM, NETWORK, NAMES, STOP, COUNT, SEED, REFUSED, FROM, CONSTANT,
];

const MANNERS: [Subcommand; 11] = [
    Subcommand {
        name: "sweeps",
        about: "Each node by rising number reads all its neighbours and moves, until all stand at the stop",
        notes: "",
        arguments: &OF_ALL,
    },
    Subcommand {
        name: "random",
        about: "Any step that changes something, drawn at random, until all stand at the stop",
        notes: "",
        arguments: &OF_ALL,
    },
    Subcommand {
        name: "slow-links",
        about: "As random, but some links are read only where nothing else is left to do",
        notes: "",
        arguments: &OF_ALL,
    },
    Subcommand {
        name: "starve",
        about: "The node makes no step, and the others go on as long as they can",
        notes: "",
        arguments: &OF_A_NODE,
    },
    Subcommand {
        name: "ahead",
        about: "The node gets as far ahead as it can, until it stands at the stop",
        notes: "",
        arguments: &OF_A_NODE,
    },
    Subcommand {
        name: "central",
        about: "The central daemon: one enabled node at a time, drawn at random, reads all its neighbours and moves",
        notes: "",
        arguments: &OF_ALL,
    },
    Subcommand {
        name: "synchronous",
        about: "The synchronous daemon: all enabled nodes at a time, all reads before all moves",
        notes: "",
        arguments: &OF_ALL,
    },
    Subcommand {
        name: "distributed",
        about: "The distributed daemon: each enabled node with --share chances of a hundred, one at least",
        notes: "",
        arguments: &OF_A_SHARE,
    },
    Subcommand {
        name: "round-robin",
        about: "The round-robin daemon: each node in the order of the numbers, which is what sweeps does",
        notes: "",
        arguments: &OF_ALL,
    },
    Subcommand {
        name: "adversary",
        about: "An adversary: NODE wherever it is enabled, and NEIGHBOUR only where no other node is",
        notes: "An example: unison schedule adversary 0 1 examples/distance.rules examples/path.toml --stop 3\n",
        arguments: &OF_A_PAIR,
    },
    Subcommand {
        name: "write",
        about: "A schedule from a script, a line such as `4 reads 7` for each step",
        notes: "The lines: `4 reads 7`, `4 reads all`, `4 moves`, `4 turn` (reads all and moves), `sweep` (a turn of each node), and `repeat 3 {` and `}` around others; what stands after # is a comment.\nAn example: printf 'sweep\\n0 turn\\n' | unison schedule write - examples/distance.rules examples/path.toml\n",
        arguments: &[LINES, PROGRAM, NETWORK, NAMES, FROM, CONSTANT],
    },
];

/// `schedule` and what it takes.
static SCHEDULE: Command = Command {
    name: "schedule",
    aliases: &["steps"],
    called: "unison schedule",
    about: "Make a schedule: sweeps, at random, one node starved or ahead, by a daemon, or from a script",
    notes: "Prints a schedule, as replay and explain read it and run --trace writes it.\nAn example: unison schedule sweeps examples/distance.rules examples/path.toml --stop 2 > steps.txt\nThe words of one: unison schedule write --help\n",
    arguments: &[],
    subcommands: &MANNERS,
};

/// The table of `schedule`.
pub fn schedule_command() -> &'static Command {
    &SCHEDULE
}

/// In which manner steps are made.
#[derive(Drop)]
pub enum StepsManner {
    /// Each node by rising number reads all its slots and moves, again and again.
    Sweeps,
    /// Any step that changes something.
    Random,
    /// This node, by its number or name, makes no step.
    Starve { node: String },
    /// This node, by its number or name, gets as far ahead as it can.
    Ahead { node: String },
    /// Some links are read only where nothing else is left to do.
    SlowLinks,
    /// One enabled node at a time reads all its slots and moves.
    Central,
    /// All enabled nodes at a time read all their slots, and then move.
    Synchronous,
    /// Each enabled node does with so many chances of a hundred, and one at least.
    Distributed { share: u32 },
    /// The node, by its number or name, moves wherever it is enabled, and its neighbour only where no other is.
    Adversary { node: String, neighbour: String },
}

/// Up to where steps go, and by what they are drawn.
#[derive(Clone, Copy)]
pub struct Limits {
    /// The round at which nodes stop, counted from round 0.
    pub stop: u32,
    /// By what is drawn.
    pub seed: u32,
    /// How many steps there are at most.
    pub count: u32,
    /// How many of a hundred steps are refused ones, where some are mixed in.
    pub refused: u32,
}

/// Steps in a manner.
#[derive(Drop)]
pub struct Listing {
    pub plan: PlanPaths,
    pub manner: StepsManner,
    pub limits: Limits,
    /// The path of the names by which nodes are called, where they are.
    pub names: Option<String>,
}

/// Steps from a script.
#[derive(Drop)]
pub struct Writing {
    pub plan: PlanPaths,
    /// The path of the lines.
    pub lines: String,
    /// The path of the names by which nodes are called, where they are.
    pub names: Option<String>,
}

/// What `schedule` is asked for.
#[derive(Drop)]
pub enum ScheduleRequest {
    Listing(Listing),
    Writing(Writing),
}

/// The daemon of the subcommand that is named.
fn daemon_in(reading: &mut Reading) -> StepsManner {
    match reading.subcommand() {
        "central" => StepsManner::Central,
        "synchronous" => StepsManner::Synchronous,
        "distributed" => StepsManner::Distributed {
            share: whole_percents(reading, &SHARE_ARGUMENT, 100).unwrap_or(HALF),
        },
        _ => StepsManner::Adversary {
            node: reading.needed_text(&NODE_ARGUMENT),
            neighbour: reading.needed_text(&NEIGHBOUR_ARGUMENT),
        },
    }
}

/// The manner of the subcommand that is named.
fn manner_in(reading: &mut Reading) -> StepsManner {
    match reading.subcommand() {
        "sweeps" | "round-robin" => StepsManner::Sweeps,
        "random" => StepsManner::Random,
        "slow-links" => StepsManner::SlowLinks,
        "starve" => StepsManner::Starve {
            node: reading.needed_text(&NODE_ARGUMENT),
        },
        "ahead" => StepsManner::Ahead {
            node: reading.needed_text(&NODE_ARGUMENT),
        },
        _ => daemon_in(reading),
    }
}

/// Up to where steps go, and by what they are drawn.
fn limits_in(reading: &mut Reading) -> Limits
    ensures within { AreWithin result }
{
    let stop = reading.number_or(&STOP_ARGUMENT, MOST_ROUNDS);
    let count = reading.number_or(&COUNT_ARGUMENT, MOST_STEPS);
    let seed = reading.number_or(&SEED_ARGUMENT, 0);
    let refused = whole_percents(reading, &REFUSED_ARGUMENT, 99).unwrap_or(0);
    Limits {
        stop,
        seed,
        count,
        refused,
    }
}

/// The steps in a manner.
fn listing_in(reading: &mut Reading) -> Listing
    ensures within { AreWithin result.limits }
{
    let limits = limits_in(reading);
    let names = reading.text(&NAMES_ARGUMENT);
    let manner = manner_in(reading);
    let plan = PlanPaths::of(reading);
    Listing {
        plan,
        manner,
        limits,
        names,
    }
}

/// The steps from lines.
fn writing_in(reading: &mut Reading) -> Writing {
    let lines = reading.needed_text(&LINES_ARGUMENT);
    let names = reading.text(&NAMES_ARGUMENT);
    let plan = PlanPaths::of(reading);
    Writing { plan, lines, names }
}

/// What plain words ask for.
fn request_in(reading: &mut Reading) -> ScheduleRequest
    ensures within { IsScheduleWithin result }
{
    if reading.subcommand() == "write" {
        ScheduleRequest::Writing(writing_in(reading))
    } else {
        ScheduleRequest::Listing(listing_in(reading))
    }
}

impl ScheduleRequest {
    /// What the words ask for, the command's name first.
    pub fn parse(alloc: Global, line: &[String]) -> Result<ScheduleRequest, WordsFault>
        ensures within { IfOk result IsScheduleWithin }
    {
        let mut reading = Reading::of(alloc, schedule_command(), line)?;
        let asked = request_in(&mut reading);
        reading.end(asked)
    }
}

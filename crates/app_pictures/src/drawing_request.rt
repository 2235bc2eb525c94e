//! `image` and `dot`: rounds as pictures, and networks for Graphviz.
ghost use Rattle.std.specs.Prelude.{◌≤◌, IfOk, IfSome};
ghost use Rattle.app_commands.specs.Requests.{AreThreadsWithin, IsWidthWithin};
ghost use Rattle.rounds_plan.specs.Configs.{most_rounds};

use crate::colours::{COLOURS, ColourWord, colours_in};
use app_commands::{
    CONSTANT, EVERY, FIELD, FIELD_ARGUMENT, FILE_OPTION, FLAG, FROM, GridWidth, NAMES,
    NAMES_ARGUMENT, NETWORK, OVERLAP, PROGRAM, PlanPaths, ROUND, ROUNDS, RunTexts, SEED, SET,
    SET_FILE, SET_NAMES, SET_RANDOM, grid_in, span_in, with_lone,
};
use app_table::{Argument, Command, Kind, OPTION, Reading, Value, WordsFault};
use run_watch::Span;
use std::alloc::Global;

const GRID: Argument = Argument {
    name: "grid",
    value_name: "WIDTH",
    help: "Show the nodes of one round as cells, so many across, node 0 first: 1 to 65536; with no WIDTH as many as the links show",
    ..OPTION
};

/// `GRID`, as it is read.
static GRID_ARGUMENT: Argument = GRID;

const LINKS: Argument = Argument {
    name: "links",
    help: "Show the network of one round: its nodes as circles, which stand on a circle from node 0 at the top on, and its links as lines",
    ..FLAG
};

/// `LINKS`, as it is read.
static LINKS_ARGUMENT: Argument = LINKS;

const COUNTS: Argument = Argument {
    name: "counts",
    help: "Draw how many nodes have each value, as curves over the rounds: at most 64 values and 10000 rounds",
    ..FLAG
};

/// `COUNTS`, as it is read.
static COUNTS_ARGUMENT: Argument = COUNTS;

const ANIMATE: Argument = Argument {
    name: "animate",
    help: "With --grid or --links, make a picture that moves: the rounds one after the other, over and over, 10000 at most",
    ..FLAG
};

/// `ANIMATE`, as it is read.
static ANIMATE_ARGUMENT: Argument = ANIMATE;

/// For how many milliseconds a round is shown where nothing else is asked for.
const FRAME_TIME: u32 = 100;

const SHOWN_FOR: Argument = Argument {
    name: "frame-time",
    value: Value::Number {
        least: 1,
        most: 60_000,
    },
    value_name: "MILLISECONDS",
    help: "With --animate, show each round for so long: 1 to 60000, 100 where it is left out",
    ..OPTION
};

/// `SHOWN_FOR`, as it is read.
static SHOWN_FOR_ARGUMENT: Argument = SHOWN_FOR;

const FRAMES: Argument = Argument {
    name: "frames",
    value_name: "FOLDER",
    help: "With --grid or --links, write a picture of each round, 10000 at most, into this folder: round_000000.svg and so on; it is made where it is not there, and no file is written over",
    ..FILE_OPTION
};

/// `FRAMES`, as it is read.
static FRAMES_ARGUMENT: Argument = FRAMES;

const DRAWN_ROUND: Argument = Argument {
    name: "rounds",
    kind: Kind::Required,
    value: ROUND,
    value_name: "T",
    help: "The round that is drawn, counted from round 0: 0 to 1000000000",
    ..OPTION
};

/// `DRAWN_ROUND`, as it is read.
static DRAWN_ROUND_ARGUMENT: Argument = DRAWN_ROUND;

/// `image` and what it takes.
static IMAGE: Command = Command {
    name: "image",
    aliases: &[],
    called: "unison image",
    about: "Make a picture of rounds, nodes across and rounds down, of one round as a grid or a network, or of counts as curves",
    notes: "Prints an SVG picture: nodes across and rounds down, with --grid the nodes of one round as cells, with --links the network of one round, with --animate too that of each round in turn, or with --counts a curve for each state of the field, and each value that occurs, of how many nodes have it. Where more than 64 values occur, the curves are refused; count prints the numbers. With --frames FOLDER the picture of each round goes into a file of its own, all in the same colours, and one line tells which were written.\nAn example: unison image examples/rule_110.rules examples/row.toml --rounds 0..30 > run.svg\nAnother one: unison image examples/life.rules examples/glider.toml --rounds 8..8 --grid 8 > frame.svg\nA third one: unison image examples/distance.rules examples/karate.toml --rounds 0..5 --counts > curves.svg\nOne that moves: unison image examples/life.rules examples/glider.toml --rounds 0..31 --grid 8 --animate --colours 1:teal > glider.svg\nA network that moves: unison image examples/distance.rules examples/karate.toml --rounds 0..5 --links --animate --frame-time 500 > karate.svg\nA file for each round: unison image examples/life.rules examples/glider.toml --rounds 0..31 --grid 8 --frames glider\n",
    arguments: &[
        PROGRAM, NETWORK, ROUNDS, EVERY, FIELD, COUNTS, GRID, LINKS, ANIMATE, SHOWN_FOR, FRAMES,
        COLOURS, FROM, SET, SET_FILE, SET_NAMES, SET_RANDOM, OVERLAP, SEED, CONSTANT,
    ],
    subcommands: &[],
};

/// The table of `image`.
pub fn image_command() -> &'static Command {
    &IMAGE
}

/// `dot` and what it takes.
static DOT: Command = Command {
    name: "dot",
    aliases: &[],
    called: "unison dot",
    about: "Print a network in a round for Graphviz, coloured and labelled",
    notes: "Prints the network for Graphviz, each node with its name or number, its value, and the colour of the value.\nAn example: unison dot examples/distance.rules examples/path.toml --rounds 2 | dot -Tsvg > network.svg\n",
    arguments: &[
        PROGRAM,
        NETWORK,
        DRAWN_ROUND,
        FIELD,
        NAMES,
        COLOURS,
        FROM,
        CONSTANT,
    ],
    subcommands: &[],
};

/// The table of `dot`.
pub fn dot_command() -> &'static Command {
    &DOT
}

/// What `image` is asked for.
#[derive(Drop)]
pub struct ImageRequest {
    pub texts: RunTexts,
    /// The rounds of which the picture is made: one alone where a grid or a network is drawn that does not move, and no files
    /// are written.
    pub span: Span,
    /// The field that gives the colours, where it is named.
    pub field: Option<String>,
    /// Whether curves are drawn, of how many nodes have each value.
    pub counts: bool,
    /// How many nodes stand in a row of the grid, where there is one.
    pub grid: Option<GridWidth>,
    /// Whether the network is drawn, by nodes and links; there is no grid then.
    pub links: bool,
    /// For how many milliseconds each round is shown, where the grid or the network moves.
    pub frame_time: Option<u32>,
    /// The folder into which a picture of each round goes, where each has a file of its own; nothing moves then.
    pub frames: Option<String>,
    /// The values that have colours of their own.
    pub colours: Vec<ColourWord>,
}

/// What `dot` is asked for.
#[derive(Drop)]
pub struct DotRequest {
    pub plan: PlanPaths,
    /// The round that is drawn, counted from round 0.
    pub round: u32,
    /// The field that gives the colours, where it is named.
    pub field: Option<String>,
    /// The path of the names of the nodes, where they are shown.
    pub names: Option<String>,
    /// The values that have colours of their own.
    pub colours: Vec<ColourWord>,
}

/// How the picture shows rounds, of what words say of it.
#[derive(Clone, Copy)]
struct Manner {
    counts: bool,
    /// Whether there is a grid.
    grid: bool,
    links: bool,
    /// Whether each round has a file of its own.
    in_files: bool,
}

impl Manner {
    /// Whether the nodes of single rounds are drawn.
    fn shows_single_rounds(self) -> bool {
        self.grid || self.links
    }
}

/// Refuses two kinds of pictures at once.
fn check_kind(reading: &mut Reading, manner: Manner) {
    if manner.counts && manner.grid {
        reading.refuse_words(
            "--counts draws curves over rounds, and --grid the cells of one round: one of them is wanted",
        );
    }
    if manner.counts && manner.links {
        reading.refuse_words(
            "--counts draws curves over rounds, and --links the network of one round: one of them is wanted",
        );
    }
    if manner.grid && manner.links {
        reading.refuse_words(
            "--grid draws nodes as cells, and --links as circles with their links: one of them is wanted",
        );
    }
}

/// Refuses files of rounds that are not drawn one by one.
fn check_files(reading: &mut Reading, manner: Manner, frame_time: Option<u32>) {
    if manner.in_files && !manner.shows_single_rounds() {
        reading.refuse_words(
            "--frames: single rounds are drawn into files, so --grid WIDTH or --links is wanted",
        );
    }
    if manner.in_files && frame_time.is_some() {
        reading.refuse_words(
            "--frames draws each round into a file of its own, and --animate all into one: one of them is wanted",
        );
    }
}

/// Refuses a picture of one round where there are more, and it neither moves nor goes into several files.
fn check_round(reading: &mut Reading, span: &Span, manner: Manner, frame_time: Option<u32>) {
    if manner.in_files || frame_time.is_some() || span.first() == span.last() {
        return;
    }
    if manner.shows_single_rounds() {
        reading.refuse_words(
            "--grid and --links show one round, so the first and the last round are the same, as in --rounds 8..8; with --animate all rounds are shown in turn, and with --frames FOLDER each in a file of its own",
        );
    }
}

/// For how many milliseconds each round of a picture that moves is shown; a grid or a network is wanted.
fn moving_in(reading: &mut Reading, time: u32, manner: Manner) -> Option<u32> {
    if !manner.shows_single_rounds() {
        reading.refuse_words(
            "--animate: the nodes of single rounds are shown in turn, so --grid WIDTH or --links is wanted",
        );
    }
    if time == 0 {
        return Some(FRAME_TIME);
    }
    Some(time)
}

/// For how many milliseconds each round is shown, where the picture moves.
fn frame_time_in(reading: &mut Reading, manner: Manner) -> Option<u32> {
    let time = reading.number_or(&SHOWN_FOR_ARGUMENT, 0);
    if reading.has(&ANIMATE_ARGUMENT) {
        return moving_in(reading, time, manner);
    }
    if time > 0 {
        reading.refuse_words("--frame-time: a picture that moves is wanted, by --animate");
    }
    None
}

/// Refuses what does not go together.
fn check_manner(reading: &mut Reading, span: &Span, manner: Manner, frame_time: Option<u32>) {
    check_kind(reading, manner);
    check_files(reading, manner, frame_time);
    check_round(reading, span, manner, frame_time);
}

/// What plain words ask for, where they name rounds.
fn image_in(reading: &mut Reading) -> Option<ImageRequest>
    ensures within { IfSome result (λ r. IfSome r.grid IsWidthWithin) }
    ensures threads { IfSome result (λ r. AreThreadsWithin r.texts) }
{
    let grid = grid_in(reading, &GRID_ARGUMENT);
    let counts = reading.has(&COUNTS_ARGUMENT);
    let links = reading.has(&LINKS_ARGUMENT);
    let frames = reading.text(&FRAMES_ARGUMENT);
    let manner = Manner {
        counts,
        grid: grid.is_some(),
        links,
        in_files: frames.is_some(),
    };
    let span = span_in(reading)?;
    let frame_time = frame_time_in(reading, manner);
    check_manner(reading, &span, manner, frame_time);
    let colours = colours_in(reading);
    let field = reading.text(&FIELD_ARGUMENT);
    let texts = RunTexts::of(reading);
    Some(ImageRequest {
        texts,
        span,
        field,
        counts,
        grid,
        links,
        frame_time,
        frames,
        colours,
    })
}

/// What plain words ask for.
fn dot_in(reading: &mut Reading) -> DotRequest
    ensures within { result.round ≤ most_rounds }
{
    let round = reading.number_or(&DRAWN_ROUND_ARGUMENT, 0);
    let field = reading.text(&FIELD_ARGUMENT);
    let names = reading.text(&NAMES_ARGUMENT);
    let colours = colours_in(reading);
    let plan = PlanPaths::of(reading);
    DotRequest {
        plan,
        round,
        field,
        names,
        colours,
    }
}

impl ImageRequest {
    /// What the words ask for, the command's name first.
    pub fn parse(alloc: Global, line: &[String]) -> Result<ImageRequest, WordsFault>
        ensures within { IfOk result (λ r. IfSome r.grid IsWidthWithin) }
        ensures threads { IfOk result (λ r. AreThreadsWithin r.texts) }
    {
        let words = with_lone(alloc, line, "--grid")?;
        let mut reading = Reading::of(alloc, image_command(), &words)?;
        let asked = image_in(&mut reading);
        reading.end_some(asked)
    }
}

impl DotRequest {
    /// What the words ask for, the command's name first.
    pub fn parse(alloc: Global, line: &[String]) -> Result<DotRequest, WordsFault>
        ensures within { IfOk result (λ r. r.round ≤ most_rounds) }
    {
        let mut reading = Reading::of(alloc, dot_command(), line)?;
        let asked = dot_in(&mut reading);
        reading.end(asked)
    }
}

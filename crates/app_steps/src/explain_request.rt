//! `explain`: what each step of a schedule does.
ghost use Rattle.std.specs.Prelude.{◌≤◌, IfOk};
ghost use Rattle.rounds_plan.specs.Configs.{most_rounds};

use crate::schedule_request::{STOP, STOP_ARGUMENT};
use app_commands::{
    CONSTANT, FILE, FLAG, FROM, NAMES, NAMES_ARGUMENT, NETWORK, PROGRAM, PlanPaths, RunTexts,
};
use app_table::{Argument, Command, Reading, WordsFault};
use rounds_plan::MOST_ROUNDS;
use std::alloc::Global;

pub(crate) const SCHEDULE: Argument = Argument {
    name: "schedule",
    value_name: "SCHEDULE",
    help: "The file of the steps: lines `read NODE SLOT` and `write NODE`, or - for standard input",
    ..FILE
};

/// `SCHEDULE`, as it is read.
pub(crate) static SCHEDULE_ARGUMENT: Argument = SCHEDULE;

const SLOTS: Argument = Argument {
    name: "slots",
    help: "Show each step as the schedule has it, by node and slot, and its answer by counts, without values",
    ..FLAG
};

/// `SLOTS`, as it is read.
static SLOTS_ARGUMENT: Argument = SLOTS;

const COUNTS: Argument = Argument {
    name: "counts",
    help: "Show all counts after each step",
    ..FLAG
};

/// `COUNTS`, as it is read.
static COUNTS_ARGUMENT: Argument = COUNTS;

/// `explain` and what it takes.
static EXPLAIN: Command = Command {
    name: "explain",
    aliases: &["tell"],
    called: "unison explain",
    about: "Tell what each step of a schedule does, and why it is refused",
    notes: "Prints for each step of the schedule a sentence with the values that are read or written, and at the end how many steps had each answer.\nAn example: unison schedule sweeps examples/distance.rules examples/path.toml --stop 2 | unison explain examples/distance.rules examples/path.toml - --counts\n",
    arguments: &[
        PROGRAM, NETWORK, SCHEDULE, STOP, NAMES, COUNTS, SLOTS, FROM, CONSTANT,
    ],
    subcommands: &[],
};

/// The table of `explain`.
pub fn explain_command() -> &'static Command {
    &EXPLAIN
}

/// What `explain` is asked for.
#[derive(Drop)]
pub struct ExplainRequest {
    pub texts: RunTexts,
    /// The path of the schedule.
    pub schedule: String,
    /// The round at which a node stops, counted from round 0.
    pub stop: u32,
    /// The path of the names of the nodes, where they are called by names.
    pub names: Option<String>,
    /// Whether steps are shown by node and slot, without values.
    pub slots: bool,
    /// Whether all counts are shown after each step.
    pub counts: bool,
}

/// What plain words ask for.
fn request_in(reading: &mut Reading) -> ExplainRequest
    ensures within { result.stop ≤ most_rounds }
{
    let stop = reading.number_or(&STOP_ARGUMENT, MOST_ROUNDS);
    let schedule = reading.needed_text(&SCHEDULE_ARGUMENT);
    let names = reading.text(&NAMES_ARGUMENT);
    let plan = PlanPaths::of(reading);
    ExplainRequest {
        texts: RunTexts::of_plan(reading.alloc(), plan),
        schedule,
        stop,
        names,
        slots: reading.has(&SLOTS_ARGUMENT),
        counts: reading.has(&COUNTS_ARGUMENT),
    }
}

impl ExplainRequest {
    /// What the words ask for, the command's name first.
    pub fn parse(alloc: Global, line: &[String]) -> Result<ExplainRequest, WordsFault>
        ensures within { IfOk result (λ r. r.stop ≤ most_rounds) }
    {
        let mut reading = Reading::of(alloc, explain_command(), line)?;
        let asked = request_in(&mut reading);
        reading.end(asked)
    }
}

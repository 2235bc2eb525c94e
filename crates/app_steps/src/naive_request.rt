//! `naive`: what the steps of a schedule come to where no node waits.
ghost use Rattle.std.specs.Prelude.{◌≤◌, IfOk};
ghost use Rattle.rounds_plan.specs.Configs.{most_rounds};

use crate::explain_request::{SCHEDULE, SCHEDULE_ARGUMENT};
use app_commands::{CONSTANT, FROM, NETWORK, PROGRAM, PlanPaths, ROUND};
use app_table::{Argument, Command, Kind, OPTION, Reading, WordsFault};
use std::alloc::Global;

const STOP: Argument = Argument {
    name: "stop",
    kind: Kind::Required,
    value: ROUND,
    value_name: "T",
    help: "The round at which a node stops, counted from round 0: 0 to 1000000000",
    ..OPTION
};

/// `STOP`, as it is read.
static STOP_ARGUMENT: Argument = STOP;

/// `naive` and what it takes.
static NAIVE: Command = Command {
    name: "naive",
    aliases: &[],
    called: "unison naive",
    about: "Make the steps of a schedule by nodes that do not wait, and tell where they go wrong",
    notes: "Prints what replay prints, but by nodes that read whatever a neighbour has now and move whenever they are named; where a state is not that of the rounds, that one beside it, and at the end the first step that went wrong.\nAn example: unison schedule sweeps examples/swap.rules examples/pair.toml --stop 2 | unison naive examples/swap.rules examples/pair.toml - --stop 2\n",
    arguments: &[PROGRAM, NETWORK, SCHEDULE, STOP, FROM, CONSTANT],
    subcommands: &[],
};

/// The table of `naive`.
pub fn naive_command() -> &'static Command {
    &NAIVE
}

/// What `naive` is asked for.
#[derive(Drop)]
pub struct NaiveRequest {
    pub plan: PlanPaths,
    /// The path of the schedule.
    pub schedule: String,
    /// The round at which a node stops, counted from round 0.
    pub stop: u32,
}

/// What plain words ask for.
fn request_in(reading: &mut Reading) -> NaiveRequest
    ensures within { result.stop ≤ most_rounds }
{
    let stop = reading.number_or(&STOP_ARGUMENT, 0);
    let schedule = reading.needed_text(&SCHEDULE_ARGUMENT);
    let plan = PlanPaths::of(reading);
    NaiveRequest {
        plan,
        schedule,
        stop,
    }
}

impl NaiveRequest {
    /// What the words ask for, the command's name first.
    pub fn parse(alloc: Global, line: &[String]) -> Result<NaiveRequest, WordsFault>
        ensures within { IfOk result (λ r. r.stop ≤ most_rounds) }
    {
        let mut reading = Reading::of(alloc, naive_command(), line)?;
        let asked = request_in(&mut reading);
        reading.end(asked)
    }
}

//! The command line: which job the words ask for.
ghost use Rattle.std.specs.Prelude.{◌≡◌, ◌≤◌, IfOk};
ghost use Rattle.rounds_plan.specs.Configs.{most_rounds};
ghost use Rattle.app_words.specs.Requests.{IsWithinLimits, IsInvalidArgument};

use crate::request::{Request, UsageFault};
use app_jobs::Job;
use app_table::{Argument, Command, Kind, OPTION, Reading, Subcommand, Value, Words, number};
use rounds_plan::MOST_ROUNDS;
use std::alloc::{AllocError, Global};
use unison_pool::MOST_WORKERS;

/// What a positional argument for a file is made from.
const FILE: Argument = Argument {
    kind: Kind::Positional,
    value: Value::File,
    ..OPTION
};

/// What an option that has to be there is made from.
const REQUIRED: Argument = Argument {
    kind: Kind::Required,
    ..OPTION
};

/// The program's path.
const PROGRAM: Argument = Argument {
    name: "program",
    value_name: "PROGRAM",
    help: "The file of the program text",
    ..FILE
};

/// `PROGRAM`, as it is read.
static PROGRAM_ARGUMENT: Argument = PROGRAM;

/// The network's path.
const NETWORK: Argument = Argument {
    name: "network",
    value_name: "NETWORK",
    help: "The file of the network, a TOML document",
    ..FILE
};

/// `NETWORK`, as it is read.
static NETWORK_ARGUMENT: Argument = NETWORK;

/// The schedule's path.
const SCHEDULE: Argument = Argument {
    name: "schedule",
    value_name: "SCHEDULE",
    help: "The file of the steps: lines `read NODE SLOT` and `write NODE`",
    ..FILE
};

/// `SCHEDULE`, as it is read.
static SCHEDULE_ARGUMENT: Argument = SCHEDULE;

/// `--rounds T`, which has to be there.
const ROUNDS: Argument = Argument {
    name: "rounds",
    value_name: "T",
    help: "The round to report, counted from round 0: 0 to 1000000000",
    ..REQUIRED
};

/// `ROUNDS`, as it is read.
static ROUNDS_ARGUMENT: Argument = ROUNDS;

/// `--rounds T` of a comparison.
const COMPARED: Argument = Argument {
    help: "The round at which both are compared, counted from round 0: 0 to 1000000000",
    ..ROUNDS
};

/// `--stop T`, which has to be there.
const STOP: Argument = Argument {
    name: "stop",
    value_name: "T",
    help: "The round at which a node stops, counted from round 0: 0 to 1000000000",
    ..REQUIRED
};

/// `STOP`, as it is read.
static STOP_ARGUMENT: Argument = STOP;

/// `--workers W`, which has to be there.
const WORKERS: Argument = Argument {
    name: "workers",
    value_name: "W",
    help: "How many threads drive the nodes: 1 to 64",
    ..REQUIRED
};

/// `WORKERS`, as it is read.
static WORKERS_ARGUMENT: Argument = WORKERS;

/// `--trace FILE`.
const TRACE: Argument = Argument {
    name: "trace",
    value_name: "FILE",
    help: "Where to write the steps that were made, as a schedule of at most 1000000",
    ..OPTION
};

/// `TRACE`, as it is read.
static TRACE_ARGUMENT: Argument = TRACE;

/// `--from FILE`.
const FROM: Argument = Argument {
    name: "from",
    value_name: "FILE",
    help: "A report to go on from: its states and its round are the start",
    ..OPTION
};

/// `FROM`, as it is read.
static FROM_ARGUMENT: Argument = FROM;

/// The five commands: those that make no single steps first.
static FIVE: [Subcommand; 5] = [
    Subcommand {
        name: "check",
        about: "Check a program and print its canonical spelling",
        notes: "",
        arguments: &[PROGRAM],
    },
    Subcommand {
        name: "lockstep",
        about: "Run a program in lockstep on a network and print the report of a round",
        notes: "",
        arguments: &[PROGRAM, NETWORK, ROUNDS, FROM],
    },
    Subcommand {
        name: "run",
        about: "Run a program by threads, node by node, and print the report of a round",
        notes: "",
        arguments: &[PROGRAM, NETWORK, ROUNDS, WORKERS, TRACE, FROM],
    },
    Subcommand {
        name: "replay",
        about: "Make the steps of a schedule and print each node's moves and state",
        notes: "",
        arguments: &[PROGRAM, NETWORK, SCHEDULE, STOP, FROM],
    },
    Subcommand {
        name: "compare",
        about: "Compare a run by threads with the lockstep rounds and print `same`, or the first difference",
        notes: "",
        arguments: &[PROGRAM, NETWORK, COMPARED, WORKERS, FROM],
    },
];

/// The five commands.
pub fn five_commands() -> &'static [Subcommand] {
    &FIVE
}

/// The five commands as subcommands of a command that is called by this name, as in `unison`, with this line about it and
/// these notes after its help.
pub fn command_as(called: &'static str, about: &'static str, notes: &'static str) -> Command {
    Command {
        name: "unison",
        aliases: &[],
        called,
        about,
        notes,
        arguments: &[],
        subcommands: &FIVE,
    }
}

/// The whole command with its subcommands.
pub fn command() -> Command {
    command_as(
        "unison",
        "A runner for synchronous programs on networks whose nodes move at their own pace",
        "",
    )
}

/// Invalid arguments, told by the name of the option or the argument.
pub fn invalid_argument(alloc: Global, name: &str) -> UsageFault
    ensures named { IsInvalidArgument name.now result }
{
    match String::from_str(alloc, name) {
        Ok(text) => UsageFault::Usage { text },
        Err(_) => UsageFault::Memory,
    }
}

/// The number, between bounds, that an option or an argument has. `Usage` with its name as the text where it has none.
pub fn number_in(
    alloc: Global,
    words: &Words,
    argument: &Argument,
    least: u32,
    most: u32,
) -> Result<u32, UsageFault>
    ensures within { IfOk result (λ n. (least ≤ n) × (n ≤ most)) }
{
    let text = words.first(argument).unwrap_or("");
    match number(text, least, most) {
        Some(number) => Ok(number),
        None => Err(invalid_argument(alloc, argument.name)),
    }
}

/// The round that `--rounds` names.
fn rounds_in(alloc: Global, words: &Words) -> Result<u32, UsageFault>
    ensures within { IfOk result (λ n. n ≤ most_rounds) }
{
    number_in(alloc, words, &ROUNDS_ARGUMENT, 0, MOST_ROUNDS)
}

/// The number of threads that `--workers` names.
fn workers_in(alloc: Global, words: &Words) -> Result<u32, UsageFault>
    ensures within { IfOk result (λ n. (1 ≤ n) × (n ≤ 64)) }
{
    number_in(alloc, words, &WORKERS_ARGUMENT, 1, MOST_WORKERS)
}

/// The job of `run`.
fn run_in(alloc: Global, words: &Words) -> Result<Job, UsageFault>
    ensures within { IfOk result IsWithinLimits }
{
    let rounds = rounds_in(alloc, words)?;
    let workers = workers_in(alloc, words)?;
    let traced = words.has(&TRACE_ARGUMENT);
    Ok(Job::Run {
        rounds,
        workers,
        traced,
    })
}

/// The job of `replay`.
fn replay_in(alloc: Global, words: &Words) -> Result<Job, UsageFault>
    ensures within { IfOk result IsWithinLimits }
{
    let stop = number_in(alloc, words, &STOP_ARGUMENT, 0, MOST_ROUNDS)?;
    Ok(Job::Replay { stop })
}

/// The job of `compare`.
fn compare_in(alloc: Global, words: &Words) -> Result<Job, UsageFault>
    ensures within { IfOk result IsWithinLimits }
{
    let rounds = rounds_in(alloc, words)?;
    let workers = workers_in(alloc, words)?;
    Ok(Job::Compare { rounds, workers })
}

/// The job of `lockstep`.
fn lockstep_in(alloc: Global, words: &Words) -> Result<Job, UsageFault>
    ensures within { IfOk result IsWithinLimits }
{
    let rounds = rounds_in(alloc, words)?;
    Ok(Job::Lockstep { rounds })
}

/// The job that the subcommand's name and options ask for.
fn job_in(alloc: Global, words: &Words) -> Result<Job, UsageFault>
    ensures within { IfOk result IsWithinLimits }
{
    match words.subcommand() {
        "lockstep" => lockstep_in(alloc, words),
        "run" => run_in(alloc, words),
        "replay" => replay_in(alloc, words),
        "compare" => compare_in(alloc, words),
        "check" => Ok(Job::Check),
        _ => Err(invalid_argument(alloc, "command")),
    }
}

/// The path that an argument has; where it has none, invalid arguments are noted.
fn path_in(reading: &mut Reading, argument: &Argument) -> String {
    if !reading.has(argument) {
        reading.refuse_words(argument.name);
    }
    reading.needed_text(argument)
}

/// The request of a job.
fn request_in(reading: &mut Reading, job: Job) -> Request
    ensures job { result.job ≡ job }
{
    let program = path_in(reading, &PROGRAM_ARGUMENT);
    let network = reading.text(&NETWORK_ARGUMENT);
    let from = reading.text(&FROM_ARGUMENT);
    let schedule = reading.text(&SCHEDULE_ARGUMENT);
    let trace = reading.text(&TRACE_ARGUMENT);
    Request {
        job,
        program,
        network,
        from,
        schedule,
        trace,
    }
}

/// The request that the words make by a command of `command_as`, the name by which it is called first. The numbers of
/// its job are within their limits; a number outside them is `Usage` with the option's name as its text.
pub fn job_by(alloc: Global, command: &Command, words: &[String]) -> Result<Request, UsageFault>
    ensures within { IfOk result (λ r. IsWithinLimits r.job) }
{
    let mut reading = Reading::of(alloc, command, words)?;
    let job = job_in(alloc, reading.words())?;
    let request = request_in(&mut reading, job);
    let request = reading.end(request)?;
    Ok(request)
}

/// The request that the words make, the program's name first. The numbers of its job are within their limits;
/// a number outside them is `Usage` with the option's name as its text.
pub fn job_of(alloc: Global, words: &[String]) -> Result<Request, UsageFault>
    ensures within { IfOk result (λ r. IsWithinLimits r.job) }
{
    job_by(alloc, &command(), words)
}

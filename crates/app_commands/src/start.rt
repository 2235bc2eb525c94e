//! What rounds begin with, and how many threads make them: the words that all commands share which make rounds.
ghost use Rattle.std.specs.Prelude.{◌≡◌, ◌==◌, ◌&&◌, ◌≤◌, [], IfSome, None, length};
ghost use Rattle.app_commands.specs.Requests.{AreThreadsWithin};

use crate::arguments::{FILE_OPTION, FLAG, FROM_ARGUMENT, PlanPaths};
use crate::set_words::{
    RandomWord, SEED, SET_ARGUMENT, SET_RANDOM_ARGUMENT, SetWord, overlap_in, random_in, sets_in,
};
use app_table::{Argument, Kind, OPTION, Reading, Value, WordsFault};
use std::alloc::Global;

/// `SEED`, as it is read.
static SEED_ARGUMENT: Argument = SEED;

pub const SET_FILE: Argument = Argument {
    name: "set-file",
    kind: Kind::Repeated,
    value_name: "FIELD=FILE",
    help: "Give a field of each node the value at its place in an array of NumPy (.npy) with one axis, or - for standard input; as often as wanted",
    ..FILE_OPTION
};

/// `SET_FILE`, as it is read.
static SET_FILE_ARGUMENT: Argument = SET_FILE;

pub const SET_NAMES: Argument = Argument {
    name: "set-names",
    help: "Let --set call nodes by the names in FILE, a line each, node 0 first",
    needs: Some("set"),
    ..FILE_OPTION
};

/// `SET_NAMES`, as it is read.
static SET_NAMES_ARGUMENT: Argument = SET_NAMES;

pub const THREADS: Argument = Argument {
    name: "threads",
    value: Value::Number {
        least: 1,
        most: 1024,
    },
    value_name: "N",
    help: "Share rounds with much to compute among N threads: 1 to 1024, and as many as there are processors where it is left out",
    ..OPTION
};

/// `THREADS`, as it is read.
static THREADS_ARGUMENT: Argument = THREADS;

pub const SEQUENTIAL: Argument = Argument {
    name: "sequential",
    help: "Make all rounds by one thread, as --threads 1 does",
    ..FLAG
};

/// `SEQUENTIAL`, as it is read.
static SEQUENTIAL_ARGUMENT: Argument = SEQUENTIAL;

/// A word of `--set-file FIELD=FILE`.
#[derive(Drop)]
pub struct FileWord {
    pub field: String,
    /// The path of the array.
    pub path: String,
}

/// The initial values that the words ask for, beside those of the program: nodes drawn by a seed; those of arrays, which count
/// over them; and those of `--set`, which count over both.
#[derive(Drop)]
pub struct StartWords {
    pub random: Vec<RandomWord>,
    /// Whether each word of `random` draws among all nodes, and not among those that the others leave.
    pub overlap: bool,
    pub files: Vec<FileWord>,
    pub sets: Vec<SetWord>,
    /// The path of the names by which `sets` call nodes, where they do.
    pub names: Option<String>,
    /// By what nodes are drawn, where it is said.
    pub seed: Option<u32>,
}

impl StartWords {
    /// No initial values.
    fn none(alloc: Global) -> StartWords
        ensures random { result.random.items ≡ [] }
        ensures files { result.files.items ≡ [] }
        ensures sets { result.sets.items ≡ [] }
    {
        StartWords {
            random: Vec::new(alloc),
            overlap: false,
            files: Vec::new(alloc),
            sets: Vec::new(alloc),
            names: None,
            seed: None,
        }
    }

    /// Whether no initial values are asked for.
    pub fn is_empty(&self) -> bool
        ensures exact { result ≡ ((length self.now.random.items == 0 && length self.now.files.items == 0) && length self.now.sets.items == 0) }
    {
        self.random.is_empty() && self.files.is_empty() && self.sets.is_empty()
    }
}

/// What rounds begin with, and how many threads make them.
#[derive(Drop)]
pub struct RunTexts {
    /// The program, its constants, the network and the report to go on from; where there is one, the words ask for no initial
    /// values.
    pub plan: PlanPaths,
    pub start: StartWords,
    /// Among how many threads rounds are shared, 1 to 1,024; where nothing is said, as many as there are processors.
    pub threads: Option<u32>,
}

/// Notes that a word of `--set-file` has not its parts.
fn refuse_file(reading: &mut Reading, word: &str) {
    reading.refuse_as(format!(in reading.alloc();
        "--set-file: expected FIELD=FILE, found `{word}`"
    ));
}

/// The word of `--set-file`, where it has its parts.
fn file_word(reading: &mut Reading, word: &str) -> Option<FileWord> {
    let (field, path) = word.split_once('=')?;
    let field = reading.copied(field);
    let path = reading.copied(path);
    Some(FileWord { field, path })
}

/// Puts a word after the others.
fn put_file(files: &mut Vec<FileWord>, reading: &mut Reading, word: &str) {
    match file_word(reading, word) {
        Some(file) => {
            if files.push(file).is_err() {
                reading.refuse(WordsFault::Memory);
            }
        }
        None => refuse_file(reading, word),
    }
}

/// The words of `--set-file`, in their order.
fn files_in(reading: &mut Reading) -> Vec<FileWord> {
    let words = reading.texts(&SET_FILE_ARGUMENT);
    let mut files = Vec::new(reading.alloc());
    for word in &words {
        put_file(&mut files, reading, word.as_str());
    }
    files
}

/// By what nodes are drawn, where it is said.
fn seed_in(reading: &mut Reading) -> Option<u32> {
    let seed = reading.number_or(&SEED_ARGUMENT, 0);
    if reading.has(&SEED_ARGUMENT) {
        Some(seed)
    } else {
        None
    }
}

/// The initial values that the words ask for.
fn start_in(reading: &mut Reading) -> StartWords {
    let random = random_in(reading);
    let overlap = overlap_in(reading);
    let files = files_in(reading);
    let sets = sets_in(reading);
    let names = reading.text(&SET_NAMES_ARGUMENT);
    let seed = seed_in(reading);
    StartWords {
        random,
        overlap,
        files,
        sets,
        names,
        seed,
    }
}

/// Refuses initial values beside a report, which has those of all nodes.
fn check_start(reading: &mut Reading) {
    let is_set = reading.has(&SET_ARGUMENT)
        || reading.has(&SET_FILE_ARGUMENT)
        || reading.has(&SET_RANDOM_ARGUMENT);
    if is_set && reading.has(&FROM_ARGUMENT) {
        reading.refuse_words(
            "--from: the report says the states of all nodes; leave out --set, --set-file and --set-random, or --from",
        );
    }
}

/// Among how many threads rounds are shared, where it is said. Invalid arguments are noted where two numbers are.
fn threads_in(reading: &mut Reading) -> Option<u32>
    ensures within { IfSome result (λ threads. (1 ≤ threads) × (threads ≤ 1024)) }
{
    let is_sequential = reading.has(&SEQUENTIAL_ARGUMENT);
    let threads = reading.number_or(&THREADS_ARGUMENT, 1);
    if is_sequential && threads != 1 {
        reading.refuse_words(
            "--sequential: all rounds are made by one thread; leave it out, or --threads",
        );
    }
    if is_sequential || reading.has(&THREADS_ARGUMENT) {
        Some(threads)
    } else {
        None
    }
}

impl RunTexts {
    /// A plan for which no initial values are asked beside those that it has.
    pub fn of_plan(alloc: Global, plan: PlanPaths) -> RunTexts
        ensures plan { result.plan ≡ plan }
        ensures random { result.start.random.items ≡ [] }
        ensures files { result.start.files.items ≡ [] }
        ensures sets { result.start.sets.items ≡ [] }
        ensures threads { result.threads ≡ None }
    {
        RunTexts {
            plan,
            start: StartWords::none(alloc),
            threads: None,
        }
    }

    /// What the words of a command say that has `PROGRAM`, `CONSTANT`, `NETWORK`, `FROM` and the words of rounds.
    pub fn of(reading: &mut Reading) -> RunTexts
        ensures threads { AreThreadsWithin result }
    {
        let plan = PlanPaths::of(reading);
        RunTexts::with(reading, plan)
    }

    /// What the words say, where the paths are read.
    pub fn with(reading: &mut Reading, plan: PlanPaths) -> RunTexts
        ensures threads { AreThreadsWithin result }
    {
        check_start(reading);
        let start = start_in(reading);
        let threads = threads_in(reading);
        RunTexts {
            plan,
            start,
            threads,
        }
    }
}

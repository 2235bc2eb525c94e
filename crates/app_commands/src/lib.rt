//! What commands share: arguments, programs on networks, initial values, names of nodes, notes and progress.
#![tactic(auto)]

mod arguments;
mod arrays;
mod binary;
mod constants;
mod decimals;
mod endings;
mod initial;
mod labels;
mod names;
mod notes;
mod packed;
mod packed_info;
mod percents;
mod plan_texts;
mod progress;
mod run_plan;
mod set_words;
mod start;
mod steps;

pub use arguments::{
    AS_PACKED, AS_PACKED_ARGUMENT, EVERY, EVERY_ARGUMENT, FIELD, FIELD_ARGUMENT, FILE, FILE_OPTION,
    FLAG, FROM, GridWidth, NAMES, NAMES_ARGUMENT, NETWORK, NETWORK_ARGUMENT, NUMBER, ONLY, PROGRAM,
    PlanPaths, QUIET, QUIET_ARGUMENT, ROUND, ROUNDS, WIDTH, grid_in, only_in, span_in, with_lone,
};
pub use arrays::array_of;
pub use binary::check_output;
pub use constants::{
    CONSTANT, constant_value, constants_among, constants_in, constants_of, given_twice, is_given,
    put_word, several_parts,
};
pub use decimals::{Portion, chance_of, decimal_of, percent_of};
pub use endings::{asked_by, no_rounds, told_text};
pub use labels::{labels_at, names_for};
pub use names::{names_at, names_from};
pub use notes::put_note;
pub use packed::packed_in;
pub use packed_info::{large_lines, show_info};
pub use percents::{no_share, whole_percents};
pub use plan_texts::{
    NamedPlan, named_plan_at, noted_plan_at, plan_at, read_plan_once, shared_plan,
};
pub use progress::{Stopwatch, Telling, seconds_for};
pub use run_plan::{
    Ground, ProgramText, RunNetwork, RunSource, file_run_at, given_seed, ground_on,
    packed_source_at, program_in, read_run_once, run_network, source_at, threads_for,
};
pub use set_words::{
    OVERLAP, REPEATED, RandomWord, SEED, SET, SET_RANDOM, SET_RANDOM_ARGUMENT, SetWord, amounts_of,
    overlap_in, random_in, sets_in, value_word,
};
pub use start::{FileWord, RunTexts, SEQUENTIAL, SET_FILE, SET_NAMES, StartWords, THREADS};
pub use steps::{no_world, steps_at};

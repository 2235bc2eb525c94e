//! The calls for C, as they work on slices: from texts, and from the lists of networks of any size, to answers in the
//! caller's memory, with no state and no threads.
#![tactic(auto)]

mod fault;
mod large;
mod models;
mod plans;
mod reasons;
mod replays;
mod rounds;
mod settling;
mod spelling;
mod words;

pub use fault::Fault;
pub use large::{
    CountedRounds, LargeCallFault, Lists, ListsFault, ListsStart, Part, check_lists,
    write_large_counts, write_large_rounds, write_large_watch, write_part_round,
};
pub use models::{ConstantsFault, ModelCallFault, one_setting, write_expansion};
pub use plans::PlanTexts;
pub use reasons::{Reason, reason_for, write_reason};
pub use replays::{ReplaySizes, ReplayTexts, write_replay};
pub use rounds::{write_round, write_rounds};
pub use settling::write_settling;
pub use spelling::write_spelling;
pub use words::add_words;

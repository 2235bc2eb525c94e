//! Lists of steps that are told: what each does, in words, and a summary at the end.

mod answered;
mod differences;
mod laws;
mod looks;
mod registers;
mod sentences;
mod show;
mod summary;
mod telling;
mod words;

pub use laws::{
    differ_by_one_at_most, each_is_counted, far_stops_tell_the_same, reads_own_round,
    spelled_as_in_schedules,
};
pub use show::Show;
pub use telling::told;

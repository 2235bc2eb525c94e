//! The calls for C on networks of any size, as they work on slices: from a program's text and the lists of a network to
//! words in the caller's memory, with no state and no threads.

mod counts;
mod fault;
mod lists;
mod parts;
mod rounds;
mod rows;
mod start;
mod states;
mod tally;
mod telling;
mod told;
mod watch;

pub use counts::{CountedRounds, write_large_counts};
pub use fault::{LargeCallFault, ListsFault};
pub use lists::{Lists, check_lists};
pub use parts::{Part, write_part_round};
pub use rounds::write_large_rounds;
pub use start::ListsStart;
pub use watch::write_large_watch;

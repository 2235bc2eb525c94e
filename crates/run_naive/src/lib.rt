//! Lists of steps by nodes that do not wait: what they come to, beside the states of the lockstep rounds.
#![tactic(auto)]

mod comparing;
mod difference;
mod laws;
mod node;
mod opening;
mod rounds;
mod stepping;
mod telling;
mod writing;

pub use laws::{phases_keep_the_rounds, right_copies_keep_the_round};
pub use telling::told;
pub use writing::{Writes, naive_writes};

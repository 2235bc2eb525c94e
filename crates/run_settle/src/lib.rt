//! Where the lockstep rounds of a plan settle, or repeat.
#![tactic(auto)]

mod course;
mod fault;
mod outcome;
mod search;
mod settling;
mod tail;

pub use fault::SettleFault;
pub use outcome::{settle, settle_shared};
pub use settling::Settling;

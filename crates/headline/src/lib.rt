//! What Unison promises, in one place: what is seen of nodes after any single steps, and what a run by threads writes.
#![tactic(auto)]

mod steps;
mod threads;

pub use steps::{Seen, Shown, after_steps};
pub use threads::run_report;

//! Lists of single steps that each change something, made in a manner that is asked for: sweeps, at random, without one
//! node, one node ahead, by a daemon.
#![tactic(auto)]

mod ahead;
mod choosing;
mod daemon;
mod driving;
mod enabled;
mod fault;
mod links;
mod listing;
mod manner;
mod open_steps;
mod queue;
mod refused;
mod rest;
mod sweeps;
mod together;
mod walk;

pub use daemon::Daemon;
pub use fault::ListFault;
pub use listing::listed;
pub use manner::Manner;
pub use refused::with_refused;

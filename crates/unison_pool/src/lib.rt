//! Workers over one lock, which bring every node of a plan to a stop.
#![tactic(auto)]

mod fault;
mod gate;
mod pool;
mod shared;
mod team;
mod worker;

pub use fault::RunFault;
pub use gate::{Gate, OpenGate};
pub use pool::{MOST_WORKERS, opening_refusal, run};

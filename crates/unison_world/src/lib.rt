//! Nodes that read their neighbours' registers one at a time, and stay in step with the lockstep rounds.
#![tactic(auto)]

mod events;
mod fault;
mod finishing;
mod laws;
mod looks;
mod node;
mod opening;
mod results;
mod step;
mod turns;
mod work;
mod world;
mod world_ref;

pub use fault::{FinishFault, OpenFault};
pub use laws::{counts_changes, stays_in_step, steps_from_start, sweeps_rise};
pub use looks::{moves, state_of};
pub use step::{Answer, Step, TurnAnswer, WriteAnswer};
pub use work::{Done, Work};
pub use world::World;
pub use world_ref::WorldRef;

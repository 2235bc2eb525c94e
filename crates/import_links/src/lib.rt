//! The nodes and links that edges of a text make, and links made into those of a network.
#![tactic(auto)]

mod ends;
mod join_fault;
mod kept;
mod mending;
mod mentions;
mod merging;
mod numbers;
mod parallel;
mod placed;
mod settle_fault;
mod settling;
mod straight;

pub use ends::{Joined, join};
pub use join_fault::JoinFault;
pub use kept::Kept;
pub use mending::{Mending, ParallelLinks, SelfLoops};
pub use mentions::mentioned;
pub use merging::merged;
pub use numbers::{NumberFault, Numbered, join_numbers};
pub use placed::PlacedLink;
pub use settle_fault::SettleFault;
pub use settling::{Settled, settle};

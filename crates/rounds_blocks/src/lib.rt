//! Rounds of a program over all nodes of a network, a block of nodes at a time, and only of blocks in which something may move.
#![tactic(auto)]

mod activity;
mod alone;
mod batch;
mod columns;
mod copying;
mod costs;
mod group;
mod in_ranges;
mod laws;
mod layout;
mod line;
mod merge;
mod narrow;
mod near;
mod node_ranges;
mod order;
mod packed;
mod part;
mod round;
mod share;
mod shared_round;
mod sharing;
mod spans;
mod task;
mod walk;

pub use costs::{MOST_ENDS, costs_of, is_worth_sharing, most_ends_to_share};
pub use laws::rests_where_nothing_moved;
pub use layout::Layout;
pub use packed::PackedStates;
pub use sharing::Costs;
pub use walk::Walk;

//! A node's desk: which neighbours' registers it has read for its next move, and the aggregates over them.
#![tactic(auto)]

mod desk;

pub use desk::{Desk, Offer, Seat};

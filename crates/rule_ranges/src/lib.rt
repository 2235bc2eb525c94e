//! In which ranges the values of a program's operators and aggregates lie, whatever the states are.
#![tactic(auto)]

mod aggregates;
mod bounds;
mod range;
mod states;

pub use aggregates::{at_most_number, gathered_range};
pub use bounds::Bounds;
pub use range::{Range, anything, choice, exactly, joined, negation, only_value, operated};
pub use states::ranges_of_states;

//! What one wants to know of a network before a run.
#![tactic(auto)]

mod facts;
mod parts;
mod text;
mod walks;

pub use facts::{Facts, Range, facts_of};
pub use text::facts_text;

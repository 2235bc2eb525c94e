//! Checked programs of the rule language, and the states that they lead to.
#![tactic(auto)]

mod cause;
mod code;
mod diagnosis;
mod emit;
mod fault;
mod law;
mod parts;
mod program;
mod round;
mod run;
mod same;
mod state;
mod table;
mod well_formed;
mod words;

pub use cause::CheckCause;
pub use code::Instr;
pub use diagnosis::diagnose;
pub use fault::CheckFault;
pub use law::{order_of_neighbours, round_plays_no_part};
pub use parts::{Gatherer, Rule};
pub use program::{Program, check};
pub use state::{Near, State, Sums};
pub use table::{apply, gathered, opening};

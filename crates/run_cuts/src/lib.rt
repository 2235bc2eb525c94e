//! Where values were cut at 4294967295, and differences at 0, in the rounds of a plan.
#![tactic(auto)]

mod cut;
mod laws;
mod nears;
mod operators;
mod places;
mod steps;
mod tally;
mod telling;
mod text;
mod values;
mod walking;

pub use cut::{Cut, Kind};
pub use laws::{cut_where_values_differ, operators_stand_in_order};
pub use places::operator_places;
pub use text::{Site, Telling, put_json, put_text};
pub use walking::cuts;

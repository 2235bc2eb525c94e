//! The reports of some rounds of a plan, one after the other, in one pass over the rounds.
#![tactic(auto)]

mod changes;
mod fault;
mod laws;
mod parts;
mod rows;
mod show;
mod span;
mod states_csv;
mod watching;
mod workers;

pub use fault::WatchFault;
pub use laws::{csv_is_read_back, json_is_read_back, whole_parts_are_reports};
pub use rows::{put_json_label, put_label};
pub use show::{Format, Show};
pub use span::Span;
pub use states_csv::{csv_states, states_csv_is_read_back};
pub use watching::{Progress, missing_of, watched};
pub use workers::Workers;

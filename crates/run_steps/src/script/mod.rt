//! Schedules that are written as scripts: a line such as `4 reads 7` for each step.

mod action;
mod fault;
mod laws;
mod line;
mod line_reader;
mod nodes;
mod open_repeat;
mod put;
mod text;

pub use fault::StepTextFault;
pub use laws::{beginnings_end, one_line_is_spelled};
pub use line_reader::next_said;
pub use nodes::{node_called, number_in};
pub use text::written;

//! The command line of the five commands: the job that its words ask for.
#![tactic(auto)]

mod request;
mod words;

pub use request::{Request, UsageFault};
pub use words::{command, command_as, five_commands, invalid_argument, job_by, job_of, number_in};

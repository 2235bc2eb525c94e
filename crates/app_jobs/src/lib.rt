//! The jobs: from the texts of a program and a network to the bytes that are written, and the first fault of a job,
//! found without doing it.
#![tactic(auto)]

mod comparison;
mod fault;
mod first;
mod job;
mod plans;
mod serving;
mod texts;

pub use comparison::difference_line;
pub use fault::ServeFault;
pub use first::{first_fault, network_cause, shown_fault};
pub use job::Job;
pub use plans::{plan_from, program_of};
pub use serving::{Served, serve};

//! The commands that make, tell and check asynchronous steps.
#![tactic(auto)]

mod explain;
mod explain_request;
mod naive;
mod naive_request;
mod schedule;
mod schedule_request;
mod simple;
mod text_lines;
mod verify;
mod verify_request;

pub use explain::explain_schedule;
pub use explain_request::{ExplainRequest, explain_command};
pub use naive::tell_naive;
pub use naive_request::{NaiveRequest, naive_command};
pub use schedule::make_schedule;
pub use schedule_request::{
    Limits, Listing, ScheduleRequest, StepsManner, Writing, schedule_command,
};
pub use verify::verify_trace;
pub use verify_request::{VerifyRequest, verify_command};

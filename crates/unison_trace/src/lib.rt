//! Worlds beside the steps that changed them, schedules, and replays.
#![tactic(auto)]

mod fault;
mod logged;
mod replay;
mod report_writer;
mod schedule_reader;
mod schedule_writer;
mod stored;

pub use fault::{LogFault, ReplayFault, ScheduleFault};
pub use logged::{Finished, Logged, changes, steps_needed};
pub use replay::{make_steps, replay_of, replay_over};
pub use report_writer::replay_report;
pub use schedule_reader::read_schedule;
pub use schedule_writer::write_schedule;
pub use stored::MOST_STEPS;

//! Reports of configurations, written and read, and the counted readers and writers that texts come from and go to.
#![tactic(auto)]

mod fault;
mod fields_reader;
mod number;
mod report_reader;
mod report_writer;
mod tally;

pub use fault::ReportFault;
pub use fields_reader::read_state;
pub use number::{behind, read_number};
pub use report_reader::{field_names, read_report, read_round, read_states};
pub use report_writer::{put_field, put_fields, report, report_states};
pub use tally::{Cut, DeviceFault, Tally, write_text};

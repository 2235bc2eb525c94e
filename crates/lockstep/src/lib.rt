//! Plans, lockstep rounds, reports, and counted readers and writers. Plans and configurations are those of `rounds_plan`,
//! reports and devices those of `report_text`; the rounds are made by the walks of `rounds_walk`.
#![tactic(auto)]

mod parallel;
mod rounds;

pub use parallel::lockstep_par;
pub use report_text::{
    Cut, DeviceFault, ReportFault, Tally, behind, put_field, put_fields, read_number, read_report,
    report, write_text,
};
pub use rounds::lockstep;
pub use rounds_plan::{
    Config, Difference, MOST_ROUNDS, Plan, PlanCause, PlanFault, ResumeFault, RoundFault, compare,
    diagnose_plan,
};
pub use rounds_walk::{rests_where_nothing_moved, stays_as_it_is};

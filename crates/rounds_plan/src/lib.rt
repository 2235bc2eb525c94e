//! Plans, and the configurations of their rounds.
#![tactic(auto)]

mod config;
mod difference;
mod fault;
mod opening;
mod parts;
mod plan;
mod plan_cause;
mod plan_ref;
mod round_states;
mod simple_plan;

pub use config::{Config, MOST_ROUNDS, state_at};
pub use difference::{Difference, compare};
pub use fault::{PlanFault, ResumeFault, RoundFault, StartFault};
pub use opening::opening_states;
pub use parts::{Opening, begun_with};
pub use plan::Plan;
pub use plan_cause::{PlanCause, diagnose_plan};
pub use plan_ref::PlanRef;
pub use round_states::RoundStates;
pub use simple_plan::SimplePlan;

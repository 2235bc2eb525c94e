//! Lockstep rounds of a program on a network of any size, that of a network file among them. What a round is, and which
//! states it leads to, is what `rounds_plan` defines.
#![tactic(auto)]

mod columns;
mod counts;
mod fault;
mod initial;
mod laws;
pub mod part_rounds;
mod rounds;
mod start;
mod walk;
mod way;

pub use columns::push_column;
pub use counts::{changed_nodes, count_values};
pub use fault::SetFault;
pub use initial::{openings, set_all_values, set_value};
pub use laws::{goes_on_from_states, rests_where_nothing_moved, stays_as_it_is};
pub use rounds::{check_round, lockstep_states, packed_lockstep};
pub use rounds_blocks::PackedStates;
pub use rounds_plan::{MOST_ROUNDS, PlanRef, RoundFault};
pub use start::Start;
pub use walk::RoundWalk;
pub use way::{InThreads, InTurn, Way};

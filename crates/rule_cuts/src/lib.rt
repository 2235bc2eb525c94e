//! The products and totals of a program that can be cut, by the ranges in which values lie in all rounds.
#![tactic(auto)]

mod cuttable;
mod expression;
mod limits;
mod operations;
mod places;

pub use cuttable::{Cuttable, cuttable_in};
pub use expression::value_range;
pub use limits::Limits;
pub use operations::{Operand, Operation, can_be_cut, greatest_uncut, operations_in};
pub use places::{operation_places, operations_stand_in_order};

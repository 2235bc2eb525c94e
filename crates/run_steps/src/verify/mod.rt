//! Traces of asynchronous runs that were made elsewhere, checked against the count machine and the lockstep states.

mod entry;
mod fault;
mod fields;
mod line_reader;
mod nodes;
mod objects;
mod steps;
mod verified;
mod verifying;

pub use fault::VerifyFault;
pub use verified::Verified;
pub use verifying::verify;

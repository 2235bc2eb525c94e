//! Steps of asynchronous runs in words: read from scripts, checked in traces made elsewhere, and told with what they do.
#![tactic(auto)]

pub mod explain;
mod previous;
pub mod script;
pub mod verify;

//! Reports in the files of other tools: tables as CSV, and arrays of NumPy.
#![tactic(auto)]

pub mod npy;
pub mod tables;

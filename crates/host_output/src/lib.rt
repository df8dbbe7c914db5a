//! Standard output of a host as an output, for functions that write to any.
#![tactic(auto)]

pub mod laws;
mod printer;

pub use printer::{Before, Printer};

//! A debugger for the machine: breaks, runs to the next stop, core by cells, and a snapshot of the registers.
//!
//! A contract sees a debugger as a list that says for each cell, by its number, whether it has a break.
#![tactic(auto)]

mod debuggers;
mod faults;
pub mod laws;
mod snapshots;

pub use cpu8::{Gone, Why};
pub use debuggers::Debugger;
pub use faults::DebugFault;

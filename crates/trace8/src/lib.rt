//! The trace of a program: a line for each step that a machine at a terminal makes. It shows the cell, its word, the instruction as a
//! source spells it, and AC and L after the step. It also shows the cells whose words it changed, and the character that it printed.
//!
//! The lines wait in a list that takes its memory once, and go to a writer some hundreds at a time.
#![tactic(auto)]

mod faults;
pub mod laws;
mod lines;
mod stores;
mod traces;

pub use faults::TraceFault;
pub use traces::trace;

//! What is watched of a program on the 8/E: a line for each step that a machine at a terminal makes, and how often each cell was fetched.
//!
//! The line of a step shows the cell, its word, the instruction by its name, and AC, L and MQ after the step. It also shows the cells
//! whose words it changed, and the character that it printed. A word that the 8/I does too is spelled as its source has it. Before the
//! line of a step stands that of a transfer of the disk that ends in the beginning of the step.
//!
//! What the steps punch, and print on the line printer, is put on paper that is kept until the run ends. So are the lines of transfers.
//!
//! The lines wait in a list that takes its memory once, and go to a writer some hundreds at a time.
//!
//! A count is kept for each of the 0o100000 cells of core. A step fetches a word unless it is an interrupt, or the machine stands
//! stopped (Small Computer Handbook). The text of a profile by these counts is that of the 8/I.
#![tactic(auto)]

mod counting;
pub mod laws;
mod lines;
mod moves;
mod names;
pub mod profile_laws;
mod runs;
mod stores;
mod traces;

pub use runs::count_fetches;
pub use traces::trace;

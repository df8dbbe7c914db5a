//! A whole PDP-8/E: the processor with core and console, an RK8-E disk control with four drives, a reader and a punch of paper tape, a line
//! printer and a clock (Small Computer Handbook). A step ends what has no time left, and is then one interrupt or one instruction.
//!
//! `terminal8e::run_machine` lets it run at a terminal, and a `Terminal` makes its steps one by one. Nothing here takes memory, but new
//! `Papers`, which keep what steps punch and print on the line printer, and a line of each transfer.
#![tactic(auto)]

pub mod device_laws;
mod devices;
pub mod laws;
mod machines;
mod papers;
mod teletype;
mod terminals;
mod transfers;

pub use machines::Machine;
pub use papers::{Paper, Papers};
pub use teletype::StepParts;
pub use terminals::Terminal;
pub use transfers::transfer_line;

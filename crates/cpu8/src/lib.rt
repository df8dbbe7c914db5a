//! The PDP-8/I with MC8 extended memory, interrupts and a Teletype: a step is one instruction of the table, or one
//! interrupt (Small Computer Handbook).
//!
//! Words have twelve bits; a field is 0 to 7 and an address in it 0 to 0o7777. Nothing here takes memory.
#![tactic(auto)]

pub mod decoding;
pub mod laws;
mod machines;
mod outcomes;
mod processors;
mod rotations;

pub use machines::Machine;
pub use outcomes::{Gone, Stepped, Why};
pub use processors::Processor;

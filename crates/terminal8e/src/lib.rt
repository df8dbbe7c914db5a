//! An 8/E at a terminal. The bytes of a reader are struck as keys, each where the program waits or looks for one, and a writer gets what
//! is printed.
//!
//! Bytes, keys and ends are those of the 8/I's terminal. Nothing here takes memory.
#![tactic(auto)]

mod asking;
pub mod laws;
pub mod machine_laws;
mod machines;
mod operators;
mod processors;
mod runs;
mod sittings;

pub use asking::{absence_at, asks_for_key, is_late, steps_before_look, waits_for_key};
pub use machines::TerminalMachine;
pub use processors::run;
pub use runs::run_machine;
pub use sittings::Sitting;

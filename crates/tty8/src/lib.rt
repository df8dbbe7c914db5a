//! The Teletype of a PDP-8/I: a keyboard with its buffer and flag, and a printer with its flag. It has the pulses
//! of the instructions 6030 to 6047 on them (Small Computer Handbook).
//!
//! A pulse is a bit of an instruction's last octal digit: the bits worth 1, 2 and 4 are done in that order. Nothing
//! here takes memory.
#![tactic(auto)]

pub mod laws;
mod teletypes;

pub use teletypes::{KeyboardAnswer, Teletype};

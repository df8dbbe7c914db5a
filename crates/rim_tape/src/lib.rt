//! RIM paper tapes: the words of a tape or its first fault, and the BIN tape of the same words.
//!
//! A frame has eight bits. A tape is leader, then addresses and words in turn, then trailer (Small Computer Handbook, read-in mode
//! loader). It has no field settings, so each word goes to field 0, and no check sum.
#![tactic(auto)]

mod converting;
mod faults;
mod frames;
pub mod laws;
mod reading;

pub use converting::bin_tape;
pub use faults::RimFault;
pub use reading::read;

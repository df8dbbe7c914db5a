//! BIN paper tapes: the grammar of a tape and of its first fault, a reader that meets it frame by frame, and a writer.
//!
//! A frame has eight bits. A tape is leader, then an origin and further origins, words and field settings, then a
//! check sum and trailer. Frames between two 0377 are ignored (PAL III Symbolic Assembler manual, BIN format).
#![tactic(auto)]

mod faults;
pub mod laws;
mod maps;
mod prefixes;
mod readers;
mod writing;

pub use faults::TapeFault;
pub use maps::TapeMap;
pub use readers::{Tape, TapeReader};
pub use writing::{tape_of, write_tape};

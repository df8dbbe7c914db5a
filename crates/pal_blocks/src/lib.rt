//! Assembling from files that are read in blocks of 256 words, each block twice: the part of an assembling job that knows
//! no volume, no name and no job.
//!
//! A block a turn is handed over, source after source. A fault is reported at the turn that reads what shows it. After the
//! last block stands the file that the sources are assembled to (OS/8 Handbook, and this project's profile of PAL III). In
//! each contract a file is the list of its words, and a text has its newest byte first.
#![tactic(auto)]

mod assembling;
mod making;
mod passing;

pub use assembling::{Assembling, Due};

//! The instructions of the PDP-8 in one table, by name and code, with which the assembler, the processor and the source of a
//! tape agree.
//!
//! Nothing stands on this crate: it is there to be proved (Small Computer Handbook, PAL III Symbolic Assembler manual).
#![tactic(auto)]

pub mod laws;

//! Core images: the words that a file `NAME.SV` of a volume gives to cells, where its program starts, and the BIN tape of the same words.
//!
//! Block 0 of the file is the core control block. The words of its segments follow, and those of each begin at a block (this project's
//! reading of the OS/8 Software Support Manual).
#![tactic(auto)]

mod converting;
mod faults;
pub mod laws;
mod reading;
mod segments;

pub use converting::bin_tape;
pub use faults::CoreFault;
pub use reading::{CoreImage, read};

//! The values of PAL8, the assembler of OS/8 (in this project's profile of it). It gives the value of steps at a place, by what names stand
//! for, and what its literals and links ask of the pools of pages.
#![tactic(auto)]

mod faults;
mod frames;
pub mod laws;
mod sums;
mod words;

pub use faults::ValueFault;
pub use frames::{Frame, Frames};
pub use sums::{Spot, Sum, early_value, here_of};
pub use words::word_value;

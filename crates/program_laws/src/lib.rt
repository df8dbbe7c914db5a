//! What the program may do to the files of who runs it, as laws over its tasks.
#![tactic(auto)]

pub mod characters;
pub mod disks;
pub mod ends;
pub mod laws;
pub mod letters;
pub mod machines;
pub mod numbers;
pub mod outputs;
pub mod prints;
pub mod reads;
pub mod runs;
pub mod tapes;
pub mod tries;
pub mod words;

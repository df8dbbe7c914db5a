//! Words and cells of the PDP-8: numbers of twelve bits and places in core, and how they are written in octal. Here too are the
//! sizes of core, of its parts and of a disk's blocks, and the sixbit codes of names.
//!
//! In each contract a [`Word`] is a number below 0o10000, and a [`Cell`] is the number of its place in core, below
//! 0o100000. Nothing here takes memory.
#![tactic(auto)]

mod cells;
mod codes;
mod digits;
mod sizes;
mod words;

pub use cells::Cell;
pub use codes::sixbit;
pub use digits::{octal, octal_cell, octal_word};
pub use sizes::{BLOCK, CORE, FIELD, FIRST_FILE_BLOCK, MOST_BLOCKS, MOST_SOURCES, PAGE};
pub use words::Word;

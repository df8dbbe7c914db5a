//! What a listing shows beside its words, in comments and empty lines (this project's profile).
//!
//! Lines above a cell's line show who calls the subroutine that begins there, and who refers to the cell otherwise. The comment of
//! data has the characters that it holds, where it is text. After a HLT and a JMP through a pointer comes an empty line. The words of
//! a tape are a list of 0o100000, one or none for each cell of core, and so are the flags that say which of them are instructions.
#![tactic(auto)]

mod chains;
mod characters;
pub mod laws;
mod notes;
mod references;

pub use notes::Notes;
pub use references::is_reference;

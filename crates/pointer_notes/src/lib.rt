//! What a listing by known pointers shows beside the words of a tape, in comments and empty lines (this project's profile).
//!
//! An instruction's comment has the cell to which it leads through a known pointer, or who may write its pointer. Lines above a cell's
//! line count such instructions as if they named it. Data have the subroutine that takes them as arguments, or their characters. The
//! first lines of all say where the program starts, and what is assumed of it. The words of a tape are a list of 0o100000, one or none
//! for each cell of core, and so are the flags that say which of them are instructions.
#![tactic(auto)]

mod answers;
mod chains;
mod comments;
mod heads;
mod naming;
mod notes;
mod references;
mod remarks;

pub use answers::instruction_flags;
pub use naming::CellNaming;
pub use notes::PointerNotes;

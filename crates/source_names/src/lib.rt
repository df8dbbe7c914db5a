//! Names for a listing: a file gives cells of a tape names of the user's own, a line for each.
//!
//! A line is a cell, five octal digits with its field first, then blanks or tabs, and then a name. The name is as PAL III has it, of
//! six characters at most (PAL III Symbolic Assembler manual, and this project's profile).
#![tactic(auto)]

mod faults;
pub mod laws;
mod lines;
mod names;
mod reserved;

pub use faults::NamesFault;
pub use lines::visible_name;
pub use names::{CellNames, names_of};
pub use pal_faults::LineRefusal;

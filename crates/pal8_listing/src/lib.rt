//! Listings of PAL8 sources of the host: each line with the words of the statements that begin in it. After the lines come the cells of the pools
//! with their values, and then the source's own names with theirs, and the lines that use them in a cross reference (PAL8, the assembler of OS/8, in
//! this project's profile).
//!
//! Sources are joined and assembled as [`pal8_tape`] does it, whose faults these are too.
//!
//! Beside these it has notes: the lines that palbart, the assembler that most people use, reads in another way. They are as complete as the
//! tokens of a statement allow, and rest on what was seen of palbart 2.13, and on no document of it.
#![tactic(auto)]

mod crossing;
mod differences;
pub mod laws;
mod levels;
mod lines;
mod listing;
mod mentions;
mod names;
mod notes;
mod rows;
mod texts;
mod uses;
mod words;

pub use crossing::{later_starts, spot_of};
pub use differences::Difference;
pub use listing::list_sources;
pub use notes::Note;
pub use texts::notes_text;

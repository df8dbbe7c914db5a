//! What the blocks of a volume hold by their content alone, where no directory lists it: whole texts, programs, and segments of
//! directories.
//!
//! A block is its frames, three for each two of its words.
#![tactic(auto)]

mod chances;
mod kinds;
pub mod laws;
mod passages;
mod programs;
mod segments;
mod tails;
mod texts;

pub use kinds::ProgramKind;
pub use passages::{Passage, passage_of};
pub use programs::{Program, programs_in};
pub use segments::{Segment, segments_in};
pub use texts::{TextPiece, texts_in};

//! How each command of the program ends: its line, the stream that the line goes to, the note on standard error, and the exit status.
//! Nothing is printed here.
#![tactic(auto)]

mod contents;
mod endings;
mod hints;
mod notes;
mod outcomes;
mod readings;
mod reasons;
mod rooms;
mod streams;

pub use contents::Content;
pub use endings::Ending;
pub use hints::{
    ImageNote, command_hint, given_note, image_note, kind_note, size_text, start_note, word_text,
};
pub use notes::{FileNote, NameNote, Note, PlainNote};
pub use outcomes::{Outcome, Stream, outcome_of};
pub use reasons::Reason;
pub use rooms::{LineRoom, no_memory_line};
pub use streams::gives_data;

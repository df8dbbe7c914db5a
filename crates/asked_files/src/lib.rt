//! The files that the words of a command ask for: those of names and first blocks, those that words choose, and which of them are texts. Words that
//! ask for none have lines.
#![tactic(auto)]

mod asking;
mod texts;
mod unfound_words;
mod wishing;

pub use asking::{add_place, files_named};
pub use texts::{get_form, is_got_noted, note_put, put_form, take_lists};
pub use unfound_words::{put_line, put_refusal, put_word};
pub use wishing::{files_of, wishes_on};

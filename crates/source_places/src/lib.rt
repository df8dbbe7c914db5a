//! Lines and places of sources of the host, and how a place and a line with its mark are shown, whatever assembler reads the sources.
//!
//! A place is a source, a line and a column, each line and each column from 1. A caret stands below it, under its line. A text of the host is
//! read as `STORE` takes its lines: LF ends a line, and each CR is dropped (this project's profile of PAL III).
#![tactic(auto)]

mod marking;
mod places;
mod showing;
mod spelling;
mod subjects;
mod texts;

pub use marking::{put_marked_line, put_number, put_place};
pub use places::{Place, bytes_of, first_bytes, name_of, next_line, place_of};
pub use spelling::{name_text, put_spelling};
pub use subjects::{About, put_character, put_named};
pub use texts::host_text;

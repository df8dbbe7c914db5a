//! Names of files as they are shown and typed, and words that choose files by their names. A name of letters and digits is shown as it is, and
//! each other code by an escape. A pattern is 1 to 12 capital letters, digits and signs, then nothing, or a dot and 1 to 4 more (this project's
//! profile). The sign `*` stands for any characters, also none, and `?` for one. Without a dot it is of names with no extension.
//!
//! In each contract a name is one number, its four words to the base 0o10000, as `os8_dir` has it, and a word is the list of its characters.
#![tactic(auto)]

pub mod laws;
pub mod pattern_laws;
mod patterns;
mod reading;
mod writing;

pub use patterns::{has_pattern, is_choice, is_chosen_by, matches};
pub use reading::{read_name, typed_name};
pub use writing::{put_name, put_spelled};

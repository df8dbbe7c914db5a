//! How the program shows text of others in its lines: names of files of the host, words of a command line, and what an image or a source holds.
//!
//! No text that is shown ends a line, moves a terminal's place or hides what stands beside it. A graphic character of ASCII other than `\`,
//! and the blank, stand as they are. Any other byte is `\` and three octal digits, so what is shown reads back (this project's profile). In one column of a line the blank is such a byte too.
#![tactic(auto)]

mod bytes;
pub mod laws;
mod texts;

pub use bytes::{put_quoted, put_shown};
pub use texts::ShownText;

//! The entries of a session, its replies and refusals, and the lines of a script that stand for them.
//!
//! In each contract a line is the list of its bytes, without the LF that ends it.
#![tactic(auto)]

mod answers;
mod assembling;
mod bytes;
mod entries;
mod file_lengths;
mod items;
mod job_prefixes;
pub mod laws;
mod line_replies;
mod lines;
mod names;
mod operands;
mod parsing;
mod parts;
pub mod readings;
mod replies;
mod reports;

pub use answers::put_reply;
pub use bytes::Bytes;
pub use entries::{ConsoleEntry, Entry, FileEntry, JobEntry};
pub use file_lengths::FileLengths;
pub use items::{Item, Next, lines_left, next_item, one_line_wanted};
pub use lines::Line;
pub use names::Names;
pub use operands::are_steps;
pub use parsing::parse_line;
pub use readings::{read_all, read_whole};
pub use replies::{LineReply, Reply, Report, StepEnd};

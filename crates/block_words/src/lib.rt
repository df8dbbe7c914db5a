//! The words of a block of an image. Lines show them, eight words a line in octal with characters beside them. One word gets another in its place, for
//! an image that is damaged: the image need not be that of a volume, and nothing else of it changes.
#![tactic(auto)]

mod dumping;
mod faults;
pub mod laws;
mod lines;
pub mod patch_laws;
mod patching;
mod rows;

pub use dumping::{DumpForm, put_block, put_words};
pub use faults::PatchFault;
pub use lines::{put_bits, put_number};
pub use patching::{patch, word_at};

//! What a file holds, by its content alone: a core image, a BIN tape, a RIM tape, a text, zeros, or what is unknown.
//!
//! A file is the list of its frames, three for each two of its words, or the bytes of a file of the host.
#![tactic(auto)]

mod faults;
mod judges;
mod kinds;
mod texts;

pub use faults::KindFault;
pub use judges::{is_bin, is_rim};
pub use kinds::{FileKind, kind_of};
pub use texts::{all_zero, are_marked, is_graphic, is_text, is_text_character};

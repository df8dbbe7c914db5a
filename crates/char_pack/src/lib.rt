//! Three characters in two words, as OS/8 keeps texts and tapes in files: frames of words, words of bytes, and texts.
//!
//! In each contract a word is a number below 0o10000. A block of 256 words holds 384 frames.
#![tactic(auto)]

mod faults;
pub mod laws;
mod packing;
mod reading;
mod storing;
mod texts;

pub use faults::{PackFault, TextFault};
pub use packing::{BLOCK_FRAMES, pack, pack_blocks};
pub use reading::{Frames, frame_at, frame_count};
pub use storing::{character_count, is_storable, store, stored_block_count};
pub use texts::{CONTROL_Z, Text, text_of};

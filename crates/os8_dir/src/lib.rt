//! The directory of an OS/8 volume: the entries that its segments in blocks 1 to 6 hold, and the names of files.
//!
//! A change of a directory gives a new one; the words of its segments are read back as that one. What changes do to the
//! files stands in [`laws`].
//!
//! In each contract a [`Name`] is one number, its four words to the base 0o10000. A [`Directory`] is its first block, how
//! many information words its entries have, and the list of its entries in order of their blocks. Blocks are counted from
//! 0, lengths in blocks of 256 words.
#![tactic(auto)]

mod appending;
mod changes;
mod directory;
mod drafts;
mod entries;
mod faults;
mod file_faults;
mod found;
mod items;
mod known;
pub mod laws;
mod names;
mod reading;
mod renaming;
mod segments;
mod volumes;

pub use directory::Directory;
pub use entries::DirEntry;
pub use faults::DirFault;
pub use file_faults::FileFault;
pub use names::Name;

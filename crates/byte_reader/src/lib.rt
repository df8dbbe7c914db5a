//! Readers of bytes, of which it is known whether they have failed.
#![tactic(auto)]

mod readers;
mod reading;
mod watching;

pub use readers::ByteReader;
pub use reading::{ReadFault, is_interrupted, read_bytes};
pub use watching::WatchedReader;

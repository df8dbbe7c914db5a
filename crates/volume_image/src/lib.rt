//! Volumes of an OS/8 system as stores of blocks of 256 words, and their images as bytes.
//!
//! [`MemoryVolume`] keeps a volume in memory, [`CountVolume`] counts the calls of a store, and [`FuseVolume`] makes one
//! read and one write fail. In each contract a block is the list of its words as numbers.
#![tactic(auto)]

mod counts;
mod faults;
mod fuses;
mod images;
mod laws;
mod memory;
mod store;

pub use counts::CountVolume;
pub use faults::ImageFault;
pub use fuses::FuseVolume;
pub use laws::{image_round_trip, one_call_fails};
pub use memory::MemoryVolume;
pub use store::{Block, BlockStore, DeviceFault};

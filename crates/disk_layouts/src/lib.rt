//! Volumes in the files of disks and DECtapes, as other programs keep them. This crate gives where the bytes of a volume lie in
//! such a file, and the file with another image of its volume.
//!
//! In each contract a file is the list of its bytes, an image the list of the volume's bytes, and a [`DiskFile`] its layout and its
//! bytes. What changes keep stands in [`laws`].
#![tactic(auto)]

mod copies;
mod faults;
mod files;
pub mod laws;
mod layouts;
mod sizes;

pub use faults::DiskFault;
pub use files::{DiskFile, blank_tape};
pub use layouts::Layout;
pub use sizes::{DISK, DISK_VOLUME, TAPE, guess, image_size};

//! The commands on damaged volumes, over any host. One makes a new volume with the files that an old one still shows. The other lists what
//! blocks hold where no directory shows it.
//!
//! In each contract an image is the list of its bytes.
#![tactic(auto)]

pub mod laws;
mod rescues;
mod scans;

pub use rescues::rescue_image;
pub use scans::{scan_blocks, scan_into};

//! The file service: a map from names to words over the blocks of a store.
//!
//! In each contract a [`FileService`] is what is seen of a mounted volume. It is the words of its store's blocks, the
//! counts of reads, writes and failures, and whether a write has failed. The files are those that the blocks hold, and
//! lengths are in blocks of 256 words.
#![tactic(auto)]

mod begun;
mod copying;
mod holds;
pub mod laws;
mod lengths;
mod segments;
mod service;
mod tokens;

pub use os8_dir::FileFault;
pub use service::FileService;
pub use tokens::{Hold, Squeezed, Tentative};

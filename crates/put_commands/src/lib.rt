//! The command `put`, over any host: which files are read, in which order, and what each stream gets. One file is a list of one.
#![tactic(auto)]

mod host_files;
pub mod laws;
mod putting;

pub use putting::put_files;

//! The command that assembles sources in files, of the host or of a volume, over any host: what is read, what each stream gets, and which files
//! hold what.
#![tactic(auto)]

mod assembling;
mod clashes;
mod faults;
pub mod laws;
mod outputs;
mod places;
mod sources;

pub use assembling::{Assembled, assemble_files};

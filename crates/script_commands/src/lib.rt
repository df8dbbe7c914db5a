//! The command that runs a script over the volume of an image file, over any host: what is read and printed, and which image the file has
//! before each reply.
#![tactic(auto)]

mod changes;
mod hints;
mod inputs;
pub mod laws;
mod printing;
mod progress;
mod saves;
mod scripts;
mod watching;

pub use scripts::{open_image, run_over, run_script};

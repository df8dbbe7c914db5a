//! The commands that print a tape's words, what a RIM tape has, and a tape's source, over any host: what is read, and what each stream gets.
#![tactic(auto)]

mod kinds;
pub mod laws;
mod programs;
mod rims;
mod sources;
mod tapes;

pub use kinds::refuse_frames;
pub use programs::{Program, program_of};
pub use rims::write_rim;
pub use sources::write_source;
pub use tapes::list_tape;

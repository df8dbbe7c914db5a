//! What a command line asks of the program, as the library `clap` reads it. No task is done here.
#![tactic(auto)]

mod archives;
mod boots;
mod devices;
mod files;
mod laws;
mod tapes;
mod tasks;
mod volumes;

pub use laws::{options, plain_words};
pub use tasks::task;

//! A session over a volume: the system machine as a program, its jobs, and the running of scripts.
#![tactic(auto)]

mod consoles;
mod endings;
pub mod laws;
mod pending;
mod sessions;
mod watchers;

pub use sessions::{Ran, Session};
pub use watchers::Watcher;

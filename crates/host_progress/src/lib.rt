//! How far a long command is, as a terminal shows it.
#![tactic(auto)]

mod progress;

pub use progress::Progress;

//! The system that a program runs in, as a host.
#![tactic(auto)]

mod besides;
mod files;
mod leftovers;
mod making;
mod opened;
mod same;
mod system;
mod terminals;

pub use system::System;
pub use terminals::Outputs;

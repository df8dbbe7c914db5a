//! The history of a PDP-8/I that can be gone back in: the core of a debugger that goes forwards and backwards.
//!
//! A contract sees a history as the machine that it began with and the changes that were made, the newest first. What the machine
//! is now, and what it printed, are functions of these. Copies of the machine are kept on the way. Going back takes the copy
//! before, and makes the changes after it again. Where a copy is refused memory there are fewer of them, and nothing else differs.
#![tactic(auto)]

mod checkpoints;
mod entries;
mod histories;
mod journals;
pub mod laws;
mod lists;
mod outcomes;
mod replays;
mod searches;
mod stops;
mod stores;
mod watches;

pub use histories::History;
pub use outcomes::{End, Run};
pub use stops::{AtCell, OnPrint, OnReturn, OnWrite, Stop};

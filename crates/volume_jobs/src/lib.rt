//! Jobs that assemble, that load, and that move files down, a block or a file a turn, over the files of a mounted volume.
//!
//! In each contract a job is what its work is, with the names that it holds, and how many turns it may still take.
#![tactic(auto)]

mod assembling;
mod assembly;
mod faults;
mod kinds;
pub mod laws;
mod loading;
mod places;
mod squeezing;
mod table;
mod turned;
mod turns;

pub use assembly::Assembly;
pub use faults::JobFault;
pub use kinds::{Job, Work};
pub use loading::Loading;
pub use table::Jobs;
pub use turned::Turned;

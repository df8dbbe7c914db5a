//! What the directory of a damaged volume still shows: each of its faults in order, and each entry that is sound.
//!
//! In each contract an image is the list of its bytes, and a block the list of its words.
#![tactic(auto)]

mod answers;
mod claims;
mod items;
mod judging;
pub mod laws;
mod lines;
mod parts;
mod reading;
mod surveys;

pub use answers::{FoundFile, Survey};
pub use parts::Part;
pub use surveys::{survey, survey_volume};

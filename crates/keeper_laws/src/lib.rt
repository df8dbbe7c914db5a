//! What a keeper of images may rely on, as laws over the commands on volumes.
#![tactic(auto)]

pub mod folders;
pub mod laws;
pub mod questions;
pub mod texts;
pub mod verb_laws;

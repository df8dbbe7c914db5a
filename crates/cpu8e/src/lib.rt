//! The PDP-8/E with a KM8-E memory extension, a KL8-E console and no EAE (Small Computer Handbook). A step is one instruction of
//! the table, or one interrupt.
//!
//! All that the 8/I has too is one part of the state, and the words that both have in common are the 8/I's by definition. Nothing
//! here takes memory.
#![tactic(auto)]

mod base;
pub mod laws;
mod machines;
mod processors;

pub use machines::Machine;

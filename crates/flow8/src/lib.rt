//! The flow of a program: which words of a tape are instructions, as far as the starts of the program show it.
//!
//! After an instruction the program goes on at the next word, at the one after it where it may skip, and where a direct jump
//! leads. What is reached through a pointer or in another field isn't known from its word (Small Computer Handbook). The words of
//! a tape are a list of 0o100000, one or none for each cell of core.
#![tactic(auto)]

mod flows;
pub mod laws;
mod words;

pub use flows::flow;
pub use words::{address_of_reference, exits, referred_cell};

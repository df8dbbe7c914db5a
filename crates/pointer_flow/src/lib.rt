//! The flow of a program through its known pointers: which words of a tape are instructions, where their jumps and references through
//! pointers lead, and in which fields.
//!
//! A pointer is known where the tape gives it a word and nothing that is reached writes it. `flow8` stops at jumps through pointers. The
//! words of a tape are a list of 0o100000, one or none for each cell of core (Small Computer Handbook, OS/8 Software Support Manual).
#![tactic(auto)]

mod call_forms;
mod calls;
mod cell_states;
mod cells;
mod clear_ac;
mod facts;
mod flows;
mod handler_cells;
pub mod laws;
mod next_states;
mod questions;
mod returns;
mod rules;
mod state_sets;
mod states;
mod walks;
mod writes;

pub use calls::{Call, CallForm};
pub use flows::{Flow, pointer_flow};
pub use states::{Buffer, State};

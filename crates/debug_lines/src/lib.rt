//! The command language of a debugger at the keyboard: a line of bytes is read into commands, or refused with its place. Names stay the places
//! of their bytes in the line.
//!
//! In each contract a line is the list of its bytes, and a cell or a word is its number.
#![tactic(auto)]

mod breaks;
mod cells;
mod command_lists;
mod commands;
mod comparisons;
mod conditions;
mod faults;
mod grammar;
pub mod laws;
mod numbers;
mod operands;
mod parts;
mod reading;
mod references;
mod spots;
mod verbs;
mod words;

pub use command_lists::Commands;
pub use commands::{Command, Form};
pub use comparisons::{Comparison, Register, Sign, Subject};
pub use conditions::Condition;
pub use faults::{LineFault, Refusal, Refused};
pub use parts::{Part, text_of};
pub use reading::read_line;
pub use references::{Base, Offset, Range, Reference};
pub use spots::{Class, Spot};
pub use verbs::{VERBS, Verb, name_of, short_name_of, verb_of};

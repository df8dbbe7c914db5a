//! What the program refuses: each fault with its number and its text, and the line of it. Beside these, how lines are built and how they show
//! names (this project's profile).
#![tactic(auto)]

mod fault_texts;
mod faults;
pub mod laws;
pub mod text_lines;

pub use fault_texts::{put_directory_fault, put_fault, put_text};
pub use faults::{MOST, SessionFault};

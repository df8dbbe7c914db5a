//! The assembler of PAL8, the assembler of OS/8 (in this project's profile of it). Of a text it gives the first fault, or the words that its
//! statements leave to be made, and these with their cells. No place and no name rests on a literal or a link, so words are made after all
//! statements.
#![tactic(auto)]

mod assemblers;
mod assembling;
mod entries;
mod faults;
mod late;
pub mod laws;
mod marks;
mod pushing;
mod texts;
mod walks;
mod words;

pub use assemblers::Assembler;
pub use assembling::{Parts, assemble, assemble_parts};
pub use entries::{Entries, Head, Late};
pub use faults::{AsmFault, Fault, Place};
pub use marks::{Mark, has_indirect_bit};
pub use pushing::{Statement, push_byte, shown_statement};
pub use walks::{Walk, pass_selected};
pub use words::MadeWords;

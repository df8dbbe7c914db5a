//! The assembler of PAL III source, in two passes over its statements: the words of a source, each with its cell, or its
//! first fault.
//!
//! The first pass learns what names stand for, the second makes the words (PAL III Symbolic Assembler manual, and this
//! project's profile of it). In each contract a source is the list of its statements, the newest first, each as it reads
//! or with its fault.
#![tactic(auto)]

mod again;
mod assemblers;
mod expressions;
pub mod laws;
mod making;
mod names;
mod passing;
mod spots;
mod texts;
mod words;

pub use assemblers::Assembler;
pub use making::make_text;
pub use pal_faults::{AsmFault, Code};
pub use passing::{Pass, begin_second_pass, end_source, pass_text, settle};
pub use texts::{assemble, assemble_all};

//! What a PAL III source is refused for, by the lexer or by the assembler, and a text that names cells of one (PAL III Symbolic Assembler
//! manual, and this project's profile of it). The lines of refusals need these types, and no assembler.
#![tactic(auto)]

mod assembling;
mod lexical;
mod names;

pub use assembling::{AsmFault, Code};
pub use lexical::LexFault;
pub use names::LineRefusal;

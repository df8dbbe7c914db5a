//! The lexer of PAL III source: it takes a source byte by byte and hands out its statements, or the first fault.
//!
//! A statement is a stretch of the source between two ends (`;`, CR, `$`), read by the grammar of this project's profile
//! of PAL III (PAL III Symbolic Assembler manual). In each contract a text is the list of its bytes, the newest first.
//! A [`Name`] is a number, and lists of names, tokens and terms are lists in their order.
#![tactic(auto)]

mod characters;
mod drafts;
mod expressions;
mod grammar;
mod growing;
mod kinds;
mod language;
pub mod laws;
mod lexing;
mod naming;
mod phrases;
mod pieces;
mod runs;

pub use language::{is_reserved_number, operation_of_number};
pub use lexing::Lexer;
pub use naming::Name;
pub use pal_faults::LexFault;
pub use phrases::{Body, Expression, Joint, Operation, Part, Statement, Tags};
pub use pieces::{Kind, Term, Token, Tokens};

//! The lexer of PAL8 source, the assembler of OS/8 (in this project's profile of it). It takes the bytes of a host's text and hands out
//! its statements, each as its tokens, the line that it begins in, and what ended it.
//!
//! Which statements count depends on conditions, and numbers on the radix. Neither is known here, so the lexer judges only what tokens
//! say by themselves. In each contract a text is the list of its bytes, the newest first.
#![tactic(auto)]

mod drafts;
mod judging;
mod kinds;
pub mod laws;
mod lexing;
mod rules;
mod runs;
mod tokens;

pub use judging::{Radix, has_bad, has_bad_number, tag_count};
pub use lexing::Lexer;
pub use rules::End;
pub use tokens::{Kind, Name, Number, Operator, Pool, Token};

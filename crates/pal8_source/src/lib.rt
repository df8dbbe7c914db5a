//! The disassembler for PAL8: source of a BIN tape as `assemble --pal8` takes it (PAL8, the assembler of OS/8, in this project's profile).
//!
//! Its statements are those of `tape_source`, but for four things. The words at the end of a page that are referred to as a pool's are, stand as
//! literals where they are referred to. `PAGE` stands for an origin where that says the same. Data that are text stand as `TEXT`, where a start is
//! given. A name that PAL8 reserves is refused.
//!
//! [`checked_source`] assembles the source, and answers it where it comes back: where it gives each cell what the tape gives it. In place of another
//! one a plain source stands, which gives each cell its word by itself, and always comes back.
#![tactic(auto)]

mod asks;
mod checking;
mod comparing;
mod faults;
pub mod laws;
mod lines;
mod places;
mod plain;
mod pools;
mod programs;
mod reserved;
mod sheets;
mod sources;
mod texts;

pub use checking::checked_source;
pub use faults::Pal8Fault;
pub use sources::pal8_source;

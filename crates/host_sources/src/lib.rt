//! Sources of the host to a BIN tape: the frames of the tape that they are assembled to, or their first fault with its
//! place, as a compiler prints it.
//!
//! A source is taken as `STORE` takes its lines: LF ends a line, and each CR is dropped. Several are joined as `ASSEMBLE` joins those
//! of a volume (PAL III Symbolic Assembler manual, and this project's profile of it). In each contract a text has its newest byte
//! first.
//!
//! Where a fault is shown depends on the bytes of its statement: where that begins, its runs of letters and digits, its first byte that PAL III
//! has not. What stands in a comment is no part of it.
//!
//! A crate that stands on it reads an [`Assembly`]: the text that sources join to, its words, its statements and its names. What shows a
//! place of a source stands below it, in `source_places`.
#![tactic(auto)]

mod assembling;
mod fault_lines;
mod faults;
mod further;
mod joins;
mod judging;
pub mod laws;
mod lexical;
mod locating;
mod marks;
mod mending;
mod names;
mod pauses;
mod radixes;
mod reading;
mod runs;
mod starts;
mod unknowns;

pub use assembling::{Assembly, assemble_sources, assembly_of};
pub use fault_lines::fault_text;
pub use faults::{Fault, SourceFault};
pub use further::further_faults;
pub use joins::Join;
pub use names::{Definitions, names_of, value_by_number};
pub use reading::statement_ended;

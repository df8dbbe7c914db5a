//! PAL8 sources of the host to a BIN tape. At PAUSE the next source goes on, so several are one text. Which statement is a PAUSE depends on the
//! conditions before it: the statements of all sources but the last are passed once, for their names and brackets alone. The crate gives the frames of the tape that they are assembled to as one, or their first fault with its place, as
//! a compiler reports it. It also gives the word of PAL8 at which a source has a fault that was taken as PAL III.
//!
//! A source is the bytes of a text of the host. LF ends a line of it, and CR, form feed, NUL and rubout are as if they weren't there (PAL8, the
//! assembler of OS/8, in this project's profile of it).
#![tactic(auto)]

mod codes;
mod fault_lines;
mod faults;
mod further;
mod join_faults;
pub mod join_laws;
mod joins;
pub mod laws;
mod marks;
mod mending;
mod passes;
mod pauses;
mod places;
mod signs;
mod tapes;
mod texts;

pub use fault_lines::fault_text;
pub use faults::{Fault, SourceFault};
pub use further::further_faults;
pub use join_faults::JoinFault;
pub use joins::{Join, join_all};
pub use passes::Pass;
pub use pauses::is_line_open;
pub use signs::sign_text;
pub use tapes::{frames_of, tape_of, with_place};

//! What the statements of a PAL8 text do before any word is made (in this project's profile of PAL8, the assembler of OS/8). Each one defines names
//! and moves the place of the next, by those before it, or has a fault. A condition is judged so, too, and its brackets select statements. None of
//! this rests on a literal or a link.
#![tactic(auto)]

mod brackets;
mod faults;
mod names;
mod options;
mod places;
mod tags;

pub use brackets::Brackets;
pub use faults::{Code, Stop};
pub use names::KnownNames;
pub use options::Options;
pub use places::{FIRST_PLACE, Position, first_position, spot_at};
pub use tags::{has_later, pass_statement, truth_of};

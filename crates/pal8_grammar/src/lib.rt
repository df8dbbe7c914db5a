//! The grammar of PAL8, the assembler of OS/8 (in this project's profile of it). It gives what a statement says, by its tokens, and by
//! the names and the radix before it.
//!
//! Its value, if it has one, reads as steps, in the order in which they are evaluated. Brackets nest to any depth, and no call recurs.
//! The names that have a meaning of their own stand here too: the reserved ones, and the permanent ones with their values. [`SourceNames`] has those
//! of a source, with EXPUNGE, FIXTAB and FIXMRI; its look-ups take the logarithm of the number of names.
#![tactic(auto)]

mod bodies;
mod faults;
mod forms;
mod kinds;
pub mod laws;
mod literals;
mod names;
mod permanent_names;
mod readers;
mod source_names;
mod stands;
mod steps;

pub use bodies::Body;
pub use faults::GrammarFault;
pub use forms::Form;
pub use kinds::free_name;
pub use permanent_names::{Meaning, Standing, is_reserved, permanent};
pub use readers::Reader;
pub use source_names::SourceNames;
pub use stands::{Outer, Rules, Stand};
pub use steps::Step;

//! The symbols of a PAL III source: names of which six characters count, and the value that each stands for.
//!
//! Permanent names have their values from the start. A source defines further ones (PAL III Symbolic Assembler manual, and
//! this project's profile of it). It defines a tag once, or again to the same value, and what `=` defines as often as it
//! likes. In each contract a [`SymbolName`] is a number. A [`Symbols`] is a finite map from such numbers to words, each of
//! a tag or not, beside the room that is made for new names.
#![tactic(auto)]

mod entries;
mod faults;
mod names;
mod permanent_names;
mod symbols;
mod tables;

pub use faults::SymFault;
pub use names::SymbolName;
pub use tables::Symbols;

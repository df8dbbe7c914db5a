//! Listings of sources of the host: each line with the words that stand at it. After the lines come the names with their
//! values and the lines of the statements that name them.
//!
//! Sources are joined and assembled as [`host_sources`] does it, whose faults these are too (PAL III Symbolic Assembler manual and
//! PAL8, and this project's profile of them). In each contract a text has its newest byte first.
#![tactic(auto)]

mod crossing;
pub mod laws;
mod listing;
mod references;
mod rows;
mod spots;
mod tables;
mod word_ends;

pub use listing::{Listing, ListingForm, list_sources};
pub use rows::{put_below, put_margin, put_word, split};
pub use tables::put_symbol;

//! How often a program fetches the word of each cell: counts that are exact, and the text of a profile by them.
//!
//! A count is kept for each of the 0o100000 cells of core. A step fetches a word unless it is an interrupt, or the machine stands
//! stopped (Small Computer Handbook). Memory is asked for the counts, for a list of cells, and for the text.
#![tactic(auto)]

mod cells;
mod counting;
pub mod laws;
mod runs;
mod texts;
mod unfetched;

pub use counting::{count_word, is_fetch, no_counts};
pub use runs::count_fetches;
pub use texts::profile_text;

//! What the program prints of tapes: the listing of a tape, its source and the words of a RIM tape. Beside these, which cells a tape gives a
//! word, and where its program begins.
#![tactic(auto)]

mod given;
mod listings;
mod rims;
mod sources;
mod starts;

pub use given::given_cells;
pub use listings::tape_lines;
pub use rims::rim_output;
pub use sources::{list_fault, pal8_fault, source_lines};
pub use starts::{first_cell, gives_word, start_cell};

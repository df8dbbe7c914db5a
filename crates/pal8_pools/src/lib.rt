//! The pools of pages: the cells at a page's end that hold the values of literals and links (PAL8, the assembler of OS/8, in
//! this project's profile). [`WordCells`] has the cells with words, and finds the lowest that is a pool's, too.
//!
//! A page of a field has 0200 cells. The first value that is asked of it gets its last cell, the next one the cell below. Equal
//! values have one cell in one stay. In each contract the asks are a list, the newest first.
#![tactic(auto)]

mod cells;
pub mod clash_laws;
mod faults;
pub mod laws;
mod pools;
mod ranks;
mod word_cells;

pub use cells::Cells;
pub use faults::PoolFault;
pub use pools::Pools;
pub use word_cells::WordCells;

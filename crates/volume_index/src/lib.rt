//! The index of a volume: a line for each of its files, by the bytes of its image, with tabs between its columns. Also the lines of equal files:
//! those whose digest another line of an index has too.
//!
//! No name can break a line: what is no graphic character in the name of an image, or in that of a file, is escaped. In each contract an
//! image, a text and a line are the lists of their bytes.
#![tactic(auto)]

mod choosing;
mod columns;
mod digests;
mod holding;
mod indexing;
mod json;
mod kinds;
pub mod laws;
mod lines;
mod same;
mod styles;
mod text_lines;
mod years;

pub use indexing::index_volume;
pub use json::json_lines;
pub use lines::{IndexEntry, put_index};
pub use same::same_lines;
pub use shown_text::put_quoted;
pub use styles::IndexStyle;
pub use years::{last_in, last_of};

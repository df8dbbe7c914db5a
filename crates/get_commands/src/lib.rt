//! The command `get`, over any host: a file, or blocks, on standard output; the texts of several files there; several files in a folder.
#![tactic(auto)]

mod getting;
mod giving;
pub mod laws;
mod showing;
mod showing_parts;
mod texts;

pub use getting::get_files;
pub use showing::get_file;
pub use showing_parts::{get_bin, get_blocks};
pub use texts::show_texts;

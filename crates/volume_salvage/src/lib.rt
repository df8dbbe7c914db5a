//! A new volume with the files that a damaged one still shows, and the lines of what is lost; the lines of what blocks hold where no
//! directory shows it.
//!
//! A new volume has just the files that are given, with their words, their information words and whatever names they have, in their order.
//!
//! In each contract an image is the list of its bytes, and a block the list of its words. A name is one number, and a volume's files are a map
//! from name to information words and words, as `os8_dir` has them.
#![tactic(auto)]

mod faults;
mod fitting;
pub mod laws;
mod lines;
mod pieces;
pub mod rescue_laws;
mod salvages;
mod scan_lines;
mod scans;
mod volumes;
mod words;

pub use faults::{Refusal, RescueFault};
pub use fitting::{FittedVolume, volume_of_what_fits};
pub use lines::put_cut;
pub use pieces::{Piece, PieceKind, form_of, piece_name};
pub use salvages::{Salvage, salvage_image};
pub use scan_lines::MOST_SHOWN;
pub use scans::{Scan, scan_image};
pub use volumes::{KeptFile, volume_of_files};

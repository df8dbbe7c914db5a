//! The index of many images, over any host: which files are read, what each stream gets, and how the command ends.
//!
//! A terminal gets a text whose columns line up, instead of tabs. In each contract a file and an image are the lists of their bytes.
#![tactic(auto)]

mod aligning;
mod columns;
mod found;
mod indexing;
pub mod laws;
mod passed_over;
mod places;
pub mod text_laws;
mod volumes;

pub use columns::LineShape;
pub use indexing::index_images;

//! Files in and out of the image of a volume, by their bytes.
//!
//! What only reads an image is handed its bytes and cannot change them; what changes a file gives the bytes of a new image. In
//! each contract an image is the list of its bytes, and a file is the list of its words.
#![tactic(auto)]

mod asking;
mod checking;
mod copying;
mod deleting;
mod faults;
mod forms;
mod frames;
mod getting;
pub mod laws;
mod listing;
mod long_listing;
mod opening;
pub mod parts;
mod places;
mod putting;
mod renaming;
mod squeezing;
mod tapes;
mod texts;
mod words;

pub use asking::Asked;
pub use checking::check;
pub use copying::copy;
pub use deleting::{DeletedImage, delete};
pub use faults::{ArchiveFault, CopyFault, DeleteFault, RenameFault};
pub use forms::{GetForm, PutForm};
pub use getting::get;
pub use listing::list;
pub use long_listing::list_long;
pub use places::{TextPlace, bad_text_at};
pub use putting::{NewImage, put};
pub use renaming::{RenamedImage, rename};
pub use squeezing::{SqueezedImage, squeeze};

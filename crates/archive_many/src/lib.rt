//! Many files of the image of a volume, got and put at once, by its bytes.
//!
//! In each contract an image is the list of its bytes, and a volume the list of its blocks.
#![tactic(auto)]

mod choosing;
mod copying;
mod cutting;
mod emptying;
mod extensions;
mod faults;
mod host_names;
mod images;
pub mod laws;
mod listing;
mod naming;
mod opened;
mod putting;
mod raw;
mod wishes;

pub use choosing::{at_place, choose_files, file_asked};
pub use copying::copy_all;
pub use cutting::cut_files;
pub use emptying::empties;
pub use extensions::{bad_extensions, is_text};
pub use faults::{BlocksFault, ChoiceFault, CopyAllFault, ManyFault};
pub use host_names::{host_name, volume_name};
pub use listing::list_like;
pub use naming::{copy_name, is_named};
pub use opened::{OpenVolume, VolumeFile, open};
pub use putting::{ManyImage, NewFile, put_all};
pub use raw::blocks_of;
pub use wishes::{Wish, first_unfound, wishes_of};

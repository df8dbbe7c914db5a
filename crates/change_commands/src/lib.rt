//! The commands that change a volume beside `put`, over any host: `create`, `delete`, `rename`, `copy`, `squeeze` and `patch`.
#![tactic(auto)]

mod changes;
mod choosing;
mod copying;
mod creating;
mod deleting;
mod patch_refusals;
mod patches;
mod refusing;

pub use changes::{rename_file, squeeze_files};
pub use copying::copy_files;
pub use creating::{create_disk, create_image, create_tape, create_volume};
pub use deleting::delete_files;
pub use patches::{WordPatch, patch_word};

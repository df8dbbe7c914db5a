//! The commands that show what a volume has, over any host: `list` in all its forms, `check` and `dump`. No image changes.
#![tactic(auto)]

mod checks;
mod dated_lists;
mod dumps;
pub mod laws;
mod leftovers;
mod listing;
mod owners;
mod reports;
mod volumes;

pub use checks::check_images;
pub use dated_lists::{list_chosen, list_dated};
pub use dumps::dump_blocks;
pub use listing::list_some;
pub use reports::{Report, ReportKind};
pub use volumes::{list_files, list_places};

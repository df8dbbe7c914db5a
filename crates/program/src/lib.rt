//! The whole program over any host: the words that it was started with, and what they ask for. Each task is done by its command, and ends as
//! `outcome` says.
#![tactic(auto)]

mod asking;
mod changed;
mod changes;
mod doing;
mod given_words;
mod refused_words;
mod running;
mod words;

pub use asking::change_asked;
pub use changed::image_of;
pub use changes::{Change, change_image, open_within};
pub use doing::{do_task, run_task};
pub use running::run_program;
pub use words::run_words;

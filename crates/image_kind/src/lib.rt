//! What an image file of unknown origin holds: a volume, a disk of two volumes or a DECtape, with bytes that other programs put before or
//! after it. The length says what it may be, and the directory which of these it is. Which of its bytes are whose is decided by what is asked
//! for, else by these. A file that no reader takes as it is can be mended: words of more than twelve bits, and a length of no kind of image.
//!
//! In each contract a file is the list of its bytes.
#![tactic(auto)]

mod directories;
mod heads;
mod judging;
mod kinds;
pub mod laws;
mod lines;
mod margins;
mod mending;
pub mod mending_laws;
mod names;
mod parts;
mod sizes;
pub mod volume_laws;
mod volumes;

pub use judging::{Judgment, judged_kind, keeps_kind, two_readings};
pub use kinds::{Form, ImageKind, Readings, kind_of, readings_of};
pub use lines::{MOST_LINES, mended_text};
pub use margins::{Margins, body_by, body_of, margins_in, margins_with, may_be, parts_of};
pub use mending::{MendedFile, WideWord, mend_file};
pub use parts::PartedFile;
pub use volumes::{Volumes, script_kind, volumes_in, volumes_with};

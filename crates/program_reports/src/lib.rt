//! What the program prints beside a session: its own lines, and what a reader's tape is refused for. It also reads the frames of core images.
#![tactic(auto)]

mod cores;
mod drives;
mod faults;
mod line_ends;
mod prefixes;
mod programs;

pub use cores::core_tape;
pub use drives::DriveRefusal;
pub use faults::SourceFault;
pub use line_ends::with_line_feeds;
pub use prefixes::with_prefix;
pub use programs::{ProgramLine, put_program};

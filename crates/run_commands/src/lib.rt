//! The commands that run the program of a tape, or what a disk boots, over any host: what is read, which machine runs, and what each stream and
//! file gets.
#![tactic(auto)]

mod boots;
mod bootstraps;
mod console_files;
mod core_programs;
mod drives8e;
pub mod laws;
mod lines;
mod machines8e;
mod machines8i;
mod printing;
mod profiles;
mod run_lines;
mod runs;
mod runs8e;
mod teletypes;
mod traces;

pub use boots::boot_disk;
pub use profiles::profile_tape;
pub use teletypes::run_teletype;
pub use traces::trace_tape;

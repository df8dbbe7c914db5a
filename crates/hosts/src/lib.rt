//! What a program may ask of the system that it runs in, what these calls do to files and streams, and files that are written whole or
//! not at all.
#![tactic(auto)]

mod faults;
mod holding;
mod host;
pub mod laws;
mod laying;
mod making;
mod notes;
mod raw;
mod record;
mod recorded;
mod saving;

pub use faults::{
    Durability, FaultClass, HostFault, LinkFault, PrintFault, RenameFault, SaveFault, Stream,
    Unwritten,
};
pub use holding::{Held, hold_file};
pub use host::Host;
pub use laying::lay;
pub use making::{make, make_at};
pub use raw::RawHost;
pub use recorded::Recorded;
pub use saving::{save, save_file, write_over};

//! The files of the disks of an 8/E, of its reader, punch and line printer, and of its transfers, over any host. Which are held and read before a run, how disks come
//! into the drives, and what is saved in the run and at its end.
#![tactic(auto)]

mod consoles;
mod devices;
mod drives;
mod inputs;
pub mod laws;
mod mounting;
mod opening;
mod rounds;
mod saving;

pub use consoles::{Console, console_with};
pub use devices::{
    OpenDevices, PaperPlace, PaperPlaces, open_devices, put_devices, save_papers, take_papers,
};
pub use inputs::{form_of, input_of};
pub use mounting::{Places, disk_of};
pub use opening::{OpenDisk, OpenDrives, SaveRooms, open_drives};
pub use rounds::{Ran, Unsaved, run_rounds};
pub use saving::{earlier, save_drives};

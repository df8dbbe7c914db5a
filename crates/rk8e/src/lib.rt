//! The RK8-E disk control with four RK05 drives: its registers, the functions of the drives and their times, and the packs that
//! are read from files and saved in them (RK8-E, Small Computer Handbook). What the handbook leaves open is as in SIMH's PDP-8.
//!
//! In a step of the machine [`Disk::end`] comes first, then for an instruction [`Disk::pass`] by 1, and then the instruction. A
//! pack takes its memory when it is read, and nothing else here takes any but a save.
#![tactic(auto)]

mod controls;
mod disks;
mod drives;
mod faults;
pub mod laws;
mod moves;
mod packs;
mod sizes;
mod transfers;

pub use disks::{Disk, DiskAnswer};
pub use faults::PackFault;
pub use moves::Moved;
pub use packs::Pack;
pub use sizes::{PACK, SECTOR, SECTORS};

ghost use Rattle.std.specs.Prelude.{◌≡◌, ◌≤◌};
ghost use Rattle.rk8e.specs.State.{new_disk, after_clear};
ghost use Rattle.rk8e.specs.Command.{is_requesting};
ghost use Rattle.rk8e.specs.Time as times;
ghost use Rattle.rk8e.specs.Time.{disk_after, least_time};
ghost use Rattle.rk8e.specs.Transfer as spec;
ghost use Rattle.rk8e.specs.Transfer.{after_ends};

use crate::Moved;
use crate::controls::Control;
use crate::drives::{Drive, end_on};
use core_load::Core;
use std::marker::Model;

mod instructions;
mod packs;

pub use instructions::DiskAnswer;

/// An RK8-E disk control with four RK05 drives (Small Computer Handbook).
#[derive(Drop)]
pub struct Disk {
    control: Control,
    drive0: Drive,
    drive1: Drive,
    drive2: Drive,
    drive3: Drive,
}

impl Model for Disk {
    ghost use Rattle.rk8e.specs.State.{DiskState};

    ghost Value = { DiskState };

    ghost view = { λ d. record {
      control = d.control;
      drive0 = d.drive0;
      drive1 = d.drive1;
      drive2 = d.drive2;
      drive3 = d.drive3;
    } };
}

impl Disk {
    /// A disk whose registers are 0 and whose drives have no pack. An arm takes the seek time for each cylinder that it moves, and
    /// a transfer the disk time beside it, in instructions, each 0 to 1,000,000.
    pub fn new(seek_time: u32, disk_time: u32) -> Disk
        requires seek_time { seek_time ≤ 1000000 }
        requires disk_time { disk_time ≤ 1000000 }
        ensures { result ≡ new_disk seek_time disk_time }
    {
        Disk {
            control: Control::new(seek_time, disk_time),
            drive0: Drive::new(),
            drive1: Drive::new(),
            drive2: Drive::new(),
            drive3: Drive::new(),
        }
    }

    /// Clears the disk, as CAF and a start do. The registers become 0, and no function is under way any more: a transfer then moves
    /// no word. The arms go to cylinder 0. Packs and locks stay (RK8-E, Small Computer Handbook).
    pub fn clear(&mut self)
        ensures { self.new ≡ after_clear self.old }
    {
        self.control.clear();
        self.drive0.clear();
        self.drive1.clear();
        self.drive2.clear();
        self.drive3.clear();
    }

    /// Whether the disk requests an interrupt: its status has done or an error, and its command has interrupt enable. This is a
    /// level, by these two registers alone (RK8-E, Small Computer Handbook).
    #[inline]
    pub fn is_requesting(&self) -> bool
        ensures { result ≡ is_requesting self.now }
    {
        self.control.is_flagged() && self.control.has_interrupt()
    }

    /// Whether a transfer is under way.
    #[inline]
    pub fn is_busy(&self) -> bool
        ensures { result ≡ self.now.control.busy }
    {
        self.control.is_busy
    }

    /// So many instructions pass for what is under way. The last of them is yet to be done: what it begins is not made less by it
    /// (this project's profile).
    pub fn pass(&mut self, count: u32)
        ensures { self.new ≡ disk_after self.old count }
    {
        self.drive0.pass(count);
        self.drive1.pass(count);
        self.drive2.pass(count);
        self.drive3.pass(count);
    }

    /// The least number of instructions until a function ends, if one is under way.
    pub fn least_time(&self) -> Option<u32>
        ensures { result ≡ least_time self.now }
    {
        sooner(
            sooner(self.drive0.time_left, self.drive1.time_left),
            sooner(self.drive2.time_left, self.drive3.time_left),
        )
    }

    /// All that has no time left ends, the drives in rising order: a seek, or a transfer with all its words in this one moment. What
    /// a transfer moved is answered (RK8-E, Small Computer Handbook).
    pub fn end(&mut self, core: &mut Core) -> Option<Moved>
        ensures disk { self.new ≡ (after_ends self.old core.old).disk }
        ensures core { core.new ≡ (after_ends self.old core.old).core }
        ensures moved { result ≡ (after_ends self.old core.old).moved }
    {
        let a = end_on(&mut self.control, 0, &mut self.drive0, core);
        let b = end_on(&mut self.control, 1, &mut self.drive1, core);
        let c = end_on(&mut self.control, 2, &mut self.drive2, core);
        let d = end_on(&mut self.control, 3, &mut self.drive3, core);
        first_of(first_of(a, b), first_of(c, d))
    }
}

/// Of two times the less, where there are both.
fn sooner(a: Option<u32>, b: Option<u32>) -> Option<u32>
    ensures { result ≡ times.sooner a b }
{
    let Some(one) = a else {
        return b;
    };
    let Some(other) = b else {
        return a;
    };
    Some(if one <= other { one } else { other })
}

/// Of two transfers the first, if there is one.
fn first_of(a: Option<Moved>, b: Option<Moved>) -> Option<Moved>
    ensures { result ≡ spec.first_of a b }
{
    match a {
        Some(_) => a,
        None => b,
    }
}

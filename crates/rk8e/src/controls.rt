//! The registers of the control.

ghost use Rattle.std.specs.Prelude.{◌≡◌, ◌<◌, ◌≤◌};
ghost use Rattle.word12.specs.declared.sizes.TheConstants.{CORE};
ghost use Rattle.rk8e.specs.State.{new_control};
ghost use Rattle.rk8e.specs.Command as spec;
ghost use Rattle.rk8e.specs.Command.{function_of, has, has_interrupt, words_moved, drive_number, sector_of, cylinder_of, is_flagged, with_status};
ghost use Rattle.rk8e.specs.Transfer.{cell_of, transfer_of, transfer_done, seek_done};

use crate::Moved;
use std::marker::Model;
use word12::{Cell, Word};

/// Status: a transfer ended, a function was refused, a lock was set, or a seek was begun.
pub(crate) const IS_DONE: u16 = 0o4000;

/// Status: an instruction came while a transfer was under way.
pub(crate) const BUSY_ERROR: u16 = 0o100;

/// Status: a locked drive was to be written.
pub(crate) const LOCK_ERROR: u16 = 0o20;

/// Status: the drive was not ready, or has no such cylinder.
pub(crate) const NOT_READY: u16 = 2;

/// In what DRST gives: the command's drive is not at rest.
pub(crate) const MOVING: u16 = 0o2000;

/// In what DRST gives: the command's drive has no pack.
pub(crate) const ABSENT: u16 = 0o200;

/// Command: the disk may request an interrupt.
const INTERRUPT: u16 = 0o400;

/// Command: a seek sets done at its end too.
const SEEK_DONE: u16 = 0o200;

/// Command: half a sector.
const HALF: u16 = 0o100;

/// The registers, whether a transfer is under way, and the times of the drives.
#[derive(Clone, Copy)]
pub(crate) struct Control {
    pub(crate) command: Word,
    pub(crate) disk_address: Word,
    pub(crate) memory_address: Word,
    pub(crate) status: Word,
    pub(crate) is_busy: bool,
    pub(crate) seek_time: u32,
    pub(crate) disk_time: u32,
}

impl Model for Control {
    ghost use Rattle.std.specs.Prelude.{◌≤◌};
    ghost use Rattle.rk8e.specs.State.{ControlState};

    ghost Value = { ControlState };

    ghost view = { λ c. record {
      command = c.command;
      disk_address = c.disk_address;
      memory_address = c.memory_address;
      status = c.status;
      busy = c.is_busy;
      seek_time = c.seek_time;
      disk_time = c.disk_time;
    } };

    ghost invariant = { λ c. (c.seek_time ≤ 1000000) × (c.disk_time ≤ 1000000) };

    ghost inverse = { λ s. record {
      command = s.command;
      disk_address = s.disk_address;
      memory_address = s.memory_address;
      status = s.status;
      is_busy = s.busy;
      seek_time = s.seek_time;
      disk_time = s.disk_time;
    } };
}

/// Whether the bit that is worth this much is set.
#[inline]
fn has(word: Word, worth: u16) -> bool
    requires { 0 < worth }
    ensures { result ≡ has word worth }
{
    word.get() / worth % 2 == 1
}

impl Control {
    /// Registers that are 0.
    pub(crate) fn new(seek_time: u32, disk_time: u32) -> Control
        requires seek_time { seek_time ≤ 1000000 }
        requires disk_time { disk_time ≤ 1000000 }
        ensures { result ≡ new_control seek_time disk_time }
    {
        Control {
            command: Word::ZERO,
            disk_address: Word::ZERO,
            memory_address: Word::ZERO,
            status: Word::ZERO,
            is_busy: false,
            seek_time,
            disk_time,
        }
    }

    /// The registers become 0.
    pub(crate) fn clear(&mut self)
        ensures { self.new ≡ new_control self.old.seek_time self.old.disk_time }
    {
        *self = Control::new(self.seek_time, self.disk_time);
    }

    /// The command's function, 0 to 7.
    pub(crate) fn function(&self) -> u8
        ensures { result ≡ function_of self.now }
    {
        (self.command.get() / 0o1000) as u8
    }

    /// How many words a transfer moves.
    pub(crate) fn words_moved(&self) -> u16
        ensures value { result ≡ words_moved self.now }
        ensures range { result ≤ 256 }
    {
        if has(self.command, HALF) {
            0o200
        } else {
            0o400
        }
    }

    /// The command's drive, 0 to 3.
    pub(crate) fn drive_number(&self) -> u8
        ensures value { result ≡ drive_number self.now }
        ensures range { result < 4 }
    {
        (self.command.get() / 2 % 4) as u8
    }

    /// The sector, 0 to 0o17777.
    pub(crate) fn sector(&self) -> usize
        ensures value { result ≡ sector_of self.now }
        ensures range { result < 0o20000 }
    {
        0o10000 * usize::from(self.command.get() % 2) + usize::from(self.disk_address.get())
    }

    /// The cylinder of the sector, 0 to 255.
    pub(crate) fn cylinder(&self) -> u8
        ensures { result ≡ cylinder_of self.now }
    {
        (self.sector() / 32) as u8
    }

    /// The cell of a word of the transfer.
    pub(crate) fn cell(&self, k: u16) -> Cell
        ensures value { result ≡ cell_of self.now k }
        ensures range { result < CORE }
        ensures address { self.now.memory_address < 0o10000 }
    {
        let field = (self.command.get() / 0o10 % 8) as u8;
        let _address = self.memory_address.get();
        Cell::at(field, self.memory_address.plus(Word::low(k)))
    }

    /// Sets a bit of the status.
    pub(crate) fn set_status(&mut self, bits: u16)
        requires { bits < 0o10000 }
        ensures { self.new ≡ with_status self.old bits }
    {
        self.status = self.status.or(Word::low(bits));
    }

    /// Whether the status has done or an error.
    #[inline]
    pub(crate) fn is_flagged(&self) -> bool
        ensures { result ≡ is_flagged self.now }
    {
        has(self.status, IS_DONE)
            || has(self.status, BUSY_ERROR)
            || has(self.status, LOCK_ERROR)
            || has(self.status, NOT_READY)
    }

    /// Whether the disk may request an interrupt.
    #[inline]
    pub(crate) fn has_interrupt(&self) -> bool
        ensures { result ≡ has_interrupt self.now }
    {
        has(self.command, INTERRUPT)
    }

    /// A seek of this drive ends.
    pub(crate) fn end_seek(&mut self, number: u8)
        ensures { self.new ≡ seek_done self.old number }
    {
        if self.drive_number() == number && has(self.command, SEEK_DONE) {
            self.set_status(IS_DONE);
        }
    }

    /// A transfer ends.
    pub(crate) fn end_transfer(&mut self)
        ensures { self.new ≡ transfer_done self.old }
    {
        self.set_status(IS_DONE);
        self.memory_address = self.memory_address.plus(Word::low(self.words_moved()));
        self.is_busy = false;
    }

    /// What a transfer of this function moves.
    pub(crate) fn transfer(&self, function: u8) -> Option<Moved>
        ensures { result ≡ transfer_of self.now function }
    {
        let is_write = is_write(function);
        if function <= 1 || is_write {
            Some(Moved {
                drive: self.drive_number(),
                sector: self.sector() as u16,
                cell: self.cell(0),
                words: self.words_moved(),
                is_write,
            })
        } else {
            None
        }
    }
}

/// Whether a function writes.
pub(crate) fn is_write(function: u8) -> bool
    ensures { result ≡ spec.is_write function }
{
    function == 4 || function == 5
}

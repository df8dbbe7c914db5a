//! The instructions 6741 to 6747.

ghost use Rattle.std.specs.Prelude.{◌≡◌, ◌<◌, is_some, is_none};
ghost use Rattle.rk8e.specs.State.{drive_of};
ghost use Rattle.rk8e.specs.Command.{drive_number};
ghost use Rattle.rk8e.specs.Go.{go};
ghost use Rattle.rk8e.specs.Instructions.{instruction_row, instruction_skips, instruction_ac, dclr_row, dlag_row, dlca_row, dldc_row, status_word, status_cleared, control_cleared, after_recalibration};

use super::Disk;
use crate::controls::{ABSENT, BUSY_ERROR, MOVING};
use crate::drives::begin;
use word12::Word;

/// What an instruction answers.
#[derive(Clone, Copy, PartialEq, Eq, Debug)]
pub struct DiskAnswer {
    /// AC after the instruction.
    pub ac: Word,
    /// Whether the next instruction is skipped.
    pub skips: bool,
}

impl Disk {
    /// The instruction 674x of this last digit, 0 to 7, with this AC (RK8-E, Small Computer Handbook): DSKP 1, DCLR 2, DLAG 3, DLCA
    /// 4, DRST 5, DLDC 6, DMAN 7. DMAN only makes AC 0, and 6740 does nothing, as in SIMH's PDP-8.
    pub fn do_instruction(&mut self, pulses: u8, ac: Word) -> DiskAnswer
        ensures state { self.new ≡ instruction_row self.old pulses ac }
        ensures ac { result.ac ≡ instruction_ac self.old pulses ac }
        ensures skips { result.skips ≡ instruction_skips self.old pulses }
        ensures range { result.ac < 0o10000 }
    {
        let skips = pulses == 1 && self.control.is_flagged();
        let answer = match pulses {
            0 | 1 => ac,
            5 => self.status_word(),
            _ => Word::ZERO,
        };
        self.change_state(pulses, ac);
        DiskAnswer { ac: answer, skips }
    }

    /// What an instruction does to the disk.
    fn change_state(&mut self, pulses: u8, ac: Word)
        ensures { self.new ≡ instruction_row self.old pulses ac }
    {
        match pulses {
            2 => self.clear_by_ac(ac),
            3 => self.load_disk_address(ac),
            4 => self.load_memory_address(ac),
            6 => self.load_command(ac),
            _ => {}
        }
    }

    /// What DRST gives.
    fn status_word(&self) -> Word
        ensures value { result ≡ status_word self.now }
        ensures range { result < 0o10000 }
    {
        let mut status = self.control.status;
        if self.is_absent() {
            status = status.or(Word::low(ABSENT));
        }
        if self.is_moving() {
            status = status.or(Word::low(MOVING));
        }
        let _number = status.get();
        status
    }

    /// Whether the command's drive has no pack.
    fn is_absent(&self) -> bool
        ensures { result ≡ is_none (drive_of self.now (drive_number self.now.control)).pack }
    {
        match self.control.drive_number() {
            0 => self.drive0.pack.is_none(),
            1 => self.drive1.pack.is_none(),
            2 => self.drive2.pack.is_none(),
            _ => self.drive3.pack.is_none(),
        }
    }

    /// Whether the command's drive is not at rest.
    fn is_moving(&self) -> bool
        ensures { result ≡ is_some (drive_of self.now (drive_number self.now.control)).time_left }
    {
        match self.control.drive_number() {
            0 => self.drive0.time_left.is_some(),
            1 => self.drive1.time_left.is_some(),
            2 => self.drive2.time_left.is_some(),
            _ => self.drive3.time_left.is_some(),
        }
    }

    /// DCLR.
    fn clear_by_ac(&mut self, ac: Word)
        ensures { self.new ≡ dclr_row self.old ac }
    {
        match ac.get() % 4 {
            0 => self.clear_status(),
            1 => self.clear_control(),
            2 => self.recalibrate(),
            _ => self.control.status = Word::ZERO,
        }
    }

    /// The status becomes 0, or the busy error.
    fn clear_status(&mut self)
        ensures { self.new ≡ status_cleared self.old }
    {
        self.control.status = Word::ZERO;
        if self.control.is_busy {
            self.control.set_status(BUSY_ERROR);
        }
    }

    /// The registers become 0, and each drive is at rest.
    fn clear_control(&mut self)
        ensures { self.new ≡ control_cleared self.old }
    {
        self.control.clear();
        self.drive0.rest();
        self.drive1.rest();
        self.drive2.rest();
        self.drive3.rest();
    }

    /// The command's drive seeks cylinder 0.
    fn recalibrate(&mut self)
        ensures { self.new ≡ after_recalibration self.old }
    {
        self.clear_status();
        if !self.control.is_busy {
            self.go(3, 0);
        }
    }

    /// DLAG.
    fn load_disk_address(&mut self, ac: Word)
        ensures { self.new ≡ dlag_row self.old ac }
    {
        if self.control.is_busy {
            self.control.set_status(BUSY_ERROR);
            return;
        }
        self.control.disk_address = ac;
        let function = self.control.function();
        let cylinder = self.control.cylinder();
        self.go(function, cylinder);
    }

    /// DLCA.
    fn load_memory_address(&mut self, ac: Word)
        ensures { self.new ≡ dlca_row self.old ac }
    {
        if self.control.is_busy {
            self.control.set_status(BUSY_ERROR);
        } else {
            self.control.memory_address = ac;
        }
    }

    /// DLDC.
    fn load_command(&mut self, ac: Word)
        ensures { self.new ≡ dldc_row self.old ac }
    {
        if self.control.is_busy {
            self.control.set_status(BUSY_ERROR);
        } else {
            self.control.command = ac;
            self.control.status = Word::ZERO;
        }
    }

    /// The command's drive begins a function.
    fn go(&mut self, function: u8, cylinder: u8)
        ensures { self.new ≡ go self.old function cylinder }
    {
        match self.control.drive_number() {
            0 => begin(&mut self.control, &mut self.drive0, function, cylinder),
            1 => begin(&mut self.control, &mut self.drive1, function, cylinder),
            2 => begin(&mut self.control, &mut self.drive2, function, cylinder),
            _ => begin(&mut self.control, &mut self.drive3, function, cylinder),
        }
    }
}

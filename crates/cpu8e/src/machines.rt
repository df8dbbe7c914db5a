ghost use Rattle.std.specs.Prelude.{◌≡◌};
ghost use Rattle.std.specs.Borrow.{sem};
ghost use Rattle.cpu8e.specs.State.{new_machine, after_start, device_answered, key_struck, printer_done, switches_set, with_core, with_request};
ghost use Rattle.cpu8e.specs.Step.{step};

use crate::processors::Processor;
use core_load::Core;
use cpu8::Stepped;
use std::marker::Model;
use word12::{Cell, Word};

mod registers;
mod runs;

/// A PDP-8/E with 0o100000 words of core, a KM8-E memory extension, a KL8-E console and no EAE (Small Computer Handbook).
#[derive(Drop)]
pub struct Machine {
    core: Core,
    processor: Processor,
}

impl Model for Machine {
    ghost use Rattle.cpu8e.specs.State.{State8e, with_core};

    ghost Value = { State8e };

    ghost view = { λ m. with_core m.processor m.core };
}

impl Machine {
    ghost use Rattle.cpu8e.specs.Lending.{LendsCore};

    /// A machine with this core, stopped, with all registers and flags 0. The console's flags may request interrupts.
    pub fn new(core: Core) -> Machine
        ensures { result ≡ new_machine core }
    {
        Machine {
            core,
            processor: Processor::new(),
        }
    }

    /// Starts the machine at a cell. PC is the cell's address, and the three fields are its field. Core, MQ and the switches stay.
    /// All else is as in a new machine (this project's profile).
    pub fn start(&mut self, cell: Cell)
        ensures { self.new ≡ after_start self.old cell }
    {
        self.processor.start(cell);
    }

    /// A key is struck, of this eight-bit character: it goes to the keyboard's buffer, also over one that was not read, and sets
    /// the keyboard flag.
    pub fn key(&mut self, character: u8)
        ensures { self.new ≡ key_struck self.old character }
    {
        self.processor.base.teletype.key(character);
    }

    /// The printer ends a character: where it is busy it no longer is, and the printer flag is set. Else nothing changes.
    pub fn end_character(&mut self)
        ensures { self.new ≡ printer_done self.old }
    {
        self.processor.base.teletype.end_character();
    }

    /// Sets the switch register.
    pub fn switches(&mut self, word: Word)
        ensures { self.new ≡ switches_set self.old word }
    {
        self.processor.base.switches = word;
    }

    /// Devices beside the console request an interrupt, or none does any more. The request stands until this is said again or the
    /// machine is started (Small Computer Handbook).
    #[inline]
    pub fn request_interrupt(&mut self, flag: bool)
        ensures { self.new ≡ with_request self.old flag }
    {
        self.processor.device_request = flag;
    }

    /// A device beside the console does the IOT at PC. AC becomes this word, and PC goes on by one, or by two where the instruction
    /// skips. A waiting ION is over (Small Computer Handbook).
    #[inline]
    pub fn answer_device(&mut self, ac: Word, skips: bool)
        ensures { self.new ≡ device_answered self.old ac skips }
    {
        self.processor.answer_device(ac, skips);
    }

    /// Core, to be examined.
    #[inline]
    pub fn core(&self) -> &Core
        ensures { result.now ≡ self.now.base.core }
    {
        &self.core
    }

    /// Core, to be deposited in or loaded. The registers and flags stay.
    #[inline]
    pub fn core_mut(&mut self) -> &mut Core
        ensures* writes_back { sem 𝓛 (LendsCore self.entry result) }
        ensures value { result.now ≡ self.old.base.core }
    {
        &mut self.core
    }

    /// One step: nothing where the machine is stopped, else an interrupt where a request is granted, else the instruction at PC in
    /// the instruction field (Small Computer Handbook). No word is unassigned.
    pub fn step(&mut self) -> Stepped
        ensures state { self.new ≡ (step self.old).0 }
        ensures answer { result ≡ (step self.old).1 }
    {
        self.processor.step(&mut self.core)
    }
}

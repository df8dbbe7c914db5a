ghost use Rattle.std.specs.Prelude.{◌≡◌, []};
ghost use Rattle.std.specs.Borrow.{sem};
ghost use Rattle.cpu8.specs.State.{new_machine, after_start, key_struck, printer_done, switches_set, with_core};
ghost use Rattle.cpu8.specs.Step.{step};

use crate::Stepped;
use crate::processors::Processor;
use core_load::Core;
use std::marker::Model;
use word12::{Cell, Word};

mod registers;
mod runs;

/// A PDP-8/I with 0o100000 words of core, MC8 extended memory and a Teletype (Small Computer Handbook).
#[derive(Drop)]
pub struct Machine {
    core: Core,
    processor: Processor,
}

impl Model for Machine {
    ghost use Rattle.cpu8.specs.State.{State, with_core};

    ghost Value = { State };

    ghost view = { λ m. with_core m.processor m.core };
}

impl Machine {
    ghost use Rattle.cpu8.specs.Lending.{LendsCore};

    /// A machine with this core, stopped, with all registers and flags 0.
    pub fn new(core: Core) -> Machine
        ensures { result ≡ new_machine core }
    {
        Machine {
            core,
            processor: Processor::new(),
        }
    }

    /// Starts the machine at a cell. AC, L, the flags, busy, the save field, waiting and holding off become 0, and
    /// interrupts go off. PC is the cell's address, and the three fields are its field. Core, the keyboard's buffer and
    /// the switches stay (this project's profile).
    pub fn start(&mut self, cell: Cell)
        ensures { self.new ≡ after_start self.old cell }
    {
        self.processor.start(cell);
    }

    /// A key is struck, of this eight-bit character: it goes to the keyboard's buffer, also over one that was not
    /// read, and sets the keyboard flag.
    pub fn key(&mut self, character: u8)
        ensures { self.new ≡ key_struck self.old character }
    {
        self.processor.teletype.key(character);
    }

    /// The printer ends a character: where it is busy it no longer is, and the printer flag is set. Else nothing changes.
    pub fn end_character(&mut self)
        ensures { self.new ≡ printer_done self.old }
    {
        self.processor.teletype.end_character();
    }

    /// Sets the switch register.
    pub fn switches(&mut self, word: Word)
        ensures { self.new ≡ switches_set self.old word }
    {
        self.processor.switches = word;
    }

    /// The registers, the flags and the Teletype. A contract sees a state with no words of core.
    #[inline]
    pub fn registers(&self) -> Processor
        ensures { result ≡ with_core self.now [] }
    {
        Processor {
            l: self.processor.l,
            ..self.processor
        }
    }

    /// Gives the machine these registers, flags and Teletype. Core stays.
    #[inline]
    pub fn set_registers(&mut self, registers: Processor)
        ensures { self.new ≡ with_core registers self.old.core }
    {
        self.processor = registers;
    }

    /// Core, to be examined.
    #[inline]
    pub fn core(&self) -> &Core
        ensures { result.now ≡ self.now.core }
    {
        &self.core
    }

    /// Core, to be deposited in or loaded. The registers and flags stay.
    #[inline]
    pub fn core_mut(&mut self) -> &mut Core
        ensures* writes_back { sem 𝓛 (LendsCore self.entry result) }
        ensures value { result.now ≡ self.old.core }
    {
        &mut self.core
    }

    /// One step: nothing where the machine is stopped, else an interrupt where a request is granted, else the instruction
    /// at PC in the instruction field (Small Computer Handbook).
    pub fn step(&mut self) -> Stepped
        ensures state { self.new ≡ (step self.old).0 }
        ensures answer { result ≡ (step self.old).1 }
    {
        self.processor.step(&mut self.core)
    }
}

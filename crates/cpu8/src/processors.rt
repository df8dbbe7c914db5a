//! The processor without core.

ghost use Rattle.std.specs.Prelude.{◌≡◌, ◌<◌, []};
ghost use Rattle.word12.specs.declared.sizes.TheConstants.{CORE};
ghost use Rattle.cpu8.specs.State.{after_start, next_cell, new_machine, grants_interrupt, with_core};
ghost use Rattle.cpu8.specs.Step.{after_instruction, after_interrupt, step};

use crate::Stepped;
use crate::decoding::{Operation, operation_of};
use crate::outcomes::RAN;
use core_load::Core;
use std::marker::Model;
use tty8::Teletype;
use word12::{Cell, Word};

mod operates;
pub(crate) mod quiet;
mod references;
mod transfers;

/// All of a machine but its core: the registers, the flags and the Teletype. A contract sees a state with no words of
/// core.
#[derive(Clone, Copy)]
pub struct Processor {
    pub(crate) teletype: Teletype,
    pub(crate) l: u8,
    pub(crate) ac: Word,
    pub(crate) pc: Word,
    pub(crate) instruction_field: u8,
    pub(crate) instruction_buffer: u8,
    pub(crate) data_field: u8,
    pub(crate) save_field: u8,
    pub(crate) switches: Word,
    pub(crate) running: bool,
    pub(crate) interrupts_on: bool,
    pub(crate) waiting: bool,
    pub(crate) held_off: bool,
}

impl Model for Processor {
    ghost use Rattle.std.specs.Prelude.{◌<◌, []};
    ghost use Rattle.cpu8.specs.State.{State};

    ghost Value = { State };

    ghost view = { λ p. record {
      core = [];
      l = p.l;
      ac = p.ac;
      pc = p.pc;
      instruction_field = p.instruction_field;
      instruction_buffer = p.instruction_buffer;
      data_field = p.data_field;
      save_field = p.save_field;
      switches = p.switches;
      running = p.running;
      interrupts_on = p.interrupts_on;
      waiting = p.waiting;
      held_off = p.held_off;
      teletype = p.teletype;
    } };

    ghost inverse = { λ s. record {
      teletype = s.teletype;
      l = s.l;
      ac = s.ac;
      pc = s.pc;
      instruction_field = s.instruction_field;
      instruction_buffer = s.instruction_buffer;
      data_field = s.data_field;
      save_field = s.save_field;
      switches = s.switches;
      running = s.running;
      interrupts_on = s.interrupts_on;
      waiting = s.waiting;
      held_off = s.held_off;
    } };

    ghost invariant = { λ p. (p.l < 2) × (p.instruction_field < 8) × (p.instruction_buffer < 8)
        × (p.data_field < 8) × (p.save_field < 0o100) };
}

impl Processor {
    /// A processor that is stopped, with all registers and flags 0.
    pub(crate) fn new() -> Processor
        ensures { result ≡ new_machine [] }
    {
        Processor {
            teletype: Teletype::new(),
            l: 0,
            ac: Word::ZERO,
            pc: Word::ZERO,
            instruction_field: 0,
            instruction_buffer: 0,
            data_field: 0,
            save_field: 0,
            switches: Word::ZERO,
            running: false,
            interrupts_on: false,
            waiting: false,
            held_off: false,
        }
    }

    pub(crate) fn start(&mut self, cell: Cell)
        ensures { self.new ≡ after_start self.old cell }
    {
        let field = cell.field();
        self.teletype.clear();
        self.l = 0;
        self.ac = Word::ZERO;
        self.pc = cell.address();
        self.instruction_field = field;
        self.instruction_buffer = field;
        self.data_field = field;
        self.save_field = 0;
        self.running = true;
        self.interrupts_on = false;
        self.waiting = false;
        self.held_off = false;
    }

    #[inline(always)]
    pub(crate) fn next_cell(&self) -> Cell
        ensures value { result ≡ next_cell self.now }
        ensures range { result < CORE }
    {
        Cell::at(self.instruction_field, self.pc)
    }

    /// One step over this core.
    #[tactic(auto, unfolding(crate::specs::Step::step))]
    pub(crate) fn step(&mut self, core: &mut Core) -> Stepped
        ensures state { with_core self.new core.new ≡ (step (with_core self.old core.old)).0 }
        ensures answer { result ≡ (step (with_core self.old core.old)).1 }
    {
        if !self.running {
            return Stepped::Stopped;
        }
        if self.grants_interrupt() {
            self.interrupt(core);
            return Stepped::Interrupted;
        }
        let word = core.get(self.next_cell());
        self.execute(core, word)
    }

    /// Whether an interrupt comes in place of the next instruction.
    #[inline(always)]
    fn grants_interrupt(&self) -> bool
        ensures { result ≡ grants_interrupt self.now }
    {
        self.interrupts_on && !self.waiting && !self.held_off && self.teletype.requests()
    }

    /// An interrupt: PC is stored in cell 0 of field 0, and the program goes on at the cell after it with interrupts
    /// off.
    #[inline(always)]
    fn interrupt(&mut self, core: &mut Core)
        ensures { with_core self.new core.new ≡ after_interrupt (with_core self.old core.old) }
    {
        core.set(Cell::at(0, Word::ZERO), self.pc);
        self.pc = Word::ONE;
        self.interrupts_on = false;
        self.save_field = 8 * self.instruction_field + self.data_field;
        self.instruction_field = 0;
        self.instruction_buffer = 0;
        self.data_field = 0;
    }

    /// An instruction of this word.
    #[tactic(auto, unfolding(crate::specs::Step::after_instruction))]
    #[inline(always)]
    fn execute(&mut self, core: &mut Core, word: Word) -> Stepped
        ensures state { with_core self.new core.new ≡ (after_instruction (with_core self.old core.old) word).0 }
        ensures answer { result ≡ (after_instruction (with_core self.old core.old) word).1 }
    {
        match operation_of(word) {
            Operation::And => self.and(core, word),
            Operation::Tad => self.tad(core, word),
            Operation::Isz => self.isz(core, word),
            Operation::Dca => self.dca(core, word),
            Operation::Jms => self.jms(core, word),
            Operation::Jmp => self.jmp(core, word),
            Operation::Iot => return self.transfer(word),
            Operation::Opr => return self.operate(word),
        }
        RAN
    }
}

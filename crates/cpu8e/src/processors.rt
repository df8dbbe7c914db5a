//! The processor without core.

ghost use Rattle.std.specs.Prelude.{◌≡◌, []};
ghost use Rattle.cpu8e.specs.State.{State8e, after_start, new_machine, is_requested, grants_interrupt, with_core};
ghost use Rattle.cpu8e.specs.Step.{after_instruction, after_interrupt, step};

use crate::base::Base;
use core_load::Core;
use cpu8::Stepped;
use std::marker::Model;
use word12::{Cell, Word};

mod consoles;
mod controls;
mod fields;
mod operates;
mod quick;
mod rows;

/// All of a machine but its core. A contract sees a state with no words of core.
#[derive(Clone, Copy)]
pub(crate) struct Processor {
    pub(crate) base: Base,
    pub(crate) mq: Word,
    pub(crate) user_flag: bool,
    pub(crate) user_buffer: bool,
    pub(crate) saved_user_flag: bool,
    pub(crate) user_request: bool,
    pub(crate) console_enabled: bool,
    pub(crate) device_request: bool,
}

impl Model for Processor {
    ghost use Rattle.cpu8e.specs.State.{State8e};

    ghost Value = { State8e };

    ghost view = { λ p. record {
      base = p.base;
      mq = p.mq;
      user_flag = p.user_flag;
      user_buffer = p.user_buffer;
      saved_user_flag = p.saved_user_flag;
      user_request = p.user_request;
      console_enabled = p.console_enabled;
      device_request = p.device_request;
    } };

    ghost inverse = { λ s. record {
      base = s.base;
      mq = s.mq;
      user_flag = s.user_flag;
      user_buffer = s.user_buffer;
      saved_user_flag = s.saved_user_flag;
      user_request = s.user_request;
      console_enabled = s.console_enabled;
      device_request = s.device_request;
    } };
}

impl Processor {
    /// A processor that is stopped, as in a new machine.
    pub(crate) fn new() -> Processor
        ensures { result ≡ new_machine [] }
    {
        Processor {
            base: Base::new(),
            mq: Word::ZERO,
            user_flag: false,
            user_buffer: false,
            saved_user_flag: false,
            user_request: false,
            console_enabled: true,
            device_request: false,
        }
    }

    pub(crate) fn start(&mut self, cell: Cell)
        ensures { self.new ≡ after_start self.old cell }
    {
        self.base.start(cell);
        self.user_flag = false;
        self.user_buffer = false;
        self.saved_user_flag = false;
        self.user_request = false;
        self.console_enabled = true;
        self.device_request = false;
    }

    /// One step over this core.
    #[tactic(auto, unfolding(crate::specs::Step::step))]
    pub(crate) fn step(&mut self, core: &mut Core) -> Stepped
        ensures state { with_core self.new core.new ≡ (step (with_core self.old core.old)).0 }
        ensures answer { result ≡ (step (with_core self.old core.old)).1 }
    {
        if !self.base.running {
            return Stepped::Stopped;
        }
        if self.grants_interrupt() {
            self.interrupt(core);
            return Stepped::Interrupted;
        }
        let word = core.get(self.base.next_cell());
        self.execute(core, word)
    }

    /// Whether an interrupt is requested.
    #[inline(always)]
    fn is_requested(&self) -> bool
        ensures { result ≡ is_requested self.now }
    {
        let others = self.user_request || self.device_request;
        others || self.console_enabled && self.base.teletype.requests()
    }

    /// Whether an interrupt comes in place of the next instruction.
    #[inline(always)]
    pub(crate) fn grants_interrupt(&self) -> bool
        ensures { result ≡ grants_interrupt self.now }
    {
        let base = &self.base;
        base.interrupts_on && !base.waiting && !base.held_off && self.is_requested()
    }

    /// An interrupt, by which the processor leaves user mode.
    #[inline(always)]
    fn interrupt(&mut self, core: &mut Core)
        ensures { with_core self.new core.new ≡ after_interrupt (with_core self.old core.old) }
    {
        self.base.interrupt(core);
        self.saved_user_flag = self.user_flag;
        self.user_flag = false;
        self.user_buffer = false;
    }
}

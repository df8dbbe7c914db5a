//! An instruction, by its word.

ghost use Rattle.std.specs.Prelude.{◌≡◌, ◌<◌, None};
ghost use Rattle.cpu8.specs.State as Pdp8i;
ghost use Rattle.cpu8.specs.Step as Steps8i;
ghost use Rattle.cpu8.specs.declared.outcomes.Stepped.TheVariants.{Ran};
ghost use Rattle.cpu8e.specs.State.{device_answered, with_core};
ghost use Rattle.cpu8e.specs.Step.{after_instruction, device_row, transfer_row};

use super::Processor;
use crate::base::Base;
use core_load::Core;
use cpu8::Stepped;
use word12::Word;

impl Processor {
    /// An instruction of this word.
    #[tactic(auto, unfolding(crate::specs::Step::after_instruction))]
    #[inline(always)]
    pub(super) fn execute(&mut self, core: &mut Core, word: Word) -> Stepped
        ensures state { with_core self.new core.new ≡ (after_instruction (with_core self.old core.old) word).0 }
        ensures answer { result ≡ (after_instruction (with_core self.old core.old) word).1 }
    {
        let operation = word.get() / 0o1000;
        if operation == 6 {
            return self.transfer(word);
        }
        if operation == 7 {
            return self.operate(word);
        }
        self.base.refer(core, word);
        if operation >= 4 {
            self.user_flag = self.user_buffer;
        }
        Stepped::Ran { printed: None }
    }

    /// An IOT that a device beside the console does.
    #[inline(always)]
    pub(crate) fn answer_device(&mut self, ac: Word, skips: bool)
        ensures { self.new ≡ device_answered self.old ac skips }
    {
        self.base.skip(skips);
        self.base.ac = ac;
    }

    /// An IOT. In user mode none is done: the user request is set instead.
    #[inline(always)]
    fn transfer(&mut self, word: Word) -> Stepped
        ensures state { self.new ≡ (transfer_row self.old word).0 }
        ensures answer { result ≡ (transfer_row self.old word).1 }
    {
        if self.user_flag {
            self.base.advance();
            self.user_request = true;
            return Stepped::Ran { printed: None };
        }
        self.transfer_by_device(word)
    }

    #[inline(always)]
    fn transfer_by_device(&mut self, word: Word) -> Stepped
        ensures state { self.new ≡ (device_row self.old word).0 }
        ensures answer { result ≡ (device_row self.old word).1 }
    {
        match word.get() / 0o10 % 0o100 {
            0o00 => self.control(word),
            0o03 => self.read_keyboard(word),
            0o04 => return self.print(word),
            0o20..0o30 => self.extend(word),
            _ => self.base.advance(),
        }
        Stepped::Ran { printed: None }
    }
}

impl Base {
    /// A reference to memory, JMS or JMP.
    #[tactic(auto, unfolding(cpu8::specs::Step::after_instruction))]
    #[inline(always)]
    fn refer(&mut self, core: &mut Core, word: Word)
        requires { word < 0o6000 }
        ensures state { Pdp8i.with_core self.new core.new
            ≡ (Steps8i.after_instruction (Pdp8i.with_core self.old core.old) word).0 }
        ensures answer { Ran None ≡ (Steps8i.after_instruction (Pdp8i.with_core self.old core.old) word).1 }
    {
        match word.get() / 0o1000 {
            0 => self.and(core, word),
            1 => self.tad(core, word),
            2 => self.isz(core, word),
            3 => self.dca(core, word),
            4 => self.jms(core, word),
            _ => self.jmp(core, word),
        }
    }
}

//! The quick loops: steps that need no look at the Teletype. Most steps of a run are such.
//!
//! A loop works on a copy of the processor, which the compiler keeps in registers of the host. For that every function here
//! is inlined. What comes seldom is left to the plain step.
//!
//! A step jumps by the five leading bits of its word, and an operate once more by its whole word. The code at which each jump ends
//! is compiled for those bits, and tests them no more.
//!
//! There are four loops: without breaks, with breaks, with counts, and with IOTs. The compiler inlines what is called once, so a
//! large function stands in the program once for each loop. The loops differ by its parameters: MINDS, whether breaks are minded;
//! COUNTS, whether fetches are counted; TRANSFERS, whether IOTs are among the steps.

ghost use Rattle.std.specs.Prelude.{◌≡◌, ◌-◌, ◌<◌, ◌≤◌, ◌/◌, true, false, nat_eq, length};
ghost use Rattle.word12.specs.declared.sizes.TheConstants.{CORE};
ghost use Rattle.cpu8.specs.State.{next_cell, with_core};
ghost use Rattle.cpu8.specs.Decoding.{is_absent};
ghost use Rattle.cpu8.specs.Step.{next_word};
ghost use Rattle.cpu8.specs.Transfer.{read_row};
ghost use Rattle.cpu8.specs.Go.{after, is_break};
ghost use Rattle.cpu8.specs.Fetches.{AddsFetches, HaveRoom};
ghost use Rattle.cpu8.specs.Unasked.{AreUnasked, finds_no_key, is_ksf};
ghost use Rattle.cpu8.specs.QuietSteps.{AreMinded, AreQuiet, Does, DoesOrNot, GoesOrNot, MakesOrNot, is_quiet, is_settled, operates_on};

use super::Processor;
use crate::decoding::{
    Device, GROUP_2_OR_3, Operation, device_of, field_of, has, is_absent, operation_of, pulses_of,
};
use core_load::Core;
use word12::{Cell, FIELD, Word};

/// Does an instruction by a method, whose code is compiled for each word of the list by itself. Another word is done as the `else`
/// says.
macro_rules! each_for_itself {
    ($processor:ident, $does:ident, $core:ident, $word:ident: $($one:literal)*; else $other:expr) => {
        match $word.get() {
            $($one => $processor.$does($core, Word::low($one)),)*
            _ => $other,
        }
    };
}

/// Does a reference to memory, whose code is compiled for each of the five leading bits of the list. Another instruction is done
/// as its arm says.
macro_rules! refer_or_else {
    ($processor:ident, $core:ident, $word:ident: $($bits:literal)*; $($other:pat => $does:expr,)*) => {
        match $word.get() / 0o200 {
            $($bits => $processor.refer($core, leading($bits, $word)),)*
            $($other => $does,)*
        }
    };
}

impl Processor {
    /// Whether the machine runs, no interrupt request can be granted, and a quick printer has no character to end.
    #[inline(always)]
    pub(crate) fn is_quiet(&self, quick: bool) -> bool
        ensures { result ≡ is_quiet quick self.now }
    {
        let interrupts = self.interrupts_on && self.teletype.requests();
        let ends = quick && self.teletype.is_busy();
        self.running && !interrupts && !ends
    }

    /// Whether no field and no interrupt waits for an instruction.
    #[inline(always)]
    pub(crate) fn is_settled(&self) -> bool
        ensures { result ≡ is_settled self.now }
    {
        self.instruction_buffer == self.instruction_field && !self.waiting && !self.held_off
    }

    /// The same processor, with what is settled written as constants, by which the compiler knows it.
    #[inline(always)]
    pub(crate) fn with_settled_state(self) -> Processor
        requires { is_settled self ≡ true }
        ensures { result ≡ self }
    {
        Processor {
            instruction_buffer: self.instruction_field,
            waiting: false,
            held_off: false,
            ..self
        }
    }

    /// Makes up to n steps, and answers how many. It ends where a step is not quiet, and where a break is ahead. If it asks, it
    /// also ends at a KSF that finds the keyboard flag clear, and at an IOT of a device that isn't there. Else the last step may be
    /// any IOT that prints nothing. No step leaves the instruction field, so breaks of other fields need not be minded.
    #[inline(always)]
    pub(crate) fn run_quietly<const MINDS: bool>(
        &mut self,
        core: &mut Core,
        n: usize,
        quick: bool,
        asks: bool,
        breaks: &[bool],
    ) -> usize
        requires quiet { is_quiet quick self.old ≡ true }
        requires field { self.old.instruction_buffer ≡ self.old.instruction_field }
        requires breaks { AreMinded breaks.now self.old.instruction_field MINDS }
        ensures within { result ≤ n }
        ensures state { with_core self.new core.new ≡ after quick result (with_core self.old core.old) }
        ensures quiet { AreQuiet quick breaks.now (with_core self.old core.old) result }
        ensures unasked { quick ≡ true → asks ≡ true → AreUnasked (with_core self.old core.old) result }
    {
        n - self.make_quiet_steps::<MINDS>(core, n, quick, asks, breaks)
    }

    /// Makes up to n steps in the same way, and answers how many of the n are left. The loop counts down, since the compiler
    /// makes it count up where the steps are the answer, and that takes an instruction more each step.
    #[inline(always)]
    fn make_quiet_steps<const MINDS: bool>(
        &mut self,
        core: &mut Core,
        n: usize,
        quick: bool,
        asks: bool,
        breaks: &[bool],
    ) -> usize
        requires quiet { is_quiet quick self.old ≡ true }
        requires field { self.old.instruction_buffer ≡ self.old.instruction_field }
        requires breaks { AreMinded breaks.now self.old.instruction_field MINDS }
        ensures within { result ≤ n }
        ensures state { with_core self.new core.new ≡ after quick (n - result) (with_core self.old core.old) }
        ensures quiet { AreQuiet quick breaks.now (with_core self.old core.old) (n - result) }
        ensures unasked { quick ≡ true → asks ≡ true → AreUnasked (with_core self.old core.old) (n - result) }
    {
        let _quick = quick;
        let mut left = n;
        while left > 0 {
            if !self.step_quietly::<MINDS, false, false>(core, asks) {
                if !asks && self.end_by_transfer(core) {
                    return left - 1;
                }
                return left;
            }
            left -= 1;
            if self.is_at_break::<MINDS>(breaks) {
                return left;
            }
        }
        0
    }

    /// Makes up to n steps, and answers how many of the n are left. It ends where a step is not quiet, and at a KSF that finds the
    /// keyboard flag clear. For each cell it counts how often its word was fetched. It counts before the step, so that no register
    /// of the host has to keep the cell meanwhile. Where the step is not made, it takes the count back.
    #[inline(always)]
    pub(crate) fn count_fetches(&mut self, core: &mut Core, n: usize, counts: &mut [u64]) -> usize
        requires quiet { is_quiet true self.old ≡ true }
        requires size { length counts.old ≡ CORE }
        requires room { HaveRoom n counts.old }
        ensures within { result ≤ n }
        ensures state { with_core self.new core.new ≡ after true (n - result) (with_core self.old core.old) }
        ensures unasked { AreUnasked (with_core self.old core.old) (n - result) }
        ensures counts { AddsFetches (n - result) (with_core self.old core.old) counts.old counts.new }
    {
        let mut left = n;
        while left > 0 {
            counts[self.next_cell().index()] += 1;
            if !self.step_quietly::<false, true, false>(core, true) {
                counts[self.next_cell().index()] -= 1;
                return left;
            }
            left -= 1;
        }
        0
    }

    /// Makes up to n steps, IOTs among them, and answers how many. It ends where a step is not quiet, and where a break is ahead.
    /// It stands beside the other loops. So what an IOT changes is constant in those. A break is looked for before each step,
    /// since the cell is then known.
    #[inline(always)]
    pub(crate) fn run_with_transfers(
        &mut self,
        core: &mut Core,
        n: usize,
        quick: bool,
        breaks: &[bool],
    ) -> usize
        requires { is_quiet quick self.old ≡ true }
        ensures within { result ≤ n }
        ensures state { with_core self.new core.new ≡ after quick result (with_core self.old core.old) }
        ensures quiet { AreQuiet quick breaks.now (with_core self.old core.old) result }
    {
        let _quick = quick;
        for steps in 0..n {
            if is_break(breaks, self.next_cell()) {
                return steps;
            }
            if !self.step_quietly::<false, false, true>(core, false) {
                return steps;
            }
        }
        n
    }

    /// Whether the next instruction is an IOT. The plain step makes it sooner than a run that may end before or after it.
    #[inline(always)]
    pub(crate) fn finds_transfer(&self, core: &Core) -> bool
        ensures { result ≡ nat_eq (next_word (with_core self.now core.now) / 0o1000) 6 }
    {
        core.get(self.next_cell()).get() / 0o1000 == 6
    }

    /// Whether the next instruction prints: 6044 to 6047.
    #[inline(always)]
    pub(crate) fn finds_print(&self, core: &Core) -> bool
        ensures { result ≡ nat_eq (next_word (with_core self.now core.now) / 4) 0o1411 }
    {
        core.get(self.next_cell()).get() / 4 == 0o1411
    }

    /// Whether the next instruction is a KSF, and the keyboard flag is clear.
    #[inline(always)]
    fn finds_no_key(&self, core: &Core) -> bool
        ensures { result ≡ finds_no_key (with_core self.now core.now) }
    {
        !self.teletype.keyboard_flag() && is_ksf(core.get(self.next_cell()))
    }

    /// Whether the next instruction is at a break. Where breaks are not minded, its field has none.
    #[inline(always)]
    fn is_at_break<const MINDS: bool>(&self, breaks: &[bool]) -> bool
        requires { AreMinded breaks.now self.now.instruction_field MINDS }
        ensures { result ≡ is_break breaks.now (next_cell self.now) }
    {
        let cell = FIELD * usize::from(self.instruction_field) + usize::from(self.pc.get());
        if MINDS { breaks[cell] } else { false }
    }

    /// Does the next instruction, if it is one of this loop, and answers whether it was. If it asks, a KSF that finds the keyboard
    /// flag clear is none, and no IOT of a device that isn't there.
    #[inline(always)]
    fn step_quietly<const MINDS: bool, const COUNTS: bool, const TRANSFERS: bool>(
        &mut self,
        core: &mut Core,
        asks: bool,
    ) -> bool
        ensures does { MakesOrNot TRANSFERS (with_core self.old core.old) (next_word (with_core self.old core.old))
            result (with_core self.new core.new) }
        ensures asks { asks ≡ true → result ≡ true → finds_no_key (with_core self.old core.old) ≡ false }
        ensures there { asks ≡ true → result ≡ true → is_absent (next_word (with_core self.old core.old)) ≡ false }
    {
        let word = core.get(self.next_cell());
        refer_or_else! { self, core, word:
            0o00 0o01 0o02 0o03 0o04 0o05 0o06 0o07 0o10 0o11 0o12 0o13
            0o14 0o15 0o16 0o17 0o20 0o21 0o22 0o23 0o24 0o25 0o26 0o27;
            0o30 => {
                if asks && self.finds_no_key(core) {
                    return false;
                }
                return self.make_transfer::<TRANSFERS>(core, word, asks);
            },
            0o31 => return self.make_other_transfer::<TRANSFERS>(core, leading(0o31, word), asks),
            0o32 => return self.make_other_transfer::<TRANSFERS>(core, leading(0o32, word), asks),
            0o33 => return self.make_other_transfer::<TRANSFERS>(core, leading(0o33, word), asks),
            _ => return self.operate_quietly::<MINDS, COUNTS, TRANSFERS>(core, word),
        }
        true
    }

    /// A reference to memory.
    #[tactic(auto, unfolding(crate::specs::Step::after_instruction))]
    #[inline(always)]
    fn refer(&mut self, core: &mut Core, word: Word)
        requires { word < 0o6000 }
        ensures { Does (with_core self.old core.old) word (with_core self.new core.new) }
    {
        match operation_of(word) {
            Operation::And => self.and(core, word),
            Operation::Tad => self.tad(core, word),
            Operation::Isz => self.isz(core, word),
            Operation::Dca => self.dca(core, word),
            Operation::Jms => self.jms(core, word),
            Operation::Jmp => self.jmp(core, word),
            Operation::Iot => unreachable!(),
            Operation::Opr => unreachable!(),
        }
    }

    /// An IOT of the words 6000 to 6177, if it is one of this loop. In the loop with IOTs those of interrupts and of the Teletype
    /// that print nothing have code of their own, and in the others KSF and TSF.
    #[inline(always)]
    fn make_transfer<const TRANSFERS: bool>(&mut self, core: &Core, word: Word, asks: bool) -> bool
        requires { word / 0o200 ≡ 0o30 }
        ensures does { MakesOrNot TRANSFERS (with_core self.old core.now) word result (with_core self.new core.now) }
        ensures there { asks ≡ true → result ≡ true → is_absent word ≡ false }
    {
        if !TRANSFERS {
            return each_for_itself! { self, transfer_there, core, word:
                0o6031 0o6041;
                else self.transfer_quietly(core, leading(0o30, word), asks)
            };
        }
        if asks && is_absent(word) {
            return false;
        }
        each_for_itself! { self, transfer_and_go_on, core, word:
            0o6001 0o6002
            0o6030 0o6031 0o6032 0o6033 0o6034 0o6035 0o6036 0o6037
            0o6040 0o6041 0o6042 0o6043;
            else self.transfer_and_go_on(core, leading(0o30, word))
        }
    }

    /// An IOT of another word, if it is one of this loop.
    #[inline(always)]
    fn make_other_transfer<const TRANSFERS: bool>(
        &mut self,
        core: &Core,
        word: Word,
        asks: bool,
    ) -> bool
        requires { word / 0o1000 ≡ 6 }
        ensures does { MakesOrNot TRANSFERS (with_core self.old core.now) word result (with_core self.new core.now) }
        ensures there { asks ≡ true → result ≡ true → is_absent word ≡ false }
    {
        if !TRANSFERS {
            return self.transfer_quietly(core, word, asks);
        }
        if asks && is_absent(word) {
            return false;
        }
        self.transfer_and_go_on(core, word)
    }

    /// An IOT of a device that is there, if it is one of this loop.
    #[inline(always)]
    fn transfer_there(&mut self, core: &Core, word: Word) -> bool
        requires { word / 0o1000 ≡ 6 }
        ensures { DoesOrNot (with_core self.old core.now) word result (with_core self.new core.now) }
    {
        self.transfer_quietly(core, word, false)
    }

    /// KSF, TSF, CDF, RDF, RIF, or, if it does not ask, pulse 1 of a device that isn't there. Other IOTs are left.
    #[tactic(auto, unfolding(crate::specs::Step::after_instruction))]
    #[inline(always)]
    fn transfer_quietly(&mut self, core: &Core, word: Word, asks: bool) -> bool
        requires { word / 0o1000 ≡ 6 }
        ensures does { DoesOrNot (with_core self.old core.now) word result (with_core self.new core.now) }
        ensures there { asks ≡ true → result ≡ true → is_absent word ≡ false }
    {
        if pulses_of(word) != 1 {
            return self.read_quietly(core, word);
        }
        let keyboard_flag = self.teletype.keyboard_flag();
        let printer_flag = self.teletype.printer_flag();
        match device_of(word) {
            Device::Keyboard => self.skip(keyboard_flag),
            Device::Printer => self.skip(printer_flag),
            Device::Fields => self.cdf(field_of(word)),
            Device::Interrupts => return false,
            Device::Other => {
                if asks {
                    return false;
                }
                self.advance();
            }
        }
        true
    }

    /// RDF or RIF, which change no more than AC and PC.
    #[tactic(auto, unfolding(crate::specs::Step::after_instruction))]
    #[inline(always)]
    fn read_quietly(&mut self, core: &Core, word: Word) -> bool
        requires { word / 0o1000 ≡ 6 }
        ensures does { DoesOrNot (with_core self.old core.now) word result (with_core self.new core.now) }
        ensures there { result ≡ true → is_absent word ≡ false }
    {
        if pulses_of(word) != 4 {
            return false;
        }
        match device_of(word) {
            Device::Fields => return self.read_field_quietly(field_of(word)),
            Device::Interrupts => return false,
            Device::Keyboard => return false,
            Device::Printer => return false,
            Device::Other => return false,
        }
    }

    /// RDF or RIF, by its number: 1 or 2.
    #[inline(always)]
    fn read_field_quietly(&mut self, number: u8) -> bool
        ensures reads { result ≡ true → self.new ≡ read_row self.old number }
        ensures stays { result ≡ false → self.new ≡ self.old }
        ensures buffer { self.new.instruction_buffer ≡ self.old.instruction_buffer }
    {
        let field = match number {
            1 => self.data_field,
            2 => self.instruction_field,
            _ => return false,
        };
        self.advance();
        self.or_into_ac(8 * field);
        true
    }

    /// Does the next instruction, if it is an IOT of the loop with IOTs, and answers whether it was. A run ends with it. So what
    /// it changes is constant in the loop.
    #[inline(always)]
    fn end_by_transfer(&mut self, core: &Core) -> bool
        ensures { GoesOrNot (with_core self.old core.now) (next_word (with_core self.old core.now)) result (with_core self.new core.now) }
    {
        let word = core.get(self.next_cell());
        if word.get() / 0o1000 != 6 {
            return false;
        }
        self.transfer_and_go_on(core, word)
    }

    /// An IOT after which the machine is still quiet: it prints nothing, and is no ION while an interrupt is requested.
    #[tactic(auto, unfolding(crate::specs::Step::after_instruction))]
    #[inline(always)]
    fn transfer_and_go_on(&mut self, core: &Core, word: Word) -> bool
        requires { word / 0o1000 ≡ 6 }
        ensures { GoesOrNot (with_core self.old core.now) word result (with_core self.new core.now) }
    {
        match device_of(word) {
            Device::Interrupts => {
                if pulses_of(word) == 1 && self.teletype.requests() {
                    return false;
                }
                self.control_interrupts(word);
            }
            Device::Keyboard => self.read_keyboard(word),
            Device::Printer => {
                if pulses_of(word) >= 4 {
                    return false;
                }
                let _printed = self.print(word);
            }
            Device::Fields => self.control_fields(word),
            Device::Other => self.advance(),
        }
        true
    }

    /// An operate instruction, if it goes on: all of group 1 that are assigned, and all of group 2 without HLT. A line of the list
    /// has two choices of CLA, CLL, CMA and CML.
    #[inline(always)]
    fn operate_quietly<const MINDS: bool, const COUNTS: bool, const TRANSFERS: bool>(
        &mut self,
        core: &Core,
        word: Word,
    ) -> bool
        requires { 7 ≤ word / 0o1000 }
        ensures { DoesOrNot (with_core self.old core.now) word result (with_core self.new core.now) }
    {
        each_for_itself! { self, operate_and_go_on, core, word:
            0o7000 0o7001 0o7004 0o7005 0o7006 0o7007 0o7010 0o7011 0o7012 0o7013
            0o7020 0o7021 0o7024 0o7025 0o7026 0o7027 0o7030 0o7031 0o7032 0o7033
            0o7040 0o7041 0o7044 0o7045 0o7046 0o7047 0o7050 0o7051 0o7052 0o7053
            0o7060 0o7061 0o7064 0o7065 0o7066 0o7067 0o7070 0o7071 0o7072 0o7073
            0o7100 0o7101 0o7104 0o7105 0o7106 0o7107 0o7110 0o7111 0o7112 0o7113
            0o7120 0o7121 0o7124 0o7125 0o7126 0o7127 0o7130 0o7131 0o7132 0o7133
            0o7140 0o7141 0o7144 0o7145 0o7146 0o7147 0o7150 0o7151 0o7152 0o7153
            0o7160 0o7161 0o7164 0o7165 0o7166 0o7167 0o7170 0o7171 0o7172 0o7173
            0o7200 0o7201 0o7204 0o7205 0o7206 0o7207 0o7210 0o7211 0o7212 0o7213
            0o7220 0o7221 0o7224 0o7225 0o7226 0o7227 0o7230 0o7231 0o7232 0o7233
            0o7240 0o7241 0o7244 0o7245 0o7246 0o7247 0o7250 0o7251 0o7252 0o7253
            0o7260 0o7261 0o7264 0o7265 0o7266 0o7267 0o7270 0o7271 0o7272 0o7273
            0o7300 0o7301 0o7304 0o7305 0o7306 0o7307 0o7310 0o7311 0o7312 0o7313
            0o7320 0o7321 0o7324 0o7325 0o7326 0o7327 0o7330 0o7331 0o7332 0o7333
            0o7340 0o7341 0o7344 0o7345 0o7346 0o7347 0o7350 0o7351 0o7352 0o7353
            0o7360 0o7361 0o7364 0o7365 0o7366 0o7367 0o7370 0o7371 0o7372 0o7373
            0o7400 0o7404 0o7410 0o7414 0o7420 0o7424 0o7430 0o7434
            0o7440 0o7444 0o7450 0o7454 0o7460 0o7464 0o7470 0o7474
            0o7500 0o7504 0o7510 0o7514 0o7520 0o7524 0o7530 0o7534
            0o7540 0o7544 0o7550 0o7554 0o7560 0o7564 0o7570 0o7574
            0o7600 0o7604 0o7610 0o7614 0o7620 0o7624 0o7630 0o7634
            0o7640 0o7644 0o7650 0o7654 0o7660 0o7664 0o7670 0o7674
            0o7700 0o7704 0o7710 0o7714 0o7720 0o7724 0o7730 0o7734
            0o7740 0o7744 0o7750 0o7754 0o7760 0o7764 0o7770 0o7774;
            else return false
        }
        true
    }

    /// An operate instruction that goes on.
    #[tactic(auto, unfolding(crate::specs::Step::after_instruction))]
    #[inline(always)]
    fn operate_and_go_on(&mut self, core: &Core, word: Word)
        requires operates { 7 ≤ word / 0o1000 }
        requires goes_on { operates_on word ≡ true }
        ensures { Does (with_core self.old core.now) word (with_core self.new core.now) }
    {
        if has(word, GROUP_2_OR_3) {
            self.group2(word);
        } else {
            self.operate_on_l_and_ac(word);
        }
    }
}

/// Where fewer steps lie between two IOTs, the loop with IOTs makes them.
pub(crate) const FEW: usize = 3;

/// The word, of which the five leading bits are these.
#[inline(always)]
fn leading(bits: u16, word: Word) -> Word
    requires { word / 0o200 ≡ bits }
    ensures { result ≡ word }
{
    Word::low(0o200 * bits + word.get() % 0o200)
}

/// Pulse 1 of a keyboard instruction, 6031, 6033, 6035 or 6037.
#[inline(always)]
fn is_ksf(word: Word) -> bool
    ensures { result ≡ is_ksf word }
{
    word.get() / 0o10 == 0o603 && word.get() % 2 == 1
}

/// Whether a cell has a break.
#[inline(always)]
pub(crate) fn is_break(breaks: &[bool], cell: Cell) -> bool
    ensures { result ≡ is_break breaks.now cell }
{
    match breaks.get(cell.index()) {
        Some(has_one) => *has_one,
        None => false,
    }
}

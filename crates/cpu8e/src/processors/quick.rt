//! The quick loop: steps that need no look at console and devices. Most steps of a run are such.
//!
//! It works on a copy of the processor, which the compiler keeps in registers of the host. For that every function of the loop is inlined.
//! What comes seldom is left to one step outside it, or to the plain step.
//!
//! A step jumps by the five leading bits of its word, and an operate or an IOT once more by its whole word. The code at which each jump
//! ends is compiled for those bits, and tests them no more.

ghost use Rattle.std.specs.Prelude.{◌≡◌, ◌-◌, ◌<◌, ◌≤◌, ◌/◌, ◌&&◌, ◌||◌, true, false, not, nat_eq};
ghost use Rattle.cpu8e.specs.State.{with_core};
ghost use Rattle.cpu8e.specs.Step.{next_word};
ghost use Rattle.cpu8e.specs.Runs.{after};
ghost use Rattle.cpu8e.specs.Unasked.{AreUnasked, changes_fields, is_quick, is_quick_operate, is_quick_transfer, jumps_back, may_ask};
ghost use Rattle.cpu8e.specs.QuickSteps.{Does, DoesOrNot, Stays, is_quiet, is_settled};

use super::Processor;
use core_load::Core;
use cpu8::decoding::{CURRENT_PAGE, HLT, has};
use word12::{Cell, PAGE, Word};

/// Does an instruction, whose code is compiled for each word of the list by itself. Another word is done as the `else` says.
macro_rules! each_for_itself {
    ($processor:ident, $core:ident, $word:ident: $($one:literal)*; else $other:expr) => {
        match $word.get() {
            $($one => $processor.do_quickly($core, Word::low($one)),)*
            _ => $other,
        }
    };
}

/// Does a reference to memory or a jump, whose code is compiled for each of the five leading bits of the list. Another instruction is
/// done as its arm says.
macro_rules! refer_or_else {
    ($processor:ident, $core:ident, $word:ident: $($bits:literal)*; $($other:pat => $does:expr,)*) => {
        match $word.get() / 0o200 {
            $($bits => $processor.refer_quickly($core, leading($bits, $word)),)*
            $($other => $does,)*
        }
    };
}

impl Processor {
    /// Whether the machine runs, no interrupt request can be granted, the printer has no character to end, and user mode is off.
    #[inline(always)]
    pub(crate) fn is_quiet(&self) -> bool
        ensures { result ≡ is_quiet self.now }
    {
        let interrupts = self.base.interrupts_on && self.is_requested();
        let is_for_user = self.user_flag || self.user_buffer;
        self.base.running && !interrupts && !self.base.teletype.is_busy() && !is_for_user
    }

    /// Whether no field and no interrupt waits for an instruction.
    #[inline(always)]
    pub(crate) fn is_settled(&self) -> bool
        ensures { result ≡ is_settled self.now }
    {
        let base = &self.base;
        base.instruction_buffer == base.instruction_field && !base.waiting && !base.held_off
    }

    /// The same processor, with what is settled written as constants, by which the compiler knows it.
    #[inline(always)]
    pub(crate) fn with_settled_state(mut self) -> Processor
        requires quiet { is_quiet self ≡ true }
        requires settled { is_settled self ≡ true }
        ensures { result ≡ self }
    {
        self.base.instruction_buffer = self.base.instruction_field;
        self.base.waiting = false;
        self.base.held_off = false;
        self.user_flag = false;
        self.user_buffer = false;
        self
    }

    /// Whether the next instruction is an IOT. The plain step makes it sooner than a run that may end before or after it.
    #[inline(always)]
    pub(crate) fn finds_transfer(&self, core: &Core) -> bool
        ensures { result ≡ nat_eq (next_word (with_core self.now core.now) / 0o1000) 6 }
    {
        core.get(self.base.next_cell()).get() / 0o1000 == 6
    }

    /// Makes up to n steps, and answers how many of the n are left. It ends before a step that is not quick, and where the program waits for
    /// a key; and where it looks for one, if looks count. The loop counts down, since the compiler makes it count up where the steps are
    /// the answer, and that takes an instruction more each step.
    #[inline(always)]
    pub(crate) fn make_quick_steps(&mut self, core: &mut Core, n: usize, looks: bool) -> usize
        requires { is_quiet self.old ≡ true }
        ensures within { result ≤ n }
        ensures state { with_core self.new core.new ≡ after (n - result) (with_core self.old core.old) }
        ensures unasked { AreUnasked looks (with_core self.old core.old) (n - result) }
        ensures quiet { is_quiet self.new ≡ true }
        ensures stays { Stays (with_core self.old core.old) (with_core self.new core.new) }
    {
        let mut left = n;
        while left > 0 {
            if !self.step_quickly(core, looks) {
                return left;
            }
            left -= 1;
        }
        0
    }

    /// Does the next instruction outside the loop, if its word is quick and the program may ask for no key there, and answers whether it
    /// did. Any field, or any interrupt, may wait for an instruction.
    #[inline(always)]
    pub(crate) fn make_quick_step(&mut self, core: &mut Core, looks: bool) -> bool
        requires { is_quiet self.old ≡ true }
        ensures does { DoesOrNot (with_core self.old core.old) (next_word (with_core self.old core.old))
            result (with_core self.new core.new) }
        ensures asks { result ≡ true → may_ask looks (with_core self.old core.old) ≡ false }
    {
        let word = core.get(self.base.next_cell());
        if !is_quick(word) || self.may_ask(core, word, looks) {
            return false;
        }
        self.do_quickly(core, word);
        true
    }

    /// Whether the program may ask for a key by an instruction of this word.
    #[inline(always)]
    fn may_ask(&self, core: &Core, word: Word, looks: bool) -> bool
        ensures { result ≡ ((not self.now.base.teletype.keyboard_flag && nat_eq word 0o6031)
            && (looks || jumps_back (with_core self.now core.now))) }
    {
        let finds_no_key = !self.base.teletype.keyboard_flag() && word.get() == 0o6031;
        finds_no_key && (looks || self.jumps_back(core))
    }

    /// Does the next instruction, if it is one of this loop, and answers whether it was.
    #[inline(always)]
    fn step_quickly(&mut self, core: &mut Core, looks: bool) -> bool
        requires { is_quiet self.old ≡ true }
        ensures does { DoesOrNot (with_core self.old core.old) (next_word (with_core self.old core.old))
            result (with_core self.new core.new) }
        ensures asks { result ≡ true → may_ask looks (with_core self.old core.old) ≡ false }
    {
        let word = core.get(self.base.next_cell());
        refer_or_else! { self, core, word:
            0o00 0o01 0o02 0o03 0o04 0o05 0o06 0o07 0o10 0o11 0o12 0o13
            0o14 0o15 0o16 0o17 0o20 0o21 0o22 0o23 0o24 0o25 0o26 0o27;
            0o30 => return self.ask_console_quickly(core, word, looks),
            0o31 => return self.ask_fields_quickly(core, word),
            0o32 | 0o33 => return false,
            0o34 | 0o35 => return self.operate_on_l_and_ac_quickly(core, word),
            0o36 | 0o37 => return self.operate_otherwise_quickly(core, word),
            _ => return false,
        }
        true
    }

    /// A reference to memory, JMS or JMP.
    #[inline(always)]
    fn refer_quickly(&mut self, core: &mut Core, word: Word)
        requires quiet { is_quiet self.old ≡ true }
        requires refers { word < 0o6000 }
        ensures { Does (with_core self.old core.old) word (with_core self.new core.new) }
    {
        self.do_quickly(core, word);
    }

    /// TSF, or KSF where the program asks for no key. Other IOTs of the words 6000 to 6177 are left.
    #[inline(always)]
    fn ask_console_quickly(&mut self, core: &mut Core, word: Word, looks: bool) -> bool
        requires { is_quiet self.old ≡ true }
        ensures does { DoesOrNot (with_core self.old core.old) word result (with_core self.new core.new) }
        ensures asks { result ≡ true → ((not self.old.base.teletype.keyboard_flag && nat_eq word 0o6031)
            && (looks || jumps_back (with_core self.old core.old))) ≡ false }
    {
        match word.get() {
            0o6031 => {
                if !self.base.teletype.keyboard_flag() && (looks || self.jumps_back(core)) {
                    return false;
                }
                self.do_quickly(core, Word::low(0o6031));
            }
            0o6041 => self.do_quickly(core, Word::low(0o6041)),
            _ => return false,
        }
        true
    }

    /// Whether the word after the next instruction is a direct JMP back to it.
    #[inline(always)]
    pub(crate) fn jumps_back(&self, core: &Core) -> bool
        ensures { result ≡ jumps_back (with_core self.now core.now) }
    {
        let after = self.base.pc.plus(Word::ONE);
        let word = core.get(Cell::at(self.base.instruction_field, after));
        let page = if has(word, CURRENT_PAGE) {
            after.get() / PAGE * PAGE
        } else {
            0
        };
        word.get() / 0o400 == DIRECT_JMP && page + word.get() % PAGE == self.base.pc.get()
    }

    /// CDF, RDF or RIF. Other IOTs of the words 6200 to 6377 are left.
    #[inline(always)]
    fn ask_fields_quickly(&mut self, core: &mut Core, word: Word) -> bool
        requires { is_quiet self.old ≡ true }
        ensures { DoesOrNot (with_core self.old core.old) word result (with_core self.new core.new) }
    {
        each_for_itself! { self, core, word:
            0o6201 0o6211 0o6221 0o6231 0o6241 0o6251 0o6261 0o6271 0o6214 0o6224;
            else return false
        }
        true
    }

    /// An operate instruction of group 1, if it is one of this loop: those that rotate one way. A line of the list has two choices of CLA, CLL,
    /// CMA and CML.
    #[inline(always)]
    fn operate_on_l_and_ac_quickly(&mut self, core: &mut Core, word: Word) -> bool
        requires { is_quiet self.old ≡ true }
        ensures { DoesOrNot (with_core self.old core.old) word result (with_core self.new core.new) }
    {
        each_for_itself! { self, core, word:
            0o7000 0o7001 0o7002 0o7003 0o7004 0o7005 0o7006 0o7007 0o7010 0o7011 0o7012 0o7013
            0o7020 0o7021 0o7022 0o7023 0o7024 0o7025 0o7026 0o7027 0o7030 0o7031 0o7032 0o7033
            0o7040 0o7041 0o7042 0o7043 0o7044 0o7045 0o7046 0o7047 0o7050 0o7051 0o7052 0o7053
            0o7060 0o7061 0o7062 0o7063 0o7064 0o7065 0o7066 0o7067 0o7070 0o7071 0o7072 0o7073
            0o7100 0o7101 0o7102 0o7103 0o7104 0o7105 0o7106 0o7107 0o7110 0o7111 0o7112 0o7113
            0o7120 0o7121 0o7122 0o7123 0o7124 0o7125 0o7126 0o7127 0o7130 0o7131 0o7132 0o7133
            0o7140 0o7141 0o7142 0o7143 0o7144 0o7145 0o7146 0o7147 0o7150 0o7151 0o7152 0o7153
            0o7160 0o7161 0o7162 0o7163 0o7164 0o7165 0o7166 0o7167 0o7170 0o7171 0o7172 0o7173
            0o7200 0o7201 0o7202 0o7203 0o7204 0o7205 0o7206 0o7207 0o7210 0o7211 0o7212 0o7213
            0o7220 0o7221 0o7222 0o7223 0o7224 0o7225 0o7226 0o7227 0o7230 0o7231 0o7232 0o7233
            0o7240 0o7241 0o7242 0o7243 0o7244 0o7245 0o7246 0o7247 0o7250 0o7251 0o7252 0o7253
            0o7260 0o7261 0o7262 0o7263 0o7264 0o7265 0o7266 0o7267 0o7270 0o7271 0o7272 0o7273
            0o7300 0o7301 0o7302 0o7303 0o7304 0o7305 0o7306 0o7307 0o7310 0o7311 0o7312 0o7313
            0o7320 0o7321 0o7322 0o7323 0o7324 0o7325 0o7326 0o7327 0o7330 0o7331 0o7332 0o7333
            0o7340 0o7341 0o7342 0o7343 0o7344 0o7345 0o7346 0o7347 0o7350 0o7351 0o7352 0o7353
            0o7360 0o7361 0o7362 0o7363 0o7364 0o7365 0o7366 0o7367 0o7370 0o7371 0o7372 0o7373;
            else return false
        }
        true
    }

    /// An operate instruction of group 2 or 3, if it is one of this loop: those of group 2 without HLT, and those of group 3 that need no EAE.
    #[inline(always)]
    fn operate_otherwise_quickly(&mut self, core: &mut Core, word: Word) -> bool
        requires { is_quiet self.old ≡ true }
        ensures { DoesOrNot (with_core self.old core.old) word result (with_core self.new core.new) }
    {
        each_for_itself! { self, core, word:
            0o7400 0o7404 0o7410 0o7414 0o7420 0o7424 0o7430 0o7434
            0o7440 0o7444 0o7450 0o7454 0o7460 0o7464 0o7470 0o7474
            0o7500 0o7504 0o7510 0o7514 0o7520 0o7524 0o7530 0o7534
            0o7540 0o7544 0o7550 0o7554 0o7560 0o7564 0o7570 0o7574
            0o7600 0o7604 0o7610 0o7614 0o7620 0o7624 0o7630 0o7634
            0o7640 0o7644 0o7650 0o7654 0o7660 0o7664 0o7670 0o7674
            0o7700 0o7704 0o7710 0o7714 0o7720 0o7724 0o7730 0o7734
            0o7740 0o7744 0o7750 0o7754 0o7760 0o7764 0o7770 0o7774
            0o7401 0o7421 0o7501 0o7521 0o7601 0o7621 0o7701 0o7721;
            else return false
        }
        true
    }

    /// An instruction of a word that this loop does.
    #[inline(always)]
    fn do_quickly(&mut self, core: &mut Core, word: Word)
        requires quiet { is_quiet self.old ≡ true }
        requires word { is_quick word ≡ true }
        ensures { Does (with_core self.old core.old) word (with_core self.new core.new) }
    {
        let _ran = self.execute(core, word);
    }
}

/// Whether a word is one of those that need no look at console and devices.
#[inline(always)]
fn is_quick(word: Word) -> bool
    ensures { result ≡ is_quick word }
{
    let operation = word.get() / 0o1000;
    if operation <= 5 {
        return true;
    }
    if operation == 6 {
        return is_quick_transfer(word);
    }
    is_quick_operate(word)
}

/// Whether it is so of an IOT: KSF, TSF, RDF, RIF, CDF and CIF are.
#[inline(always)]
fn is_quick_transfer(word: Word) -> bool
    ensures { result ≡ is_quick_transfer word }
{
    match word.get() {
        0o6031 | 0o6041 | 0o6214 | 0o6224 => true,
        _ => changes_fields(word),
    }
}

/// Whether a word is CDF, CIF or both.
#[inline(always)]
fn changes_fields(word: Word) -> bool
    ensures { result ≡ changes_fields word }
{
    let pulses = word.get() % 8;
    word.get() / 0o100 == 0o62 && (1 <= pulses && pulses <= 3)
}

/// Whether it is so of an operate: all are but those of group 2 with HLT.
#[inline(always)]
fn is_quick_operate(word: Word) -> bool
    ensures { result ≡ is_quick_operate word }
{
    let is_group_1 = word.get() / 0o400 % 2 == 0;
    let halts = word.get() % 2 == 0 && has(word, HLT);
    is_group_1 || !halts
}

/// The word, of which the five leading bits are these.
#[inline(always)]
fn leading(bits: u16, word: Word) -> Word
    requires { word / 0o200 ≡ bits }
    ensures { result ≡ word }
{
    Word::low(0o200 * bits + word.get() % 0o200)
}

/// A direct JMP without its page bit and its offset, 5000 to 5377.
const DIRECT_JMP: u16 = 0o12;

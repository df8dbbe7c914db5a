//! The operate instructions.

ghost use Rattle.std.specs.Prelude.{◌≡◌, ◌%◌, ◌<◌};
ghost use Rattle.cpu8e.specs.Operate.{bsw_result, byte_swap, group1_row, group2_row, group3_done, is_privileged, last_part, operate_row, refusal_of};

use super::Processor;
use crate::base::Base;
use crate::base::operates::{group1_sum, group2_skips, is_group1_unassigned};
use cpu8::Stepped;
use cpu8::decoding::{CLA, GROUP_2_OR_3, GROUP_3, HLT, OSR, RAR, TWICE, has};
use word12::{PAGE, Word};

/// Of group 3: MQ is or'ed into AC.
const MQA: u16 = 0o100;

/// Of group 3: AC is loaded into MQ, and cleared.
const MQL: u16 = 0o020;

impl Processor {
    /// An operate instruction of this word.
    #[inline(always)]
    pub(super) fn operate(&mut self, word: Word) -> Stepped
        ensures state { self.new ≡ (operate_row self.old word).0 }
        ensures answer { result ≡ (operate_row self.old word).1 }
    {
        if !has(word, GROUP_2_OR_3) {
            self.group1(word);
            return Stepped::Ran { printed: None };
        }
        if !has(word, GROUP_3) {
            return self.group2(word);
        }
        self.group3(word);
        Stepped::Ran { printed: None }
    }

    #[inline(always)]
    fn group1(&mut self, word: Word)
        ensures { self.new ≡ (group1_row self.old word).0 }
    {
        if is_group1_unassigned(word) {
            self.base.end_group1(word);
        } else {
            self.base.operate_on_l_and_ac(word);
        }
    }

    /// In user mode OSR and HLT are not done.
    #[inline(always)]
    fn group2(&mut self, word: Word) -> Stepped
        ensures state { self.new ≡ (group2_row self.old word).0 }
        ensures answer { result ≡ (group2_row self.old word).1 }
    {
        if self.user_flag && (has(word, OSR) || has(word, HLT)) {
            self.refuse(word);
            return Stepped::Ran { printed: None };
        }
        self.base.group2(word)
    }

    /// Skip and CLA of a privileged word of group 2.
    fn refuse(&mut self, word: Word)
        ensures { self.new ≡ refusal_of self.old word }
    {
        let skips = group2_skips(word, self.base.l, self.base.ac);
        self.base.skip(skips);
        if has(word, CLA) {
            self.base.ac = Word::ZERO;
        }
        self.user_request = true;
    }

    /// CLA, MQA and MQL.
    #[inline(always)]
    fn group3(&mut self, word: Word)
        ensures { self.new ≡ group3_done self.old word }
    {
        self.base.advance();
        if has(word, CLA) {
            self.base.ac = Word::ZERO;
        }
        let mq = self.mq;
        if has(word, MQL) {
            self.mq = self.base.ac;
            self.base.ac = Word::ZERO;
        }
        if has(word, MQA) {
            self.base.ac = self.base.ac.or(mq);
        }
    }
}

impl Base {
    /// A word of group 1 that is unassigned on the 8/I.
    #[inline(always)]
    fn end_group1(&mut self, word: Word)
        ensures { self.new ≡ bsw_result self.old word }
    {
        let number = group1_sum(word, self.l, self.ac);
        let ac = self.last_part(word, Word::low(number));
        self.advance();
        self.l = (number / 0o10000) as u8;
        self.ac = ac;
    }

    /// AC after the last part of such a word.
    #[inline(always)]
    fn last_part(&self, word: Word, ac: Word) -> Word
        ensures value { result ≡ last_part self.now word ac }
        ensures range { result < 0o10000 }
    {
        if !has(word, RAR) {
            return byte_swap(ac);
        }
        if has(word, TWICE) {
            return Word::low(self.pc.get() / PAGE * PAGE + word.get() % PAGE);
        }
        ac.and(word)
    }
}

/// BSW: bits 0 to 5 and 6 to 11 change places.
#[inline(always)]
fn byte_swap(ac: Word) -> Word
    ensures value { result ≡ byte_swap ac }
    ensures range { result < 0o10000 }
{
    Word::low(0o100 * (ac.get() % 0o100) + ac.get() / 0o100)
}

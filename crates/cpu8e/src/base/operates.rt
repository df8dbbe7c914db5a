//! The operate instructions that are as on the 8/I.

ghost use Rattle.std.specs.Prelude.{◌≡◌, ◌-◌, ◌<◌, if◌then◌else◌};
ghost use Rattle.cpu8.specs.Decoding.{has_cla, has_cll, has_cma, has_cml};
ghost use Rattle.cpu8.specs.Operate.{is_group1_unassigned, group1_sum, group1_number, group1_done, group2_skips, group2_ac, group2_row};
ghost use Rattle.cpu8.specs.Transfer.{after_skip};

use super::Base;
use super::rotations::rotate;
use cpu8::Stepped;
use cpu8::decoding::{CLA, CLL, CMA, CML, HLT, OSR, RAL, RAR, REVERSE, SMA, SNL, SZA, TWICE, has};
use word12::Word;

impl Base {
    /// A word of group 1 that is not unassigned.
    #[inline(always)]
    pub(crate) fn operate_on_l_and_ac(&mut self, word: Word)
        ensures { self.new ≡ group1_done self.old word }
    {
        self.advance();
        let number = group1_number(word, self.l, self.ac);
        self.l = (number / 0o10000) as u8;
        self.ac = Word::low(number);
    }

    #[inline(always)]
    pub(crate) fn group2(&mut self, word: Word) -> Stepped
        ensures state { self.new ≡ (group2_row self.old word).0 }
        ensures answer { result ≡ (group2_row self.old word).1 }
    {
        let skips = group2_skips(word, self.l, self.ac);
        self.skip(skips);
        self.ac = group2_ac(word, self.ac, self.switches);
        if has(word, HLT) {
            self.running = false;
            return Stepped::Halted;
        }
        Stepped::Ran { printed: None }
    }

    /// PC is advanced by one, or by two where the instruction skips, and the waiting of ION is over.
    #[inline(always)]
    pub(crate) fn skip(&mut self, skips: bool)
        ensures { self.new ≡ after_skip self.old skips }
    {
        self.advance();
        if skips {
            self.pc = self.pc.plus(Word::ONE);
        }
    }
}

/// Whether a word of group 1 is unassigned.
#[inline(always)]
pub(crate) fn is_group1_unassigned(word: Word) -> bool
    ensures { result ≡ is_group1_unassigned word }
{
    let rotates = has(word, RAR) || has(word, RAL);
    has(word, RAR) && has(word, RAL) || has(word, TWICE) && !rotates
}

/// L and AC, as one number of thirteen bits, after a word of group 1.
#[tactic(auto, using(cpu8::proofs::RotationLemmas::number_of_thirteen), unfolding(cpu8::specs::Operate::group1_number))]
#[inline(always)]
fn group1_number(word: Word, l: u8, ac: Word) -> u16
    requires { l < 2 }
    ensures number { result ≡ group1_number word l ac }
    ensures range { result < 0o20000 }
{
    rotate(word, group1_sum(word, l, ac))
}

/// L and AC, as one number of thirteen bits, before the rotation.
#[inline(always)]
pub(crate) fn group1_sum(word: Word, l: u8, ac: Word) -> u16
    requires { l < 2 }
    ensures number { result ≡ group1_sum word l ac }
    ensures range { result < 0o20000 }
{
    let (l, ac) = clear_registers(word, u16::from(l), ac.get());
    let (l, ac) = complement_registers(word, l, ac);
    (0o10000 * l + ac + word.get() % 2) % 0o20000
}

/// L and AC after CLL and CLA.
#[inline(always)]
fn clear_registers(word: Word, l: u16, ac: u16) -> (u16, u16)
    requires l { l < 2 }
    requires ac { ac < 0o10000 }
    ensures l { result.0 ≡ (if has_cll word then 0 else l) }
    ensures ac { result.1 ≡ (if has_cla word then 0 else ac) }
{
    let cleared_l = if has(word, CLL) { 0 } else { l };
    let cleared_ac = if has(word, CLA) { 0 } else { ac };
    (cleared_l, cleared_ac)
}

/// L and AC after CML and CMA.
#[inline(always)]
fn complement_registers(word: Word, l: u16, ac: u16) -> (u16, u16)
    requires l { l < 2 }
    requires ac { ac < 0o10000 }
    ensures l { result.0 ≡ (if has_cml word then 1 - l else l) }
    ensures ac { result.1 ≡ (if has_cma word then 0o7777 - ac else ac) }
{
    let complemented_l = if has(word, CML) { 1 - l } else { l };
    let complemented_ac = if has(word, CMA) { 0o7777 - ac } else { ac };
    (complemented_l, complemented_ac)
}

/// Whether a word of group 2 skips.
#[inline(always)]
pub(crate) fn group2_skips(word: Word, l: u8, ac: Word) -> bool
    ensures { result ≡ group2_skips word l ac }
{
    let negative = has(word, SMA) && has(ac, 0o4000);
    let zero = has(word, SZA) && ac == Word::ZERO;
    let link = has(word, SNL) && l == 1;
    let is_met = negative || zero || link;
    if has(word, REVERSE) { !is_met } else { is_met }
}

/// AC after a word of group 2.
#[inline(always)]
fn group2_ac(word: Word, ac: Word, switches: Word) -> Word
    ensures { result ≡ group2_ac word ac switches }
{
    let cleared = if has(word, CLA) { Word::ZERO } else { ac };
    if has(word, OSR) {
        cleared.or(switches)
    } else {
        cleared
    }
}

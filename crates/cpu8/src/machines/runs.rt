//! Runs of several steps.

ghost use Rattle.std.specs.Prelude.{◌≡◌, ◌+◌, ◌≤◌, ◌++◌, [], true, length, vec_len, vec_capacity};
ghost use Rattle.word12.specs.declared.sizes.TheConstants.{CORE};
ghost use Rattle.cpu8.specs.QuietSteps.{AreQuiet, AreUnbroken, IsUnbroken, is_quiet, is_settled};
ghost use Rattle.cpu8.specs.Unasked.{AreUnasked};
ghost use Rattle.cpu8.specs.Fetches.{AddsFetches, HaveRoom};
ghost use Rattle.cpu8.specs.Go.{IsGo, after, break_ahead, character_of, characters_of, reason, printing_step};

use super::Machine;
use crate::processors::quiet::{FEW, is_break};
use crate::{Gone, Stepped, Why};
use word12::{CORE, FIELD};

impl Machine {
    /// Makes steps, each an instruction or an interrupt (Small Computer Handbook), up to a HLT, an unassigned word or a break. It
    /// makes at most n of them, and none where the machine stands stopped. The breaks say for each cell, by its number, whether it
    /// has one. A cell past their end has none, and a break isn't tested before the first step. With `quick` the printer ends its
    /// character before each step that finds it busy (this project's profile). What is printed is appended, for which the caller
    /// made room: a run takes no memory.
    pub fn run(&mut self, n: usize, quick: bool, breaks: &[bool], printed: &mut Vec<u8>) -> Gone
        requires room { vec_len printed.old + n ≤ vec_capacity printed.old }
        ensures steps { IsGo quick breaks.now self.old n result.steps result.why }
        ensures state { self.new ≡ after quick result.steps self.old }
        ensures printed { printed.new.items ≡ printed.old.items ++ characters_of quick result.steps self.old }
        ensures capacity { vec_capacity printed.new ≡ vec_capacity printed.old }
    {
        if !self.processor.running {
            return Gone {
                steps: 0,
                why: Why::Halt,
            };
        }
        let unbroken = unbroken_fields(n, breaks);
        let mut made = 0;
        while made < n {
            if let Some(why) = self.advance(quick, breaks, printed) {
                return Gone {
                    steps: made + 1,
                    why,
                };
            }
            made += 1;
            made += self.run_quietly(n - made, quick, breaks, &unbroken);
            if let Some(why) = self.break_ahead(breaks) {
                return Gone { steps: made, why };
            }
        }
        Gone {
            steps: n,
            why: Why::Limit,
        }
    }

    /// Makes steps, at most n, as many as are quickly made without a look at the Teletype, and answers how many. The printer ends
    /// its character before the next step (this project's profile). Each step is an instruction that prints nothing and goes on. It
    /// stops before a KSF that finds the keyboard flag clear, where a program asks for a key. It also stops before an instruction
    /// that changes whether interrupts are on. Where none is made the caller takes a `step`.
    pub fn run_unasked(&mut self, n: usize) -> usize
        ensures within { result ≤ n }
        ensures state { self.new ≡ after true result self.old }
        ensures unasked { AreUnasked self.old result }
    {
        if !self.begins_unasked() {
            return 0;
        }
        self.run_without_breaks(n, true, true, &[])
    }

    /// The same, and counts the words that are fetched. One count for each of the 0o100000 cells of core becomes one more with each
    /// step that fetches the word of its cell. Each count must have room for n more.
    pub fn run_unasked_counting(&mut self, n: usize, counts: &mut [u64]) -> usize
        requires size { length counts.old ≡ CORE }
        requires room { HaveRoom n counts.old }
        ensures within { result ≤ n }
        ensures state { self.new ≡ after true result self.old }
        ensures unasked { AreUnasked self.old result }
        ensures counts { AddsFetches result self.old counts.old counts.new }
    {
        if !self.begins_unasked() {
            return 0;
        }
        self.run_counting(n, counts)
    }

    /// Whether steps may be made without a look at the Teletype, and are worth it.
    #[inline(always)]
    fn begins_unasked(&self) -> bool
        ensures quiet { result ≡ true → is_quiet true self.now ≡ true }
        ensures settled { result ≡ true → is_settled self.now ≡ true }
    {
        self.processor.is_quiet(true)
            && self.processor.is_settled()
            && !self.processor.finds_transfer(&self.core)
    }

    /// Makes up to n steps as long as they are quiet, and no break is ahead. Where few were made, IOTs come close together, and the
    /// loop with IOTs goes on. It comes back after `MOST` steps, since steps without IOTs are made sooner without it.
    #[inline(always)]
    fn run_quietly(
        &mut self,
        n: usize,
        quick: bool,
        breaks: &[bool],
        unbroken: &[bool; FIELDS],
    ) -> usize
        requires { AreUnbroken breaks.now unbroken.now }
        ensures within { result ≤ n }
        ensures state { self.new ≡ after quick result self.old }
        ensures quiet { AreQuiet quick breaks.now self.old result }
    {
        if !self.begins_quietly(quick) {
            return 0;
        }
        let made = self.run_settled(n, quick, breaks, unbroken);
        if made >= FEW || self.processor.finds_print(&self.core) {
            return made;
        }
        if !self.processor.is_quiet(quick) || is_break(breaks, self.next_cell()) {
            return made;
        }
        made + self.run_with_transfers((n - made).min(MOST), quick, breaks)
    }

    /// Whether steps may be quiet, and are worth it.
    #[inline(always)]
    fn begins_quietly(&self, quick: bool) -> bool
        ensures quiet { result ≡ true → is_quiet quick self.now ≡ true }
        ensures settled { result ≡ true → is_settled self.now ≡ true }
    {
        self.processor.is_quiet(quick)
            && self.processor.is_settled()
            && !self.processor.finds_print(&self.core)
    }

    /// The steps of a quiet machine up to the next IOT: none where breaks are set in some cells alone.
    #[inline(always)]
    fn run_settled(
        &mut self,
        n: usize,
        quick: bool,
        breaks: &[bool],
        unbroken: &[bool; FIELDS],
    ) -> usize
        requires quiet { is_quiet quick self.old ≡ true }
        requires settled { is_settled self.old ≡ true }
        requires unbroken { AreUnbroken breaks.now unbroken.now }
        ensures within { result ≤ n }
        ensures state { self.new ≡ after quick result self.old }
        ensures quiet { AreQuiet quick breaks.now self.old result }
    {
        if unbroken[usize::from(self.processor.instruction_field)] {
            return self.run_without_breaks(n, quick, false, breaks);
        }
        if breaks.len() >= CORE {
            return self.run_with_breaks(n, quick, breaks);
        }
        0
    }

    /// The steps of a quiet machine with IOTs among them, on a copy of the processor too.
    #[inline(never)]
    fn run_with_transfers(&mut self, n: usize, quick: bool, breaks: &[bool]) -> usize
        requires { is_quiet quick self.old ≡ true }
        ensures within { result ≤ n }
        ensures state { self.new ≡ after quick result self.old }
        ensures quiet { AreQuiet quick breaks.now self.old result }
    {
        let mut processor = self.processor;
        let steps = processor.run_with_transfers(&mut self.core, n, quick, breaks);
        self.processor = processor;
        steps
    }

    /// The steps of a quiet machine in a field without breaks. They are made on a copy of the processor, which so stays in
    /// registers of the machine that this program runs on. By the settled state the compiler knows that these steps leave the
    /// fields and the states of interrupts alone. A run that asks and one that doesn't go through the same loop, at the same speed.
    #[inline(never)]
    fn run_without_breaks(&mut self, n: usize, quick: bool, asks: bool, breaks: &[bool]) -> usize
        requires quiet { is_quiet quick self.old ≡ true }
        requires settled { is_settled self.old ≡ true }
        requires breaks { IsUnbroken breaks.now self.old.instruction_field }
        ensures within { result ≤ n }
        ensures state { self.new ≡ after quick result self.old }
        ensures quiet { AreQuiet quick breaks.now self.old result }
        ensures unasked { quick ≡ true → asks ≡ true → AreUnasked self.old result }
    {
        let mut processor = self.processor.with_settled_state();
        let steps = processor.run_quietly::<false>(&mut self.core, n, quick, asks, breaks);
        self.processor = processor;
        steps
    }

    /// The same with breaks that say for each cell whether it has one.
    #[inline(never)]
    fn run_with_breaks(&mut self, n: usize, quick: bool, breaks: &[bool]) -> usize
        requires quiet { is_quiet quick self.old ≡ true }
        requires settled { is_settled self.old ≡ true }
        requires breaks { CORE ≤ length breaks.now }
        ensures within { result ≤ n }
        ensures state { self.new ≡ after quick result self.old }
        ensures quiet { AreQuiet quick breaks.now self.old result }
    {
        let mut processor = self.processor.with_settled_state();
        let steps = processor.run_quietly::<true>(&mut self.core, n, quick, false, breaks);
        self.processor = processor;
        steps
    }

    /// The same with a question for a key at each step, and counts for each cell how often its word was fetched.
    #[inline(never)]
    fn run_counting(&mut self, n: usize, counts: &mut [u64]) -> usize
        requires quiet { is_quiet true self.old ≡ true }
        requires settled { is_settled self.old ≡ true }
        requires size { length counts.old ≡ CORE }
        requires room { HaveRoom n counts.old }
        ensures within { result ≤ n }
        ensures state { self.new ≡ after true result self.old }
        ensures unasked { AreUnasked self.old result }
        ensures counts { AddsFetches result self.old counts.old counts.new }
    {
        let mut processor = self.processor.with_settled_state();
        let left = processor.count_fetches(&mut self.core, n, counts);
        self.processor = processor;
        n - left
    }

    /// A step: its character is appended, for which there is room. The answer is why to stop after it, if there is a reason.
    #[inline(always)]
    fn advance(&mut self, quick: bool, breaks: &[bool], printed: &mut Vec<u8>) -> Option<Why>
        requires { vec_len printed.old + 1 ≤ vec_capacity printed.old }
        ensures state { self.new ≡ (printing_step quick self.old).0 }
        ensures reason { result ≡ reason breaks.now (printing_step quick self.old).1 self.new }
        ensures printed { printed.new.items
            ≡ printed.old.items ++ character_of (printing_step quick self.old).1 }
        ensures len { vec_len printed.new ≤ vec_len printed.old + 1 }
        ensures capacity { vec_capacity printed.new ≡ vec_capacity printed.old }
    {
        match self.take_turn(quick) {
            Stepped::Halted => return Some(Why::Halt),
            Stepped::Unassigned(_) => return Some(Why::Unassigned),
            Stepped::Ran {
                printed: Some(character),
            } => printed.push_reserved(character),
            _ => {}
        }
        self.break_ahead(breaks)
    }

    /// The reason to stop where the next instruction is at a break.
    #[inline(always)]
    fn break_ahead(&self, breaks: &[bool]) -> Option<Why>
        ensures { result ≡ break_ahead breaks.now self.now }
    {
        if is_break(breaks, self.next_cell()) {
            Some(Why::Break)
        } else {
            None
        }
    }

    /// A step, before which a quick printer ends its character where it is busy.
    #[inline(always)]
    fn take_turn(&mut self, quick: bool) -> Stepped
        ensures state { self.new ≡ (printing_step quick self.old).0 }
        ensures answer { result ≡ (printing_step quick self.old).1 }
    {
        if quick && self.processor.teletype.is_busy() {
            self.end_character();
        }
        self.step()
    }
}

/// Which fields have no break: all where there is none. Else a run of few steps isn't worth the look, and for no field it is known
/// that it has none.
fn unbroken_fields(n: usize, breaks: &[bool]) -> [bool; FIELDS]
    ensures { AreUnbroken breaks.now result }
{
    let mut unbroken = [breaks.is_empty(); FIELDS];
    if n >= FIELD && breaks.len() >= CORE {
        for field in 0..FIELDS {
            let first = FIELD * field;
            unbroken[field] = !breaks[first..first + FIELD].contains(&true);
        }
    }
    unbroken
}

const FIELDS: usize = 8;

/// The most steps that the loop with IOTs makes in one go.
const MOST: usize = 256;

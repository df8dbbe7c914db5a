//! A machine at a terminal whose keys are known, step by step.

ghost use Rattle.std.specs.Prelude.{◌≡◌, ℕ, ◌+◌, ◌^◌, ◌<◌, ◌≤◌, false, None, length};
ghost use Rattle.word12.specs.declared.sizes.TheConstants.{CORE};
ghost use Rattle.cpu8.specs.Fetches.{HaveRoom};
ghost use Rattle.cpu8.specs.declared.outcomes.Stepped.TheVariants.{Ran};
ghost use Rattle.terminal8.specs.Asks.{asks_for_key};
ghost use Rattle.terminal8.specs.Fetches.{AddsFetches};
ghost use Rattle.terminal8.specs.Terminal.{after_attention, later, next, starves, after_step};
ghost use Rattle.terminal8.specs.Laws.{terminal_with_keys};

use crate::asking::{asks_for_key, steps_before_look, waits_for_key};
use cpu8::{Machine, Stepped};
use std::marker::Model;

/// A machine, and the keys that are struck at it one after the other, each where the program asks for one. A contract sees the
/// terminal whose looks find these keys.
#[derive(Drop)]
pub struct Terminal<'k> {
    machine: Machine,
    keys: &'k [u8],
    /// How many steps were made since the program last asked for a key.
    since: u64,
}

impl<'k> Model for Terminal<'k> {
    ghost use Rattle.std.specs.Prelude.{map, Some};
    ghost use Rattle.terminal8.specs.Terminal as spec;

    ghost Value = { spec.Terminal };

    ghost view = { λ t. record {
      machine = t.machine;
      looks = map (λ key. Some key) t.keys.now;
      since = t.since;
    } };
}

impl<'k> Terminal<'k> {
    /// An operator who will strike these keys, of eight bits, sits down at a machine.
    pub fn new(machine: Machine, keys: &'k [u8]) -> Terminal<'k>
        ensures { result ≡ terminal_with_keys machine keys.now }
    {
        Terminal {
            machine,
            keys,
            since: 0,
        }
    }

    /// The machine.
    #[inline]
    pub fn machine(&self) -> &Machine
        ensures { result.now ≡ self.now.machine }
    {
        &self.machine
    }

    /// Whether the keys have ended, and the machine waits for one for ever.
    pub fn starves(&self) -> bool
        ensures { result ≡ starves self.now }
    {
        self.keys.is_empty() && waits_for_key(&self.machine)
    }

    /// One step. Where the program asks for a key the next one is struck. Then the printer ends its character where it is busy, and
    /// then the machine makes a step (this project's profile). A terminal makes at most 2^64 - 1 steps.
    #[inline]
    pub fn step(&mut self) -> Stepped
        requires { self.old.since + 1 < 2 ^ 64 }
        ensures state { self.new ≡ next self.old }
        ensures answer { result ≡ (after_step self.old).1 }
    {
        self.attend();
        if self.machine.is_busy() {
            self.machine.end_character();
        }
        self.since += 1;
        self.machine.step()
    }

    /// Makes at once at most n steps, as many as are quickly made, and answers how many. Each is an instruction that prints nothing
    /// and goes on, and in none the program asks for a key. One count for each of the 0o100000 cells of core becomes one more with
    /// each step that fetches the word of its cell. Each count has room for n more. Where none is made the caller takes a `step`. A
    /// terminal makes at most 2^64 - 1 steps.
    pub fn go_on_counting(&mut self, n: u64, counts: &mut [u64]) -> u64
        requires since { self.old.since + n < 2 ^ 64 }
        requires size { length counts.old ≡ CORE }
        requires room { HaveRoom n counts.old }
        ensures within { result ≤ n }
        ensures state { self.new ≡ later result self.old }
        ensures answers { (k : ℕ) → k < result → (after_step (later k self.old)).1 ≡ Ran None }
        ensures asks { (k : ℕ) → k < result
            → asks_for_key (later k self.old).since (later k self.old).machine ≡ false }
        ensures counts { AddsFetches result self.old counts.old counts.new }
    {
        let most = steps_before_look(self.since, &self.machine, n);
        let steps = self.machine.run_unasked_counting(most, counts) as u64;
        self.since += steps;
        steps
    }

    /// Strikes the next key where the program asks for one.
    #[inline]
    fn attend(&mut self)
        ensures { self.new ≡ after_attention self.old }
    {
        if !asks_for_key(self.since, &self.machine) {
            return;
        }
        self.since = 0;
        if let [key, others @ ..] = self.keys {
            self.machine.key(*key);
            self.keys = others;
        }
    }
}

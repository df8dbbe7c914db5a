//! The whole 8/E at a terminal whose keys are known, step by step.

ghost use Rattle.std.specs.Prelude.{◌≡◌, ◌+◌, ◌^◌, ◌<◌, ◌≤◌};
ghost use Rattle.pdp8e.specs.Step.{rest_of_step};
ghost use Rattle.pdp8e.specs.Terminal.{after_attention, after_step, in_step, move_at, next, out_of_step, starves, terminal_with_keys};

use crate::Machine;
use cpu8::Stepped;
use rk8e::Moved;
use std::marker::Model;
use terminal8e::TerminalMachine;

/// A whole 8/E, and the keys that are struck at it one after the other, each where the program asks for one. A contract sees the terminal
/// whose looks find these keys.
#[derive(Drop)]
pub struct Terminal<'k> {
    machine: Machine,
    keys: &'k [u8],
    /// How many steps were made since the last look.
    since: u64,
}

impl<'k> Model for Terminal<'k> {
    ghost use Rattle.std.specs.Prelude.{map, Some};
    ghost use Rattle.pdp8e.specs.Terminal as spec;

    ghost Value = { spec.Terminal };

    ghost view = { λ t. record {
      machine = t.machine;
      looks = map (λ key. Some key) t.keys.now;
      since = t.since;
    } };
}

impl<'k> Terminal<'k> {
    /// An operator who will strike these keys, of eight bits, sits down at a machine.
    pub fn new(machine: Machine, keys: &'k [u8]) -> Terminal<'k>
        ensures { result ≡ terminal_with_keys machine keys.now }
    {
        Terminal {
            machine,
            keys,
            since: 0,
        }
    }

    /// The machine.
    #[inline]
    pub fn machine(&self) -> &Machine
        ensures { result.now ≡ self.now.machine }
    {
        &self.machine
    }

    /// The machine, when nobody strikes keys at it any more.
    pub fn into_machine(self) -> Machine
        ensures { result ≡ self.entry.machine }
    {
        self.machine
    }

    /// Whether the keys have ended, and the machine waits for one for ever.
    pub fn starves(&self) -> bool
        ensures { result ≡ starves self.now }
    {
        self.keys.is_empty()
            && self.machine.asks_for_key(self.since)
            && self.machine.waits_for_key()
    }

    /// One step. Where the program asks for a key the next one is struck. Then the printer ends its character where it is busy, and
    /// then the machine makes a step (this project's profile). A terminal makes at most 2^64 - 1 steps.
    #[inline]
    pub fn step(&mut self) -> Stepped
        requires { self.old.since + 1 < 2 ^ 64 }
        ensures state { self.new ≡ next self.old }
        ensures answer { result ≡ (after_step self.old).1 }
    {
        self.attend();
        self.since += 1;
        let (did, _absence) = self.machine.make_step();
        did
    }

    /// The beginning of a step. A key is struck where the program asks for one, the printer ends its character where it is busy, and functions
    /// of the disk end that have no time left. What a transfer moved is answered.
    pub fn begin_step(&mut self) -> Option<Moved>
        requires { self.old.since + 1 < 2 ^ 64 }
        ensures state { self.new ≡ in_step self.old }
        ensures moved { result ≡ move_at self.old }
    {
        self.attend();
        self.since += 1;
        if self.machine.processor().is_busy() {
            self.machine.end_character();
        }
        self.machine.begin_step()
    }

    /// The rest of a step.
    pub fn finish_step(&mut self) -> Stepped
        ensures state { self.new ≡ out_of_step self.old }
        ensures answer { result ≡ (rest_of_step self.old.machine).1 }
    {
        self.machine.finish_step()
    }

    /// Strikes the next key where the program asks for one.
    #[inline]
    fn attend(&mut self)
        ensures state { self.new ≡ after_attention self.old }
        ensures sooner { self.new.since ≤ self.old.since }
    {
        if !self.machine.asks_for_key(self.since) {
            return;
        }
        self.since = 0;
        if let [key, others @ ..] = self.keys {
            self.machine.key(*key);
            self.keys = others;
        }
    }
}

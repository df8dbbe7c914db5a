//! What a machine of any kind does at a terminal.

ghost use Rattle.std.specs.Prelude.{◌≡◌, ◌≤◌};
ghost use Rattle.terminal8e.specs.Acts.{Acts};
ghost use Rattle.terminal8e.specs.AnyTerminal.{GoesUnasked};

use cpu8::Stepped;
use terminal8::Absence;

/// A machine that may stand at a terminal.
pub trait TerminalMachine {
    /// What its calls come to.
    ghost acts: { Acts Self };

    /// Whether it runs.
    fn is_running(&self) -> bool
        ensures { result ≡ acts.is_running self.now };

    /// Whether its program asks for a key, so many steps after the last look.
    fn asks_for_key(&self, since: u64) -> bool
        ensures { result ≡ acts.asks_for_key since self.now };

    /// Whether its program, where it asks for a key, does nothing but wait for it, for ever if none comes.
    fn waits_for_key(&self) -> bool
        ensures { result ≡ acts.waits_for_key self.now };

    /// A key of this eight-bit character is struck.
    fn strike_key(&mut self, character: u8)
        ensures { self.new ≡ acts.key_struck self.old character };

    /// A step, before which the printer ends its character where it is busy. What it does is also answered, if it is an IOT of a device
    /// that isn't there, and no interrupt.
    fn make_step(&mut self) -> (Stepped, Option<Absence>)
        ensures state { self.new ≡ (acts.printing_step self.old).0 }
        ensures answer { result.0 ≡ (acts.printing_step self.old).1 }
        ensures absence { result.1 ≡ acts.absence_at self.old };

    /// Makes at most n steps at once, as many as are quickly made, and answers how many. Each goes on and prints nothing, and in none the
    /// program asks for a key, or for a device that isn't there. So many steps were made since the last look. Where it makes none, the
    /// caller takes `make_step`.
    fn make_quick_steps(&mut self, since: u64, n: u64) -> u64
        ensures within { result ≤ n }
        ensures steps { GoesUnasked acts since result self.old self.new };
}

//! Runs of several steps.

ghost use Rattle.std.specs.Prelude.{◌≡◌, ◌-◌, ◌<◌, ◌≤◌, true, false};
ghost use Rattle.cpu8e.specs.Runs.{after};
ghost use Rattle.cpu8e.specs.Step.{next_word};
ghost use Rattle.cpu8e.specs.Unasked.{AreUnasked, jumps_back, may_ask};
ghost use Rattle.cpu8e.specs.QuickSteps.{DoesOrNot, Stays, is_quiet, is_settled};

use super::Machine;

impl Machine {
    /// Makes steps, at most n, as many as are quickly made without a look at console and devices, and answers how many. The printer ends
    /// its character before the next step (this project's profile). Each step is an instruction that prints nothing and goes on. It
    /// stops where the program waits for a key, by a KSF that finds the keyboard flag clear and a JMP back to it. If looks count, it stops
    /// before any KSF that finds the flag clear. It also stops before each IOT that changes more than AC, PC and the fields. Where none is
    /// made the caller takes a `step`.
    pub fn run_unasked(&mut self, n: usize, looks: bool) -> usize
        ensures within { result ≤ n }
        ensures state { self.new ≡ after result self.old }
        ensures unasked { AreUnasked looks self.old result }
        ensures request { self.new.device_request ≡ self.old.device_request }
    {
        if !self.processor.is_quiet() {
            return 0;
        }
        let mut left = n;
        while left > 0 {
            left = self.run_settled(left, looks);
            if !self.make_quick_step(left, looks) {
                return n - left;
            }
            left -= 1;
        }
        n
    }

    /// Whether the word after the next instruction is a direct JMP, 5000 to 5377, back to it.
    pub fn jumps_back(&self) -> bool
        ensures { result ≡ jumps_back self.now }
    {
        self.processor.jumps_back(&self.core)
    }

    /// The steps, of at most n, that a quiet machine makes while nothing waits for an instruction. The answer is how many of the n are left:
    /// all, where something waits, or where the next instruction is an IOT.
    #[inline(always)]
    fn run_settled(&mut self, n: usize, looks: bool) -> usize
        requires { is_quiet self.old ≡ true }
        ensures within { result ≤ n }
        ensures state { self.new ≡ after (n - result) self.old }
        ensures unasked { AreUnasked looks self.old (n - result) }
        ensures quiet { is_quiet self.new ≡ true }
        ensures stays { Stays self.old self.new }
    {
        if self.processor.is_settled() && !self.processor.finds_transfer(&self.core) {
            return self.run_quiet(n, looks);
        }
        n
    }

    /// The same where nothing waits. The steps are made on a copy of the processor, which so stays in registers of the machine that this
    /// program runs on. By the settled state the compiler knows that these steps leave the instruction field, user mode and the states
    /// of interrupts alone.
    #[inline(never)]
    fn run_quiet(&mut self, n: usize, looks: bool) -> usize
        requires quiet { is_quiet self.old ≡ true }
        requires settled { is_settled self.old ≡ true }
        ensures within { result ≤ n }
        ensures state { self.new ≡ after (n - result) self.old }
        ensures unasked { AreUnasked looks self.old (n - result) }
        ensures quiet { is_quiet self.new ≡ true }
        ensures stays { Stays self.old self.new }
    {
        let mut processor = self.processor.with_settled_state();
        let left = processor.make_quick_steps(&mut self.core, n, looks);
        self.processor = processor;
        left
    }

    /// One step of a quiet machine, if one is left and it is quick, whatever waits for an instruction. The answer is whether it was made.
    #[inline(never)]
    fn make_quick_step(&mut self, left: usize, looks: bool) -> bool
        requires { is_quiet self.old ≡ true }
        ensures left { result ≡ true → 0 < left }
        ensures does { DoesOrNot self.old (next_word self.old) result self.new }
        ensures asks { result ≡ true → may_ask looks self.old ≡ false }
    {
        left > 0 && self.processor.make_quick_step(&mut self.core, looks)
    }
}

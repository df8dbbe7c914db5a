//! Runs of several steps.

ghost use Rattle.std.specs.Prelude.{◌≡◌, ◌+◌, ◌^◌, ◌<◌, ◌≤◌, true, length, IfOk, OnErr};
ghost use Rattle.cpu8.specs.Unasked.{AreUnasked};
ghost use Rattle.history8.specs.History.{machine_of, with_steps};
ghost use Rattle.history8.specs.Stops.{IsRunTo, at_break};
ghost use Rattle.history8.specs.Steps.{IsPartOfRun, end_after, is_limit};

use super::History;
use crate::outcomes::{End, Run};
use crate::stops::Stop;
use crate::watches::{Breaks, Each, Watch};
use std::alloc::AllocError;

impl History {
    /// Makes steps, at most so many, until the machine stops or comes to a break: at the speed of cpu8's own run. The breaks say for
    /// each cell, by its number, whether it has one. A cell past their end has none, and none is tested before the first step.
    /// With `quick` the printer ends its character before each step that finds it busy (this project's profile). Where there is no
    /// memory for what may be printed, the run ends there.
    pub fn go(&mut self, quick: bool, breaks: &[bool], most: usize) -> Run
        requires room { length self.old.changes + most < 2 ^ 64 }
        ensures run { IsRunTo quick (at_break breaks.now) (machine_of self.old) most result.steps result.end }
        ensures history { self.new ≡ with_steps quick result.steps self.old }
    {
        self.run(quick, &Breaks { flags: breaks }, most)
    }

    /// Makes steps, at most so many, until the machine stops or a condition holds of the step. Before each a quick printer ends its
    /// character. Where there is no memory for what may be printed, the run ends there.
    pub fn run_to<S: Stop>(&mut self, quick: bool, stop: &S, most: usize) -> Run
        requires room { length self.old.changes + most < 2 ^ 64 }
        ensures run { IsRunTo quick (S.condition stop.now) (machine_of self.old) most result.steps result.end }
        ensures history { self.new ≡ with_steps quick result.steps self.old }
    {
        self.run(quick, &Each { stop }, most)
    }

    /// Makes steps, at most so many, until the machine stops or a condition holds of the step.
    fn run<W: Watch>(&mut self, quick: bool, watch: &W, most: usize) -> Run
        requires room { length self.old.changes + most < 2 ^ 64 }
        ensures run { IsRunTo quick (W.condition watch.now) (machine_of self.old) most result.steps result.end }
        ensures history { self.new ≡ with_steps quick result.steps self.old }
    {
        if !self.machine().is_running() {
            return Run {
                steps: 0,
                end: End::Stopped,
            };
        }
        let mut steps = 0;
        while steps < most {
            let part = self.run_to_checkpoint(quick, watch, most - steps);
            steps += part.steps;
            if !is_limit(part.end) {
                return Run {
                    steps,
                    end: part.end,
                };
            }
        }
        Run {
            steps: most,
            end: End::Limit,
        }
    }

    /// The same up to where a checkpoint is due: `Limit` says that so far nothing ends the run.
    fn run_to_checkpoint<W: Watch>(&mut self, quick: bool, watch: &W, most: usize) -> Run
        requires some { 0 < most }
        requires room { length self.old.changes + most < 2 ^ 64 }
        ensures run { IsPartOfRun quick (W.condition watch.now) (machine_of self.old) most result.steps result.end }
        ensures history { self.new ≡ with_steps quick result.steps self.old }
    {
        let most = most.min(self.changes_to_checkpoint());
        match self.journal.reserve(most) {
            Ok(()) => {
                let made = watch.make_steps(
                    &mut self.machine,
                    quick,
                    most,
                    &mut self.journal.characters,
                );
                let runs = self.machine.is_running();
                self.journal.note_steps(quick, made.count);
                self.keep_checkpoint();
                Run {
                    steps: made.count,
                    end: end_after(runs, made.is_met),
                }
            }
            Err(AllocError) => Run {
                steps: 0,
                end: End::Memory,
            },
        }
    }

    /// Makes steps, at most so many, as many as are quickly made without a look at the Teletype, and answers how many. In none of them
    /// the program asks for a key, and none prints. The printer is quick. Where none is made the caller takes a `step`. Nothing is
    /// changed where memory is refused.
    pub fn go_unasked(&mut self, most: usize) -> Result<usize, AllocError>
        requires room { length self.old.changes + most < 2 ^ 64 }
        ensures within { IfOk result (λ steps. steps ≤ most) }
        ensures history { IfOk result (λ steps. self.new ≡ with_steps true steps self.old) }
        ensures unasked { IfOk result (λ steps. AreUnasked (machine_of self.old) steps) }
        ensures err { OnErr result (self.new ≡ self.old) }
    {
        let most = most.min(self.changes_to_checkpoint());
        self.journal.reserve(0)?;
        let steps = self.machine.run_unasked(most);
        self.journal.note_steps(true, steps);
        self.keep_checkpoint();
        Ok(steps)
    }

    /// How many changes may be made before a checkpoint is due, one at least.
    fn changes_to_checkpoint(&self) -> usize
        ensures { 0 < result }
    {
        self.due.saturating_sub(self.journal.count).max(1)
    }
}

/// Why a run ends after a step: `Limit` says that nothing ends it.
fn end_after(runs: bool, is_met: bool) -> End
    ensures { result ≡ end_after runs is_met }
{
    if !runs {
        return End::Stopped;
    }
    if is_met { End::Met } else { End::Limit }
}

/// Whether nothing ended a run so far.
fn is_limit(end: End) -> bool
    ensures { result ≡ is_limit end }
{
    match end {
        End::Limit => true,
        _ => false,
    }
}

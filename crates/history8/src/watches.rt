//! Steps up to one of which a condition holds.

ghost use Rattle.std.specs.Prelude.{◌≡◌, ◌+◌, ◌<◌, ◌≤◌, ◌++◌, vec_len, vec_capacity};
ghost use Rattle.cpu8.specs.Go.{characters_of, is_break};
ghost use Rattle.cpu8.specs.State.{next_cell};
ghost use Rattle.history8.specs.Stops.{Condition, at_break};
ghost use Rattle.history8.specs.Steps.{MakesSteps, RunsSteps};

use crate::entries::{make_step, push_character};
use crate::stops::{Stop, make_watched_step};
use cpu8::Machine;

/// Steps that were made.
#[derive(Clone, Copy)]
pub(crate) struct Steps {
    pub(crate) count: usize,
    /// Whether the condition holds of the last of them.
    pub(crate) is_met: bool,
}

/// How steps are made up to one of which a condition holds.
pub(crate) trait Watch {
    /// The condition.
    ghost condition: { Self → Condition };

    /// Makes steps, at most so many and at least one, and none after one of which the condition holds. What they print is appended,
    /// for which there is room.
    fn make_steps(
        &self,
        machine: &mut Machine,
        quick: bool,
        most: usize,
        printed: &mut Vec<u8>,
    ) -> Steps
        requires some { 0 < most }
        requires room { vec_len printed.old + most ≤ vec_capacity printed.old }
        ensures steps { MakesSteps (condition self.now) quick most machine.old machine.new result.count result.is_met }
        ensures printed { printed.new.items ≡ printed.old.items ++ characters_of quick result.count machine.old }
        ensures capacity { vec_capacity printed.new ≡ vec_capacity printed.old };
}

/// The next instruction is at one of these breaks: at the speed of cpu8's own run.
#[derive(Clone, Copy)]
pub(crate) struct Breaks<'a> {
    pub(crate) flags: &'a [bool],
}

impl<'a> Watch for Breaks<'a> {
    ghost condition = { λ watch. at_break watch.flags.now };

    fn make_steps(
        &self,
        machine: &mut Machine,
        quick: bool,
        most: usize,
        printed: &mut Vec<u8>,
    ) -> Steps {
        let count = run_to_break(machine, quick, most, self.flags, printed);
        let is_met = is_at_break(self.flags, machine);
        Steps { count, is_met }
    }
}

/// A condition is asked of each step.
#[derive(Drop)]
pub(crate) struct Each<'a, S: Stop> {
    pub(crate) stop: &'a S,
}

impl<'a, S: Stop> Watch for Each<'a, S> {
    ghost condition = { λ watch. S.condition watch.stop.now };

    fn make_steps(
        &self,
        machine: &mut Machine,
        quick: bool,
        most: usize,
        printed: &mut Vec<u8>,
    ) -> Steps {
        step_to(machine, quick, self.stop, most, printed)
    }
}

/// Makes steps up to a break, and answers how many.
fn run_to_break(
    machine: &mut Machine,
    quick: bool,
    most: usize,
    breaks: &[bool],
    printed: &mut Vec<u8>,
) -> usize
    requires some { 0 < most }
    requires room { vec_len printed.old + most ≤ vec_capacity printed.old }
    ensures steps { RunsSteps (at_break breaks.now) quick most machine.old machine.new result }
    ensures printed { printed.new.items ≡ printed.old.items ++ characters_of quick result machine.old }
    ensures capacity { vec_capacity printed.new ≡ vec_capacity printed.old }
{
    let gone = machine.run(most, quick, breaks, printed);
    if gone.steps > 0 {
        return gone.steps;
    }
    let did = make_step(machine, quick);
    push_character(printed, did);
    1
}

/// Makes steps one by one up to one of which a condition holds.
fn step_to<S: Stop>(
    machine: &mut Machine,
    quick: bool,
    stop: &S,
    most: usize,
    printed: &mut Vec<u8>,
) -> Steps
    requires some { 0 < most }
    requires room { vec_len printed.old + most ≤ vec_capacity printed.old }
    ensures steps { MakesSteps (S.condition stop.now) quick most machine.old machine.new result.count result.is_met }
    ensures printed { printed.new.items ≡ printed.old.items ++ characters_of quick result.count machine.old }
    ensures capacity { vec_capacity printed.new ≡ vec_capacity printed.old }
{
    let mut count = 0;
    while count < most {
        let (did, is_met) = make_watched_step(machine, quick, stop);
        push_character(printed, did);
        count += 1;
        if is_met || !machine.is_running() {
            return Steps { count, is_met };
        }
    }
    Steps {
        count,
        is_met: false,
    }
}

/// Whether the next instruction is at a break.
fn is_at_break(breaks: &[bool], machine: &Machine) -> bool
    ensures { result ≡ is_break breaks.now (next_cell machine.now) }
{
    match breaks.get(machine.next_cell().index()) {
        Some(flag) => *flag,
        None => false,
    }
}

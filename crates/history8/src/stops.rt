//! Conditions of steps, at which a run stops.

ghost use Rattle.std.specs.Prelude.{◌≡◌, option_to_list};
ghost use Rattle.cpu8.specs.State.{State};
ghost use Rattle.cpu8.specs.Go.{printing_step, is_break};
ghost use Rattle.cpu8.specs.Stores.{stores};
ghost use Rattle.history8.specs.Changes.{ready};
ghost use Rattle.history8.specs.Stops.{Condition, at_cell, on_print, on_return, on_write, returns_through, stores_in, any_in};

use crate::entries::{character_count, end_character};
use crate::stores::{cells_of_stores, next_word, operation, pointer_cell, runs_undisturbed};
use cpu8::decoding::{INDIRECT, has};
use cpu8::{Machine, Stepped};
use word12::Cell;

/// A condition of a step: of the state in which it is made, what it does, and the state that it leaves.
pub trait Stop {
    /// What is kept of the state before the step.
    type Look: Drop;

    /// The condition.
    ghost condition: { Self → Condition };

    /// So much is known of a state in which a step is made.
    ghost is_look: { Self → State → Self.Look → Type 0 };

    /// Looks at a machine before its step. A quick printer has ended its character.
    fn look(&self, machine: &Machine) -> Self::Look
        ensures { is_look self.now machine.now result };

    /// Whether the condition holds of a step that did this, and left the machine so.
    fn is_met(&self, look: Self::Look, did: Stepped, machine: &Machine) -> bool
        ensures { (before : State) → is_look self.now before look
            → result ≡ condition self.now before did machine.now };
}

/// A step, and whether a condition holds of it. Before it a quick printer ends its character.
pub(crate) fn make_watched_step<S: Stop>(
    machine: &mut Machine,
    quick: bool,
    stop: &S,
) -> (Stepped, bool)
    ensures state { machine.new ≡ (printing_step quick machine.old).0 }
    ensures answer { result.0 ≡ (printing_step quick machine.old).1 }
    ensures is_met { result.1 ≡ S.condition stop.now (ready quick machine.old) (printing_step quick machine.old).1 machine.new }
{
    end_character(machine, quick);
    let look = stop.look(machine);
    let did = machine.step();
    let again = did;
    let is_met = stop.is_met(look, did, machine);
    (again, is_met)
}

/// The next instruction is at this cell.
#[derive(Clone, Copy, PartialEq, Eq, Debug)]
pub struct AtCell(pub Cell);

impl Stop for AtCell {
    type Look = ();

    ghost condition = { λ stop. at_cell stop.0 };

    ghost is_look = { λ stop before look. Unit {0} };

    fn look(&self, _machine: &Machine) {}

    fn is_met(&self, _look: (), _did: Stepped, machine: &Machine) -> bool {
        machine.next_cell() == self.0
    }
}

/// The step printed a character.
#[derive(Clone, Copy, PartialEq, Eq, Debug)]
pub struct OnPrint;

impl Stop for OnPrint {
    type Look = ();

    ghost condition = { λ stop. on_print };

    ghost is_look = { λ stop before look. Unit {0} };

    fn look(&self, _machine: &Machine) {}

    fn is_met(&self, _look: (), did: Stepped, _machine: &Machine) -> bool {
        character_count(did) == 1
    }
}

/// The step stored in a watched cell, whether or not its word became another one. The list says for each cell, by its number,
/// whether it is watched. A cell past its end is not.
#[derive(Clone, Copy)]
pub struct OnWrite<'a> {
    pub cells: &'a [bool],
}

impl<'a> Stop for OnWrite<'a> {
    type Look = bool;

    ghost condition = { λ stop. on_write (is_break stop.cells.now) };

    ghost is_look = { λ stop before look. look ≡ stores_in (is_break stop.cells.now) (stores before) };

    fn look(&self, machine: &Machine) -> bool {
        let (first, second) = cells_of_stores(machine);
        is_watched(self.cells, first) || is_watched(self.cells, second)
    }

    fn is_met(&self, look: bool, _did: Stepped, _machine: &Machine) -> bool {
        look
    }
}

/// The subroutine with this first word returned: by an indirect JMP through that word, wherever it leads.
#[derive(Clone, Copy, PartialEq, Eq, Debug)]
pub struct OnReturn {
    pub entry: Cell,
}

impl Stop for OnReturn {
    type Look = bool;

    ghost condition = { λ stop. on_return stop.entry };

    ghost is_look = { λ stop before look. look ≡ returns_through stop.entry before };

    fn look(&self, machine: &Machine) -> bool {
        let word = next_word(machine);
        runs_undisturbed(machine)
            && operation(word) == JMP
            && has(word, INDIRECT)
            && pointer_cell(machine, word) == self.entry
    }

    fn is_met(&self, look: bool, _did: Stepped, _machine: &Machine) -> bool {
        look
    }
}

/// Whether a cell, if there is one, is watched.
fn is_watched(watched: &[bool], cell: Option<Cell>) -> bool
    ensures { result ≡ any_in (is_break watched.now) (option_to_list cell) }
{
    match cell {
        Some(cell) => match watched.get(cell.index()) {
            Some(flag) => *flag,
            None => false,
        },
        None => false,
    }
}

/// The operation of JMP, bits 0 to 2 of its word.
const JMP: u16 = 5;

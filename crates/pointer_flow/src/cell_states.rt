//! What the states of a cell in a table have in common.

ghost use Rattle.std.specs.Prelude.{◌≡◌, ◌↔◌, true};
ghost use Rattle.pointer_flow.specs.Calls.{call_of};
ghost use Rattle.pointer_flow.specs.Programs.{Program};
ghost use Rattle.pointer_flow.specs.Questions.{rank};
ghost use Rattle.pointer_flow.specs.Settled.{IsEarliest, IsMarkedAt, IsSettled};
ghost use Rattle.pointer_flow.specs.States.{IsState, jump_field};
ghost use Rattle.pointer_flow.specs.Steps.{call_in, earlier_call, settled_field, with_field_if, with_field};
ghost use Rattle.pointer_flow.specs.Tables.{AreFacts};
ghost use Rattle.pointer_flow.specs.declared.states.State.{State};

use crate::calls::{Call, call_of};
use crate::facts::Facts;
use crate::state_sets::StateSet;
use crate::states::{STATES_OF_CELL, State, jump_field, state_at};
use word12::{Cell, Word};

/// The fields that some states of a cell have.
#[derive(Clone, Copy)]
pub(crate) enum Settled {
    /// There was no state yet.
    NoState,
    /// All had this field.
    Field(u8),
    /// They had several, or one that isn't known.
    Several,
}

/// Whether a table has a state of a cell.
pub(crate) fn has_any(states: &StateSet, cell: Cell) -> bool
    ensures { (result ≡ true) ↔ ((s : State) × IsMarkedAt states.now.bits.items cell s) }
{
    for number in 0..STATES_OF_CELL {
        if states.has(&state_at(cell, number)) {
            return true;
        }
    }
    false
}

/// The field into which jumps go in the states of a cell.
pub(crate) fn settled_jump(states: &StateSet, cell: Cell) -> Settled
    ensures { IsSettled (IsMarkedAt states.now.bits.items cell) (λ s. jump_field s.cell s.buffer) result }
{
    let mut settled = Settled::NoState;
    for number in 0..STATES_OF_CELL {
        let state = state_at(cell, number);
        let field = jump_field(state.cell, state.buffer);
        settled = with_field_if(settled, states.has(&state), field);
    }
    settled
}

/// The data field of the states of a cell.
pub(crate) fn settled_data(states: &StateSet, cell: Cell) -> Settled
    ensures { IsSettled (IsMarkedAt states.now.bits.items cell) (λ s. s.data_field) result }
{
    let mut settled = Settled::NoState;
    for number in 0..STATES_OF_CELL {
        let state = state_at(cell, number);
        settled = with_field_if(settled, states.has(&state), state.data_field);
    }
    settled
}

/// With one state more, if it is reached.
fn with_field_if(settled: Settled, is_reached: bool, field: Option<u8>) -> Settled
    ensures { result ≡ with_field_if settled is_reached field }
{
    if is_reached {
        with_field(settled, field)
    } else {
        settled
    }
}

/// With the field of one state more.
fn with_field(settled: Settled, field: Option<u8>) -> Settled
    ensures { result ≡ with_field settled field }
{
    let Some(field) = field else {
        return Settled::Several;
    };
    match settled {
        Settled::NoState => Settled::Field(field),
        Settled::Field(other) if other == field => Settled::Field(field),
        _ => Settled::Several,
    }
}

pub(crate) fn settled_field(settled: Settled) -> Option<u8>
    ensures { result ≡ settled_field settled }
{
    match settled {
        Settled::Field(field) => Some(field),
        _ => None,
    }
}

/// Of the calls that an instruction of this word is in the states of a cell the one that counts before the others.
pub(crate) fn earliest_call(
    facts: &Facts<'_>,
    states: &StateSet,
    cell: Cell,
    word: Word,
) -> Option<Call>
    ensures { (p : Program) → AreFacts p facts.now.words.now facts.now.data_flags.now facts.now.increments.items
        facts.now.arguments.items facts.now.handlers.items
        → IsEarliest (IsMarkedAt states.now.bits.items cell) (λ s. call_of p s word) result }
{
    let mut found = None;
    for number in 0..STATES_OF_CELL {
        found = earlier_call(found, call_in(facts, states, &state_at(cell, number), word));
    }
    found
}

/// The call that an instruction of this word is in a state, where the table has that.
fn call_in(facts: &Facts<'_>, states: &StateSet, state: &State, word: Word) -> Option<Call>
    requires { IsState state.now }
    ensures { (p : Program) → AreFacts p facts.now.words.now facts.now.data_flags.now facts.now.increments.items
        facts.now.arguments.items facts.now.handlers.items
        → result ≡ call_in states.now.bits.items (call_of p) state.now word }
{
    if states.has(state) {
        call_of(facts, state, word)
    } else {
        None
    }
}

/// Of two calls the one that counts before the other.
fn earlier_call(found: Option<Call>, other: Option<Call>) -> Option<Call>
    ensures { result ≡ earlier_call found other }
{
    let Some(call) = found else {
        return other;
    };
    match other {
        Some(next) if rank(next) < rank(call) => Some(next),
        _ => Some(call),
    }
}

fn rank(call: Call) -> u8
    ensures { result ≡ rank call }
{
    match call {
        Call::Usr(_) => 0,
        Call::SystemHandler => 1,
        Call::Handler => 2,
    }
}

//! The cells in which a return is stored: by a JMS, or by an interrupt once ION allows it (Small Computer Handbook).

ghost use Rattle.std.specs.Prelude.{◌≡◌, ◌<◌, ◌||◌, ◌&&◌, ◌/◌, ◌%◌, ℕ, Some, IfOk, nat_eq, vec_len};
ghost use Rattle.word12.specs.declared.sizes.TheConstants.{CORE};
ghost use Rattle.pointer_flow.specs.Levels.{AreReturnsBy};
ghost use Rattle.pointer_flow.specs.Programs.{Program};
ghost use Rattle.pointer_flow.specs.Questions.{stores_return};
ghost use Rattle.pointer_flow.specs.States.{IsState};
ghost use Rattle.pointer_flow.specs.Steps.{IsReturnState, is_return_state, state_at};
ghost use Rattle.pointer_flow.specs.Tables.{AreFacts, IsSetOf, is_bit_set, state_number};

use crate::calls::call_of;
use crate::facts::Facts;
use crate::rules::Rules;
use crate::state_sets::StateSet;
use crate::states::{STATES, STATES_OF_CELL, State, state_at};
use crate::writes::first_writers;
use std::alloc::{AllocError, Global};
use word12::{Cell, Word};

const ION: u16 = 0o6001;

const JMS: u16 = 4;

/// For each cell the lowest one of a state of the table that stores a return in it.
pub(crate) fn return_writers(
    alloc: Global,
    rules: &Rules<'_>,
    reached: &StateSet,
) -> Result<Vec<Option<Cell>>, AllocError>
    ensures size { IfOk result (λ writers. vec_len writers ≡ CORE) }
    ensures writers { (p : Program) → AreFacts p rules.now.facts.now.words.now rules.now.facts.now.data_flags.now rules.now.facts.now.increments.items rules.now.facts.now.arguments.items rules.now.facts.now.handlers.items
        → IfOk result (λ writers. AreReturnsBy p rules.now.pointers.now reached.now.bits.items writers.items) }
{
    let states = return_states(alloc, rules.facts, reached)?;
    let writers = first_writers(alloc, rules, &states)?;
    Ok(writers)
}

/// The states of a table whose instruction stores a return.
fn return_states(
    alloc: Global,
    facts: &Facts<'_>,
    reached: &StateSet,
) -> Result<StateSet, AllocError>
    ensures { (p : Program) → AreFacts p facts.now.words.now facts.now.data_flags.now facts.now.increments.items facts.now.arguments.items facts.now.handlers.items
        → IfOk result (λ table. IsSetOf table.bits.items (IsReturnState p reached.now.bits.items)) }
{
    let mut states = StateSet::new(alloc)?;
    for number in 0u32..STATES as u32 {
        let state = state_of(number);
        insert_if(&mut states, &state, is_return_state(facts, reached, &state));
    }
    Ok(states)
}

/// The state of a number among all of them.
fn state_of(number: u32) -> State
    requires { number < STATES }
    ensures value { result ≡ state_at (number / 90) (number % 90) }
    ensures range { IsState result }
{
    state_at(Cell::of(number / STATES_OF_CELL), number % STATES_OF_CELL)
}

/// Puts a state into a table, if this is so.
fn insert_if(states: &mut StateSet, state: &State, is_so: bool)
    requires { IsState state.now }
    ensures { (number : ℕ) → is_bit_set states.new.bits.items number
        ≡ (is_bit_set states.old.bits.items number || (is_so && nat_eq number (state_number state.now))) }
{
    if is_so {
        states.insert(state);
    }
}

/// Whether a state is one of the table, and stores a return.
fn is_return_state(facts: &Facts<'_>, reached: &StateSet, state: &State) -> bool
    requires { IsState state.now }
    ensures { (p : Program) → AreFacts p facts.now.words.now facts.now.data_flags.now facts.now.increments.items facts.now.arguments.items facts.now.handlers.items
        → result ≡ is_return_state p reached.now.bits.items state.now }
{
    let Some(word) = facts.word(state.cell) else {
        return false;
    };
    reached.has(state) && stores_return(facts, state, word)
}

/// Whether a word stores a return in a state.
fn stores_return(facts: &Facts<'_>, state: &State, word: Word) -> bool
    requires { IsState state.now }
    ensures { (p : Program) → AreFacts p facts.now.words.now facts.now.data_flags.now facts.now.increments.items facts.now.arguments.items facts.now.handlers.items
        → result ≡ stores_return p state.now word }
{
    word.get() == ION || (word.get() / 0o1000 == JMS && !call_of(facts, state, word).is_some())
}

//! The least set of states that a program reaches by some rules.

ghost use Rattle.std.specs.Prelude.{◌≡◌, ◌∷◌, ◌+◌, ◌<◌, [], Some, IfOk, IfSome, OnOk};
ghost use Rattle.pointer_flow.specs.Next.{return_states, with_state};
ghost use Rattle.pointer_flow.specs.Programs.{Program, cells_from};
ghost use Rattle.pointer_flow.specs.States.{IsState};
ghost use Rattle.pointer_flow.specs.Steps.{IsWalk, MarksSome, MarksStates, is_open_in, start_states, states_after};
ghost use Rattle.pointer_flow.specs.Tables.{AreFacts};

use crate::cells::cell_after;
use crate::next_states::{next_states, state_after_jump};
use crate::rules::Rules;
use crate::state_sets::StateSet;
use crate::states::{State, start_state};
use std::alloc::{AllocError, Global};
use word12::Cell;

/// The states that a program reaches from these starts. None waits before or after.
pub(crate) fn reach(
    alloc: Global,
    rules: &Rules<'_>,
    starts: &[Cell],
    waiting: &mut Vec<State>,
) -> Result<StateSet, AllocError>
    requires { waiting.old.items ≡ [] }
    ensures none { OnOk result (waiting.new.items ≡ []) }
    ensures reached { (p : Program) → AreFacts p rules.now.facts.now.words.now rules.now.facts.now.data_flags.now rules.now.facts.now.increments.items rules.now.facts.now.arguments.items rules.now.facts.now.handlers.items
        → p.starts ≡ starts.now
        → IfOk result (λ table. IsWalk p rules.now.pointers.now rules.now.no_skip_cells.now table.bits.items) }
{
    let mut reached = StateSet::new(alloc)?;
    mark_starts(rules, &mut reached, waiting, starts)?;
    while let Some(state) = waiting.pop() {
        mark_after(rules, &mut reached, waiting, &state)?;
    }
    Ok(reached)
}

/// Marks the states in which a program starts.
fn mark_starts(
    rules: &Rules<'_>,
    reached: &mut StateSet,
    waiting: &mut Vec<State>,
    starts: &[Cell],
) -> Result<(), AllocError>
    ensures { OnOk result (MarksStates (is_open_in rules.now.facts.now.words.now rules.now.facts.now.data_flags.now)
        reached.old.bits.items reached.new.bits.items waiting.old.items waiting.new.items
        (start_states starts.now)) }
{
    for start in starts {
        mark(rules, reached, waiting, &start_state(*start))?;
    }
    Ok(())
}

/// Marks the states in which a program goes on after a state.
fn mark_after(
    rules: &Rules<'_>,
    reached: &mut StateSet,
    waiting: &mut Vec<State>,
    state: &State,
) -> Result<(), AllocError>
    requires { IsState state.now }
    ensures { OnOk result (MarksSome (is_open_in rules.now.facts.now.words.now rules.now.facts.now.data_flags.now)
        reached.old.bits.items reached.new.bits.items waiting.old.items waiting.new.items
        (λ states. (p : Program) → AreFacts p rules.now.facts.now.words.now rules.now.facts.now.data_flags.now rules.now.facts.now.increments.items rules.now.facts.now.arguments.items rules.now.facts.now.handlers.items
        → states ≡ states_after p rules.now.pointers.now rules.now.no_skip_cells.now state.now)) }
{
    let Some(word) = rules.facts.word(state.cell) else {
        return Ok(());
    };
    let next = next_states(rules, state, word);
    mark_if(rules, reached, waiting, &next.first)?;
    mark_if(rules, reached, waiting, &next.second)?;
    mark_returns(
        rules,
        reached,
        waiting,
        state,
        next.first_return,
        next.returns,
    )?;
    Ok(())
}

/// Marks a state, if there is one.
fn mark_if(
    rules: &Rules<'_>,
    reached: &mut StateSet,
    waiting: &mut Vec<State>,
    state: &Option<State>,
) -> Result<(), AllocError>
    requires { IfSome state.now (λ s. IsState s) }
    ensures { OnOk result (MarksStates (is_open_in rules.now.facts.now.words.now rules.now.facts.now.data_flags.now)
        reached.old.bits.items reached.new.bits.items waiting.old.items waiting.new.items
        (with_state state.now [])) }
{
    match state {
        Some(state) => mark(rules, reached, waiting, state),
        None => Ok(()),
    }
}

/// Marks the states at the returns of a subroutine or a call.
fn mark_returns(
    rules: &Rules<'_>,
    reached: &mut StateSet,
    waiting: &mut Vec<State>,
    state: &State,
    first_return: u16,
    returns: u16,
) -> Result<(), AllocError>
    requires state { IsState state.now }
    requires range { first_return + returns < 0o10000 }
    ensures { OnOk result (MarksStates (is_open_in rules.now.facts.now.words.now rules.now.facts.now.data_flags.now)
        reached.old.bits.items reached.new.bits.items waiting.old.items waiting.new.items
        (return_states state.now.data_field (cells_from state.now.cell first_return returns))) }
{
    for more in 0..returns {
        let cell = cell_after(state.cell, first_return + more);
        mark(rules, reached, waiting, &state_after_jump(state, cell))?;
    }
    Ok(())
}

/// Marks a state, which then waits, unless it is marked or no instruction may stand in its cell.
fn mark(
    rules: &Rules<'_>,
    reached: &mut StateSet,
    waiting: &mut Vec<State>,
    state: &State,
) -> Result<(), AllocError>
    requires { IsState state.now }
    ensures { OnOk result (MarksStates (is_open_in rules.now.facts.now.words.now rules.now.facts.now.data_flags.now)
        reached.old.bits.items reached.new.bits.items waiting.old.items waiting.new.items
        (state.now ∷ [])) }
{
    if rules.facts.is_shut(state.cell) {
        return Ok(());
    }
    if reached.has(state) {
        return Ok(());
    }
    waiting.push(*state)?;
    reached.insert(state);
    Ok(())
}

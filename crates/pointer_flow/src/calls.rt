//! Calls of the monitor by `JMS I` (OS/8 Software Support Manual).

ghost use Rattle.std.specs.Prelude.{◌≡◌, ◌<◌, ◌≤◌, IfSome, length};
ghost use Rattle.word12.specs.declared.sizes.TheConstants.{CORE};
ghost use Rattle.pointer_flow.specs.Calls.{call_of, call_to, form_at, is_given_at, usr_call};
ghost use Rattle.flow8.specs.Flow.{word_in};
ghost use Rattle.pointer_flow.specs.Programs.{Program, is_number};
ghost use Rattle.pointer_flow.specs.States.{IsState};
ghost use Rattle.pointer_flow.specs.Steps.{as_usr_call};
ghost use Rattle.pointer_flow.specs.Tables.{AreFacts};
ghost use Rattle.pointer_flow.specs.declared.states.State.{State};

use crate::call_forms::call_form;
use crate::cells::{cell_after, is_auto_index, place_in, word_at};
use crate::clear_ac::is_ac_clear;
use crate::facts::Facts;
use crate::handler_cells::is_jms_pointer;
use crate::states::{State, jump_field};
use flow8::referred_cell;
use word12::{Cell, Word};

/// The cell of the USR, and that where it is once it was brought into core.
const USR: usize = 0o17700;

const USR_IN_CORE: usize = 0o10200;

const SYSTEM_HANDLER: usize = 0o7607;

/// RESET, the last function of the USR.
const LAST_FUNCTION: u16 = 0o13;

/// What a JMS through a pointer calls, where that is the monitor.
#[derive(Clone, Copy, PartialEq, Eq, Debug)]
pub enum Call {
    /// The USR, by the number of its function, 1 to 0o13, or 0 where the function is stored later.
    Usr(u16),
    /// The handler of the system device.
    SystemHandler,
    /// Another device's.
    Handler,
}

/// What stands after a call.
#[derive(Clone, Copy, PartialEq, Eq, Debug)]
pub struct CallForm {
    /// So many words, before the program goes on.
    pub words: u16,
    /// The monitor writes so many of these, the last ones.
    pub gets: u16,
    /// So many cells in which the program goes on: none, the normal return, or the error return before it.
    pub returns: u16,
}

/// The call that an instruction of this word is in a state, if it is one.
pub(crate) fn call_of(facts: &Facts<'_>, state: &State, word: Word) -> Option<Call>
    requires { IsState state.now }
    ensures { (p : Program) → AreFacts p facts.now.words.now facts.now.data_flags.now facts.now.increments.items
        facts.now.arguments.items facts.now.handlers.items → result ≡ call_of p state.now word }
{
    let pointer = referred_cell(state.cell, word);
    if !is_jms_pointer(word) || is_auto_index(pointer) {
        return None;
    }
    let address = facts.word(pointer)?;
    let called = place_in(jump_field(state.cell, state.buffer), Some(address));
    call_to(facts, state.cell, pointer, &called)
}

/// The call of a JMS in a cell, through a pointer that leads to the cell that is called.
fn call_to(facts: &Facts<'_>, cell: Cell, pointer: Cell, called: &Option<Cell>) -> Option<Call>
    ensures { (p : Program) → AreFacts p facts.now.words.now facts.now.data_flags.now facts.now.increments.items facts.now.arguments.items facts.now.handlers.items
        → (s : State) → s.cell ≡ cell → result ≡ call_to p s pointer called.now }
{
    let is_given = is_given_at(facts.words, called);
    if let Some(function) = usr_function(called, is_given, facts.word(cell_after(cell, 1))) {
        return Some(Call::Usr(function));
    }
    if is_cell(called, SYSTEM_HANDLER) && !is_given {
        return Some(Call::SystemHandler);
    }
    if facts.handlers[pointer.index()] {
        return Some(Call::Handler);
    }
    None
}

/// The function of the USR that the word after a JMS is, where the USR is called.
fn usr_function(called: &Option<Cell>, is_given: bool, behind: Option<Word>) -> Option<u16>
    ensures { as_usr_call result ≡ usr_call called.now is_given behind }
{
    let function = behind?;
    if !is_cell(called, USR) && !is_cell(called, USR_IN_CORE) {
        return None;
    }
    if function.get() > LAST_FUNCTION || (function.get() == 0 && is_given) {
        return None;
    }
    Some(function.get())
}

fn is_given_at(words: &[Option<Word>], cell: &Option<Cell>) -> bool
    requires { length words.now ≡ CORE }
    ensures { result ≡ is_given_at (word_in words.now) cell.now }
{
    match cell {
        Some(cell) => word_at(words, *cell).is_some(),
        None => false,
    }
}

fn is_cell(cell: &Option<Cell>, number: usize) -> bool
    ensures { result ≡ is_number cell.now number }
{
    match cell {
        Some(cell) => cell.index() == number,
        None => false,
    }
}

/// The form of a call in a cell.
pub(crate) fn form_at(words: &[Option<Word>], cell: Cell, call: Call) -> CallForm
    requires { length words.now ≡ CORE }
    ensures value { result ≡ form_at (word_in words.now) cell call }
    ensures words { result.words ≤ 4 }
    ensures gets { result.gets ≤ result.words }
    ensures returns { result.returns ≤ 2 }
{
    call_form(is_ac_clear(words, cell), call)
}

//! The states in which a program goes on after an instruction (Small Computer Handbook).

ghost use Rattle.std.specs.Prelude.{◌≡◌, ◌+◌, ◌<◌, ◌/◌, ◌%◌, [], Some, IfSome};
ghost use Rattle.word12.specs.declared.sizes.TheConstants.{CORE, FIELD};
ghost use Rattle.flow8.specs.Flow.{word_in};
ghost use Rattle.flow8.specs.Exits.{cell_after};
ghost use Rattle.pointer_flow.specs.declared.states.State.{State};
ghost use Rattle.pointer_flow.specs.Next.{goes_on, interrupt_state, iot_states, is_bsw, is_mq, isz_states, jms_states, jump_state, jump_to, state_after_jump, may_iot_skip, may_skip, with_cell, operate_states, cell_state, return_states, with_fields, with_fields_unknown, with_state};
ghost use Rattle.pointer_flow.specs.Programs.{Program, cells_from};
ghost use Rattle.pointer_flow.specs.Returns.{called_address, returns_to};
ghost use Rattle.pointer_flow.specs.States.{IsState, jump_field};
ghost use Rattle.pointer_flow.specs.Steps.{AreNext, state_list, pointer_word, skips_into, states_of_word};
ghost use Rattle.pointer_flow.specs.Tables.{AreFacts};

use crate::calls::{call_of, form_at};
use crate::cells::{cell_after, is_auto_index, place_in};
use crate::clear_ac::changes_fields;
use crate::facts::{Facts, MOST_MOVES};
use crate::rules::Rules;
use crate::states::{Buffer, State, jump_field};
use cpu8::decoding::{GROUP_2_OR_3, GROUP_3, INDIRECT, RAL, RAR, TWICE, has};
use flow8::{exits, referred_cell};
use word12::{Cell, Word};

const ION: u16 = 0o6001;

const RMF: u16 = 0o6244;

/// The states after an instruction: two at most, and those at which a subroutine or a call comes back.
#[derive(Clone, Copy)]
pub(crate) struct NextStates {
    pub first: Option<State>,
    pub second: Option<State>,
    /// How many words after the instruction the first return is.
    pub first_return: u16,
    /// So many cells are returns, one after the other.
    pub returns: u16,
}

/// No state but these.
fn of_two(first: Option<State>, second: Option<State>) -> NextStates
    requires first { IfSome first (λ s. IsState s) }
    requires second { IfSome second (λ s. IsState s) }
    ensures states { (s : State) → state_list s result ≡ with_state first (with_state second []) }
    ensures range { AreNext result }
{
    NextStates {
        first,
        second,
        first_return: 0,
        returns: 0,
    }
}

/// The states after the instruction of this word in a state.
pub(crate) fn next_states(rules: &Rules<'_>, state: &State, word: Word) -> NextStates
    requires { IsState state.now }
    ensures states { (p : Program) → AreFacts p rules.now.facts.now.words.now rules.now.facts.now.data_flags.now rules.now.facts.now.increments.items rules.now.facts.now.arguments.items rules.now.facts.now.handlers.items
        → state_list state.now result ≡ states_of_word p rules.now.pointers.now rules.now.no_skip_cells.now state.now (Some word) }
    ensures range { AreNext result }
{
    match word.get() / 0o1000 {
        0 => goes_on(state),
        1 => goes_on(state),
        3 => goes_on(state),
        2 => isz_states(rules, state),
        4 => jms_states(rules, state, word),
        5 => of_two(jump_state(rules, state, word, 0), None),
        6 => iot_states(state, word),
        _ => operate_states(state, word),
    }
}

/// The same fields at the cell so many words after.
fn state_after(state: &State, count: u16) -> State
    requires state { IsState state.now }
    requires count { count < 0o10000 }
    ensures value { result ≡ with_cell state.now (cell_after count state.now.cell) }
    ensures range { IsState result }
{
    with_cell(state, cell_after(state.cell, count))
}

fn with_cell(state: &State, cell: Cell) -> State
    requires { IsState state.now }
    ensures value { result ≡ with_cell state.now cell }
    ensures range { IsState result }
{
    State {
        cell,
        buffer: state.buffer,
        data_field: state.data_field,
    }
}

fn goes_on(state: &State) -> NextStates
    requires { IsState state.now }
    ensures states { state_list state.now result ≡ goes_on state.now }
    ensures range { AreNext result }
{
    of_two(Some(state_after(state, 1)), None)
}

fn may_skip(state: &State) -> NextStates
    requires { IsState state.now }
    ensures states { state_list state.now result ≡ may_skip state.now }
    ensures range { AreNext result }
{
    of_two(Some(state_after(state, 1)), Some(state_after(state, 2)))
}

/// An ISZ may skip, but not into a cell that is left out.
fn isz_states(rules: &Rules<'_>, state: &State) -> NextStates
    requires { IsState state.now }
    ensures states { state_list state.now result ≡ isz_states state.now (skips_into rules.now.no_skip_cells.now state.now) }
    ensures range { AreNext result }
{
    if rules.no_skip_cells[cell_after(state.cell, 2).index()] {
        return goes_on(state);
    }
    may_skip(state)
}

/// Into the cell so many words after that to which a JMP or a JMS leads, where that is known.
fn jump_state(rules: &Rules<'_>, state: &State, word: Word, more: u16) -> Option<State>
    requires state { IsState state.now }
    requires more { more < 2 }
    ensures value { result ≡ jump_state state.now word (pointer_word rules.now.pointers.now state.now word) more }
    ensures range { IfSome result (λ s. IsState s) }
{
    let named = referred_cell(state.cell, word);
    if !has(word, INDIRECT) {
        return jump_to(state, named.address(), more);
    }
    if is_auto_index(named) {
        return None;
    }
    let address = rules.pointer(named)?;
    jump_to(state, address, more)
}

/// Into a cell of the field into which jumps go.
fn jump_to(state: &State, address: Word, more: u16) -> Option<State>
    requires state { IsState state.now }
    requires more { more < 2 }
    ensures value { result ≡ jump_to (jump_field state.now.cell state.now.buffer) ((address + more) % FIELD) state.now.data_field }
    ensures range { IfSome result (λ s. IsState s) }
{
    let field = jump_field(state.cell, state.buffer)?;
    let target = Word::low(address.get() + more);
    Some(state_after_jump(state, Cell::at(field, target)))
}

/// After a jump the instruction buffer is the field of the cell.
pub(crate) fn state_after_jump(state: &State, cell: Cell) -> State
    requires { IsState state.now }
    ensures value { result ≡ state_after_jump state.now.data_field cell }
    ensures range { IsState result }
{
    State {
        cell,
        buffer: Buffer::Own,
        data_field: state.data_field,
    }
}

/// A call goes on at its returns. Another JMS goes into its subroutine, which comes back.
fn jms_states(rules: &Rules<'_>, state: &State, word: Word) -> NextStates
    requires { IsState state.now }
    ensures states { (p : Program) → AreFacts p rules.now.facts.now.words.now rules.now.facts.now.data_flags.now rules.now.facts.now.increments.items rules.now.facts.now.arguments.items rules.now.facts.now.handlers.items
        → state_list state.now result ≡ jms_states p state.now word (pointer_word rules.now.pointers.now state.now word) }
    ensures range { AreNext result }
{
    if let Some(call) = call_of(rules.facts, state, word) {
        let form = form_at(rules.facts.words, state.cell, call);
        return with_returns(None, form.words + 1, form.returns);
    }
    let entered = jump_state(rules, state, word, 1);
    let first = place_in(
        jump_field(state.cell, state.buffer),
        called_address(rules.facts, state.cell, word),
    );
    subroutine_states(rules.facts, entered, first)
}

fn with_returns(first: Option<State>, first_return: u16, returns: u16) -> NextStates
    requires first { IfSome first (λ s. IsState s) }
    requires range { first_return + returns < 0o10000 }
    ensures states { (s : State) → state_list s result
        ≡ with_state first (return_states s.data_field (cells_from s.cell first_return returns)) }
    ensures range { AreNext result }
{
    NextStates {
        first,
        second: None,
        first_return,
        returns,
    }
}

/// The address of the first cell of the subroutine that a JMS in a cell calls, where the words show it (this project's reading of a
/// program's flow).
pub(crate) fn called_address(facts: &Facts<'_>, cell: Cell, word: Word) -> Option<Word>
    ensures { result ≡ called_address (word_in facts.now.words.now) cell word }
{
    let named = referred_cell(cell, word);
    if !has(word, INDIRECT) {
        return Some(named.address());
    }
    if is_auto_index(named) {
        return None;
    }
    let address = facts.word(named)?;
    if address.get() == 0 {
        return None;
    }
    Some(address)
}

/// The states after a JMS that goes into this state, of a subroutine with this first cell.
fn subroutine_states(facts: &Facts<'_>, entered: Option<State>, first: Option<Cell>) -> NextStates
    requires entered { IfSome entered (λ s. IsState s) }
    requires first { IfSome first (λ cell. cell < CORE) }
    ensures states { (p : Program) → AreFacts p facts.now.words.now facts.now.data_flags.now facts.now.increments.items facts.now.arguments.items facts.now.handlers.items
        → (s : State) → state_list s result
        ≡ with_state entered (return_states s.data_field (returns_to p.words s.cell first)) }
    ensures range { AreNext result }
{
    let Some(first) = first else {
        return with_returns(entered, 1, 1);
    };
    let moves = facts.increments[first.index()];
    if facts.word(first).is_none() || moves > MOST_MOVES {
        return with_returns(entered, 1, 1);
    }
    let least = moves.min(facts.arguments[first.index()]);
    with_returns(entered, 1 + u16::from(least), 1 + u16::from(moves - least))
}

fn iot_states(state: &State, word: Word) -> NextStates
    requires { IsState state.now }
    ensures states { state_list state.now result ≡ iot_states state.now word }
    ensures range { AreNext result }
{
    if word.get() == ION {
        return of_two(Some(state_after(state, 1)), Some(interrupt_state()));
    }
    if changes_fields(word) {
        return of_two(Some(with_fields(state, word)), None);
    }
    if word.get() == RMF {
        return of_two(Some(with_fields_unknown(state)), None);
    }
    if may_iot_skip(word) {
        return may_skip(state);
    }
    goes_on(state)
}

/// An interrupt stores its return in cell 0 of field 0, and goes on in the next one.
fn interrupt_state() -> State
    ensures value { result ≡ interrupt_state }
    ensures range { IsState result }
{
    State {
        cell: Cell::of(1),
        buffer: Buffer::Own,
        data_field: Some(0),
    }
}

/// CDF and CIF: the data field, the instruction buffer, or both, become the field that the word names.
fn with_fields(state: &State, word: Word) -> State
    requires { IsState state.now }
    ensures value { result ≡ with_fields state.now word }
    ensures range { IsState result }
{
    let field = (word.get() / 0o10 % 0o10) as u8;
    let buffer = if has(word, 2) {
        Buffer::Number(field)
    } else {
        state.buffer
    };
    let data_field = if has(word, 1) {
        Some(field)
    } else {
        state.data_field
    };
    State {
        cell: cell_after(state.cell, 1),
        buffer,
        data_field,
    }
}

/// RMF: the fields are those before the last interrupt.
fn with_fields_unknown(state: &State) -> State
    ensures value { result ≡ with_fields_unknown state.now }
    ensures range { IsState result }
{
    State {
        cell: cell_after(state.cell, 1),
        buffer: Buffer::Unknown,
        data_field: None,
    }
}

/// Whether an IOT may skip: the Teletype's, and those of the interrupts, the reader, the punch, the disks DF32 and RF08, the line printer,
/// the disk RK8E and DECtape (PDP-8/E Small Computer Handbook).
fn may_iot_skip(word: Word) -> bool
    ensures { result ≡ may_iot_skip word }
{
    match word.get() {
        0o6030..=0o6047 => has(word, 1),
        0o6000 | 0o6003 | 0o6006 | 0o6011 | 0o6021 => true,
        0o6621 | 0o6622 | 0o6661 | 0o6741 | 0o6771 => true,
        _ => false,
    }
}

/// BSW and MQ alone stop the machine of this project, and no PDP-8/E. Other operates go on as in `flow8`.
fn operate_states(state: &State, word: Word) -> NextStates
    requires state { IsState state.now }
    requires operate { word / 0o1000 ≡ 7 }
    ensures states { state_list state.now result ≡ operate_states state.now word }
    ensures range { AreNext result }
{
    if is_bsw(word) || is_mq(word) {
        return goes_on(state);
    }
    let (first, second) = exits(state.cell, word);
    of_two(cell_state(state, first), cell_state(state, second))
}

fn cell_state(state: &State, cell: Option<Cell>) -> Option<State>
    requires { IsState state.now }
    ensures value { result ≡ cell_state state.now cell }
    ensures range { IfSome result (λ s. IsState s) }
{
    match cell {
        Some(cell) => Some(with_cell(state, cell)),
        None => None,
    }
}

fn is_bsw(word: Word) -> bool
    ensures { result ≡ is_bsw word }
{
    !has(word, GROUP_2_OR_3) && (has(word, TWICE) && !(has(word, RAR) || has(word, RAL)))
}

fn is_mq(word: Word) -> bool
    ensures { result ≡ is_mq word }
{
    let is_arithmetic = has(word, 0o40) || (has(word, 0o10) || (has(word, 4) || has(word, 2)));
    has(word, GROUP_2_OR_3) && (has(word, GROUP_3) && !is_arithmetic)
}

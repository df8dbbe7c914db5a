//! The cells that the states of a table may write, as far as words and pointers show (Small Computer Handbook).

ghost use Rattle.std.specs.Prelude.{◌≡◌, ◌+◌, ◌<◌, Some, None, IfOk, length, vec_len};
ghost use Rattle.word12.specs.declared.sizes.TheConstants.{CORE};
ghost use Rattle.flow8.specs.Flow.{IsAmong};
ghost use Rattle.pointer_flow.specs.Programs.{Program, cells_from};
ghost use Rattle.pointer_flow.specs.States.{IsState};
ghost use Rattle.pointer_flow.specs.Steps.{AreWriters, IsCellWriterOf, IsInReach, IsStateWriter, NotesCells, listed_cells, pointer_word};
ghost use Rattle.pointer_flow.specs.Tables.{AreFacts};
ghost use Rattle.pointer_flow.specs.Writes.{jms_writes, store_writes, stored_cells, written_cells};
ghost use Rattle.pointer_flow.specs.declared.states.State.{State};

use crate::calls::{call_of, form_at};
use crate::cells::{cell_after, cell_at, is_auto_index, no_cells, place_in};
use crate::rules::Rules;
use crate::state_sets::StateSet;
use crate::states::{STATES_OF_CELL, State, jump_field, state_at};
use cpu8::decoding::{INDIRECT, has};
use flow8::referred_cell;
use std::alloc::{AllocError, Global};
use word12::{CORE, Cell, Word};

const ION: u16 = 0o6001;

/// The cells that an instruction may write.
#[derive(Clone, Copy)]
enum Written {
    Nothing,
    One(Cell),
    /// This address of each field.
    InEachField(Word),
    /// So many words after the instruction, from the one that is so many words after it.
    Behind(u16, u16),
}

/// For each cell the lowest one of a state of the table that writes it.
pub(crate) fn first_writers(
    alloc: Global,
    rules: &Rules<'_>,
    reached: &StateSet,
) -> Result<Vec<Option<Cell>>, AllocError>
    ensures size { IfOk result (λ writers. vec_len writers ≡ CORE) }
    ensures writers { (p : Program) → AreFacts p rules.now.facts.now.words.now rules.now.facts.now.data_flags.now rules.now.facts.now.increments.items rules.now.facts.now.arguments.items rules.now.facts.now.handlers.items
        → IfOk result (λ writers. AreWriters p rules.now.pointers.now reached.now.bits.items writers.items) }
{
    let mut writers = no_cells(alloc, CORE)?;
    for number in 0u32..CORE as u32 {
        note_cell(&mut writers, rules, reached, Cell::of(number));
    }
    Ok(writers)
}

/// Notes what the states of a cell write.
fn note_cell(writers: &mut [Option<Cell>], rules: &Rules<'_>, reached: &StateSet, cell: Cell)
    requires { length writers.old ≡ CORE }
    ensures { (p : Program) → AreFacts p rules.now.facts.now.words.now rules.now.facts.now.data_flags.now rules.now.facts.now.increments.items rules.now.facts.now.arguments.items rules.now.facts.now.handlers.items
        → NotesCells writers.old writers.new cell (IsCellWriterOf p rules.now.pointers.now reached.now.bits.items cell) }
{
    let Some(word) = rules.facts.word(cell) else {
        return;
    };
    for number in 0..STATES_OF_CELL {
        note_state(writers, rules, reached, &state_at(cell, number), word);
    }
}

/// Notes what a state writes, if it is one of the table.
fn note_state(
    writers: &mut [Option<Cell>],
    rules: &Rules<'_>,
    reached: &StateSet,
    state: &State,
    word: Word,
)
    requires writers { length writers.old ≡ CORE }
    requires state { IsState state.now }
    ensures { (p : Program) → AreFacts p rules.now.facts.now.words.now rules.now.facts.now.data_flags.now rules.now.facts.now.increments.items rules.now.facts.now.arguments.items rules.now.facts.now.handlers.items
        → NotesCells writers.old writers.new state.now.cell
        (IsStateWriter p rules.now.pointers.now reached.now.bits.items state.now word) }
{
    if !reached.has(state) {
        return;
    }
    note_all(writers, state.cell, written_cells(rules, state, word));
}

/// Notes a cell as a writer of others.
fn note_all(writers: &mut [Option<Cell>], cell: Cell, written: Written)
    requires writers { length writers.old ≡ CORE }
    requires written { IsInReach written }
    ensures { (s : State) → s.cell ≡ cell
        → NotesCells writers.old writers.new cell (λ other. IsAmong other (listed_cells s written)) }
{
    match written {
        Written::Nothing => {}
        Written::One(other) => note_writer(writers, other, cell),
        Written::InEachField(address) => note_fields(writers, address, cell),
        Written::Behind(first, count) => note_after(writers, first, count, cell),
    }
}

/// Notes a cell as the writer of an address of each field.
fn note_fields(writers: &mut [Option<Cell>], address: Word, cell: Cell)
    requires { length writers.old ≡ CORE }
    ensures { NotesCells writers.old writers.new cell (λ other. IsAmong other (stored_cells None (Some address))) }
{
    for field in 0u8..8 {
        note_writer(writers, Cell::at(field, address), cell);
    }
}

/// Notes a cell as the writer of so many words after it.
fn note_after(writers: &mut [Option<Cell>], first: u16, count: u16, cell: Cell)
    requires writers { length writers.old ≡ CORE }
    requires range { first + count < 0o10000 }
    ensures { NotesCells writers.old writers.new cell (λ other. IsAmong other (cells_from cell first count)) }
{
    for more in 0..count {
        note_writer(writers, cell_after(cell, first + more), cell);
    }
}

/// Notes a cell as the writer of another, unless a lower one is noted.
fn note_writer(writers: &mut [Option<Cell>], other: Cell, cell: Cell)
    requires { length writers.old ≡ CORE }
    ensures { NotesCells writers.old writers.new cell (λ noted. noted ≡ other) }
{
    if cell_at(writers, other).is_some() {
        return;
    }
    writers[other.index()] = Some(cell);
}

/// What the instruction of this word writes in a state. Stores through pointers that aren't followed count as none.
fn written_cells(rules: &Rules<'_>, state: &State, word: Word) -> Written
    requires { IsState state.now }
    ensures range { IsInReach result }
    ensures cells { (p : Program) → AreFacts p rules.now.facts.now.words.now rules.now.facts.now.data_flags.now rules.now.facts.now.increments.items rules.now.facts.now.arguments.items rules.now.facts.now.handlers.items
        → listed_cells state.now result ≡ written_cells p state.now word (pointer_word rules.now.pointers.now state.now word) }
{
    let named = referred_cell(state.cell, word);
    if word.get() < 0o6000 && (has(word, INDIRECT) && is_auto_index(named)) {
        return Written::One(named);
    }
    match word.get() / 0o1000 {
        2 | 3 => store_written(rules, state, word),
        4 => jms_written(rules, state, word),
        6 if word.get() == ION => Written::One(Cell::of(0)),
        _ => Written::Nothing,
    }
}

/// ISZ and DCA. Through a pointer they write in the data field.
fn store_written(rules: &Rules<'_>, state: &State, word: Word) -> Written
    requires { IsState state.now }
    ensures range { IsInReach result }
    ensures cells { listed_cells state.now result ≡ store_writes state.now word (pointer_word rules.now.pointers.now state.now word) }
{
    let named = referred_cell(state.cell, word);
    if !has(word, INDIRECT) {
        return Written::One(named);
    }
    match rules.pointer(named) {
        Some(address) => match state.data_field {
            Some(field) => Written::One(Cell::at(field, address)),
            None => Written::InEachField(address),
        },
        None => Written::Nothing,
    }
}

/// A JMS stores its return in the subroutine's first cell. A call writes the words that it gets.
fn jms_written(rules: &Rules<'_>, state: &State, word: Word) -> Written
    requires { IsState state.now }
    ensures range { IsInReach result }
    ensures cells { (p : Program) → AreFacts p rules.now.facts.now.words.now rules.now.facts.now.data_flags.now rules.now.facts.now.increments.items rules.now.facts.now.arguments.items rules.now.facts.now.handlers.items
        → listed_cells state.now result ≡ jms_writes p state.now word (pointer_word rules.now.pointers.now state.now word) }
{
    if let Some(call) = call_of(rules.facts, state, word) {
        let form = form_at(rules.facts.words, state.cell, call);
        return Written::Behind(form.words + 1 - form.gets, form.gets);
    }
    let named = referred_cell(state.cell, word);
    let address = if has(word, INDIRECT) {
        rules.pointer(named)
    } else {
        Some(named.address())
    };
    match place_in(jump_field(state.cell, state.buffer), address) {
        Some(cell) => Written::One(cell),
        None => Written::Nothing,
    }
}

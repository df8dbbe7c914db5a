//! The cells that hold the entry of a device handler, by the words alone (OS/8 Software Support Manual).

ghost use Rattle.std.specs.Prelude.{◌≡◌, ◌<◌, ◌||◌, ℕ, false, Some, IfOk, IfSome, length, vec_len, slice_index_or};
ghost use Rattle.word12.specs.declared.sizes.TheConstants.{CORE};
ghost use Rattle.flow8.specs.Flow.{word_in};
ghost use Rattle.pointer_flow.specs.Calls.{copies_entry, fetches_into, is_entry, is_jms_pointer, may_call_usr};
ghost use Rattle.pointer_flow.specs.Programs.{is_listed, is_number, is_some_below};

use crate::call_forms::usr_form;
use crate::cells::{cell_after, cell_before, no_flags, set_flag, word_at};
use crate::clear_ac::is_ac_clear;
use flow8::referred_cell;
use std::alloc::{AllocError, Global};
use word12::{CORE, Cell, Word};

/// JMS through a pointer, 4400 to 4777, without its page bit and its offset.
const JMS_POINTER: u16 = 0o11;

/// A direct TAD, 1000 to 1377.
const DIRECT_TAD: u16 = 2;

/// A direct DCA, 3000 to 3377.
const DIRECT_DCA: u16 = 6;

/// The USR's address, and that which it has once it was brought into core.
const USR: u16 = 0o7700;

const USR_IN_CORE: u16 = 0o200;

const FETCH: u16 = 1;

/// A flag for each cell that was said to hold an entry, in which a FETCH gets one, or to which such an entry is copied.
pub(crate) fn handler_flags(
    alloc: Global,
    words: &[Option<Word>],
    handlers: &[Cell],
) -> Result<Vec<bool>, AllocError>
    requires { length words.now ≡ CORE }
    ensures size { IfOk result (λ flags. vec_len flags ≡ CORE) }
    ensures cells { IfOk result (λ flags. (cell : ℕ) → cell < CORE
        → slice_index_or flags.items cell false
        ≡ (is_listed cell handlers.now || (is_entry (word_in words.now) cell
        || is_some_below (copies_entry (word_in words.now) cell) CORE))) }
{
    let entries = entry_flags(alloc, words)?;
    let copies = copy_flags(alloc, words, &entries)?;
    let mut flags = joined_flags(alloc, &entries, &copies)?;
    set_listed(&mut flags, handlers);
    Ok(flags)
}

/// A flag for each cell that has one in either of two lists.
fn joined_flags(alloc: Global, entries: &[bool], copies: &[bool]) -> Result<Vec<bool>, AllocError>
    requires entries { length entries.now ≡ CORE }
    requires copies { length copies.now ≡ CORE }
    ensures size { IfOk result (λ flags. vec_len flags ≡ CORE) }
    ensures cells { IfOk result (λ flags. (cell : ℕ) → cell < CORE
        → slice_index_or flags.items cell false
        ≡ (slice_index_or entries.now cell false || slice_index_or copies.now cell false)) }
{
    let mut flags = Vec::with_capacity(alloc, CORE)?;
    for number in 0..CORE {
        flags.push(is_either(entries[number], copies[number]))?;
    }
    Ok(flags)
}

fn is_either(entry: bool, copy: bool) -> bool
    ensures { result ≡ (entry || copy) }
{
    entry || copy
}

/// Sets the flags of some cells.
fn set_listed(flags: &mut [bool], cells: &[Cell])
    requires { length flags.old ≡ CORE }
    ensures { (cell : ℕ) → cell < CORE
        → slice_index_or flags.new cell false ≡ (is_listed cell cells.now || slice_index_or flags.old cell false) }
{
    for cell in cells {
        flags[cell.index()] = true;
    }
}

/// A flag for each cell in which a FETCH gets an entry.
fn entry_flags(alloc: Global, words: &[Option<Word>]) -> Result<Vec<bool>, AllocError>
    requires { length words.now ≡ CORE }
    ensures size { IfOk result (λ flags. vec_len flags ≡ CORE) }
    ensures cells { IfOk result (λ flags. (cell : ℕ) → cell < CORE
        → slice_index_or flags.items cell false ≡ is_entry (word_in words.now) cell) }
{
    let mut flags = no_flags(alloc, CORE)?;
    for number in 0u32..CORE as u32 {
        set_flag(&mut flags, &fetched_entry(words, Cell::of(number)));
    }
    Ok(flags)
}

/// A flag for each cell to which an entry is copied.
fn copy_flags(
    alloc: Global,
    words: &[Option<Word>],
    entries: &[bool],
) -> Result<Vec<bool>, AllocError>
    requires words { length words.now ≡ CORE }
    requires entries { length entries.now ≡ CORE }
    requires are { (entry : ℕ) → entry < CORE
        → slice_index_or entries.now entry false ≡ is_entry (word_in words.now) entry }
    ensures size { IfOk result (λ flags. vec_len flags ≡ CORE) }
    ensures cells { IfOk result (λ flags. (cell : ℕ) → cell < CORE
        → slice_index_or flags.items cell false ≡ is_some_below (copies_entry (word_in words.now) cell) CORE) }
{
    let mut flags = no_flags(alloc, CORE)?;
    for number in 0u32..CORE as u32 {
        set_flag(&mut flags, &entry_copy(words, entries, Cell::of(number)));
    }
    Ok(flags)
}

/// The cell in which a FETCH in a cell gets the entry, where one stands there by its form.
fn fetched_entry(words: &[Option<Word>], cell: Cell) -> Option<Cell>
    requires { length words.now ≡ CORE }
    ensures cells { (entry : ℕ) → is_number result entry ≡ fetches_into (word_in words.now) entry cell }
    ensures range { IfSome result (λ entry. entry < CORE) }
{
    let word = word_at(words, cell)?;
    if !may_call_usr(words, cell, word) || !is_number(&word_at(words, cell_after(cell, 1)), FETCH) {
        return None;
    }
    let form = usr_form(is_ac_clear(words, cell), FETCH);
    Some(cell_after(cell, form.words))
}

/// Whether an instruction of this word is a JMS through a pointer to the USR, in whatever field.
fn may_call_usr(words: &[Option<Word>], cell: Cell, word: Word) -> bool
    requires { length words.now ≡ CORE }
    ensures { result ≡ may_call_usr (word_in words.now) cell (Some word) }
{
    let pointer = word_at(words, referred_cell(cell, word));
    is_jms_pointer(word) && (is_number(&pointer, USR) || is_number(&pointer, USR_IN_CORE))
}

pub(crate) fn is_jms_pointer(word: Word) -> bool
    ensures { result ≡ is_jms_pointer word }
{
    word.get() / 0o400 == JMS_POINTER
}

/// Whether there is a word, and it is this number.
fn is_number(word: &Option<Word>, number: u16) -> bool
    ensures { result ≡ is_number word.now number }
{
    match word {
        Some(other) => other.get() == number,
        None => false,
    }
}

/// The cell in which a DCA in a cell stores an entry, where the TAD before it took one.
fn entry_copy(words: &[Option<Word>], entries: &[bool], cell: Cell) -> Option<Cell>
    requires words { length words.now ≡ CORE }
    requires entries { length entries.now ≡ CORE }
    requires are { (entry : ℕ) → entry < CORE
        → slice_index_or entries.now entry false ≡ is_entry (word_in words.now) entry }
    ensures cells { (copy : ℕ) → is_number result copy ≡ copies_entry (word_in words.now) copy cell }
    ensures range { IfSome result (λ copy. copy < CORE) }
{
    let word = word_at(words, cell)?;
    let before = cell_before(cell);
    let earlier = word_at(words, before)?;
    if word.get() / 0o400 != DIRECT_DCA || earlier.get() / 0o400 != DIRECT_TAD {
        return None;
    }
    if !entries[referred_cell(before, earlier).index()] {
        return None;
    }
    Some(referred_cell(cell, word))
}

//! What stands in the comment of a cell after its word.

ghost use Rattle.std.specs.Prelude.{◌≡◌, ◌<◌, ◌≤◌, ◌-◌, ◌++◌, OnOk};
ghost use Rattle.word12.specs.declared.sizes.TheConstants.{CORE, FIELD};
ghost use Rattle.flow8.specs.Exits.{cell_after};
ghost use Rattle.source_notes.specs.Referrers.{cells_below};
ghost use Rattle.pointer_flow.specs.Programs.{is_auto_index};
ghost use Rattle.pointer_notes.specs.Notes.{argument_of, datum_remark, first_called, has_shown_writer, instruction_remark, jumps_through, passes, preposition, shown_cell, shown_writer, subroutine_of, writer_text};
ghost use Rattle.pointer_notes.specs.References.{lowest, shown_target};
ghost use Rattle.pointer_notes.specs.Steps.{lower, passer, takes, view_in};

use crate::answers::Views;
use crate::naming::CellNaming;
use crate::references::{is_jms, shown_target};
use flow8::referred_cell;
use source_notes::Notes;
use std::alloc::AllocError;
use word12::{Cell, Word};

/// JMS and JMP through a pointer without its page bit and its offset, 4400 to 4777 and 5400 to 5777.
const JMS_POINTER: u16 = 0o11;

const JMP_POINTER: u16 = 0o13;

/// Appends what stands beside an instruction: the cell to which it leads, or who may write its pointer.
pub(crate) fn put_instruction_remark<N: CellNaming>(
    text: &mut Vec<u8>,
    views: &Views<'_>,
    names: &N,
    cell: Cell,
) -> Result<(), AllocError>
    ensures { OnOk result (text.new.items ≡ text.old.items
        ++ instruction_remark (view_in views.now) (N.name names.now) cell
        (shown_target (view_in views.now) cell)) }
{
    let word = views.word(cell);
    match shown_target(views, cell) {
        Some(target) => {
            put_preposition(text, word)?;
            put_shown_cell(text, views, names, target)
        }
        None => put_writer(text, shown_writer(views, cell, word)),
    }
}

/// Appends ` AT ` for AND, TAD, ISZ and DCA, and ` TO ` for JMS and JMP.
fn put_preposition(text: &mut Vec<u8>, word: Option<Word>) -> Result<(), AllocError>
    ensures { OnOk result (text.new.items ≡ text.old.items ++ preposition word) }
{
    let Some(word) = word else {
        return Ok(());
    };
    if word.get() < 0o4000 {
        return text.extend_from_slice(b" AT ");
    }
    text.extend_from_slice(b" TO ")
}

/// Appends a cell by its name where it has a word, else by its field and address.
fn put_shown_cell<N: CellNaming>(
    text: &mut Vec<u8>,
    views: &Views<'_>,
    names: &N,
    cell: Cell,
) -> Result<(), AllocError>
    ensures { OnOk result (text.new.items ≡ text.old.items
        ++ shown_cell (view_in views.now) (N.name names.now) cell) }
{
    if views.word(cell).is_some() {
        return names.put_name(text, cell);
    }
    text.extend_from_slice(&cell.octal5())
}

/// Appends who may write the pointer of a jump, if that is shown.
fn put_writer(text: &mut Vec<u8>, writer: Option<Cell>) -> Result<(), AllocError>
    ensures { OnOk result (text.new.items ≡ text.old.items ++ writer_text writer) }
{
    if let Some(cell) = writer {
        text.extend_from_slice(b" WRITTEN AT ")?;
        text.extend_from_slice(&cell.octal5())?;
    }
    Ok(())
}

/// The lowest cell that may write the pointer of a jump, if that is shown.
fn shown_writer(views: &Views<'_>, cell: Cell, word: Option<Word>) -> Option<Cell>
    ensures { result ≡ shown_writer (view_in views.now) cell word }
{
    let word = word?;
    let pointer = referred_cell(cell, word);
    if (is_jump_through(word) && !views.of(cell).is_call) && has_shown_writer(views, pointer) {
        return views.of(pointer).writer;
    }
    None
}

/// Whether the writer of a pointer is shown: it has a word, is no auto-index, and holds no return.
fn has_shown_writer(views: &Views<'_>, pointer: Cell) -> bool
    ensures { result ≡ has_shown_writer (view_in views.now) pointer }
{
    views.word(pointer).is_some() && !(is_auto_index(pointer) || views.of(pointer).is_return)
}

fn is_jump_through(word: Word) -> bool
    ensures { result ≡ jumps_through word }
{
    word.get() / 0o400 == JMS_POINTER || word.get() / 0o400 == JMP_POINTER
}

/// Whether a cell is an auto-index, 0010 to 0017 of its field (Small Computer Handbook).
pub(crate) fn is_auto_index(cell: Cell) -> bool
    ensures { result ≡ is_auto_index cell }
{
    cell.address().get() / 0o10 == 1
}

/// Appends what stands beside a datum: the subroutine of which it is an argument, else its characters, which these notes have.
pub(crate) fn put_datum_remark<N: CellNaming>(
    text: &mut Vec<u8>,
    views: &Views<'_>,
    notes: &Notes<'_>,
    names: &N,
    cell: Cell,
) -> Result<(), AllocError>
    requires words { notes.now.words ≡ views.now.words.now }
    requires code { notes.now.code ≡ views.now.code.now }
    ensures { OnOk result (text.new.items ≡ text.old.items
        ++ datum_remark (view_in views.now) (N.name names.now) cell (argument_of (view_in views.now) cell)) }
{
    match argument_of(views, cell) {
        Some(first) => {
            text.extend_from_slice(b" ARGUMENT OF ")?;
            put_shown_cell(text, views, names, first)
        }
        None => notes.put_remark(text, cell),
    }
}

/// The first cell of the subroutine of which the word of a cell is an argument.
fn argument_of(views: &Views<'_>, cell: Cell) -> Option<Cell>
    ensures { result ≡ argument_of (view_in views.now) cell }
{
    subroutine_of(views, lowest_passer(views, cell))
}

/// The lowest JMS that passes the word of a cell, which is at most three words after it.
fn lowest_passer(views: &Views<'_>, cell: Cell) -> Option<Cell>
    ensures { result ≡ lowest (cells_below (passes (view_in views.now) cell) CORE) }
{
    lower(
        passer(views, cell, 3),
        lower(passer(views, cell, 2), passer(views, cell, 1)),
    )
}

/// The JMS that is so many words before a cell, where it passes as many words.
fn passer(views: &Views<'_>, cell: Cell, count: u16) -> Option<Cell>
    requires { count ≤ 3 }
    ensures value { result ≡ passer (view_in views.now) cell count }
    ensures range { cell < CORE }
{
    let from = cell_before(cell, count);
    if is_taken(views, first_called(views, from), count) {
        return Some(from);
    }
    None
}

/// The cell so many words before this one, in its field.
fn cell_before(cell: Cell, count: u16) -> Cell
    requires { count ≤ 3 }
    ensures value { result ≡ cell_after (FIELD - count) cell }
    ensures range { cell < CORE }
{
    Cell::at(
        cell.field(),
        Word::low(cell.address().get() + (0o10000 - count)),
    )
}

/// Whether a subroutine takes so many words or more.
fn is_taken(views: &Views<'_>, first: Option<Cell>, count: u16) -> bool
    ensures { result ≡ takes (view_in views.now) first count }
{
    match first {
        Some(first) => count <= u16::from(views.of(first).inline_count),
        None => false,
    }
}

/// The first cell of the subroutine that a JMS in a cell calls.
fn first_called(views: &Views<'_>, cell: Cell) -> Option<Cell>
    ensures { result ≡ first_called (view_in views.now) cell }
{
    if is_jms(views.word(cell)) {
        return views.of(cell).place;
    }
    None
}

fn subroutine_of(views: &Views<'_>, cell: Option<Cell>) -> Option<Cell>
    ensures { result ≡ subroutine_of (view_in views.now) cell }
{
    match cell {
        Some(cell) => first_called(views, cell),
        None => None,
    }
}

/// The lower of two cells, or the one that there is.
fn lower(cell: Option<Cell>, other: Option<Cell>) -> Option<Cell>
    ensures { result ≡ lower cell other }
{
    let Some(one) = cell else {
        return other;
    };
    match other {
        Some(two) if two.index() < one.index() => Some(two),
        _ => Some(one),
    }
}

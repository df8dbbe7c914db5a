//! Which cells an instruction names, and where it leads.

ghost use Rattle.std.specs.Prelude.{◌≡◌, ◌<◌, IfSome};
ghost use Rattle.word12.specs.declared.sizes.TheConstants.{CORE};
ghost use Rattle.source_notes.specs.Referrers.{is_call};
ghost use Rattle.pointer_notes.specs.References.{is_given_cell, is_jms, is_through, place_apart, pointer_of, shown_target};
ghost use Rattle.pointer_notes.specs.Steps.{cell_if, led_cell, named_cell, node_cell, other_than, own_cell, view_in};

use crate::answers::Views;
use cpu8::decoding::{INDIRECT, has};
use flow8::referred_cell;
use source_notes::is_reference;
use word12::{Cell, Word};

/// How an instruction refers to a cell.
#[derive(Clone, Copy)]
pub(crate) enum Kind {
    /// It calls the subroutine that begins there.
    Call,
    /// It refers to it otherwise.
    Reference,
    /// It leads to it through a known pointer, or to another field.
    Target,
    /// It leads through it to a cell that has a word.
    Pointer,
}

/// A direct JMS without its page bit and its offset, 4000 to 4377.
const DIRECT_JMS: u16 = 0o10;

/// JMS, 4000 to 4777.
const JMS: u16 = 4;

/// The cell that a number stands for in this way. Twice a cell's number stands for what its word names, and the next one for where it leads.
pub(crate) fn node_cell(views: &Views<'_>, kind: Kind, node: u16) -> Option<Cell>
    ensures value { result ≡ node_cell kind (view_in views.now) node }
    ensures range { IfSome result (λ named. named < CORE) }
{
    let cell = Cell::of(u32::from(node / 2));
    let own = own_cell(views, kind, cell);
    if node % 2 == 0 {
        return own;
    }
    other_than(own, led_cell(views, kind, cell))
}

/// A cell, where it isn't the other.
fn other_than(own: Option<Cell>, led: Option<Cell>) -> Option<Cell>
    ensures { result ≡ other_than own led }
{
    let led = led?;
    match own {
        Some(cell) if cell == led => None,
        _ => Some(led),
    }
}

/// The cell that an instruction names by its own word, in this way.
fn own_cell(views: &Views<'_>, kind: Kind, cell: Cell) -> Option<Cell>
    ensures { result ≡ own_cell kind (view_in views.now) cell }
{
    match kind {
        Kind::Call => cell_if(
            views.is_code(cell) && is_call(views.word(cell)),
            named_cell(cell, views.word(cell)),
        ),
        Kind::Reference => cell_if(
            views.is_code(cell) && !is_call(views.word(cell)),
            named_cell(cell, views.word(cell)),
        ),
        Kind::Target => None,
        Kind::Pointer => cell_if(
            is_given_cell(views, views.of(cell).target),
            pointer_of(cell, views.word(cell)),
        ),
    }
}

/// The cell to which an instruction leads, in this way.
fn led_cell(views: &Views<'_>, kind: Kind, cell: Cell) -> Option<Cell>
    ensures { result ≡ led_cell kind (view_in views.now) cell }
{
    let target = shown_target(views, cell);
    match kind {
        Kind::Call => cell_if(is_jms(views.word(cell)), target),
        Kind::Reference => cell_if(!is_jms(views.word(cell)), target),
        Kind::Target => target,
        Kind::Pointer => None,
    }
}

/// The cell to which an instruction leads that its word alone doesn't name: through a known pointer, or in another field.
pub(crate) fn shown_target(views: &Views<'_>, cell: Cell) -> Option<Cell>
    ensures { result ≡ shown_target (view_in views.now) cell }
{
    let answers = views.of(cell);
    if is_through(views.word(cell)) {
        return answers.target;
    }
    place_apart(cell, answers.place)
}

/// Where a jump goes, if that is in another field.
fn place_apart(cell: Cell, place: Option<Cell>) -> Option<Cell>
    ensures { result ≡ place_apart cell place }
{
    let place = place?;
    if place.field() == cell.field() {
        return None;
    }
    Some(place)
}

fn cell_if(is_so: bool, cell: Option<Cell>) -> Option<Cell>
    ensures { result ≡ cell_if is_so cell }
{
    if is_so { cell } else { None }
}

/// The cell that a reference of this word names.
fn named_cell(cell: Cell, word: Option<Word>) -> Option<Cell>
    ensures { result ≡ named_cell cell word }
{
    let word = word?;
    if is_reference(cell.address(), word) {
        return Some(referred_cell(cell, word));
    }
    None
}

/// The pointer of a word in a cell.
fn pointer_of(cell: Cell, word: Option<Word>) -> Option<Cell>
    ensures { result ≡ pointer_of cell word }
{
    let word = word?;
    if has(word, INDIRECT) {
        return Some(referred_cell(cell, word));
    }
    None
}

/// Whether there is a cell, and it has a word.
fn is_given_cell(views: &Views<'_>, cell: Option<Cell>) -> bool
    ensures { result ≡ is_given_cell (view_in views.now) cell }
{
    match cell {
        Some(cell) => views.word(cell).is_some(),
        None => false,
    }
}

/// Whether a word refers through a pointer.
fn is_through(word: Option<Word>) -> bool
    ensures { result ≡ is_through word }
{
    match word {
        Some(word) => has(word, INDIRECT),
        None => false,
    }
}

/// Whether a word is a JMS.
pub(crate) fn is_jms(word: Option<Word>) -> bool
    ensures { result ≡ is_jms word }
{
    match word {
        Some(word) => word.get() / 0o1000 == JMS,
        None => false,
    }
}

/// Whether a word is a direct JMS.
fn is_call(word: Option<Word>) -> bool
    ensures { result ≡ is_call word }
{
    match word {
        Some(word) => word.get() / 0o400 == DIRECT_JMS,
        None => false,
    }
}

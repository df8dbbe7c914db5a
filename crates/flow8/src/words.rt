ghost use Rattle.std.specs.Prelude.{◌≡◌, ◌<◌, ◌≤◌};
ghost use Rattle.word12.specs.declared.sizes.TheConstants.{CORE};
ghost use Rattle.cpu8.specs.Operate.{is_group1_unassigned};
ghost use Rattle.flow8.specs.Exits.{cell_after, exits, goes_on, group2_exits, ion_exits, iot_exits, jmp_exits, jms_exits, may_skip, operate_exits, address_of_reference, referred_cell};

use cpu8::decoding::{
    CURRENT_PAGE, GROUP_2_OR_3, GROUP_3, HLT, INDIRECT, RAL, RAR, REVERSE, SMA, SNL, SZA, TWICE,
    has,
};
use word12::{Cell, PAGE, Word};

/// The cells, at most two, at which a program goes on after the instruction of this word in this cell, as far as the word shows
/// (Small Computer Handbook). After most instructions this is the next cell. After what may skip it is the one after that too, and
/// after SKP that one alone. After a direct JMP it is the cell of its own field that it names. After a JMS it is the next cell, and
/// after a direct one also the cell after that which it names. After ION it is also cell 1 of field 0, by which interrupts come.
/// After an indirect JMP, HLT and words that are unassigned there is none.
pub fn exits(cell: Cell, word: Word) -> (Option<Cell>, Option<Cell>)
    ensures { result ≡ exits cell word }
{
    match word.get() / 0o1000 {
        0 | 1 | 3 => goes_on(cell),
        2 => may_skip(cell),
        4 => jms_exits(cell, word),
        5 => jmp_exits(cell, word),
        6 => iot_exits(cell, word),
        _ => operate_exits(cell, word),
    }
}

fn goes_on(cell: Cell) -> (Option<Cell>, Option<Cell>)
    ensures { result ≡ goes_on cell }
{
    (Some(cell_after(cell, 1)), None)
}

fn may_skip(cell: Cell) -> (Option<Cell>, Option<Cell>)
    ensures { result ≡ may_skip cell }
{
    (Some(cell_after(cell, 1)), Some(cell_after(cell, 2)))
}

fn jms_exits(cell: Cell, word: Word) -> (Option<Cell>, Option<Cell>)
    ensures { result ≡ jms_exits cell word }
{
    if has(word, INDIRECT) {
        return (Some(cell_after(cell, 1)), None);
    }
    (
        Some(cell_after(cell, 1)),
        Some(cell_after(referred_cell(cell, word), 1)),
    )
}

fn jmp_exits(cell: Cell, word: Word) -> (Option<Cell>, Option<Cell>)
    ensures { result ≡ jmp_exits cell word }
{
    if has(word, INDIRECT) {
        return (None, None);
    }
    (Some(referred_cell(cell, word)), None)
}

fn iot_exits(cell: Cell, word: Word) -> (Option<Cell>, Option<Cell>)
    ensures { result ≡ iot_exits cell word }
{
    match word.get() / 0o10 % 0o100 {
        0o00 if word.get() % 0o10 == 1 => ion_exits(cell),
        0o03 | 0o04 if word.get() % 2 == 1 => may_skip(cell),
        _ => goes_on(cell),
    }
}

fn ion_exits(cell: Cell) -> (Option<Cell>, Option<Cell>)
    ensures { result ≡ ion_exits cell }
{
    (Some(cell_after(cell, 1)), Some(Cell::of(1)))
}

fn operate_exits(cell: Cell, word: Word) -> (Option<Cell>, Option<Cell>)
    ensures { result ≡ operate_exits cell word }
{
    if !has(word, GROUP_2_OR_3) {
        if is_unassigned(word) {
            return (None, None);
        }
        return goes_on(cell);
    }
    if has(word, GROUP_3) {
        return (None, None);
    }
    group2_exits(cell, word)
}

fn group2_exits(cell: Cell, word: Word) -> (Option<Cell>, Option<Cell>)
    ensures { result ≡ group2_exits cell word }
{
    if has(word, HLT) {
        return (None, None);
    }
    if has(word, SMA) || (has(word, SZA) || has(word, SNL)) {
        return may_skip(cell);
    }
    if has(word, REVERSE) {
        return (Some(cell_after(cell, 2)), None);
    }
    goes_on(cell)
}

/// Whether a word of group 1 is unassigned: it rotates both ways, or twice and neither way.
fn is_unassigned(word: Word) -> bool
    ensures { result ≡ is_group1_unassigned word }
{
    let right = has(word, RAR);
    let left = has(word, RAL);
    (right && left) || (has(word, TWICE) && !(right || left))
}

/// The cell so many words after this one, in its field.
fn cell_after(cell: Cell, count: u16) -> Cell
    requires { count ≤ 2 }
    ensures value { result ≡ cell_after count cell }
    ensures range { result < CORE }
{
    Cell::at(cell.field(), Word::low(cell.address().get() + count))
}

/// The address that a memory reference at an address has: on page zero, or on its own page where its page bit is set (Small Computer
/// Handbook).
pub fn address_of_reference(at: Word, word: Word) -> Word
    ensures value { result ≡ address_of_reference at word }
    ensures range { result < 0o10000 }
{
    let offset = word.get() % PAGE;
    if word.get() / CURRENT_PAGE % 2 == 0 {
        Word::low(offset)
    } else {
        Word::low(at.get() / PAGE * PAGE + offset)
    }
}

/// The cell that a memory reference in a cell names: the one of its field at its address (Small Computer Handbook).
pub fn referred_cell(cell: Cell, word: Word) -> Cell
    ensures number { result ≡ referred_cell cell word }
    ensures range { result < CORE }
{
    Cell::at(cell.field(), address_of_reference(cell.address(), word))
}

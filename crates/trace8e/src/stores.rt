//! The cells whose words the next step may change, found before it (Small Computer Handbook).

ghost use Rattle.std.specs.Prelude.{◌≡◌, ℕ, ◌<◌, ◌++◌, if◌then◌else◌, option_to_list};
ghost use Rattle.word12.specs.declared.sizes.TheConstants.{CORE};
ghost use Rattle.cpu8.specs.State.{place};
ghost use Rattle.cpu8.specs.Reference.{direct_address, effective_address, is_auto_index, operand_place};
ghost use Rattle.trace8.specs.Stores.{cells_of, pointer_cell, stored_cell};
ghost use Rattle.trace8.specs.StoresSteps.{word_at};
ghost use Rattle.trace8e.specs.StoresSteps.{IsBefore};

use core_load::Core;
use cpu8::decoding::{CURRENT_PAGE, INDIRECT, has};
use cpu8e::Machine;
use word12::{Cell, PAGE, Word};

/// What the line of a step shows of the machine before it.
#[derive(Drop)]
pub(crate) struct Before {
    /// The cell of the next instruction, and its word.
    pub(crate) cell: Cell,
    pub(crate) word: Word,
    /// The auto-index that the instruction makes one more, if it is not the cell where it stores, and its word.
    pub(crate) pointer: Option<Cell>,
    pub(crate) pointer_word: Word,
    /// Where the instruction stores, and the word there.
    pub(crate) stored_cell: Option<Cell>,
    pub(crate) stored_word: Word,
    /// The word of cell 0 of field 0, where an interrupt stores.
    pub(crate) first_word: Word,
}

impl Before {
    /// What stands before the next step of a machine.
    #[inline]
    pub(crate) fn of(machine: &Machine) -> Before
        ensures { IsBefore machine.now.base result }
    {
        let core = machine.core();
        let cell = machine.next_cell();
        let word = core.get(cell);
        let stored = stored_cell(machine, word);
        let pointer = apart(pointer_cell(machine, word), &stored);
        Before {
            cell,
            word,
            pointer_word: word_at(core, &pointer),
            pointer,
            stored_word: word_at(core, &stored),
            stored_cell: stored,
            first_word: core.get(Cell::of(0)),
        }
    }
}

/// The word of a cell, if there is one, else 0.
#[inline]
fn word_at(core: &Core, cell: &Option<Cell>) -> Word
    ensures { result ≡ word_at core.now cell.now }
{
    match cell {
        Some(cell) => core.get(*cell),
        None => Word::ZERO,
    }
}

/// The pointer, where it is another cell than the one that is stored to.
#[inline]
fn apart(pointer: Option<Cell>, stored: &Option<Cell>) -> Option<Cell>
    ensures { option_to_list result ++ option_to_list stored.now ≡ cells_of pointer stored.now }
{
    let Some(cell) = pointer else {
        return None;
    };
    match stored {
        Some(other) if *other == cell => None,
        _ => Some(cell),
    }
}

/// The auto-index that the instruction of a word makes one more, if it does.
#[inline]
fn pointer_cell(machine: &Machine, word: Word) -> Option<Cell>
    ensures { result ≡ pointer_cell machine.now.base word }
{
    if word.get() < 0o6000 && is_auto_index(machine, word) {
        let field = machine.instruction_field();
        Some(Cell::at(field, direct_address(machine, word)))
    } else {
        None
    }
}

/// Where the instruction of a word stores, if it does.
#[inline]
fn stored_cell(machine: &Machine, word: Word) -> Option<Cell>
    ensures { result ≡ stored_cell machine.now.base word }
{
    match word.get() / 0o1000 {
        2 | 3 => Some(operand_cell(machine, word)),
        4 => Some(called_cell(machine, word)),
        _ => None,
    }
}

/// Where ISZ and DCA store.
#[inline]
fn operand_cell(machine: &Machine, word: Word) -> Cell
    ensures value { result ≡ operand_place machine.now.base word }
    ensures range { result < CORE }
{
    let field = if has(word, INDIRECT) {
        machine.data_field()
    } else {
        machine.instruction_field()
    };
    Cell::at(field, effective_address(machine, word))
}

/// Where a JMS stores its return address.
#[inline]
fn called_cell(machine: &Machine, word: Word) -> Cell
    ensures value { result ≡ place machine.now.base.instruction_buffer (effective_address machine.now.base word) }
    ensures range { result < CORE }
{
    Cell::at(
        machine.instruction_buffer(),
        effective_address(machine, word),
    )
}

/// The effective address: the direct address, or the pointer's word there, one more where that is an auto-index.
#[inline]
fn effective_address(machine: &Machine, word: Word) -> Word
    ensures value { result ≡ effective_address machine.now.base word }
    ensures range { result < 0o10000 }
{
    let address = direct_address(machine, word);
    if !has(word, INDIRECT) {
        return address;
    }
    let cell = Cell::at(machine.instruction_field(), address);
    let pointer = machine.core().get(cell);
    if is_auto_index(machine, word) {
        pointer.plus(Word::ONE)
    } else {
        pointer
    }
}

/// Whether a memory reference is indirect through 0010 to 0017.
#[inline]
fn is_auto_index(machine: &Machine, word: Word) -> bool
    ensures { result ≡ is_auto_index machine.now.base word }
{
    let address = direct_address(machine, word).get();
    has(word, INDIRECT) && (address >= 0o10 && address <= 0o17)
}

/// The direct address: the offset in the current page, which is that of the instruction, or in page zero.
#[inline]
fn direct_address(machine: &Machine, word: Word) -> Word
    ensures value { result ≡ direct_address machine.now.base word }
    ensures range { result < 0o10000 }
{
    let offset = word.get() % PAGE;
    if has(word, CURRENT_PAGE) {
        Word::low(machine.pc().get() / PAGE * PAGE + offset)
    } else {
        Word::low(offset)
    }
}

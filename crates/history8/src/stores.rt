//! The cells in which the next step stores.

ghost use Rattle.std.specs.Prelude.{◌≡◌, ◌++◌, ◌<◌, ◌/◌, map, option_to_list};
ghost use Rattle.word12.specs.declared.sizes.TheConstants.{CORE};
ghost use Rattle.cpu8.specs.State.{place, grants_interrupt};
ghost use Rattle.cpu8.specs.Reference as reference;
ghost use Rattle.cpu8.specs.Step as spec;
ghost use Rattle.cpu8.specs.Stores.{stores, index_stores, instruction_stores};
ghost use Rattle.cpu8.specs.Decoding.{operation_of};
ghost use Rattle.history8.specs.Stops.{is_undisturbed};

use cpu8::Machine;
use cpu8::decoding::{CURRENT_PAGE, INDIRECT, has};
use word12::{Cell, PAGE, Word};

/// The cells in which the next step stores, in this order: none, one or two.
pub(crate) fn cells_of_stores(machine: &Machine) -> (Option<Cell>, Option<Cell>)
    ensures { option_to_list result.0 ++ option_to_list result.1 ≡ map (λ store. store.cell) (stores machine.now) }
{
    if !machine.is_running() {
        return (None, None);
    }
    if grants_interrupt(machine) {
        return (None, Some(Cell::of(0)));
    }
    instruction_cells(machine, next_word(machine))
}

/// Those in which an instruction of this word stores: an auto-index, and the operand or the first word of a subroutine.
fn instruction_cells(machine: &Machine, word: Word) -> (Option<Cell>, Option<Cell>)
    ensures { option_to_list result.0 ++ option_to_list result.1
        ≡ map (λ store. store.cell) (instruction_stores (operation_of word) machine.now word) }
{
    match operation(word) {
        0 => (index_cell(machine, word), None),
        1 => (index_cell(machine, word), None),
        2 => (index_cell(machine, word), Some(operand_cell(machine, word))),
        3 => (index_cell(machine, word), Some(operand_cell(machine, word))),
        4 => (index_cell(machine, word), Some(entry_cell(machine, word))),
        5 => (index_cell(machine, word), None),
        _ => (None, None),
    }
}

/// The operation, bits 0 to 2 of a word: 0 to 7 for AND, TAD, ISZ, DCA, JMS, JMP, IOT and OPR.
pub(crate) fn operation(word: Word) -> u16
    ensures { result ≡ word / 0o1000 }
{
    word.get() / 0o1000
}

/// The word of the next instruction.
pub(crate) fn next_word(machine: &Machine) -> Word
    ensures value { result ≡ spec.next_word machine.now }
    ensures range { result < 0o10000 }
{
    machine.core().get(machine.next_cell())
}

/// Whether the machine runs, and no interrupt comes in place of the next instruction.
pub(crate) fn runs_undisturbed(machine: &Machine) -> bool
    ensures { result ≡ is_undisturbed machine.now }
{
    machine.is_running() && !grants_interrupt(machine)
}

/// Whether an interrupt comes in place of the next instruction.
fn grants_interrupt(machine: &Machine) -> bool
    ensures { result ≡ grants_interrupt machine.now }
{
    machine.interrupts_on()
        && !machine.is_waiting()
        && !machine.is_held_off()
        && (machine.keyboard_flag() || machine.printer_flag())
}

fn direct_address(machine: &Machine, word: Word) -> Word
    ensures value { result ≡ reference.direct_address machine.now word }
    ensures range { result < 0o10000 }
{
    let offset = word.get() % PAGE;
    if has(word, CURRENT_PAGE) {
        Word::low(machine.pc().get() / PAGE * PAGE + offset)
    } else {
        Word::low(offset)
    }
}

/// Where the pointer of an indirect reference stands.
pub(crate) fn pointer_cell(machine: &Machine, word: Word) -> Cell
    ensures value { result ≡ reference.pointer_place machine.now word }
    ensures range { result < CORE }
{
    Cell::at(machine.instruction_field(), direct_address(machine, word))
}

fn is_auto_index(machine: &Machine, word: Word) -> bool
    ensures { result ≡ reference.is_auto_index machine.now word }
{
    let address = direct_address(machine, word).get();
    has(word, INDIRECT) && address >= 0o10 && address <= 0o17
}

/// The cell of an auto-index, if the instruction has one.
fn index_cell(machine: &Machine, word: Word) -> Option<Cell>
    ensures { option_to_list result ≡ map (λ store. store.cell) (index_stores machine.now word) }
{
    if is_auto_index(machine, word) {
        Some(pointer_cell(machine, word))
    } else {
        None
    }
}

fn effective_address(machine: &Machine, word: Word) -> Word
    ensures value { result ≡ reference.effective_address machine.now word }
    ensures range { result < 0o10000 }
{
    if !has(word, INDIRECT) {
        return direct_address(machine, word);
    }
    let pointer = machine.core().get(pointer_cell(machine, word));
    if is_auto_index(machine, word) {
        return pointer.plus(Word::ONE);
    }
    pointer
}

fn operand_cell(machine: &Machine, word: Word) -> Cell
    ensures value { result ≡ reference.operand_place machine.now word }
    ensures range { result < CORE }
{
    let field = if has(word, INDIRECT) {
        machine.data_field()
    } else {
        machine.instruction_field()
    };
    Cell::at(field, effective_address(machine, word))
}

/// The first word of the subroutine that a JMS calls.
fn entry_cell(machine: &Machine, word: Word) -> Cell
    ensures value { result ≡ place machine.now.instruction_buffer (reference.effective_address machine.now word) }
    ensures range { result < CORE }
{
    Cell::at(
        machine.instruction_buffer(),
        effective_address(machine, word),
    )
}

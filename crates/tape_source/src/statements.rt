ghost use Rattle.std.specs.Prelude.{◌≡◌, ℕ, ◌/◌, ◌%◌, ◌++◌, ◌∷◌, [], None, codes, nat_eq, if◌then◌else◌, length, OnOk};
ghost use Rattle.word12.specs.declared.sizes.TheConstants.{CORE};
ghost use Rattle.word12.specs.Octal.{octal4};
ghost use Rattle.tape_source.specs.Lines.{with_lead};
ghost use Rattle.tape_source.specs.Looks.{name_or_tag};
ghost use Rattle.tape_source.specs.Tags.{is_flagged};
ghost use Rattle.tape_source.specs.Statements.{address, datum, instruction, instruction_by, reference, statement};
ghost use Rattle.tape_source.specs.Steps.{name_by, look_with};

use crate::patterns::{is_named, put_names};
use crate::references::operation_name;
use crate::tags::{Tags, put_name};
use flow8::{address_of_reference, referred_cell};
use source_names::CellNames;
use source_notes::is_reference;
use std::alloc::AllocError;
use word12::{Cell, Word};

/// The indirect bit of a memory reference.
const INDIRECT: u16 = 0o400;

/// Appends the statement of a cell's word, after a tab, where these cells hold instructions and these are tagged.
pub fn put_statement(
    text: &mut Vec<u8>,
    code: &[bool],
    tags: &Tags<'_>,
    cell: Cell,
    word: Word,
) -> Result<(), AllocError>
    requires code { length code.now ≡ CORE }
    requires tags { length tags.now.flags.now ≡ CORE }
    ensures { OnOk result (text.new.items ≡ text.old.items
        ++ with_lead 9 (statement (look_with tags.now.names.now None (is_flagged code.now))
        (is_flagged tags.now.flags.now) cell word)) }
{
    if code[cell.index()] {
        return put_instruction_by(text, tags, cell, word);
    }
    put_datum(text, b'\t', tags, cell, word)
}

/// Appends a datum, after a byte: the tag of the cell whose address it is in its own field, where that is tagged, else its number. A zero
/// is a number.
pub fn put_datum(
    text: &mut Vec<u8>,
    byte: u8,
    tags: &Tags<'_>,
    cell: Cell,
    word: Word,
) -> Result<(), AllocError>
    requires { length tags.now.flags.now ≡ CORE }
    ensures { OnOk result (text.new.items ≡ text.old.items
        ++ with_lead byte (datum (name_or_tag (name_by tags.now.names.now)) (is_flagged tags.now.flags.now)
        cell word)) }
{
    if word.get() == 0 {
        return put_piece(text, byte, &word.octal4());
    }
    let named = Cell::at(cell.field(), word);
    if tags.flags[named.index()] {
        return put_tag(text, byte, tags.names, named);
    }
    put_piece(text, byte, &word.octal4())
}

/// Appends the instruction of a cell's word as a source spells it, after a tab. It is a memory reference, by the tag of the cell that
/// it names where that is tagged. Else it is names where they make the word, else its number (PAL III Symbolic Assembler manual).
pub fn put_instruction(
    text: &mut Vec<u8>,
    tags: &[bool],
    cell: Cell,
    word: Word,
) -> Result<(), AllocError>
    requires { length tags.now ≡ CORE }
    ensures { OnOk result (text.new.items ≡ text.old.items
        ++ with_lead 9 (instruction (is_flagged tags.now) cell word)) }
{
    let names = None;
    let made = Tags {
        flags: tags,
        names: &names,
    };
    put_instruction_by(text, &made, cell, word)
}

/// The same by the names that some cells are given.
fn put_instruction_by(
    text: &mut Vec<u8>,
    tags: &Tags<'_>,
    cell: Cell,
    word: Word,
) -> Result<(), AllocError>
    requires { length tags.now.flags.now ≡ CORE }
    ensures { OnOk result (text.new.items ≡ text.old.items
        ++ with_lead 9 (instruction_by (name_or_tag (name_by tags.now.names.now))
        (is_flagged tags.now.flags.now) cell word)) }
{
    if is_reference(cell.address(), word) {
        return put_reference(text, tags, cell, word);
    }
    if is_named(word) {
        return put_names(text, word);
    }
    put_number(text, word)
}

/// Appends a word's number, after a tab.
fn put_number(text: &mut Vec<u8>, word: Word) -> Result<(), AllocError>
    ensures { OnOk result (text.new.items ≡ text.old.items ++ with_lead 9 (octal4 word ∷ [])) }
{
    put_piece(text, b'\t', &word.octal4())
}

/// Appends a piece after a byte.
pub fn put_piece(text: &mut Vec<u8>, byte: u8, piece: &[u8]) -> Result<(), AllocError>
    ensures { OnOk result (text.new.items ≡ text.old.items ++ byte ∷ piece.now) }
{
    text.push(byte)?;
    text.extend_from_slice(piece)?;
    Ok(())
}

/// Appends a cell's tag after a byte.
fn put_tag(
    text: &mut Vec<u8>,
    byte: u8,
    names: &Option<CellNames>,
    cell: Cell,
) -> Result<(), AllocError>
    ensures { OnOk result (text.new.items ≡ text.old.items
        ++ byte ∷ name_or_tag (name_by names.now) cell) }
{
    text.push(byte)?;
    put_name(text, names, cell)?;
    Ok(())
}

/// Appends the memory reference of a cell's word.
fn put_reference(
    text: &mut Vec<u8>,
    tags: &Tags<'_>,
    cell: Cell,
    word: Word,
) -> Result<(), AllocError>
    requires { length tags.now.flags.now ≡ CORE }
    ensures { OnOk result (text.new.items ≡ text.old.items
        ++ with_lead 9 (reference (name_or_tag (name_by tags.now.names.now))
        (is_flagged tags.now.flags.now) cell word)) }
{
    put_piece(text, b'\t', &operation_name(word))?;
    put_indirection(text, word)?;
    put_address(text, tags, cell, word)?;
    Ok(())
}

/// Appends a blank and `I` where a word is indirect.
pub fn put_indirection(text: &mut Vec<u8>, word: Word) -> Result<(), AllocError>
    ensures { OnOk result (text.new.items ≡ text.old.items
        ++ with_lead 0o40 (if nat_eq (word / 0o400 % 2) 1 then codes "I" ∷ [] else [])) }
{
    if word.get() / INDIRECT % 2 == 1 {
        return put_piece(text, b' ', b"I");
    }
    Ok(())
}

/// Appends the cell that a memory reference in a cell names: its tag, where it is tagged, else its address.
fn put_address(
    text: &mut Vec<u8>,
    tags: &Tags<'_>,
    cell: Cell,
    word: Word,
) -> Result<(), AllocError>
    requires { length tags.now.flags.now ≡ CORE }
    ensures { OnOk result (text.new.items ≡ text.old.items
        ++ 0o40 ∷ address (name_or_tag (name_by tags.now.names.now))
        (is_flagged tags.now.flags.now) cell word) }
{
    let named = referred_cell(cell, word);
    if tags.flags[named.index()] {
        return put_tag(text, b' ', tags.names, named);
    }
    put_piece(
        text,
        b' ',
        &address_of_reference(cell.address(), word).octal4(),
    )
}

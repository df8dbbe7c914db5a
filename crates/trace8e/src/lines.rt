//! The line of a step.

ghost use Rattle.std.specs.Prelude.{◌≡◌, ℕ, ◌++◌, ◌∷◌, OnOk, length};
ghost use Rattle.word12.specs.declared.sizes.TheConstants.{CORE};
ghost use Rattle.tape_source.specs.Lines.{with_lead};
ghost use Rattle.tape_source.specs.Tags.{is_flagged};
ghost use Rattle.trace8.specs.Trace.{character_text, printed_text};
ghost use Rattle.trace8e.specs.Names.{instruction_of_8e};
ghost use Rattle.trace8e.specs.Trace.{registers_text};
ghost use Rattle.trace8.specs.StoresSteps.{change_line};
ghost use Rattle.trace8e.specs.StoresSteps.{change_lines, instruction_line, trace_line, step_report};

use crate::names::own_name;
use crate::stores::Before;
use core_load::Core;
use cpu8::Stepped;
use cpu8e::Machine;
use std::alloc::AllocError;
use tape_source::{put_instruction, put_piece};
use word12::{Cell, Word};

/// Appends the line of a step that did this, by what stood before it and the machine after it.
pub(crate) fn put_line(
    lines: &mut Vec<u8>,
    tags: &[bool],
    before: &Before,
    did: &Stepped,
    machine: &Machine,
) -> Result<(), AllocError>
    requires { length tags.now ≡ CORE }
    ensures { OnOk result (lines.new.items ≡ lines.old.items
        ++ trace_line (is_flagged tags.now) before.now did.now machine.now) }
{
    put_step(lines, tags, before, did)?;
    put_registers(lines, machine)?;
    put_changes(lines, before, did, machine.core())?;
    put_printed(lines, did)?;
    put(lines, b"\n")
}

/// Appends what a step was: an interrupt, or an instruction.
fn put_step(
    lines: &mut Vec<u8>,
    tags: &[bool],
    before: &Before,
    did: &Stepped,
) -> Result<(), AllocError>
    requires { length tags.now ≡ CORE }
    ensures { OnOk result (lines.new.items ≡ lines.old.items
        ++ step_report (is_flagged tags.now) before.now did.now) }
{
    match did {
        Stepped::Interrupted => put(lines, b"INTERRUPT"),
        _ => put_row(lines, tags, before),
    }
}

/// Appends the cell of an instruction, its word, and the instruction by its name.
fn put_row(lines: &mut Vec<u8>, tags: &[bool], before: &Before) -> Result<(), AllocError>
    requires { length tags.now ≡ CORE }
    ensures { OnOk result (lines.new.items ≡ lines.old.items
        ++ instruction_line (is_flagged tags.now) before.now) }
{
    let [field, a, b, c, d] = before.cell.octal5();
    let [e, f, g, h] = before.word.octal4();
    let head = [field, a, b, c, d, b' ', e, f, g, h];
    put(lines, &head)?;
    put_named(lines, tags, before.cell, before.word)
}

/// Appends the instruction of a cell's word after a tab: by its name where it is one of the 8/E's own, else as a source of the 8/I
/// spells it.
fn put_named(lines: &mut Vec<u8>, tags: &[bool], cell: Cell, word: Word) -> Result<(), AllocError>
    requires { length tags.now ≡ CORE }
    ensures { OnOk result (lines.new.items ≡ lines.old.items
        ++ with_lead 9 (instruction_of_8e (is_flagged tags.now) cell word)) }
{
    let name = own_name(word);
    if name.is_empty() {
        return put_instruction(lines, tags, cell, word);
    }
    put_piece(lines, b'\t', name)
}

/// Appends AC, L and MQ.
fn put_registers(lines: &mut Vec<u8>, machine: &Machine) -> Result<(), AllocError>
    ensures { OnOk result (lines.new.items ≡ lines.old.items ++ registers_text machine.now) }
{
    let [a, b, c, d] = machine.ac().octal4();
    let link = b'0' + machine.l();
    let [e, f, g, h] = machine.mq().octal4();
    let registers = [
        b'\t', b'A', b'C', b' ', a, b, c, d, b' ', b'L', b' ', link, b' ', b'M', b'Q', b' ', e, f,
        g, h,
    ];
    put(lines, &registers)
}

/// Appends the cells whose words a step changed, with their new words.
fn put_changes(
    lines: &mut Vec<u8>,
    before: &Before,
    did: &Stepped,
    core: &Core,
) -> Result<(), AllocError>
    ensures { OnOk result (lines.new.items ≡ lines.old.items ++ change_lines before.now did.now core.now) }
{
    match did {
        Stepped::Interrupted => put_change(lines, Some(Cell::of(0)), before.first_word, core),
        Stepped::Ran { .. } => put_stores(lines, before, core),
        _ => Ok(()),
    }
}

/// Appends the cells whose words an instruction changed.
fn put_stores(lines: &mut Vec<u8>, before: &Before, core: &Core) -> Result<(), AllocError>
    ensures { OnOk result (lines.new.items ≡ lines.old.items
        ++ (change_line before.now.pointer before.now.pointer_word core.now
        ++ change_line before.now.stored_cell before.now.stored_word core.now)) }
{
    put_change(lines, before.pointer, before.pointer_word, core)?;
    put_change(lines, before.stored_cell, before.stored_word, core)?;
    Ok(())
}

/// Appends a cell, if there is one, with its new word, where it had another.
fn put_change(
    lines: &mut Vec<u8>,
    cell: Option<Cell>,
    old: Word,
    core: &Core,
) -> Result<(), AllocError>
    ensures { OnOk result (lines.new.items ≡ lines.old.items ++ change_line cell old core.now) }
{
    let Some(cell) = cell else {
        return Ok(());
    };
    let new = core.get(cell);
    if old == new {
        return Ok(());
    }
    let [field, a, b, c, d] = cell.octal5();
    let [e, f, g, h] = new.octal4();
    let change = [b'\t', field, a, b, c, d, b' ', e, f, g, h];
    put(lines, &change)
}

/// Appends the character that a step printed, if it did.
fn put_printed(lines: &mut Vec<u8>, did: &Stepped) -> Result<(), AllocError>
    ensures { OnOk result (lines.new.items ≡ lines.old.items ++ printed_text did.now) }
{
    match did {
        Stepped::Ran {
            printed: Some(character),
        } => put_character(lines, *character),
        _ => Ok(()),
    }
}

/// Appends a character after a tab: between quotes without its top bit where it is a graphic one, else by its code in octal.
fn put_character(lines: &mut Vec<u8>, character: u8) -> Result<(), AllocError>
    ensures { OnOk result (lines.new.items ≡ lines.old.items ++ 0o11 ∷ character_text character) }
{
    let shown = character % 0o200;
    if shown >= 0o40 && shown < 0o177 {
        return put(lines, &[b'\t', b'\'', shown, b'\'']);
    }
    let [a, b, c, d] = Word::low(u16::from(character)).octal4();
    put(lines, &[b'\t', a, b, c, d])
}

/// Appends bytes.
#[inline]
fn put(lines: &mut Vec<u8>, bytes: &[u8]) -> Result<(), AllocError>
    ensures { OnOk result (lines.new.items ≡ lines.old.items ++ bytes.now) }
{
    lines.extend_from_slice(bytes)?;
    Ok(())
}

//! What the questions of a flow answer of a cell, each after its name.

use pointer_flow::{Call, Flow};
use std::alloc::AllocError;
use word12::{Cell, Word};

/// What a line says of a cell after its number; nothing where there is nothing to say.
pub fn push_answers(out: &mut Vec<u8>, flow: &Flow<'_>, cell: Cell) -> Result<(), AllocError> {
    if flow.is_instruction(cell) {
        out.extend_from_slice(b" INSTRUCTION")?;
    }
    push_field(out, b" JUMPS TO ", flow.jump_field(cell))?;
    push_field(out, b" DATA IN ", flow.data_field(cell))?;
    push_word(out, flow.known_word(cell))?;
    push_cell(out, b" WRITTEN AT ", flow.first_writer(cell))?;
    push_call(out, flow.call(cell))?;
    push_cell(out, b" TARGET ", flow.target(cell))
}

fn push_field(out: &mut Vec<u8>, name: &[u8], field: Option<u8>) -> Result<(), AllocError> {
    if let Some(number) = field {
        out.extend_from_slice(name)?;
        out.push(b'0' + number % 8)?;
    }
    Ok(())
}

fn push_word(out: &mut Vec<u8>, word: Option<Word>) -> Result<(), AllocError> {
    if let Some(known) = word {
        out.extend_from_slice(b" KNOWN ")?;
        out.extend_from_slice(&known.octal4())?;
    }
    Ok(())
}

fn push_cell(out: &mut Vec<u8>, name: &[u8], cell: Option<Cell>) -> Result<(), AllocError> {
    if let Some(named) = cell {
        out.extend_from_slice(name)?;
        out.extend_from_slice(&named.octal5())?;
    }
    Ok(())
}

/// A call with the function of the USR as a word.
fn push_call(out: &mut Vec<u8>, call: Option<Call>) -> Result<(), AllocError> {
    match call {
        Some(Call::Usr(function)) => {
            out.extend_from_slice(b" CALL USR ")?;
            out.extend_from_slice(&Word::low(function).octal4())
        }
        Some(Call::SystemHandler) => out.extend_from_slice(b" CALL SYSTEM HANDLER"),
        Some(Call::Handler) => out.extend_from_slice(b" CALL HANDLER"),
        None => Ok(()),
    }
}

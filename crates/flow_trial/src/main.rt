//! Prints the flow of the program on standard input, by `pointer_flow`, to hold it to the plain model. A line of input has a letter, and a cell
//! in five octal digits. `W` gives the cell the word that follows in four. `S` is for a start, `D` for a datum, and `H` for a cell that holds
//! the entry of a handler.
//!
//! For each cell of which there is something to say a line has the cell, and what the questions of a flow answer. The status is 1 where a line
//! of input is none of these, and 3 where memory ran out.
#![tactic(auto)]

mod answers;
mod programs;

use answers::push_answers;
use pointer_flow::pointer_flow;
use programs::{Program, read_program};
use std::alloc::{AllocError, Global};
use std::io::{self, Read, Write};
use std::process::ExitCode;
use word12::{CORE, Cell};

fn main(rt: HostRuntime) -> ExitCode {
    let mut bytes = Vec::new(rt.alloc());
    if rt.reader().read_to_end(&mut bytes).is_err() {
        return ExitCode::FAILURE;
    }
    let Ok(text) = String::from_utf8(bytes) else {
        return ExitCode::FAILURE;
    };
    let program = match read_program(rt.alloc(), text.as_str()) {
        Ok(Some(program)) => program,
        Ok(None) => return ExitCode::FAILURE,
        Err(_) => return ExitCode::from(3),
    };
    let Ok(lines) = flow_lines(rt.alloc(), &program) else {
        return ExitCode::from(3);
    };
    match io::writer(&rt).write_all(&lines) {
        Ok(()) => ExitCode::SUCCESS,
        Err(_) => ExitCode::FAILURE,
    }
}

/// The lines of the cells of a program's flow.
fn flow_lines(alloc: Global, program: &Program) -> Result<Vec<u8>, AllocError> {
    let mut lines = Vec::new(alloc);
    if program.words.len() != CORE || program.data_flags.len() != CORE {
        return Ok(lines);
    }
    let flow = pointer_flow(
        alloc,
        &program.words,
        &program.data_flags,
        &program.starts,
        &program.handlers,
    )?;
    let mut answers = Vec::new(alloc);
    for number in 0u32..CORE as u32 {
        let cell = Cell::of(number);
        answers.clear();
        push_answers(&mut answers, &flow, cell)?;
        if !answers.is_empty() {
            lines.extend_from_slice(&cell.octal5())?;
            lines.extend_from_slice(&answers)?;
            lines.push(b'\n')?;
        }
    }
    Ok(lines)
}

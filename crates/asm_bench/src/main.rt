//! Assembles the source on standard input, and writes its BIN tape to standard output, to be measured.
#![tactic(auto)]

use bin_tape::write_tape;
use pal_asm::assemble;
use std::io::{self, Read, Write};
use std::process::ExitCode;

fn main(rt: HostRuntime) -> ExitCode {
    let mut source = Vec::new(rt.alloc());
    if rt.reader().read_to_end(&mut source).is_err() {
        return ExitCode::FAILURE;
    }
    let pairs = match assemble(rt.alloc(), &source) {
        Ok(pairs) => pairs,
        Err(_) => return ExitCode::FAILURE,
    };
    if pairs.is_empty() {
        return ExitCode::FAILURE;
    }
    let tape = match write_tape(rt.alloc(), &pairs) {
        Ok(tape) => tape,
        Err(_) => return ExitCode::FAILURE,
    };
    match io::writer(&rt).write_all(&tape) {
        Ok(()) => ExitCode::SUCCESS,
        Err(_) => ExitCode::FAILURE,
    }
}

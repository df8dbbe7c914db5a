//! Runs a program by the debugger, to measure it: the BIN tape on standard input is loaded, started at 00200 and run until
//! it stops. The printer ends its character at once. With any argument there is a break in field 0, at a cell that no
//! program reaches. Then AC, L and PC with its field are printed.
//!
//! A tape of three frames, which is no program, strikes a key first: so the compiler can't know that no interrupt is ever
//! requested.
#![tactic(auto)]

use core_load::{Core, load};
use cpu8::Machine;
use debug8::{DebugFault, Debugger, Why};
use std::alloc::Global;
use std::env;
use std::io::{Read, Write};
use std::process::ExitCode;
use word12::Cell;

fn main(rt: HostRuntime) -> ExitCode {
    let mut tape = Vec::new(rt.alloc());
    if rt.reader().read_to_end(&mut tape).is_err() {
        return ExitCode::FAILURE;
    }
    let mut core = match Core::new(rt.alloc()) {
        Ok(core) => core,
        Err(_) => return ExitCode::FAILURE,
    };
    if load(rt.alloc(), &tape, &mut core).is_err() {
        return ExitCode::FAILURE;
    }
    let mut machine = Machine::new(core);
    if tape.len() == 3 {
        machine.key(0);
    }
    machine.start(Cell::of(0o200));
    let has_break = match env::args(&rt) {
        Ok(words) => words.count() > 1,
        Err(_) => return ExitCode::FAILURE,
    };
    if run(rt.alloc(), &mut machine, has_break).is_err() {
        return ExitCode::FAILURE;
    }
    let (ac, l, cell) = (machine.ac(), machine.l(), machine.next_cell());
    match println!(rt; "{ac} {l} {}{}", cell.field(), cell.address()) {
        Ok(()) => ExitCode::SUCCESS,
        Err(_) => ExitCode::FAILURE,
    }
}

/// Lets the machine go until it stops.
fn run(alloc: Global, machine: &mut Machine, has_break: bool) -> Result<(), DebugFault> {
    let mut debugger = Debugger::new(alloc)?;
    if has_break {
        debugger.set_break(Cell::of(0o7777))?;
    }
    let mut printed = Vec::with_capacity(alloc, STEPS)?;
    for _ in 0..u64::MAX {
        printed.clear();
        match debugger.go(machine, STEPS, true, &mut printed).why {
            Why::Limit => {}
            _ => return Ok(()),
        }
    }
    Ok(())
}

/// The steps of one go: for so many characters there is room.
const STEPS: usize = 65536;

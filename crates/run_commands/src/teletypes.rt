//! A program of a tape at the Teletype: the keys of a reader, and standard output as the paper.
ghost use Rattle.std.specs.Prelude.{};
ghost use Rattle.byte_reader.specs.Readings.{reading};
ghost use Rattle.run_commands.specs.Teletypes.{ReadsProgramOf, RunsOn, RunsTeletype};

use crate::core_programs::{CoreProgram, core_program};
use crate::machines8i::run_8i;
use crate::runs::start_or;
use crate::runs8e::run_8e;
use byte_reader::ByteReader;
use hosts::Host;
use outcome::Ending;
use program_tasks::{Cpu, TeletypeForm};
use std::alloc::Global;
use tape_commands::program_of;

/// Loads a tape or a core image into a new machine, and runs it at the Teletype, whose keys a reader gives. The line of its end is printed
/// on standard error. No file changes but those of an 8/E's disks and papers. The host is given back.
pub fn run_teletype<H: Host, I: ByteReader>(
    host: H,
    alloc: Global,
    keys: &mut I,
    form: &TeletypeForm,
) -> (H, Result<(), Ending>)
    ensures { RunsTeletype form.now (reading I.remaining I.has_failed keys.old keys.new) (H.history host) result.1 (H.history result.0) }
{
    let mut host = host;
    match read_program(&mut host, alloc, form) {
        Ok(program) => run_program(host, alloc, keys, form, program),
        Err(ending) => (host, Err(ending)),
    }
}

/// Reads a program into core.
fn read_program<H: Host>(
    host: &mut H,
    alloc: Global,
    form: &TeletypeForm,
) -> Result<CoreProgram, Ending>
    ensures { ReadsProgramOf form.now (H.history host.old) result (H.history host.new) }
{
    let tape = program_of(host, alloc, &form.tape)?;
    let start = start_or(form.start, tape.start);
    core_program(host, alloc, &tape.frames, start, form.console.switches)
}

/// Runs a program on the machine that is asked for, and prints the line of its end.
fn run_program<H: Host, I: ByteReader>(
    host: H,
    alloc: Global,
    keys: &mut I,
    form: &TeletypeForm,
    program: CoreProgram,
) -> (H, Result<(), Ending>)
    ensures { RunsOn form.now.cpu form.now program (reading I.remaining I.has_failed keys.old keys.new) (H.history host) result.1 (H.history result.0) }
{
    match form.cpu {
        Cpu::EightI => run_8i(host, alloc, keys, form, program),
        Cpu::EightE => run_8e(host, alloc, keys, form, program),
    }
}

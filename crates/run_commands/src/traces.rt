//! A program of a tape whose steps are printed.
ghost use Rattle.std.specs.Prelude.{◌≡◌, length};
ghost use Rattle.word12.specs.declared.sizes.TheConstants.{CORE};
ghost use Rattle.run_commands.specs.Traces.{TracesOn, TracesTape};

use crate::drives8e::trace_8e;
use crate::machines8i::trace_8i;
use crate::runs::{Run, read_run};
use hosts::Host;
use outcome::Ending;
use program_tasks::{Cpu, TraceForm};
use std::alloc::Global;

/// How many steps are printed where nothing else is said.
const TRACE_STEPS: u64 = 1_000;

/// Prints a line for each step of a program, and how far it went. On an 8/E each file whose disk was written gets what is on it, and the
/// files of the papers get what was put there. The host is given back.
pub fn trace_tape<H: Host>(host: H, alloc: Global, form: &TraceForm) -> (H, Result<(), Ending>)
    ensures { TracesTape form.now (H.history host) result.1 (H.history result.0) }
{
    let mut host = host;
    match read_run(&mut host, alloc, form) {
        Ok(run) => trace_run(host, alloc, form, run, form.steps.unwrap_or(TRACE_STEPS)),
        Err(ending) => (host, Err(ending)),
    }
}

/// Prints a line for each of at most so many steps of the machine that is asked for.
fn trace_run<H: Host>(
    host: H,
    alloc: Global,
    form: &TraceForm,
    run: Run,
    most: u64,
) -> (H, Result<(), Ending>)
    requires { length run.flags.items ≡ CORE }
    ensures { TracesOn form.now.cpu form.now.disk form.now.devices most run (H.history host) result.1 (H.history result.0) }
{
    match form.cpu {
        Cpu::EightI => trace_8i(host, alloc, run, most),
        Cpu::EightE => trace_8e(host, alloc, &form.disk, &form.devices, run, most),
    }
}

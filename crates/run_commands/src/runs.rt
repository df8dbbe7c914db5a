//! A program whose steps are printed or counted, before its first step.
ghost use Rattle.std.specs.Prelude.{◌≡◌, List};
ghost use Rattle.bin_tape.specs.Items.{Item};
ghost use Rattle.bin_tape.specs.Tape.{IsTape};
ghost use Rattle.run_commands.specs.RunSteps.{AreFlags};
ghost use Rattle.run_commands.specs.Runs as spec;

use crate::core_programs::{CoreProgram, core_program};
use bin_tape::laws::no_fault;
use hosts::Host;
use outcome::Ending;
use program_tasks::TraceForm;
use std::alloc::Global;
use tape_commands::program_of;
use tape_reports::given_cells;
use terminal8::{Form, keys_of};
use word12::Cell;

/// A program, the keys that are struck at its machine, and which cells its tape gives a word.
#[derive(Drop)]
pub(crate) struct Run {
    pub(crate) program: CoreProgram,
    pub(crate) keys: Vec<u8>,
    pub(crate) flags: Vec<bool>,
}

/// Reads a program into core.
pub(crate) fn read_run<H: Host>(
    host: &mut H,
    alloc: Global,
    form: &TraceForm,
) -> Result<Run, Ending>
    ensures { spec.ReadsRun form.now (H.history host.old) result (H.history host.new) }
{
    let tape = program_of(host, alloc, &form.tape)?;
    let start = start_or(form.start, tape.start);
    let program = core_program(host, alloc, &tape.frames, start, form.switches)?;
    ready_run(alloc, form, &tape.frames, program)
}

/// What is run of a tape's program, which is in core.
fn ready_run(
    alloc: Global,
    form: &TraceForm,
    frames: &[u8],
    program: CoreProgram,
) -> Result<Run, Ending>
    ensures { (items : List Item) → IsTape frames.now items → spec.IsReady form.now frames.now program result }
{
    let keys = keys_of(alloc, Form::Text, text_of(&form.keys))?;
    let flags = flags_of(alloc, frames)?;
    Ok(Run {
        program,
        keys,
        flags,
    })
}

/// Which cells a tape gives a word.
fn flags_of(alloc: Global, frames: &[u8]) -> Result<Vec<bool>, Ending>
    ensures { (items : List Item) → IsTape frames.now items → AreFlags frames.now result }
{
    no_fault();
    let flags = given_cells(alloc, frames)?;
    Ok(flags)
}

/// The cell that is given, or else that of a core image.
pub(crate) fn start_or(given: Option<Cell>, start: Option<Cell>) -> Option<Cell>
    ensures { result ≡ spec.start_or given start }
{
    match given {
        Some(cell) => Some(cell),
        None => start,
    }
}

/// The text that is struck.
fn text_of(keys: &Option<String>) -> &[u8]
    ensures { result.now ≡ spec.text_of keys.now }
{
    match keys {
        Some(keys) => keys.as_bytes(),
        None => b"",
    }
}

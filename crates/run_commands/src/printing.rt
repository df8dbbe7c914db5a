//! What a run, a trace and a profile print at their end, whichever machine made the steps.
ghost use Rattle.std.specs.Prelude.{◌≡◌, length};
ghost use Rattle.word12.specs.declared.sizes.TheConstants.{CORE};
ghost use Rattle.run_commands.specs.Printing as spec;
ghost use Rattle.run_commands.specs.Printing.{EndsRun, EndsTrace, IsEndOf, NotesAbsences, TellsEnd};
ghost use Rattle.run_commands.specs.RunSteps.{ShowsCounts};

use crate::lines::{ending_of_output, tell_run};
use crate::run_lines::{RunLine, put_run, run_line};
use hosts::{Host, PrintFault};
use image_files::print;
use outcome::Ending;
use profile8::profile_text;
use refusals::SessionFault;
use std::alloc::Global;
use terminal8::{Absence, Absences, Ended, TerminalEnd, TerminalFault};
use trace8::TraceFault;
use word12::{Cell, Word};

/// Where a machine stands.
#[derive(Clone, Copy)]
pub(crate) struct Stand {
    /// The cell of the next instruction, and its word.
    pub cell: Cell,
    pub word: Word,
    pub ac: Word,
    pub l: u8,

    /// MQ, if the machine has one.
    pub mq: Option<Word>,
}

/// Prints on standard error which absent devices a program asked, and why its machine goes no further.
pub(crate) fn end_run<H: Host>(
    host: &mut H,
    alloc: Global,
    stand: Stand,
    absences: &Absences,
    fault: Option<PrintFault>,
    done: Result<Ended, TerminalFault>,
) -> Result<(), Ending>
    ensures { EndsRun stand absences.now fault done (H.history host.old) result (H.history host.new) }
{
    match done {
        Ok(ended) => {
            note_absences(host, alloc, absences.as_slice())?;
            tell_end(host, alloc, stand, ended.why)
        }
        Err(TerminalFault::Reader) => Err(Ending::Fault(SessionFault::Reader)),
        Err(TerminalFault::Writer) => Err(ending_of_output(fault)),
    }
}

/// Prints the line of a machine that goes no further. The answer is how the command ends by that.
fn tell_end<H: Host>(
    host: &mut H,
    alloc: Global,
    stand: Stand,
    why: TerminalEnd,
) -> Result<(), Ending>
    ensures { TellsEnd stand why (H.history host.old) result (H.history host.new) }
{
    tell_run(host, alloc, &line_of_end(stand, why))?;
    end_of(why)
}

/// Prints a note of each of these IOTs of absent devices.
fn note_absences<H: Host>(host: &mut H, alloc: Global, absences: &[Absence]) -> Result<(), Ending>
    ensures { NotesAbsences absences.now (H.history host.old) result (H.history host.new) }
{
    match absences {
        [] => Ok(()),
        [absence, others @ ..] => {
            tell_run(host, alloc, &RunLine::NoDevice(*absence))?;
            note_absences(host, alloc, others)
        }
    }
}

/// The line of a machine that goes no further.
fn line_of_end(stand: Stand, why: TerminalEnd) -> RunLine
    ensures { result ≡ spec.line_of_end stand why }
{
    match why {
        TerminalEnd::Halt => halted_line(stand),
        TerminalEnd::Keys => RunLine::KeysEnd(stand.cell),
        TerminalEnd::Unassigned => RunLine::Unassigned(stand.cell, stand.word),
        TerminalEnd::Limit => RunLine::Limit(stand.cell),
    }
}

/// The line of a machine that halted.
fn halted_line(stand: Stand) -> RunLine
    ensures { result ≡ spec.halted_line stand }
{
    match stand.mq {
        Some(mq) => RunLine::HaltedWithMq(stand.cell, stand.ac, stand.l, mq),
        None => RunLine::Halted(stand.cell, stand.ac, stand.l),
    }
}

/// How a command ends whose machine goes no further: a HLT and the end of the keys are ends of a program's own.
fn end_of(why: TerminalEnd) -> Result<(), Ending>
    ensures { IsEndOf why result }
{
    match why {
        TerminalEnd::Halt | TerminalEnd::Keys => Ok(()),
        TerminalEnd::Unassigned | TerminalEnd::Limit => Err(Ending::Failure),
    }
}

/// Prints the line of a trace's end, at which the machine stands before this cell.
pub(crate) fn end_trace<H: Host>(
    host: &mut H,
    alloc: Global,
    cell: Cell,
    fault: Option<PrintFault>,
    done: Result<Ended, TraceFault>,
) -> Result<(), Ending>
    ensures { EndsTrace cell fault done (H.history host.old) result (H.history host.new) }
{
    match done {
        Ok(ended) => {
            let line = run_line(alloc, &RunLine::Steps(ended, cell))?;
            print(host, &line)
        }
        Err(TraceFault::Memory) => Err(Ending::Fault(SessionFault::Memory)),
        Err(TraceFault::Writer) => Err(ending_of_output(fault)),
    }
}

/// The profile of these counts, for a tape that gives the flagged cells a word, and the line of their end.
pub(crate) fn counts_text(
    alloc: Global,
    counts: &[u64],
    flags: &[bool],
    ended: Ended,
    cell: Cell,
) -> Result<Vec<u8>, Ending>
    requires counts { length counts.now ≡ CORE }
    requires flags { length flags.now ≡ CORE }
    ensures { ShowsCounts counts.now flags.now ended cell result }
{
    let mut text = profile_text(alloc, counts, flags)?;
    put_run(&RunLine::Steps(ended, cell), &mut text)?;
    Ok(text)
}

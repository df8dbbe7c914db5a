//! The lines of the commands on machines, and how these end where standard output takes no more.
ghost use Rattle.std.specs.Prelude.{◌≡◌};
ghost use Rattle.run_commands.specs.Lines as spec;
ghost use Rattle.run_commands.specs.Lines.{TellsProgram, TellsRun};

use crate::run_lines::{RunLine, run_line};
use hosts::{Host, PrintFault};
use image_files::{program_line, tell_line};
use outcome::Ending;
use program_reports::ProgramLine;
use std::alloc::Global;

/// Prints a line on standard error that is no fault.
pub(crate) fn tell_program<H: Host>(
    host: &mut H,
    alloc: Global,
    line: &ProgramLine,
) -> Result<(), Ending>
    ensures { TellsProgram line.now (H.history host.old) result (H.history host.new) }
{
    let text = program_line(alloc, line)?;
    tell_line(host, &text);
    Ok(())
}

/// Prints the line of a run on standard error.
pub(crate) fn tell_run<H: Host>(host: &mut H, alloc: Global, line: &RunLine) -> Result<(), Ending>
    ensures { TellsRun line.now (H.history host.old) result (H.history host.new) }
{
    let text = run_line(alloc, line)?;
    tell_line(host, &text);
    Ok(())
}

/// How a command ends whose output failed, by why its last print that failed did.
pub(crate) fn ending_of_output(fault: Option<PrintFault>) -> Ending
    ensures { result ≡ spec.ending_of_output fault }
{
    match fault {
        Some(PrintFault::Abandoned) => Ending::NoReader,
        _ => Ending::FullOutput,
    }
}

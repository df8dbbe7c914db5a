//! Images that are passed over.
ghost use Rattle.std.specs.Prelude.{◌≡◌, ◌++◌, OnOk};
ghost use Rattle.program_reports.specs.Prefixes.{with_prefixes};
ghost use Rattle.program_reports.specs.Program.{program_line};
ghost use Rattle.image_files.specs.Answers.{AreLines};
ghost use Rattle.image_files.specs.Ending.{TellsLine};
ghost use Rattle.index_commands.specs.Refusing.{PassesOver, RefusesVolume, number_text, prefix_of};

use crate::found::Found;
use hosts::Host;
use outcome::Ending;
use program_reports::{ProgramLine, put_program, with_prefix};
use shown_text::put_shown;
use std::alloc::{AllocError, Global};

/// Says on standard error why a volume is refused, which is counted; what is no refusal ends the command.
pub(crate) fn refuse_volume<H: Host>(
    host: &mut H,
    alloc: Global,
    name: &[u8],
    number: Option<u64>,
    ending: Ending,
    found: Found,
) -> Result<Found, Ending>
    ensures { RefusesVolume name.now number ending found.lines.items (H.history host.old) result (H.history host.new) }
{
    pass_over(host, alloc, name, number, ending)?;
    Ok(found.with_refusal())
}

/// Says on standard error why a volume is refused; what is no refusal ends the command.
fn pass_over<H: Host>(
    host: &mut H,
    alloc: Global,
    name: &[u8],
    number: Option<u64>,
    ending: Ending,
) -> Result<(), Ending>
    ensures { PassesOver name.now number ending (H.history host.old) result (H.history host.new) }
{
    match ending {
        Ending::Line(line) => {
            let text = refusal(alloc, name, number, &line)?;
            tell_line(host, &text);
            Ok(())
        }
        _ => Err(ending),
    }
}

/// The line of a refusal with the name of the volume before it, which is shown with escapes where it isn't graphic.
fn refusal(
    alloc: Global,
    name: &[u8],
    number: Option<u64>,
    line: &ProgramLine,
) -> Result<Vec<u8>, Ending>
    ensures { AreLines (with_prefixes (prefix_of name.now number) (program_line line.now)) result }
{
    let mut text = Vec::new(alloc);
    put_program(line, &mut text)?;
    let mut prefix = Vec::new(alloc);
    put_shown(&mut prefix, name)?;
    put_number(&mut prefix, number)?;
    prefix.extend_from_slice(b": ")?;
    let lines = with_prefix(alloc, &prefix, &text)?;
    Ok(lines)
}

/// Appends the number of a volume of a disk.
fn put_number(text: &mut Vec<u8>, number: Option<u64>) -> Result<(), AllocError>
    ensures { OnOk result (text.new.items ≡ text.old.items ++ number_text number) }
{
    match number {
        None => Ok(()),
        Some(number) => {
            let mut digits = itoa::Buffer::new();
            text.push(b':')?;
            text.extend_from_slice(digits.format(number).as_bytes())
        }
    }
}

/// Prints a line on standard error, where it is a text. Where that takes no more, the work goes on.
fn tell_line<H: Host>(host: &mut H, line: &[u8])
    ensures { TellsLine line.now (H.history host.old) (H.history host.new) }
{
    if let Ok(text) = str::from_utf8(line) {
        let _ = host.tell(text);
    }
}

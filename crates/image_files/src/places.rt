//! Files of the host that are to be written, which must not be those that are read.
ghost use Rattle.std.specs.Prelude.{◌≡◌, IfOk};
ghost use Rattle.image_files.specs.Places as spec;
ghost use Rattle.image_files.specs.Places.{IsApart, RefusesPair, TellsPair};

use crate::faults::ending_of_file;
use crate::notes::tell_note;
use crate::reasons::tell_unheld;
use hosts::Host;
use outcome::{Content, Ending, NameNote, Note};
use program_reports::ProgramLine;
use std::alloc::{AllocError, Global};

/// Ends the command where a file for this would be written to a name that leads to the file of another, which is read, or is written too.
/// A note names both. Nothing is written before.
pub fn keep_apart<H: Host>(
    host: &mut H,
    alloc: Global,
    content: Content,
    output: &str,
    input: &str,
) -> Result<(), Ending>
    ensures { IsApart content output.now input.now (H.history host.old) result (H.history host.new) }
{
    match host.leads_to_same(alloc, output, input) {
        Ok(is_one) => {
            if is_one {
                return Err(refuse_pair(host, alloc, output, input));
            }
            Ok(())
        }
        Err(fault) => {
            tell_unheld(host, alloc, content, output, fault);
            Err(ending_of_file(content, fault))
        }
    }
}

/// How the command ends whose output is an input.
fn refuse_pair<H: Host>(host: &mut H, alloc: Global, output: &str, input: &str) -> Ending
    ensures { RefusesPair output.now input.now (H.history host.old) result (H.history host.new) }
{
    match tell_pair(host, alloc, output, input) {
        Ok(()) => Ending::Line(ProgramLine::OneFile),
        Err(ending) => ending,
    }
}

/// Prints that two names are one file's.
pub fn tell_pair<H: Host>(
    host: &mut H,
    alloc: Global,
    output: &str,
    input: &str,
) -> Result<(), Ending>
    ensures { TellsPair output.now input.now (H.history host.old) result (H.history host.new) }
{
    let pair = pair_name(alloc, output, input)?;
    match tell_note(host, alloc, Note::OnName(NameNote::OneFile, pair.as_str())) {
        Ok(()) => Ok(()),
        Err(error) => Err(Ending::from(error)),
    }
}

/// Two names that lead to one file, as a note has them.
fn pair_name(alloc: Global, one: &str, other: &str) -> Result<String, AllocError>
    ensures { IfOk result (λ name. name.bytes.items ≡ spec.pair_name one.now other.now) }
{
    let name = format!(in alloc; "{one} and {other}")?;
    Ok(name)
}

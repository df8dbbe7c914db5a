//! The end of a command: what the table of outcomes has for it is printed.
ghost use Rattle.std.specs.Prelude.{◌≡◌};
ghost use Rattle.image_files.specs.Ending.{EndsInstead, EndsSo, EndsSound, PrintsOutcome, TellsLine, status_unread};
ghost use Rattle.image_files.specs.Work as work;
ghost use Rattle.outcome.specs.declared.endings.Ending.TheVariants.{NoReader};
ghost use Rattle.image_files.specs.Work.{result_after};

use crate::notes::tell;
use crate::printing::print;
use crate::states::{ImageNotes, state_at_end, state_refused, tell_state};
use hosts::Host;
use outcome::{Ending, LineRoom, Outcome, Stream, outcome_of};
use std::alloc::{AllocError, Global};

/// The status that a shell gives a program which SIGPIPE has ended.
const NO_READER: u8 = 141;

/// Room for the last line of a command, and for one in its place where standard output does not take that.
#[derive(Drop)]
pub struct Rooms {
    line: LineRoom,
    other: LineRoom,
}

impl Rooms {
    /// Takes the memory for both.
    pub fn new(alloc: Global) -> Result<Rooms, AllocError> {
        let line = LineRoom::new(alloc)?;
        let other = LineRoom::new(alloc)?;
        Ok(Rooms { line, other })
    }
}

/// Prints what is printed at the end of a command that ends so, whose output is data or lines, and gives the exit status. Where standard output
/// takes no line, the notes that are given say whether the image has the change. No memory is taken (this project's profile).
pub fn end<H: Host>(
    host: &mut H,
    rooms: Rooms,
    notes: &Option<ImageNotes>,
    is_data: bool,
    work: Result<(), Ending>,
) -> u8
    ensures { EndsSo is_data notes.now work (H.history host.old) (H.history host.new) result }
{
    let Rooms { line, other } = rooms;
    let refused = state_refused(&work);
    tell_state(host, notes, state_at_end(&work));
    let outcome = outcome_of(line, is_data, work);
    match print_outcome(host, &outcome) {
        Ok(()) => outcome.status,
        Err(ending) => match ending {
            Ending::NoReader => status_unread(outcome.status),
            _ => {
                tell_state(host, notes, refused);
                end_instead(host, other, is_data, ending)
            }
        },
    }
}

/// The exit status of a command whose line nobody reads: 141 where its work went well, as a shell reports SIGPIPE.
fn status_unread(status: u8) -> u8
    ensures { result ≡ status_unread status }
{
    if status == 0 {
        return NO_READER;
    }
    status
}

/// Prints what is printed where standard output does not take a command's line, and gives the exit status.
fn end_instead<H: Host>(host: &mut H, room: LineRoom, is_data: bool, ending: Ending) -> u8
    ensures { EndsInstead is_data ending (H.history host.old) (H.history host.new) result }
{
    let instead = outcome_of(room, is_data, Err(ending));
    let _ = print_outcome(host, &instead);
    instead.status
}

/// Prints the note and the line of an outcome. Where standard output does not take the line, the answer is how the command ends then.
fn print_outcome<H: Host>(host: &mut H, outcome: &Outcome) -> Result<(), Ending>
    ensures { PrintsOutcome outcome.now (H.history host.old) result (H.history host.new) }
{
    if let Some((note, content)) = outcome.note {
        tell(host, note.text(content));
    }
    match outcome.stream {
        Stream::Output => print(host, &outcome.line),
        Stream::Errors => {
            tell_line(host, &outcome.line);
            Ok(())
        }
    }
}

/// Prints a line on standard error, where it is a text.
pub fn tell_line<H: Host>(host: &mut H, line: &[u8])
    ensures { TellsLine line.now (H.history host.old) (H.history host.new) }
{
    if let Ok(text) = str::from_utf8(line) {
        tell(host, text);
    }
}

/// How a command ends where all is sound, or not.
pub fn end_sound(is_sound: bool) -> Result<(), Ending>
    ensures { EndsSound is_sound result }
{
    if is_sound {
        return Ok(());
    }
    Err(Ending::Failure)
}

/// What a part of a command's work gave, after other parts that are sound, or not. Where nobody reads any more, a command that refused
/// something ends with that.
pub fn part_after<A>(are_sound: bool, given: Result<A, Ending>) -> Result<A, Ending>
    ensures { result ≡ result_after are_sound given }
{
    match given {
        Ok(it) => Ok(it),
        Err(ending) => Err(ending_after(are_sound, ending)),
    }
}

/// How a command ends by a part of its work that ends so, after other parts that are sound, or not.
pub fn ending_after(are_sound: bool, ending: Ending) -> Ending
    ensures { result ≡ work.ending_after are_sound ending }
{
    match ending {
        Ending::NoReader => ending_unread(are_sound),
        Ending::Line(line) => Ending::Line(line),
        Ending::Fault(fault) => Ending::Fault(fault),
        Ending::Failure => Ending::Failure,
        Ending::Busy(content) => Ending::Busy(content),
        Ending::NotWritten(content, left) => Ending::NotWritten(content, left),
        Ending::FullOutput => Ending::FullOutput,
        Ending::Unreported => Ending::Unreported,
        Ending::Misuse => Ending::Misuse,
    }
}

fn ending_unread(are_sound: bool) -> Ending
    ensures { result ≡ work.ending_after are_sound NoReader }
{
    if are_sound {
        return Ending::NoReader;
    }
    Ending::Failure
}

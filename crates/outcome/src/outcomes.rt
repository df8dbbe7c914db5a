//! The table of outcomes, as a function of how a command ends.
ghost use Rattle.std.specs.Prelude.{◌≡◌};
ghost use Rattle.outcome.specs.Notes.{text_on_file};
ghost use Rattle.outcome.specs.Outcomes as spec;
ghost use Rattle.outcome.specs.Shown.{writing_of};
ghost use Rattle.outcome.specs.Steps.{refusal_stream};
ghost use Rattle.program_reports.specs.Program.{program_line};

use crate::contents::Content;
use crate::endings::Ending;
use crate::notes::FileNote;
use crate::rooms::LineRoom;
use hosts::Unwritten;
use program_reports::ProgramLine;
use refusals::SessionFault;

/// The status of a refusal.
const REFUSAL: u8 = 1;

/// The status of words that can't be followed.
const MISUSE: u8 = 2;

/// The status that a shell gives a program which SIGPIPE has ended.
const NO_READER: u8 = 141;

/// A stream of the program.
#[derive(Clone, Copy)]
pub enum Stream {
    Output,
    Errors,
}

/// What is printed at the end of a command, and its exit status: first the note, on standard error, and then the line, on its stream.
#[derive(Drop)]
pub struct Outcome {
    /// The note on a file of the host that is to hold this.
    pub note: Option<(FileNote, Content)>,
    pub line: Vec<u8>,
    pub stream: Stream,
    pub status: u8,
}

/// What is printed at the end of a command that ends so, whose output is data or lines, and its exit status. No memory is taken (this
/// project's profile).
pub fn outcome_of(room: LineRoom, is_data: bool, work: Result<(), Ending>) -> Outcome
    ensures { writing_of result ≡ spec.outcome_of is_data work }
{
    match work {
        Ok(()) => silence(room, 0),
        Err(ending) => ending_outcome(room, is_data, ending),
    }
}

fn ending_outcome(room: LineRoom, is_data: bool, ending: Ending) -> Outcome
    ensures { writing_of result ≡ spec.ending_outcome is_data ending }
{
    match ending {
        Ending::Line(line) => refusal(room, is_data, None, &line),
        Ending::Fault(fault) => fault_outcome(room, is_data, fault),
        Ending::Failure => silence(room, REFUSAL),
        Ending::Busy(content) => {
            let line = content.line_of_busy();
            let note = (FileNote::Busy, content);
            refusal(room, is_data, Some(note), &line)
        }
        Ending::NotWritten(content, left) => {
            let unwritten = content.line_of_write();
            let note = (note_of_write(left), content);
            refusal(room, is_data, Some(note), &unwritten)
        }
        Ending::FullOutput | Ending::Unreported => full_output(room),
        Ending::NoReader => silence(room, NO_READER),
        Ending::Misuse => silence(room, MISUSE),
    }
}

/// What is printed of a fault; that of the writer is one of standard output.
fn fault_outcome(room: LineRoom, is_data: bool, fault: SessionFault) -> Outcome
    ensures { writing_of result ≡ spec.fault_outcome is_data fault }
{
    match fault {
        SessionFault::Writer => full_output(room),
        _ => Outcome {
            note: None,
            line: room.fault_line(fault),
            stream: refusal_stream(is_data),
            status: REFUSAL,
        },
    }
}

/// A line of the program, and a note.
fn refusal(
    room: LineRoom,
    is_data: bool,
    note: Option<(FileNote, Content)>,
    line: &ProgramLine,
) -> Outcome
    ensures { writing_of result ≡ spec.refusal is_data (text_on_file note) (program_line line.now) }
{
    Outcome {
        note,
        line: room.program_line(line),
        stream: refusal_stream(is_data),
        status: REFUSAL,
    }
}

/// The stream of refusals.
fn refusal_stream(is_data: bool) -> Stream
    ensures { result ≡ refusal_stream is_data }
{
    if is_data {
        return Stream::Errors;
    }
    Stream::Output
}

/// Standard error gets the line of a writer that takes no more.
fn full_output(room: LineRoom) -> Outcome
    ensures { writing_of result ≡ spec.full_output }
{
    Outcome {
        note: None,
        line: room.fault_line(SessionFault::Writer),
        stream: Stream::Errors,
        status: REFUSAL,
    }
}

/// Nothing is printed.
fn silence(room: LineRoom, status: u8) -> Outcome
    ensures { writing_of result ≡ spec.silence status }
{
    Outcome {
        note: None,
        line: room.no_line(),
        stream: Stream::Output,
        status,
    }
}

fn note_of_write(left: Unwritten) -> FileNote
    ensures { result ≡ spec.note_of_write left }
{
    match left {
        Unwritten::AsItWas => FileNote::AsItWas,
        Unwritten::InPart => FileNote::InPart,
    }
}

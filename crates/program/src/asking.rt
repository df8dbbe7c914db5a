//! Whether a new volume may take the place of a file. A person at a terminal is asked.
ghost use Rattle.std.specs.Prelude.{◌≡◌, ◌≤◌, codes, length, option_map, take};
ghost use Rattle.std.specs.Str.{bytes_eq};
ghost use Rattle.byte_reader.specs.Readings.{reading};
ghost use Rattle.program.specs.Asking as spec;
ghost use Rattle.program.specs.Asking.{Answers, AsksFirst, AsksFull, AsksSeen, LooksFull, SeesErrors, TakesAnswer};
ghost use Rattle.program.specs.Changes.{DoesChange, file_of, seconds_of};
ghost use Rattle.image_files.specs.Work.{Then};
ghost use Rattle.image_files.specs.Waiting.{Within};

use crate::changes::{Change, change_image};
use byte_reader::{ByteReader, read_bytes};
use hosts::{Host, Stream};
use image_files::tell_note;
use outcome::{Ending, NameNote, Note};
use program_reports::ProgramLine;
use program_tasks::CreateForm;
use std::alloc::Global;

/// Makes a change of an image. Where a new volume takes the place of a file that is not empty, a person at a terminal is asked before.
pub fn change_asked<H: Host, I: ByteReader>(
    host: &mut H,
    alloc: Global,
    input: &mut I,
    is_typed: bool,
    change: &Change,
) -> Result<(), Ending>
    ensures { Then (AsksFirst is_typed (spec.file_replaced change.now) (reading I.remaining I.has_failed input.old input.new))
        (λ it. Within (seconds_of change.now) (file_of change.now) (DoesChange change.now)) (H.history host.old) result (H.history host.new) }
{
    ask_first(host, alloc, input, is_typed, file_replaced(change))?;
    change_image(host, alloc, change)
}

/// The name of the file in whose place a new volume comes, if any may be there.
fn file_replaced(change: &Change) -> Option<&str>
    ensures { option_map (λ name. name.now) result ≡ spec.file_replaced change.now }
{
    match change {
        Change::Create(form, _) => file_of_form(form),
        Change::CreateTape(form) => file_of_form(form),
        Change::CreateDisk(form) => file_of_form(form),
        Change::CreateVolume(image) => Some(image.file.as_str()),
        _ => None,
    }
}

fn file_of_form(form: &CreateForm) -> Option<&str>
    ensures { option_map (λ name. name.now) result ≡ spec.file_of_form form.now }
{
    if form.is_new {
        return None;
    }
    Some(form.file.as_str())
}

/// Asks a person at a terminal whether a file that is not empty may go.
fn ask_first<H: Host, I: ByteReader>(
    host: &mut H,
    alloc: Global,
    input: &mut I,
    is_typed: bool,
    name: Option<&str>,
) -> Result<(), Ending>
    ensures { AsksFirst is_typed (option_map (λ name. name.now) name.entry) (reading I.remaining I.has_failed input.old input.new) (H.history host.old) result (H.history host.new) }
{
    if !is_typed {
        return Ok(());
    }
    match name {
        None => Ok(()),
        Some(name) => ask_seen(host, alloc, input, name),
    }
}

/// Asks it where standard error is a terminal too.
fn ask_seen<H: Host, I: ByteReader>(
    host: &mut H,
    alloc: Global,
    input: &mut I,
    name: &str,
) -> Result<(), Ending>
    ensures { Then SeesErrors (AsksSeen name.now (reading I.remaining I.has_failed input.old input.new)) (H.history host.old) result (H.history host.new) }
{
    let is_seen = host.is_terminal(Stream::Errors);
    ask_if_seen(host, alloc, input, name, is_seen)
}

fn ask_if_seen<H: Host, I: ByteReader>(
    host: &mut H,
    alloc: Global,
    input: &mut I,
    name: &str,
    is_seen: bool,
) -> Result<(), Ending>
    ensures { AsksSeen name.now (reading I.remaining I.has_failed input.old input.new) is_seen (H.history host.old) result (H.history host.new) }
{
    if !is_seen {
        return Ok(());
    }
    ask_full(host, alloc, input, name)
}

/// Asks it where the file is not empty.
fn ask_full<H: Host, I: ByteReader>(
    host: &mut H,
    alloc: Global,
    input: &mut I,
    name: &str,
) -> Result<(), Ending>
    ensures { Then (LooksFull name.now) (AsksFull name.now (reading I.remaining I.has_failed input.old input.new)) (H.history host.old) result (H.history host.new) }
{
    let is_full = has_bytes(host, alloc, name);
    ask_if_full(host, alloc, input, name, is_full)
}

fn ask_if_full<H: Host, I: ByteReader>(
    host: &mut H,
    alloc: Global,
    input: &mut I,
    name: &str,
    is_full: bool,
) -> Result<(), Ending>
    ensures { AsksFull name.now (reading I.remaining I.has_failed input.old input.new) is_full (H.history host.old) result (H.history host.new) }
{
    if !is_full {
        return Ok(());
    }
    take_answer(host, alloc, input, name)
}

/// Whether a file of this name is there and can be read, and is not empty.
fn has_bytes<H: Host>(host: &mut H, alloc: Global, name: &str) -> bool
    ensures { spec.IsFull name.now result (H.history host.old) (H.history host.new) }
{
    match host.look(alloc, name, 0) {
        Ok(bytes) => !bytes.is_empty(),
        Err(_) => false,
    }
}

/// Asks, and refuses on anything but `y`.
fn take_answer<H: Host, I: ByteReader>(
    host: &mut H,
    alloc: Global,
    input: &mut I,
    name: &str,
) -> Result<(), Ending>
    ensures { TakesAnswer name.now (reading I.remaining I.has_failed input.old input.new) (H.history host.old) result (H.history host.new) }
{
    tell_note(host, alloc, Note::OnName(NameNote::Replaces, name))?;
    if is_yes(input) {
        return Ok(());
    }
    Err(Ending::Line(ProgramLine::HostExists))
}

/// Whether the line that is typed is `y`.
fn is_yes<I: ByteReader>(input: &mut I) -> bool
    ensures { Answers (reading I.remaining I.has_failed input.old input.new) result }
{
    let mut line = [0u8; 64];
    match read_bytes(input, &mut line) {
        Ok(count) => begins_as(&line, count),
        Err(_) => false,
    }
}

/// Whether so many bytes of a line are the answer that lets a file go.
fn begins_as(line: &[u8], count: usize) -> bool
    requires { count ≤ length line.now }
    ensures { result ≡ bytes_eq (take count line.now) (codes "y\n") }
{
    line.split_at(count).0 == b"y\n".as_slice()
}

//! The program that a command works on. A BIN tape is a file of the host, or what a file of a volume begins with; a core image is such a file
//! whole.
ghost use Rattle.std.specs.Prelude.{◌≡◌, codes};
ghost use Rattle.archive_files.specs.Asking.{target_of};
ghost use Rattle.image_files.specs.Inputs.{TakesInput};
ghost use Rattle.image_files.specs.Reading.{Looks};
ghost use Rattle.image_files.specs.Work.{Then, Purely};
ghost use Rattle.tape_commands.specs.Programs as spec;
ghost use Rattle.tape_commands.specs.Programs.{IsAsked, IsCoreProgram, IsTapeProgram, ReadsCore, ReadsGiven, ReadsMember, ReadsProgram, RefusesMember, TakesTape};

use crate::kinds::{is_tape_fault, refuse_tape};
use archive_files::{ArchiveFault, Asked, GetForm, get};
use hosts::Host;
use image_files::{input_bytes, look_at, look_file, refuse_image, show_file};
use outcome::Ending;
use program_reports::core_tape;
use program_tasks::{ImageForm, TapeForm};
use std::alloc::Global;
use word12::Cell;

/// A program.
#[derive(Drop)]
pub struct Program {
    /// The frames of its BIN tape.
    pub frames: Vec<u8>,

    /// The cell where it starts, if it is that of a core image.
    pub start: Option<Cell>,
}

/// The program of a tape; where none is named that of standard input.
pub(crate) fn given_program<H: Host>(
    host: &mut H,
    alloc: Global,
    tape: &Option<TapeForm>,
) -> Result<Program, Ending>
    ensures { ReadsGiven tape.now (H.history host.old) result (H.history host.new) }
{
    match tape {
        None => input_program(host, alloc),
        Some(tape) => program_of(host, alloc, tape),
    }
}

fn input_program<H: Host>(host: &mut H, alloc: Global) -> Result<Program, Ending>
    ensures { Then TakesInput (λ frames. Purely (IsTapeProgram frames.items)) (H.history host.old) result (H.history host.new) }
{
    let frames = input_bytes(host, alloc)?;
    Ok(tape_program(frames))
}

/// The program of a tape that starts where the tape alone says.
fn tape_program(frames: Vec<u8>) -> Program
    ensures { IsTapeProgram frames.items (Ok result) }
{
    Program {
        frames,
        start: None,
    }
}

/// The program of a tape, or of a core image.
pub fn program_of<H: Host>(host: &mut H, alloc: Global, tape: &TapeForm) -> Result<Program, Ending>
    ensures { ReadsProgram tape.now (H.history host.old) result (H.history host.new) }
{
    match tape {
        TapeForm::File(file) => file_program(host, alloc, file.as_str()),
        TapeForm::Member(image, name) => member_program(host, alloc, image, name.as_str()),
    }
}

fn file_program<H: Host>(host: &mut H, alloc: Global, name: &str) -> Result<Program, Ending>
    ensures { Then (Looks name.now name.now) (λ frames. Purely (IsTapeProgram frames.items)) (H.history host.old) result (H.history host.new) }
{
    let frames = look_file(host, alloc, name)?;
    Ok(tape_program(frames))
}

/// The program of a file of a volume.
fn member_program<H: Host>(
    host: &mut H,
    alloc: Global,
    image: &ImageForm,
    name: &str,
) -> Result<Program, Ending>
    ensures { ReadsMember image.now name.now (H.history host.old) result (H.history host.new) }
{
    let asked = file_of_name(alloc, name)?;
    let bytes = look_at(host, alloc, image)?;
    if is_core_name(name) {
        return core_on(host, alloc, &bytes, &asked);
    }
    tape_on(host, alloc, &bytes, &asked)
}

/// The file of a name.
pub(crate) fn file_of_name(alloc: Global, name: &str) -> Result<Asked, Ending>
    ensures { IsAsked name.now result }
{
    let text = String::from_str(alloc, name)?;
    Ok(Asked::Name(text))
}

/// Whether a name is that of a core image.
fn is_core_name(name: &str) -> bool
    ensures { result ≡ spec.is_core_name name.now }
{
    name.as_bytes().ends_with(b".SV")
}

/// The program of the core image that a file of a volume is.
fn core_on<H: Host>(
    host: &mut H,
    alloc: Global,
    image: &[u8],
    asked: &Asked,
) -> Result<Program, Ending>
    ensures { ReadsCore image.now (target_of asked.now) (H.history host.old) result (H.history host.new) }
{
    let frames = show_file(host, alloc, image, asked, GetForm::Frames)?;
    core_program(alloc, &frames)
}

/// The program of a core image.
fn core_program(alloc: Global, frames: &[u8]) -> Result<Program, Ending>
    ensures { IsCoreProgram frames.now result }
{
    let (frames, start) = core_tape(alloc, frames)?;
    Ok(Program {
        frames,
        start: Some(start),
    })
}

/// The program of the tape that a file of a volume begins with.
fn tape_on<H: Host>(
    host: &mut H,
    alloc: Global,
    image: &[u8],
    asked: &Asked,
) -> Result<Program, Ending>
    ensures { TakesTape image.now (target_of asked.now) (H.history host.old) result (H.history host.new) }
{
    match get(alloc, image, asked, GetForm::Tape) {
        Ok(frames) => Ok(tape_program(frames)),
        Err(fault) => Err(refuse_member(host, alloc, image, asked, fault)),
    }
}

/// How a command ends if its image, or a file of it, is refused. Where the file begins with no tape, what it is is printed.
fn refuse_member<H: Host>(
    host: &mut H,
    alloc: Global,
    image: &[u8],
    asked: &Asked,
    fault: ArchiveFault,
) -> Ending
    ensures { RefusesMember image.now (target_of asked.now) fault (H.history host.old) result (H.history host.new) }
{
    if !has_no_tape(&fault) {
        return refuse_image(host, image.len(), fault);
    }
    match show_file(host, alloc, image, asked, GetForm::Frames) {
        Ok(frames) => refuse_tape(host, alloc, &frames, Ending::from(fault)),
        Err(ending) => ending,
    }
}

/// Whether a file of an image is refused since it begins with no tape.
fn has_no_tape(fault: &ArchiveFault) -> bool
    ensures { result ≡ spec.has_no_tape fault.now }
{
    match fault {
        ArchiveFault::Image(_) | ArchiveFault::Directory(_) => false,
        ArchiveFault::Refused(why) => is_tape_fault(*why),
    }
}

//! RIM tapes: their words, or the BIN tape of these.
ghost use Rattle.tape_commands.specs.Rims.{GetsMember, GivesRim, ReadsFrames, ReadsNamed, WritesRim};

use crate::programs::file_of_name;
use archive_files::GetForm;
use hosts::Host;
use image_files::{input_bytes, look_at, look_file, print, show_file};
use outcome::Ending;
use program_reports::ProgramLine;
use program_tasks::{ImageForm, RimForm, TapeForm};
use std::alloc::Global;
use tape_reports::rim_output;

/// Writes the words of a RIM tape, or a BIN tape of them; where no tape is named those of standard input. No file changes.
pub fn write_rim<H: Host>(
    host: &mut H,
    alloc: Global,
    tape: &Option<TapeForm>,
    form: RimForm,
) -> Result<(), Ending>
    ensures { WritesRim form tape.now (H.history host.old) result (H.history host.new) }
{
    let frames = given_frames(host, alloc, tape)?;
    let bytes = rim_bytes(alloc, &frames, form)?;
    print(host, &bytes)
}

/// The frames of a tape as they are.
fn given_frames<H: Host>(
    host: &mut H,
    alloc: Global,
    tape: &Option<TapeForm>,
) -> Result<Vec<u8>, Ending>
    ensures { ReadsFrames tape.now (H.history host.old) result (H.history host.new) }
{
    match tape {
        None => input_bytes(host, alloc),
        Some(tape) => named_frames(host, alloc, tape),
    }
}

fn named_frames<H: Host>(host: &mut H, alloc: Global, tape: &TapeForm) -> Result<Vec<u8>, Ending>
    ensures { ReadsNamed tape.now (H.history host.old) result (H.history host.new) }
{
    match tape {
        TapeForm::File(file) => look_file(host, alloc, file.as_str()),
        TapeForm::Member(image, name) => member_frames(host, alloc, image, name.as_str()),
    }
}

/// All that a file of a volume has.
fn member_frames<H: Host>(
    host: &mut H,
    alloc: Global,
    image: &ImageForm,
    name: &str,
) -> Result<Vec<u8>, Ending>
    ensures { GetsMember image.now name.now (H.history host.old) result (H.history host.new) }
{
    let asked = file_of_name(alloc, name)?;
    let bytes = look_at(host, alloc, image)?;
    show_file(host, alloc, &bytes, &asked, GetForm::Frames)
}

/// What is written of a RIM tape.
fn rim_bytes(alloc: Global, frames: &[u8], form: RimForm) -> Result<Vec<u8>, Ending>
    ensures { GivesRim form frames.now result }
{
    match rim_output(alloc, frames, form) {
        Ok(bytes) => Ok(bytes),
        Err(fault) => Err(Ending::Line(ProgramLine::Rim(fault))),
    }
}

//! What calls on the bytes of an image answer, as a command takes it.
ghost use Rattle.std.specs.Prelude.{◌≡◌, ◌++◌, OnOk, length};
ghost use Rattle.archive_files.specs.Asking.{target_of};
ghost use Rattle.archive_files.specs.Getting.{Gets};
ghost use Rattle.archive_many.specs.Opened.{OpensVolume};
ghost use Rattle.program_reports.specs.Program as report;
ghost use Rattle.program_reports.specs.declared.programs.ProgramLine.TheVariants.{Stored};
ghost use Rattle.image_files.specs.Answers.{Answers, AreLines, IsTaken, named_lines};
ghost use Rattle.image_files.specs.Stored.{stored_line};

use crate::notes::refuse_image;
use archive_files::{ArchiveFault, Asked, GetForm, NewImage, get};
use archive_many::{OpenVolume, open};
use hosts::Host;
use os8_dir::Name;
use outcome::Ending;
use program_reports::{ProgramLine, put_program, with_prefix};
use shown_text::ShownText;
use std::alloc::{AllocError, Global};

/// What a call on an image of so many bytes answers. Where it or a file of it is refused, what may help is printed.
pub fn answer_of<H: Host, T: Drop>(
    host: &mut H,
    size: usize,
    answer: Result<T, ArchiveFault>,
) -> Result<T, Ending>
    ensures { IsTaken size answer (H.history host.old) result (H.history host.new) }
{
    match answer {
        Ok(it) => Ok(it),
        Err(fault) => Err(refuse_image(host, size, fault)),
    }
}

/// The line of a change that has one.
pub fn program_line(alloc: Global, line: &ProgramLine) -> Result<Vec<u8>, Ending>
    ensures { AreLines (report.program_line line.now) result }
{
    let mut text = Vec::new(alloc);
    put_program(line, &mut text)?;
    Ok(text)
}

/// Appends the line of a file of so many blocks that was put.
pub fn put_stored(name: Name, blocks: usize, lines: &mut Vec<u8>) -> Result<(), AllocError>
    ensures { OnOk result (lines.new.items ≡ lines.old.items ++ report.program_line (Stored name blocks)) }
{
    put_program(&ProgramLine::Stored(name, blocks), lines)
}

/// Lines with a name before each, which is shown with escapes where it isn't graphic.
pub fn named_lines(alloc: Global, name: &str, text: &[u8]) -> Result<Vec<u8>, Ending>
    ensures { AreLines (named_lines name.now text.now) result }
{
    let name = ShownText { text: name };
    let prefix = format!(in alloc; "{name}: ")?;
    let lines = with_prefix(alloc, prefix.as_bytes(), text)?;
    Ok(lines)
}

/// The volume in an image. Where it is refused, what may help is printed.
pub fn open_volume<H: Host>(host: &mut H, alloc: Global, image: &[u8]) -> Result<OpenVolume, Ending>
    ensures { Answers (OpensVolume image.now) (length image.now) (H.history host.old) result (H.history host.new) }
{
    let answer = open(alloc, image);
    answer_of(host, image.len(), answer)
}

/// What a file has on the volume in an image. Where it is refused, what may help is printed.
pub fn show_file<H: Host>(
    host: &mut H,
    alloc: Global,
    image: &[u8],
    asked: &Asked,
    form: GetForm,
) -> Result<Vec<u8>, Ending>
    ensures { Answers (Gets image.now (target_of asked.now) form) (length image.now) (H.history host.old) result (H.history host.new) }
{
    let answer = get(alloc, image, asked, form);
    answer_of(host, image.len(), answer)
}

/// The line of a file that was put.
pub fn stored_line(alloc: Global, new: &NewImage) -> Result<Vec<u8>, Ending>
    ensures { AreLines (stored_line new.now) result }
{
    program_line(alloc, &ProgramLine::Stored(new.name, new.blocks))
}

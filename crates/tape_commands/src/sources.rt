//! Sources of tapes.
ghost use Rattle.std.specs.Prelude.{◌≡◌, option_map};
ghost use Rattle.tape_commands.specs.Sources.{GivesSource, IsTextOf, ReadsNames, WritesSource, starts_or};

use crate::kinds::refuse_frames;
use crate::programs::{Program, given_program};
use hosts::Host;
use image_files::{look_file, print};
use outcome::Ending;
use pal8_source::checked_source;
use program_reports::SourceFault;
use program_tasks::SourceForm;
use std::alloc::Global;
use tape_reports::{list_fault, pal8_fault, source_lines};
use word12::Cell;

/// Writes the source of a tape. The program of a core image starts where that says, unless other cells are given. No file changes.
pub fn write_source<H: Host>(host: &mut H, alloc: Global, form: &SourceForm) -> Result<(), Ending>
    ensures { WritesSource form.now (H.history host.old) result (H.history host.new) }
{
    let names = given_names(host, alloc, &form.names)?;
    let program = given_program(host, alloc, &form.tape)?;
    let text = program_source(host, alloc, &program, form, &names)?;
    print(host, &text)
}

/// What the file that names cells has, if one is named.
fn given_names<H: Host>(
    host: &mut H,
    alloc: Global,
    names: &Option<String>,
) -> Result<Option<Vec<u8>>, Ending>
    ensures { ReadsNames names.now (H.history host.old) result (H.history host.new) }
{
    match names {
        None => Ok(None),
        Some(file) => {
            let bytes = look_file(host, alloc, file.as_str())?;
            Ok(Some(bytes))
        }
    }
}

/// The source of a program, which starts at these cells, if any is given.
fn program_source<H: Host>(
    host: &mut H,
    alloc: Global,
    program: &Program,
    form: &SourceForm,
    names: &Option<Vec<u8>>,
) -> Result<Vec<u8>, Ending>
    ensures { GivesSource form.now.is_pal8 program.now.frames.items (starts_or form.now.starts.items program.now.start) (option_map (λ names. names.items) names.now) (H.history host.old) result (H.history host.new) }
{
    if form.starts.is_empty() {
        if let Some(start) = program.start {
            return source_of(host, alloc, &program.frames, &[start], names, form.is_pal8);
        }
    }
    source_of(
        host,
        alloc,
        &program.frames,
        &form.starts,
        names,
        form.is_pal8,
    )
}

/// The source of frames. What they are is printed where they are no tape.
fn source_of<H: Host>(
    host: &mut H,
    alloc: Global,
    frames: &[u8],
    starts: &[Cell],
    names: &Option<Vec<u8>>,
    is_pal8: bool,
) -> Result<Vec<u8>, Ending>
    ensures { GivesSource is_pal8 frames.now starts.now (option_map (λ names. names.items) names.now) (H.history host.old) result (H.history host.new) }
{
    match text_of(alloc, frames, starts, names, is_pal8) {
        Ok(text) => Ok(text),
        Err(fault) => Err(refuse_frames(host, alloc, frames, Ending::from(fault))),
    }
}

/// The PAL8 source of frames, or the PAL III source.
fn text_of(
    alloc: Global,
    frames: &[u8],
    starts: &[Cell],
    names: &Option<Vec<u8>>,
    is_pal8: bool,
) -> Result<Vec<u8>, SourceFault>
    ensures { IsTextOf is_pal8 frames.now starts.now (option_map (λ names. names.items) names.now) result }
{
    if is_pal8 {
        return match checked_source(alloc, frames, starts, names) {
            Ok(text) => Ok(text),
            Err(fault) => Err(pal8_fault(fault)),
        };
    }
    match source_lines(alloc, frames, starts, names) {
        Ok(text) => Ok(text),
        Err(fault) => Err(list_fault(fault)),
    }
}

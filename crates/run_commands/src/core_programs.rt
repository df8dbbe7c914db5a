//! The program of a tape in core, before a machine runs it.
ghost use Rattle.std.specs.Prelude.{◌≡◌, List, nat_eq};
ghost use Rattle.bin_tape.specs.Items.{Item, words_of};
ghost use Rattle.bin_tape.specs.Tape.{IsTape};
ghost use Rattle.image_files.specs.Notes.{Tells};
ghost use Rattle.run_commands.specs.CorePrograms.{FindsStart, LoadsCore, LoadsProgram, StartsAt, TellsCell, TellsStart};

use crate::lines::tell_program;
use core_load::{Core, load};
use hosts::Host;
use outcome::{Ending, PlainNote, given_note, start_note};
use program_reports::ProgramLine;
use std::alloc::Global;
use tape_commands::refuse_frames;
use tape_reports::{first_cell, gives_word, start_cell};
use word12::{Cell, Word};

/// A program in core.
#[derive(Drop)]
pub(crate) struct CoreProgram {
    pub(crate) core: Core,

    /// The cell where it starts.
    pub(crate) start: Cell,

    /// What the switches are set to, if it is given.
    pub(crate) switches: Option<Word>,
}

/// The program of a tape in core. Where its start isn't given, it starts at 00200 or else at the tape's first word, which is printed.
pub(crate) fn core_program<H: Host>(
    host: &mut H,
    alloc: Global,
    frames: &[u8],
    start: Option<Cell>,
    switches: Option<Word>,
) -> Result<CoreProgram, Ending>
    ensures { LoadsProgram frames.now start switches (H.history host.old) result (H.history host.new) }
{
    let core = core_of(host, alloc, frames)?;
    let start = find_start(host, alloc, frames, start)?;
    Ok(CoreProgram {
        core,
        start,
        switches,
    })
}

/// Core with a tape laid over it. What frames are is printed where they are none.
fn core_of<H: Host>(host: &mut H, alloc: Global, frames: &[u8]) -> Result<Core, Ending>
    ensures { LoadsCore frames.now (H.history host.old) result (H.history host.new) }
{
    let mut core = Core::new(alloc)?;
    match load(alloc, frames, &mut core) {
        Ok(()) => Ok(core),
        Err(fault) => Err(refuse_frames(host, alloc, frames, Ending::from(fault))),
    }
}

/// Where the program of a tape starts.
fn find_start<H: Host>(
    host: &mut H,
    alloc: Global,
    frames: &[u8],
    given: Option<Cell>,
) -> Result<Cell, Ending>
    ensures { FindsStart frames.now given (H.history host.old) result (H.history host.new) }
{
    let Some(first) = first_cell(frames) else {
        return Err(Ending::Line(ProgramLine::NothingToRun));
    };
    let Some(usual) = start_cell(frames) else {
        return Err(Ending::Line(ProgramLine::NothingToRun));
    };
    start_at(host, alloc, frames, given, first, usual)
}

/// The start that is given, with a note where the tape gives its cell no word. Or else the usual one, which is printed.
fn start_at<H: Host>(
    host: &mut H,
    alloc: Global,
    frames: &[u8],
    given: Option<Cell>,
    first: Cell,
    usual: Cell,
) -> Result<Cell, Ending>
    ensures { (items : List Item) → IsTape frames.now items
        → StartsAt (words_of items) given first usual (H.history host.old) result (H.history host.new) }
{
    match given {
        Some(cell) => {
            tell_if(host, given_note(gives_word(frames, cell)));
            Ok(cell)
        }
        None => {
            tell_start(host, alloc, first, usual)?;
            Ok(usual)
        }
    }
}

/// Prints where a program starts whose first word has this cell.
fn tell_start<H: Host>(host: &mut H, alloc: Global, first: Cell, start: Cell) -> Result<(), Ending>
    ensures { TellsStart first start (H.history host.old) result (H.history host.new) }
{
    tell_if(host, start_note(first, start));
    tell_cell(host, alloc, start)
}

/// Prints a note, if there is one.
fn tell_if<H: Host>(host: &mut H, note: Option<PlainNote>)
    ensures { Tells note (H.history host.old) (H.history host.new) }
{
    if let Some(note) = note {
        let _ = host.tell(note.text());
    }
}

/// Prints a cell where a program starts, unless that is 00200.
fn tell_cell<H: Host>(host: &mut H, alloc: Global, start: Cell) -> Result<(), Ending>
    ensures { TellsCell (nat_eq start 0o200) start (H.history host.old) result (H.history host.new) }
{
    if start.index() == 0o200 {
        return Ok(());
    }
    tell_program(host, alloc, &ProgramLine::Start(start))
}

ghost use Rattle.std.specs.Prelude.{◌≡◌, ◌≤◌, ℕ, List, length};
ghost use Rattle.archive_files.specs.Getting.{trailer};
ghost use Rattle.archive_files.specs.Parts.{GivesFile};
ghost use Rattle.archive_files.specs.Steps.{FindsTape, IsReading, TakesFrame};
ghost use Rattle.archive_files.specs.declared.forms.GetForm.TheVariants as form;

use crate::frames::frames_of;
use bin_tape::laws::no_fault;
use bin_tape::{Tape, TapeFault, TapeReader};
use refusals::SessionFault;
use std::alloc::Global;
use word12::Word;

/// A frame of a trailer.
const TRAILER: u8 = 0o200;

/// The tape that the frames of words begin with.
pub fn tape_of(alloc: Global, words: &[Word]) -> Result<Vec<u8>, SessionFault>
    ensures { GivesFile form.Tape words.now result }
{
    let mut frames = frames_of(alloc, words)?;
    let count = first_tape(&frames)?;
    let (_, following) = frames.split_at(count);
    let more = trailer_length(following);
    frames.truncate(count + more);
    Ok(frames)
}

/// How many of the frames are a tape for the first time.
fn first_tape(frames: &[u8]) -> Result<usize, TapeFault>
    ensures { FindsTape frames.now result }
{
    let mut reader = TapeReader::new();
    for (place, frame) in frames.iter().enumerate() {
        if is_end(&mut reader, *frame)? {
            return Ok(place + 1);
        }
    }
    Err(TapeFault::NoTrailer)
}

/// Takes one more frame, and answers whether the frames are a tape now.
fn is_end(reader: &mut TapeReader, frame: u8) -> Result<bool, TapeFault>
    ensures { (frames : List ℕ) → IsReading reader.old frames → TakesFrame frames frame result reader.new }
{
    no_fault();
    let tape = reader.push(frame)?;
    match tape {
        Tape::End => Ok(true),
        Tape::Nothing => Ok(false),
        Tape::Word(_, _) => Ok(false),
    }
}

/// How many trailer frames come first.
fn trailer_length(frames: &[u8]) -> usize
    ensures count { result ≡ length (trailer frames.now) }
    ensures range { result ≤ length frames.now }
{
    let mut count = 0;
    let mut rest = frames;
    while let [frame, others @ ..] = rest {
        if *frame != TRAILER {
            return count;
        }
        count += 1;
        rest = others;
    }
    count
}

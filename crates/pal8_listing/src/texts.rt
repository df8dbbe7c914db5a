//! The lines of notes.
ghost use Rattle.std.specs.Prelude.{◌≡◌, ◌++◌, ◌-◌, IfOk, OnOk};
ghost use Rattle.pal8_listing.specs.NotesTexts.{note_text, note_texts, notes_text, spot_note_text};

use crate::differences::words_of;
use crate::notes::notes_of;
use crate::{Difference, Note, later_starts, spot_of};
use pal8_places::Options;
use pal8_tape::join_all;
use shown_text::put_shown;
use source_places::{name_of, put_number};
use std::alloc::{AllocError, Global};

/// The notes on sources of the host with these names, where these are assembled as one by these options. Each is a line that LF ends. It has the name of
/// the source, the line in it from 1, and how palbart 2.13 reads a statement in another way that begins there.
///
/// A blank before an operator, after a name, a number, a character or `.`, ends a term there. Operators but `!` bind closer than a blank. A tab in a
/// string or after `"` is a blank there. The notes stand in the order of the sources, those on one statement in this one. A statement that
/// isn't selected has none, nor has one after a fault of a statement or after the `$` (this project's profile of PAL8). `AllocError` comes where
/// memory is refused.
pub fn notes_text(
    alloc: Global,
    options: Options,
    sources: &[&[u8]],
    names: &[&str],
) -> Result<Vec<u8>, AllocError>
    ensures { IfOk result (λ text. text.items ≡ notes_text options sources.now names.now) }
{
    let join = join_all(alloc, options, sources)?;
    let starts = later_starts(alloc, &join.counts, &join.text)?;
    let found = notes_of(alloc, options, &join.text)?;
    let mut text = Vec::new(alloc);
    put_notes(&mut text, names, &starts, &found)?;
    Ok(text)
}

/// Puts a note on the line of a source, whose name is shown with escapes where it isn't graphic.
fn put_at(
    text: &mut Vec<u8>,
    names: &[&str],
    spot: (u64, u64),
    difference: Difference,
) -> Result<(), AllocError>
    ensures { OnOk result (text.new.items ≡ text.old.items ++ spot_note_text names.now spot difference) }
{
    let (source, line) = spot;
    let name = name_of(names, source.saturating_sub(1) as usize);
    put_shown(text, name.as_bytes())?;
    text.extend_from_slice(b":")?;
    put_number(text, line)?;
    text.extend_from_slice(b": note: ")?;
    text.extend_from_slice(words_of(difference))?;
    text.extend_from_slice(b"\n")?;
    Ok(())
}

/// Puts a note on a line of a join, in which the sources but the first begin at these lines.
fn put_note(
    text: &mut Vec<u8>,
    names: &[&str],
    starts: &[u64],
    note: Note,
) -> Result<(), AllocError>
    ensures { OnOk result (text.new.items ≡ text.old.items ++ note_text names.now starts.now note) }
{
    put_at(text, names, spot_of(starts, note.line), note.difference)
}

/// Puts notes, each in a line.
fn put_notes(
    text: &mut Vec<u8>,
    names: &[&str],
    starts: &[u64],
    found: &[Note],
) -> Result<(), AllocError>
    ensures { OnOk result (text.new.items ≡ text.old.items ++ note_texts names.now starts.now found.now) }
{
    let mut rest = found;
    while let [note, others @ ..] = rest {
        put_note(text, names, starts, *note)?;
        rest = others;
    }
    Ok(())
}

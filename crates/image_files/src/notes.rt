//! Notes on standard error.
ghost use Rattle.std.specs.Prelude.{◌≡◌, ◌∷◌, Some, OnOk, OnErr};
ghost use Rattle.hosts.specs.Event.{tell_call};
ghost use Rattle.outcome.specs.Endings.{ending_of_archive};
ghost use Rattle.outcome.specs.Hints.{image_note};
ghost use Rattle.outcome.specs.Notes.{note_text};
ghost use Rattle.image_files.specs.Notes.{TellsOfImage};

use archive_files::ArchiveFault;
use hosts::Host;
use outcome::{Ending, ImageNote, Note, image_note, size_text, word_text};
use std::alloc::{AllocError, Global};

/// Prints a text on standard error. Where that takes no more, the work goes on.
pub(crate) fn tell<H: Host>(host: &mut H, text: &str)
    ensures { (ok : _) × (H.history host.new ≡ tell_call ok text.now ∷ H.history host.old) }
{
    let _ = host.tell(text);
}

/// Prints a note on standard error, for which memory is taken.
pub fn tell_note<H: Host>(host: &mut H, alloc: Global, note: Note<'_>) -> Result<(), AllocError>
    ensures told { OnOk result ((ok : _) × (H.history host.new ≡ tell_call ok (note_text note.entry) ∷ H.history host.old)) }
    ensures wanted { OnErr result (H.history host.new ≡ H.history host.old) }
{
    let text = format!(in alloc; "{note}")?;
    tell(host, text.as_str());
    Ok(())
}

/// How a command ends if its image, of so many bytes, or a file of it is refused. What may help is printed on standard error.
pub fn refuse_image<H: Host>(host: &mut H, size: usize, fault: ArchiveFault) -> Ending
    ensures ends { result ≡ ending_of_archive fault }
    ensures notes { TellsOfImage (image_note size fault) (H.history host.old) (H.history host.new) }
{
    if let Some(note) = image_note(size, &fault) {
        tell_of_image(host, note);
    }
    Ending::from(fault)
}

/// Prints a note on an image on standard error.
fn tell_of_image<H: Host>(host: &mut H, note: ImageNote)
    ensures { TellsOfImage (Some note) (H.history host.old) (H.history host.new) }
{
    match note {
        ImageNote::Plain(note) => tell(host, note.text()),
        ImageNote::Size(size) => tell(host, size_text(size).as_str()),
        ImageNote::Word(number) => tell(host, word_text(number).as_str()),
    }
}

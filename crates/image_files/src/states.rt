//! Whether an image has the change of a command, which is said where no line can be printed of it.
ghost use Rattle.std.specs.Prelude.{◌≡◌, IfOk};
ghost use Rattle.outcome.specs.Notes.{name_text};
ghost use Rattle.image_files.specs.States as spec;
ghost use Rattle.image_files.specs.States.{AreNotesOn, TellsState};

use crate::notes::tell;
use hosts::Host;
use outcome::{Ending, NameNote, Note};
use std::alloc::{AllocError, Global};

/// What an image is after a command.
#[derive(Clone, Copy, PartialEq, Eq, Debug)]
pub enum ChangeState {
    /// It has the change.
    Made,

    /// It is as it was.
    AsItWas,
}

/// The notes on the image that a command may change, of which none is printed where its line is.
#[derive(Drop)]
pub struct ImageNotes {
    pub has_change: String,
    pub as_it_was: String,
}

impl ImageNotes {
    /// The notes on the image of a name. All memory that they need is taken here.
    pub fn new(alloc: Global, name: &str) -> Result<ImageNotes, AllocError>
        ensures { IfOk result (λ notes. AreNotesOn name.now notes) }
    {
        let has_change = note_on(alloc, NameNote::HasChange, name)?;
        let as_it_was = note_on(alloc, NameNote::AsItWas, name)?;
        Ok(ImageNotes {
            has_change,
            as_it_was,
        })
    }
}

/// The text of a note on what has a name.
fn note_on(alloc: Global, note: NameNote, name: &str) -> Result<String, AllocError>
    ensures { IfOk result (λ text. text.bytes.items ≡ name_text note name.now) }
{
    let note = Note::OnName(note, name);
    let text = format!(in alloc; "{note}")?;
    Ok(text)
}

/// Prints what an image is, if that is known, and if the command may change one.
pub(crate) fn tell_state<H: Host>(
    host: &mut H,
    notes: &Option<ImageNotes>,
    state: Option<ChangeState>,
)
    ensures { TellsState state notes.now (H.history host.old) (H.history host.new) }
{
    let Some(state) = state else {
        return;
    };
    let Some(notes) = notes else {
        return;
    };
    match state {
        ChangeState::Made => tell(host, notes.has_change.as_str()),
        ChangeState::AsItWas => tell(host, notes.as_it_was.as_str()),
    }
}

/// What an image is after a command that ends so, where standard output takes no line of it (this project's profile).
pub(crate) fn state_at_end(work: &Result<(), Ending>) -> Option<ChangeState>
    ensures { result ≡ spec.state_at_end work.now }
{
    match work {
        Ok(()) => None,
        Err(ending) => match ending {
            Ending::Unreported => Some(ChangeState::Made),
            Ending::FullOutput => Some(ChangeState::AsItWas),
            _ => None,
        },
    }
}

/// What an image is after a command that is refused so, where standard output does not take the line of the refusal (this project's
/// profile).
pub(crate) fn state_refused(work: &Result<(), Ending>) -> Option<ChangeState>
    ensures { result ≡ spec.state_refused work.now }
{
    match work {
        Ok(()) => None,
        Err(ending) => match ending {
            Ending::Line(_) | Ending::Fault(_) | Ending::Busy(_) => Some(ChangeState::AsItWas),
            _ => None,
        },
    }
}

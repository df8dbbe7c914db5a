//! Which image a task may change.
ghost use Rattle.std.specs.Prelude.{◌≡◌, IfOk, option_copied};
ghost use Rattle.program.specs.Changed as spec;
ghost use Rattle.program.specs.Changed.{AreNotesFor};

use image_files::ImageNotes;
use program_tasks::{AssembleForm, ImageForm, RunForm, Saving, Task};
use std::alloc::{AllocError, Global};

/// The notes on the image that a task may change, if it may change one.
pub(crate) fn notes_for(alloc: Global, task: &Task) -> Result<Option<ImageNotes>, AllocError>
    ensures { IfOk result (λ notes. AreNotesFor (spec.image_of task.now) notes) }
{
    match image_of(task) {
        None => Ok(None),
        Some(name) => {
            let notes = ImageNotes::new(alloc, name)?;
            Ok(Some(notes))
        }
    }
}

/// The name of the image that a task may change, as it was typed, or none.
pub fn image_of(task: &Task) -> Option<&str>
    ensures { option_copied result ≡ spec.image_of task.now }
{
    match task {
        Task::Create(form, _) => Some(form.file.as_str()),
        Task::CreateTape(form) => Some(form.file.as_str()),
        Task::CreateDisk(form) => Some(form.file.as_str()),
        Task::CreateVolume(image) => Some(image.file.as_str()),
        Task::Put(form) => Some(form.image.file.as_str()),
        Task::Delete(form) => Some(form.image.file.as_str()),
        Task::Rename(image, _, _) => Some(image.file.as_str()),
        Task::Copy(form) => Some(form.to.file.as_str()),
        Task::Squeeze(image) => Some(image.file.as_str()),
        Task::Patch(form) => Some(form.image.file.as_str()),
        Task::Rescue(form) => Some(form.new.as_str()),
        Task::Assemble(form) => image_onto(form),
        Task::Run(image, form) => image_run(image, form),
        _ => None,
    }
}

/// That of the image onto which sources are assembled.
fn image_onto(form: &AssembleForm) -> Option<&str>
    ensures { option_copied result ≡ spec.image_onto form.now.onto form.now.from }
{
    match &form.onto {
        None => None,
        Some(_) => match &form.from {
            None => None,
            Some(image) => Some(image.file.as_str()),
        },
    }
}

/// That of the image that a script may change.
fn image_run<'a>(image: &'a ImageForm, form: &RunForm) -> Option<&'a str>
    ensures { option_copied result ≡ spec.image_run image.now form.now.saving }
{
    match form.saving {
        Saving::Never => None,
        Saving::AtEnd | Saving::Always => Some(image.file.as_str()),
    }
}

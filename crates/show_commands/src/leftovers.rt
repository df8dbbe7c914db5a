//! What a check takes away beside the images that it is asked for: files of writers that were ended.
ghost use Rattle.std.specs.Prelude.{◌≡◌, nat_eq, map};
ghost use Rattle.image_files.specs.Reading.{file_named};
ghost use Rattle.show_commands.specs.Checking.{DropsBeside, DropsEach, TellsDropped, reading_of_check};

use crate::checks::reading_of;
use hosts::Host;
use image_files::{image_named, tell_note};
use outcome::{Ending, Note};
use program_tasks::CheckForm;
use std::alloc::Global;

/// Takes away what lies beside each of the image files.
pub(crate) fn drop_each<H: Host>(
    host: &mut H,
    alloc: Global,
    form: &CheckForm,
    files: &[String],
) -> Result<(), Ending>
    ensures { DropsEach form.now (map (λ file. file.bytes.items) files.now) (H.history host.old) result (H.history host.new) }
{
    let mut rest = files;
    while let [file, others @ ..] = rest {
        drop_of(host, alloc, form, file.as_str())?;
        rest = others;
    }
    Ok(())
}

/// The same of the image of this name.
fn drop_of<H: Host>(host: &mut H, alloc: Global, form: &CheckForm, name: &str) -> Result<(), Ending>
    ensures { DropsBeside (file_named (reading_of_check form.now) name.now) (H.history host.old) result (H.history host.new) }
{
    let (file, _) = image_named(reading_of(form), name);
    drop_beside(host, alloc, file)
}

/// Takes away what lies beside a file, and prints how many files that were, where there were any.
fn drop_beside<H: Host>(host: &mut H, alloc: Global, name: &str) -> Result<(), Ending>
    ensures { DropsBeside name.now (H.history host.old) result (H.history host.new) }
{
    match host.drop_leftovers(alloc, name) {
        Ok(count) => tell_dropped(host, alloc, name, count),
        Err(_) => Ok(()),
    }
}

fn tell_dropped<H: Host>(
    host: &mut H,
    alloc: Global,
    name: &str,
    count: usize,
) -> Result<(), Ending>
    ensures { TellsDropped (nat_eq count 0) name.now count (H.history host.old) result (H.history host.new) }
{
    if count != 0 {
        tell_note(host, alloc, Note::OnLeftovers(name, count))?;
    }
    Ok(())
}

//! Two images of a command: which of them refuses, and whether they are one.
ghost use Rattle.std.specs.Prelude.{◌≡◌};
ghost use Rattle.image_files.specs.Pairs as spec;
ghost use Rattle.image_files.specs.Pairs.{IsOneRefused};

use crate::notes::{refuse_image, tell_note};
use archive_files::ArchiveFault;
use disk_layouts::Layout;
use hosts::Host;
use outcome::{Ending, NameNote, Note};
use program_tasks::ImageForm;
use refusals::SessionFault;
use std::alloc::Global;

/// How the command ends if the image in this file, or a file of it, is refused. Which it is, is printed.
pub fn refuse_one<H: Host>(
    host: &mut H,
    alloc: Global,
    name: &str,
    size: usize,
    fault: ArchiveFault,
) -> Ending
    ensures { IsOneRefused name.now fault size (H.history host.old) result (H.history host.new) }
{
    if is_want_of(&fault) {
        return refuse_image(host, size, fault);
    }
    match tell_note(host, alloc, Note::OnName(NameNote::Refuses, name)) {
        Ok(()) => refuse_image(host, size, fault),
        Err(error) => Ending::from(error),
    }
}

/// Whether memory is wanted.
fn is_want_of(fault: &ArchiveFault) -> bool
    ensures { result ≡ spec.is_want_of fault.now }
{
    match fault {
        ArchiveFault::Image(_) | ArchiveFault::Directory(_) => false,
        ArchiveFault::Refused(why) => is_want(*why),
    }
}

fn is_want(why: SessionFault) -> bool
    ensures { result ≡ spec.is_want why }
{
    match why {
        SessionFault::Memory => true,
        _ => false,
    }
}

/// Whether two images are one: their files have one name, and they lie in the same place.
pub fn is_one_image(one: &ImageForm, other: &ImageForm) -> bool
    ensures { result ≡ spec.is_one_image one.now other.now }
{
    one.file == other.file && is_one_layout(one.layout, other.layout)
}

fn is_one_layout(one: Option<Layout>, other: Option<Layout>) -> bool
    ensures { result ≡ spec.is_one_layout one other }
{
    match one {
        None => other.is_none(),
        Some(one) => match other {
            None => false,
            Some(other) => one == other,
        },
    }
}

//! Where a listing and a tape are written.
ghost use Rattle.std.specs.Prelude.{length, None};
ghost use Rattle.archive_files.specs.declared.forms.PutForm.TheVariants.{Frames};
ghost use Rattle.archive_files.specs.Putting.{PutsFile};
ghost use Rattle.image_files.specs.Answers.{Answers};
ghost use Rattle.assemble_commands.specs.Outputs.{PutsTape, WritesListing, WritesTape, WritesTo};

use crate::clashes::STANDARD;
use archive_files::{NewImage, PutForm, put};
use hosts::Host;
use image_files::{Image, make_file, print, refuse_image, store, stored_line};
use outcome::{Content, Ending};
use std::alloc::Global;

/// Writes a listing, if there is one and a name is given for it.
pub(crate) fn write_listing<H: Host>(
    host: &mut H,
    alloc: Global,
    name: &Option<String>,
    listing: &Option<Vec<u8>>,
) -> Result<(), Ending>
    ensures { WritesListing name.now listing.now (H.history host.old) result (H.history host.new) }
{
    match name {
        None => Ok(()),
        Some(name) => match listing {
            None => Ok(()),
            Some(text) => write_to(host, alloc, Content::Listing, name.as_str(), text),
        },
    }
}

/// Writes a tape to the file of a name, or to standard output where none is given.
pub(crate) fn write_tape<H: Host>(
    host: &mut H,
    alloc: Global,
    name: &Option<String>,
    tape: &[u8],
) -> Result<(), Ending>
    ensures { WritesTape name.now tape.now (H.history host.old) result (H.history host.new) }
{
    match name {
        None => print(host, tape),
        Some(name) => write_to(host, alloc, Content::Tape, name.as_str(), tape),
    }
}

/// Writes a file for this, or standard output.
fn write_to<H: Host>(
    host: &mut H,
    alloc: Global,
    content: Content,
    name: &str,
    bytes: &[u8],
) -> Result<(), Ending>
    ensures { WritesTo content name.now bytes.now (H.history host.old) result (H.history host.new) }
{
    if name == STANDARD {
        return print(host, bytes);
    }
    make_file(host, alloc, content, name, bytes)
}

/// Puts a tape on the volume in an image as the file of a name, and reports it.
pub(crate) fn put_tape<H: Host>(
    host: &mut H,
    alloc: Global,
    image: Image,
    name: &str,
    tape: &[u8],
) -> Result<(), Ending>
    ensures { PutsTape name.now tape.now image (H.history host.old) result (H.history host.new) }
{
    let new = image_with(host, alloc, &image.bytes, name, tape)?;
    let line = stored_line(alloc, &new)?;
    store(host, alloc, image, &new.bytes, &line)
}

/// The image with the tape.
fn image_with<H: Host>(
    host: &mut H,
    alloc: Global,
    image: &[u8],
    name: &str,
    tape: &[u8],
) -> Result<NewImage, Ending>
    ensures { Answers (PutsFile image.now name.now Frames tape.now None) (length image.now) (H.history host.old) result (H.history host.new) }
{
    match put(alloc, image, name.as_bytes(), tape, PutForm::Frames, None) {
        Ok(new) => Ok(new),
        Err(fault) => Err(refuse_image(host, image.len(), fault)),
    }
}

//! How image files are held and read. A file that a command may change is held from before it is read until the program ends.
ghost use Rattle.std.specs.Prelude.{◌≡◌, ℕ, List, false};
ghost use Rattle.hosts.specs.Streams.{output, changes_at};
ghost use Rattle.image_files.specs.Reading.{FindsForScript, FindsOne, FindsVolume, Holds, Looks, LooksAt, RefusesDisk, looked_name, with_lock_note};
ghost use Rattle.image_files.specs.ReadingSteps.{IsAnswer};

use crate::faults::ending_of_image;
use crate::mending::{ImageReading, look_image};
use crate::notes::{tell, tell_note};
use crate::reasons::{tell_fault, tell_unheld};
use disk_layouts::{DiskFile, Layout};
use hosts::{Host, HostFault, hold_file};
use image_kind::{Volumes, body_by, body_of, margins_with, script_kind, volumes_in, volumes_with};
use outcome::{Content, Ending, FileNote, NameNote, Note, PlainNote};
use program_reports::ProgramLine;
use program_tasks::ImageForm;
use refusals::MOST;
use std::alloc::Global;
use volume_image::ImageFault;

/// Where an image file is held.
#[derive(Drop)]
pub struct ImagePlace {
    /// Its path; nothing of one that is not held, since it may not be written.
    pub path: String,
    pub is_held: bool,

    /// Its name, as it was given.
    pub name: String,

    /// Why it is not held; of one that is held this says nothing.
    pub why: HostFault,
}

/// Holds an image file, unless it may not be written. Why it can't be held otherwise is printed. No file changes.
#[tactic(auto, unfolding(crate::specs::Reading::IsUnheldImage))]
pub fn hold<H: Host>(host: &mut H, alloc: Global, name: &str) -> Result<ImagePlace, Ending>
    ensures { Holds name.now (H.history host.old) result (H.history host.new) }
{
    let shown = String::from_str(alloc, name)?;
    match hold_file(host, alloc, name) {
        Ok(held) => {
            tell_of_lock(host, Content::Image, held.has_lock);
            Ok(ImagePlace {
                path: held.path,
                is_held: true,
                name: shown,
                why: HostFault::Failed,
            })
        }
        Err(fault) => match fault {
            HostFault::Denied => Ok(unheld_place(alloc, shown, HostFault::Denied)),
            HostFault::ReadOnly => Ok(unheld_place(alloc, shown, HostFault::ReadOnly)),
            _ => {
                tell_unheld(host, alloc, Content::Image, name, fault);
                Err(ending_of_image(fault))
            }
        },
    }
}

/// The place of a file that is only read, since it may not be written by this fault.
fn unheld_place(alloc: Global, name: String, why: HostFault) -> ImagePlace
    ensures { (result.is_held ≡ false) × (result.name ≡ name) × (result.why ≡ why) }
{
    ImagePlace {
        path: String::new(alloc),
        is_held: false,
        name,
        why,
    }
}

/// Prints a note where the file system of a held file for this has no locks.
pub(crate) fn tell_of_lock<H: Host>(host: &mut H, content: Content, has_lock: bool)
    ensures { (ok : _) × (H.history host.new ≡ with_lock_note content has_lock ok (H.history host.old)) }
{
    if !has_lock {
        tell(host, FileNote::NoLock.text(content));
    }
}

/// The bytes of an image file that is held, or of one that is only looked at.
pub fn look<H: Host>(
    host: &mut H,
    alloc: Global,
    place: &ImagePlace,
    name: &str,
) -> Result<Vec<u8>, Ending>
    ensures { Looks (looked_name place.now name.now) name.now (H.history host.old) result (H.history host.new) }
{
    if place.is_held {
        let found = host.look_held(alloc, place.path.as_str(), MOST);
        return within(host, alloc, name, found);
    }
    look_file(host, alloc, name)
}

/// The bytes of a file that is only looked at, all of them.
pub fn look_file<H: Host>(host: &mut H, alloc: Global, name: &str) -> Result<Vec<u8>, Ending>
    ensures { Looks name.now name.now (H.history host.old) result (H.history host.new) }
{
    let found = host.look(alloc, name, MOST);
    within(host, alloc, name, found)
}

/// The bytes that were read, if they are not too many. Why they are not is printed.
fn within<H: Host>(
    host: &mut H,
    alloc: Global,
    name: &str,
    found: Result<Vec<u8>, HostFault>,
) -> Result<Vec<u8>, Ending>
    ensures { IsAnswer name.now found (H.history host.old) result (H.history host.new) }
{
    match found {
        Ok(bytes) => {
            if bytes.len() > MOST {
                tell_note(host, alloc, Note::OnName(NameNote::TooLong, name))?;
                return Err(Ending::Line(ProgramLine::HostRead));
            }
            Ok(bytes)
        }
        Err(fault) => {
            tell_fault(host, alloc, name, fault);
            Err(ending_of_image(fault))
        }
    }
}

/// The image in a file that is only looked at, of the one volume that is meant. No file changes, and standard output gets nothing.
pub fn look_at<H: Host>(host: &mut H, alloc: Global, form: &ImageForm) -> Result<Vec<u8>, Ending>
    ensures looks { LooksAt form.now (H.history host.old) result (H.history host.new) }
    ensures files { (path : List ℕ) → changes_at path (H.history host.new) ≡ changes_at path (H.history host.old) }
    ensures output { output (H.history host.new) ≡ output (H.history host.old) }
{
    let file = look_image(host, alloc, form.file.as_str(), ImageReading::of(form))?;
    one_volume_in(host, alloc, file, form.layout, form.is_plain)
}

/// The image of the one volume in a file of these bytes: that of the layout that is given, or else the one that the file has by its kind. A
/// disk of two is refused, with a note that says how to name one of them. No file changes, and standard output gets nothing.
pub fn one_volume_in<H: Host>(
    host: &mut H,
    alloc: Global,
    file: Vec<u8>,
    given: Option<Layout>,
    is_plain: bool,
) -> Result<Vec<u8>, Ending>
    ensures finds { FindsOne given is_plain file.items (H.history host.old) result (H.history host.new) }
    ensures files { (path : List ℕ) → changes_at path (H.history host.new) ≡ changes_at path (H.history host.old) }
    ensures output { output (H.history host.new) ≡ output (H.history host.old) }
{
    match volumes_in(given, is_plain, &file) {
        Volumes::One(layout) => volume_in(alloc, body_of(given, is_plain, file), layout),
        Volumes::Both => Err(refuse_disk(host, body_of(given, is_plain, file).len())),
    }
}

/// The image of the one volume in a file of these bytes, for a script that leaves the file as it is. A file of whole blocks that may be a volume
/// by its length is one.
pub fn script_volume_in<H: Host>(
    host: &mut H,
    alloc: Global,
    file: Vec<u8>,
    given: Option<Layout>,
    is_plain: bool,
) -> Result<Vec<u8>, Ending>
    ensures { FindsForScript given is_plain file.items (H.history host.old) result (H.history host.new) }
{
    let kind = script_kind(is_plain, &file);
    let body = body_by(margins_with(given, kind), file);
    match volumes_with(given, kind) {
        Volumes::One(layout) => volume_in(alloc, body, layout),
        Volumes::Both => Err(refuse_disk(host, body.len())),
    }
}

/// How a command ends whose image file is a disk of two volumes, of so many bytes, and none of them is named. A note says how to name one.
pub(crate) fn refuse_disk<H: Host>(host: &mut H, size: usize) -> Ending
    ensures { RefusesDisk size (H.history host.old) result (H.history host.new) }
{
    tell(host, PlainNote::Disk.text());
    if size % 512 == 0 {
        return Ending::Line(ProgramLine::Image(ImageFault::TooLarge));
    }
    Ending::Line(ProgramLine::Image(ImageFault::NotWhole))
}

/// The image of a volume in bytes without margins: all of them, or the volume that lies in them as in a disk or a DECtape.
pub fn volume_in(alloc: Global, file: Vec<u8>, layout: Option<Layout>) -> Result<Vec<u8>, Ending>
    ensures { FindsVolume layout file.items result }
{
    let Some(layout) = layout else {
        return Ok(file);
    };
    let disk = DiskFile::new(file, layout)?;
    let image = disk.volume(alloc)?;
    Ok(image)
}

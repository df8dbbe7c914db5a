//! Images in files of the host that commands change.
ghost use Rattle.std.specs.Prelude.{◌≡◌, ℕ, List};
ghost use Rattle.hosts.specs.Streams.{output, changes_at};
ghost use Rattle.image_kind.specs.Margins.{margins_by};
ghost use Rattle.image_kind.specs.Volumes as meant;
ghost use Rattle.image_files.specs.SaveSteps.{MakesBody, WritesAround};
ghost use Rattle.image_files.specs.Reading.{Opens, OpensForScript, MakesImage, MakesOne, judgment_of};
ghost use Rattle.image_files.specs.Saving.{Saves, WritesJudged};

use crate::judging::{judge_file, refuse_kind};
use crate::reading::{ImagePlace, hold, look, refuse_disk};
use crate::reasons::tell_reason;
use crate::saving::write_file;
use disk_layouts::{DiskFile, Layout};
use hosts::{Host, Unwritten};
use image_kind::{
    ImageKind, Judgment, Margins, PartedFile, Volumes, body_by, judged_kind, keeps_kind,
    margins_with, script_kind, volumes_with,
};
use outcome::{Content, Ending, Reason};
use program_tasks::ImageForm;
use std::alloc::Global;

/// The image in a file that a command may change.
#[derive(Drop)]
pub struct Image {
    pub place: ImagePlace,

    /// What the image held when it was read.
    pub bytes: Vec<u8>,

    /// The bytes of the file's volumes, where they are more than the image.
    pub disk: Option<DiskFile>,

    /// The whole file, where bytes stand before or after those of its volumes.
    pub parts: Option<PartedFile>,

    /// What the file was taken for.
    pub judgment: Judgment,
}

impl Image {
    /// Holds an image file and reads it: the volume that is named, or else the one that the file has by its kind. A file that may not be
    /// written is only read; where another program holds it, nothing is read. A disk of two volumes is refused where none is named. No file
    /// changes, and standard output gets nothing.
    pub fn open<H: Host>(host: &mut H, alloc: Global, form: &ImageForm) -> Result<Image, Ending>
        ensures opens { Opens form.now (H.history host.old) result (H.history host.new) }
        ensures files { (path : List ℕ) → changes_at path (H.history host.new) ≡ changes_at path (H.history host.old) }
        ensures output { output (H.history host.new) ≡ output (H.history host.old) }
    {
        let place = hold(host, alloc, form.file.as_str())?;
        let file = look(host, alloc, &place, form.file.as_str())?;
        let name = form.file.as_str();
        judge_file(host, alloc, name, form.layout, form.is_plain, &file)?;
        let kind = judged_kind(form.is_plain, &file);
        let judgment = judgment_of(form, &file);
        image_in(host, alloc, place, file, judgment, kind)
    }

    /// Does the same for a run of a script: a file of whole blocks that may be a volume by its length is one.
    pub fn open_for_script<H: Host>(
        host: &mut H,
        alloc: Global,
        form: &ImageForm,
    ) -> Result<Image, Ending>
        ensures { OpensForScript form.now (H.history host.old) result (H.history host.new) }
    {
        let name = form.file.as_str();
        let place = hold(host, alloc, name)?;
        let file = look(host, alloc, &place, name)?;
        judge_file(host, alloc, name, form.layout, form.is_plain, &file)?;
        let kind = script_kind(form.is_plain, &file);
        let judgment = judgment_of(form, &file);
        image_in(host, alloc, place, file, judgment, kind)
    }

    /// Has the file hold these bytes of an image. Where it has them already, nothing is written. Where it can't be written the reason is
    /// printed on standard error, for which alone memory is taken.
    pub fn save<H: Host>(self, host: &mut H, alloc: Global, bytes: &[u8]) -> Result<(), Ending>
        ensures { Saves self bytes.now (H.history host.old) result (H.history host.new) }
    {
        let Image {
            place,
            bytes: older,
            disk,
            parts,
            judgment,
        } = self;
        if older.as_slice() == bytes {
            return Ok(());
        }
        let name = place.name.as_str();
        if !place.is_held {
            tell_reason(host, alloc, name, Reason::Fault(place.why));
            return Err(Ending::NotWritten(Content::Image, Unwritten::AsItWas));
        }
        let path = place.path.as_str();
        match disk {
            None => write_around(host, alloc, path, name, parts, bytes, judgment),
            Some(disk) => {
                let mut disk = disk;
                if !disk.lay(bytes) {
                    tell_reason(host, alloc, name, Reason::NoRoom);
                    return Err(Ending::NotWritten(Content::Image, Unwritten::AsItWas));
                }
                write_around(host, alloc, path, name, parts, disk.bytes(), judgment)
            }
        }
    }
}

/// Has the held file of a path hold these bytes of its volumes, with those that stand before and after them.
fn write_around<H: Host>(
    host: &mut H,
    alloc: Global,
    path: &str,
    name: &str,
    parts: Option<PartedFile>,
    body: &[u8],
    judgment: Judgment,
) -> Result<(), Ending>
    ensures { WritesAround judgment parts path.now name.now body.now (H.history host.old) result (H.history host.new) }
{
    match parts {
        None => write_judged(host, alloc, path, name, body, judgment),
        Some(parts) => {
            let mut parts = parts;
            if !parts.lay(body) {
                tell_reason(host, alloc, name, Reason::NoRoom);
                return Err(Ending::NotWritten(Content::Image, Unwritten::AsItWas));
            }
            write_judged(host, alloc, path, name, parts.bytes(), judgment)
        }
    }
}

/// Has the held file of a path hold these bytes, unless it would be read as something else than it was.
fn write_judged<H: Host>(
    host: &mut H,
    alloc: Global,
    path: &str,
    name: &str,
    file: &[u8],
    judgment: Judgment,
) -> Result<(), Ending>
    ensures { WritesJudged judgment path.now name.now file.now (H.history host.old) result (H.history host.new) }
{
    if !keeps_kind(judgment, file) {
        return Err(refuse_kind(host, judgment.is_plain, file));
    }
    write_file(host, alloc, Content::Image, path, name, file)
}

/// What a file of these bytes is taken for that is asked for so.
fn judgment_of(form: &ImageForm, file: &[u8]) -> Judgment
    ensures { result ≡ judgment_of form.now file.now }
{
    Judgment {
        layout: form.layout,
        is_plain: form.is_plain,
        kind: judged_kind(form.is_plain, file),
    }
}

/// The image of the one volume that is meant in a file of these bytes, which is held at a place and taken for this.
fn image_in<H: Host>(
    host: &mut H,
    alloc: Global,
    place: ImagePlace,
    file: Vec<u8>,
    judgment: Judgment,
    kind: Option<ImageKind>,
) -> Result<Image, Ending>
    ensures makes { MakesOne place judgment (meant.volumes_with judgment.layout kind) (margins_by judgment.layout kind) file.items (H.history host.old) result (H.history host.new) }
    ensures files { (path : List ℕ) → changes_at path (H.history host.new) ≡ changes_at path (H.history host.old) }
    ensures output { output (H.history host.new) ≡ output (H.history host.old) }
{
    let given = judgment.layout;
    let margins = margins_with(given, kind);
    match volumes_with(given, kind) {
        Volumes::One(layout) => image_by(alloc, place, file, judgment, layout, margins),
        Volumes::Both => Err(refuse_disk(host, body_by(margins, file).len())),
    }
}

/// The image of the volume that lies so in a file with these margins.
fn image_by(
    alloc: Global,
    place: ImagePlace,
    file: Vec<u8>,
    judgment: Judgment,
    layout: Option<Layout>,
    margins: Margins,
) -> Result<Image, Ending>
    ensures { MakesImage place judgment layout margins file.items result }
{
    if margins.before == 0 && margins.after == 0 {
        return image_of(alloc, place, body_by(margins, file), judgment, layout, None);
    }
    let whole = file.to_vec(alloc)?;
    let parts = PartedFile::new(whole, margins);
    image_of(
        alloc,
        place,
        body_by(margins, file),
        judgment,
        layout,
        Some(parts),
    )
}

/// The image of the volume that lies so in bytes without margins, with what stands beside them.
fn image_of(
    alloc: Global,
    place: ImagePlace,
    body: Vec<u8>,
    judgment: Judgment,
    layout: Option<Layout>,
    parts: Option<PartedFile>,
) -> Result<Image, Ending>
    ensures { MakesBody place judgment layout body.items parts result }
{
    let Some(layout) = layout else {
        return Ok(Image {
            place,
            bytes: body,
            disk: None,
            parts,
            judgment,
        });
    };
    let disk = DiskFile::new(body, layout)?;
    let bytes = disk.volume(alloc)?;
    Ok(Image {
        place,
        bytes,
        disk: Some(disk),
        parts,
        judgment,
    })
}

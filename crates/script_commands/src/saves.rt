//! How the image file gets the images of a run, each note on it once.
ghost use Rattle.std.specs.Prelude.{◌≡◌, ◌∷◌, ◌<◌, ◌≤◌, ℕ, List, None, true, false, OnErr, OnOk};
ghost use Rattle.hosts.specs.Event.{Event};
ghost use Rattle.hosts.specs.Streams.{output};
ghost use Rattle.program_tasks.specs.declared.tasks.Saving.TheVariants as saving;
ghost use Rattle.image_files.specs.declared.images.Image.{Image as ImageState};
ghost use Rattle.volume_image.specs.Image.{IsImageOf};
ghost use Rattle.hosts.specs.declared.faults.Durability.TheVariants.{Unknown};
ghost use Rattle.system_session.specs.ShownAnswers.{ShownAnswer};
ghost use Rattle.script_commands.specs.RunSteps.{Gets, HasDone, NotesSync, WritesAround, WritesFile, WritesImage};
ghost use Rattle.script_commands.specs.Steps.{is_unknown, once_note, or_else};

use crate::progress::Progress;
use hosts::{Durability, Host, Unwritten, save_file};
use image_files::{Image, refuse_kind, tell_reason};
use image_kind::{Judgment, PartedFile, keeps_kind};
use outcome::{Content, Ending, FileNote, Reason};
use program_tasks::Saving;
use refusals::SessionFault;
use std::alloc::Global;
use std::mem;
use volume_image::MemoryVolume;
use word12::{BLOCK, FIRST_FILE_BLOCK};

/// How many bytes of an image stand before the blocks of files.
const DIRECTORY: usize = FIRST_FILE_BLOCK * BLOCK * 2;

/// Has the file hold the image of a store, if it is to be saved, and answers whether it does. Where a save failed, none is tried again.
pub(crate) fn keep<H: Host>(
    host: &mut H,
    alloc: Global,
    progress: &mut Progress,
    spare: &mut Vec<u8>,
    store: &MemoryVolume,
) -> bool
    requires { progress.old.saving ≡ saving.Never → ⊥ }
    ensures done { (start : ImageState) (old : List Event) (shown : List ShownAnswer)
        → HasDone start old shown progress.old (H.history host.old) → HasDone start old shown progress.new (H.history host.new) }
    ensures image { result ≡ true → IsImageOf progress.new.image.bytes.items store.now.blocks }
    ensures failed { result ≡ false → progress.new.save_ending ≡ None → ⊥ }
    ensures saved { result ≡ true → progress.new.save_ending ≡ None }
    ensures earlier { progress.new.save_ending ≡ None → progress.old.save_ending ≡ None }
    ensures fault { progress.new.fault ≡ progress.old.fault }
    ensures output { output (H.history host.new) ≡ output (H.history host.old) }
    ensures lines { progress.new.lines ≡ progress.old.lines }
    ensures saving { progress.new.saving ≡ progress.old.saving }
    ensures typed { progress.new.is_typed ≡ progress.old.is_typed }
    ensures cut { progress.new.is_cut ≡ progress.old.is_cut }
{
    if progress.save_ending.is_some() {
        return false;
    }
    match save(host, alloc, progress, spare, store) {
        Ok(()) => true,
        Err(ending) => {
            progress.save_ending = Some(ending);
            false
        }
    }
}

/// Has the file hold the image of a store, unless it has it.
fn save<H: Host>(
    host: &mut H,
    alloc: Global,
    progress: &mut Progress,
    spare: &mut Vec<u8>,
    store: &MemoryVolume,
) -> Result<(), Ending>
    ensures gets { Gets progress.old result progress.new (H.history host.old) (H.history host.new) }
    ensures image { OnOk result (IsImageOf progress.new.image.bytes.items store.now.blocks) }
    ensures output { output (H.history host.new) ≡ output (H.history host.old) }
    ensures same { progress.new ≡ record progress.old {
      image = progress.new.image;
      is_place_told = progress.new.is_place_told;
      is_sync_told = progress.new.is_sync_told;
    } }
{
    if store.put_bytes(spare).is_err() {
        return Err(Ending::Fault(SessionFault::Memory));
    }
    if progress.image.bytes.as_slice() == spare.as_slice() {
        return Ok(());
    }
    let durability = write_image(
        host,
        alloc,
        &mut progress.image,
        spare,
        progress.is_place_told,
    )?;
    progress.is_sync_told = note_sync(host, durability, progress.is_sync_told);
    progress.is_place_told = true;
    mem::swap(&mut progress.image.bytes, spare);
    Ok(())
}

/// Writes the file of an image that is to have these bytes, with all that it holds besides.
fn write_image<H: Host>(
    host: &mut H,
    alloc: Global,
    image: &mut Image,
    bytes: &[u8],
    is_told: bool,
) -> Result<Durability, Ending>
    ensures { WritesImage is_told image.old bytes.now result image.new (H.history host.old) (H.history host.new) }
{
    let name = image.place.name.as_str();
    if !image.place.is_held {
        tell_reason(host, alloc, name, Reason::Fault(image.place.why));
        return Err(Ending::NotWritten(Content::Image, Unwritten::AsItWas));
    }
    let path = image.place.path.as_str();
    let judgment = image.judgment;
    match &mut image.disk {
        None => write_around(
            host,
            alloc,
            path,
            name,
            &mut image.parts,
            bytes,
            is_told,
            judgment,
        ),
        Some(disk) => {
            if !disk.lay(bytes) {
                tell_reason(host, alloc, name, Reason::NoRoom);
                return Err(Ending::NotWritten(Content::Image, Unwritten::AsItWas));
            }
            write_around(
                host,
                alloc,
                path,
                name,
                &mut image.parts,
                disk.bytes(),
                is_told,
                judgment,
            )
        }
    }
}

/// Has the held file of a path hold these bytes of its volumes, with those that stand before and after them.
fn write_around<H: Host>(
    host: &mut H,
    alloc: Global,
    path: &str,
    name: &str,
    parts: &mut Option<PartedFile>,
    body: &[u8],
    is_told: bool,
    judgment: Judgment,
) -> Result<Durability, Ending>
    ensures { WritesAround judgment is_told parts.old path.now name.now body.now result parts.new (H.history host.old) (H.history host.new) }
{
    match parts {
        None => write_bytes(host, alloc, path, name, body, is_told, judgment),
        Some(parts) => {
            if !parts.lay(body) {
                tell_reason(host, alloc, name, Reason::NoRoom);
                return Err(Ending::NotWritten(Content::Image, Unwritten::AsItWas));
            }
            write_bytes(host, alloc, path, name, parts.bytes(), is_told, judgment)
        }
    }
}

/// The same of bytes that are the whole file, unless it would be read as something else than it was.
fn write_bytes<H: Host>(
    host: &mut H,
    alloc: Global,
    path: &str,
    name: &str,
    bytes: &[u8],
    is_told: bool,
    judgment: Judgment,
) -> Result<Durability, Ending>
    ensures { WritesFile judgment is_told path.now name.now bytes.now result (H.history host.old) (H.history host.new) }
{
    if !keeps_kind(judgment, bytes) {
        return Err(refuse_kind(host, judgment.is_plain, bytes));
    }
    match save_file(host, alloc, path, DIRECTORY, bytes, place_note(is_told)) {
        Ok(durability) => Ok(durability),
        Err(fault) => {
            tell_reason(host, alloc, name, Reason::Fault(fault.why));
            Err(Ending::NotWritten(Content::Image, fault.state))
        }
    }
}

/// The note that an image is written in its place, unless that was said.
fn place_note(is_told: bool) -> &'static str
    ensures { result.now ≡ once_note is_told }
{
    if is_told {
        return "";
    }
    FileNote::InPlace.text(Content::Image)
}

/// Prints a note, unless that was done, where it isn't known whether a crash keeps the file, and answers whether it was done by then.
fn note_sync<H: Host>(host: &mut H, durability: Durability, is_told: bool) -> bool
    ensures notes { NotesSync is_told durability (H.history host.old) (H.history host.new) }
    ensures told { result ≡ or_else (is_unknown durability) is_told }
{
    match durability {
        Durability::Certain => is_told,
        Durability::Unknown => {
            tell_of_sync(host, is_told);
            true
        }
    }
}

fn tell_of_sync<H: Host>(host: &mut H, is_told: bool)
    ensures { NotesSync is_told Unknown (H.history host.old) (H.history host.new) }
{
    if !is_told {
        let _ = host.tell(FileNote::NoSync.text(Content::Image));
    }
}

/// Ends a run with the store that it leaves.
pub(crate) fn save_last<H: Host>(
    host: &mut H,
    alloc: Global,
    progress: &mut Progress,
    spare: &mut Vec<u8>,
    store: &MemoryVolume,
)
    ensures done { (start : ImageState) (old : List Event) (shown : List ShownAnswer)
        → HasDone start old shown progress.old (H.history host.old) → HasDone start old shown progress.new (H.history host.new) }
    ensures image { (progress.old.saving ≡ saving.Never → ⊥) → progress.new.save_ending ≡ None
        → IsImageOf progress.new.image.bytes.items store.now.blocks }
    ensures earlier { progress.new.save_ending ≡ None → progress.old.save_ending ≡ None }
    ensures fault { progress.new.fault ≡ progress.old.fault }
    ensures output { output (H.history host.new) ≡ output (H.history host.old) }
    ensures lines { progress.new.lines ≡ progress.old.lines }
    ensures saving { progress.new.saving ≡ progress.old.saving }
    ensures typed { progress.new.is_typed ≡ progress.old.is_typed }
    ensures cut { progress.new.is_cut ≡ progress.old.is_cut }
{
    if progress.saving != Saving::Never {
        let _ = keep(host, alloc, progress, spare, store);
    }
}

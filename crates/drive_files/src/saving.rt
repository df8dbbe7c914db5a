//! The files of the disks at the end of a run, and in it.
ghost use Rattle.std.specs.Prelude.{◌≡◌};
ghost use Rattle.rk8e.specs.State.{drive_of};
ghost use Rattle.drive_files.specs.Drives.{OfDrive};
ghost use Rattle.drive_files.specs.Saving as spec;
ghost use Rattle.drive_files.specs.Saving.{SavesDrive, SavesDrives, SavesPack};

use crate::drives::of_drive;
use crate::mounting::Places;
use hosts::Host;
use image_files::{ImagePlace, write_file};
use outcome::{Content, Ending};
use pdp8e::Machine;
use rk8e::Pack;
use std::alloc::Global;
use std::mem;

/// Saves each disk that was written in its file, in rising order of the drives, unless the file got just these bytes last. Where one can't be
/// saved the others are. The answer is why the first was not. The machine stays as it is.
pub fn save_drives<H: Host>(
    host: &mut H,
    alloc: Global,
    machine: &mut Machine,
    places: &mut Places,
) -> Result<(), Ending>
    ensures saves { SavesDrives machine.old.disk places.old places.new (H.history host.old) result (H.history host.new) }
    ensures machine { machine.new ≡ machine.old }
{
    let first = save_drive(
        host,
        alloc,
        machine,
        0,
        &places.place0,
        &mut places.rooms.saved0,
        &mut places.rooms.spare,
        &mut places.saves,
    );
    let second = save_drive(
        host,
        alloc,
        machine,
        1,
        &places.place1,
        &mut places.rooms.saved1,
        &mut places.rooms.spare,
        &mut places.saves,
    );
    let third = save_drive(
        host,
        alloc,
        machine,
        2,
        &places.place2,
        &mut places.rooms.saved2,
        &mut places.rooms.spare,
        &mut places.saves,
    );
    let fourth = save_drive(
        host,
        alloc,
        machine,
        3,
        &places.place3,
        &mut places.rooms.saved3,
        &mut places.rooms.spare,
        &mut places.saves,
    );
    earlier(first, earlier(second, earlier(third, fourth)))
}

/// Saves the disk of a drive, 0 to 3, in its file, if that is to be saved.
fn save_drive<H: Host>(
    host: &mut H,
    alloc: Global,
    machine: &mut Machine,
    drive: u8,
    place: &Option<ImagePlace>,
    saved: &mut Vec<u8>,
    spare: &mut Vec<u8>,
    saves: &mut u64,
) -> Result<(), Ending>
    ensures saves { SavesDrive drive (drive_of machine.old.disk drive).pack place.now saved.old.items saved.new.items (H.history host.old) result (H.history host.new) }
    ensures machine { machine.new ≡ machine.old }
{
    let Some(place) = place else {
        return Ok(());
    };
    let _processor = machine.processor();
    match machine.take_pack(drive) {
        None => Ok(()),
        Some(pack) => {
            let result = save_pack_of(host, alloc, drive, &pack, place, saved, spare, saves);
            machine.put_pack(drive, pack);
            result
        }
    }
}

/// Saves the disk of a drive as `save_pack` does. Where that fails, the end names the drive.
fn save_pack_of<H: Host>(
    host: &mut H,
    alloc: Global,
    drive: u8,
    pack: &Pack,
    place: &ImagePlace,
    saved: &mut Vec<u8>,
    spare: &mut Vec<u8>,
    saves: &mut u64,
) -> Result<(), Ending>
    ensures { OfDrive drive (SavesPack pack.now.changed pack.now place.now saved.old.items saved.new.items) (H.history host.old) result (H.history host.new) }
{
    match save_pack(host, alloc, pack, place, saved, spare, saves) {
        Ok(()) => Ok(()),
        Err(ending) => Err(of_drive(drive, ending)),
    }
}

/// Saves a disk in the file at a place, if a sector of it was written, and the file didn't get just these bytes last. They are put in the room
/// that is given.
fn save_pack<H: Host>(
    host: &mut H,
    alloc: Global,
    pack: &Pack,
    place: &ImagePlace,
    saved: &mut Vec<u8>,
    spare: &mut Vec<u8>,
    saves: &mut u64,
) -> Result<(), Ending>
    ensures { SavesPack pack.now.changed pack.now place.now saved.old.items saved.new.items (H.history host.old) result (H.history host.new) }
{
    if !pack.is_changed() {
        return Ok(());
    }
    pack.put_bytes(spare)?;
    if spare.as_slice() == saved.as_slice() {
        return Ok(());
    }
    let (path, name) = (place.path.as_str(), place.name.as_str());
    write_file(host, alloc, Content::Image, path, name, spare)?;
    mem::swap(saved, spare);
    *saves = saves.wrapping_add(1);
    Ok(())
}

/// The first of two ends that is a fault.
pub fn earlier(first: Result<(), Ending>, later: Result<(), Ending>) -> Result<(), Ending>
    ensures { result ≡ spec.earlier first later }
{
    match first {
        Ok(()) => later,
        Err(ending) => Err(ending),
    }
}

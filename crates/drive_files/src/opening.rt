//! The files of the disks, held where they are to be saved, and read.
ghost use Rattle.std.specs.Prelude.{◌≡◌, [], IfOk};
ghost use Rattle.drive_files.specs.Drives.{OfDrive};
ghost use Rattle.drive_files.specs.Opening.{HaveSavedNone, HoldsIf, HoldsToWrite, LooksIn, OpensDisk, OpensDrive, OpensDrives, RefusesPack, TakesPack, ending_of_pack, is_kept};

use crate::drives::of_drive;
use hosts::{Host, Unwritten};
use image_files::{ImagePlace, hold_within, look, look_file, tell_note, tell_reason};
use outcome::{Content, Ending, NameNote, Note, Reason};
use program_reports::ProgramLine;
use program_tasks::{DiskForm, DriveForm};
use refusals::SessionFault;
use rk8e::{Pack, PackFault, SECTORS};
use std::alloc::{AllocError, Global};
use volume_image::ImageFault;

/// The disk of a file.
#[derive(Drop)]
pub struct OpenDisk {
    pub pack: Pack,

    /// Where the file is held, if it is to be saved.
    pub place: Option<ImagePlace>,
}

/// The disks of the drives, and room for what is saved of them.
#[derive(Drop)]
pub struct OpenDrives {
    pub disk0: Option<OpenDisk>,
    pub disk1: Option<OpenDisk>,
    pub disk2: Option<OpenDisk>,
    pub disk3: Option<OpenDisk>,
    pub rooms: SaveRooms,
}

/// Room for the bytes of disks, which is taken before a run, so that no save wants memory.
#[derive(Drop)]
pub struct SaveRooms {
    /// The bytes that the file of each drive's disk got last from a save. They have room for those of a disk where the file is held.
    pub saved0: Vec<u8>,
    pub saved1: Vec<u8>,
    pub saved2: Vec<u8>,
    pub saved3: Vec<u8>,

    /// Room for the bytes of a disk that is saved.
    pub spare: Vec<u8>,
}

/// Opens the disks of the drives, one after the other, and takes the memory for a save. No file changes.
pub fn open_drives<H: Host>(
    host: &mut H,
    alloc: Global,
    form: &DiskForm,
) -> Result<OpenDrives, Ending>
    ensures { OpensDrives form.now (H.history host.old) result (H.history host.new) }
{
    let disk0 = open_drive(host, alloc, 0, &form.drive0, form)?;
    let disk1 = open_drive(host, alloc, 1, &form.drive1, form)?;
    let disk2 = open_drive(host, alloc, 2, &form.drive2, form)?;
    let disk3 = open_drive(host, alloc, 3, &form.drive3, form)?;
    let rooms = take_rooms(alloc, &disk0, &disk1, &disk2, &disk3, !form.is_look)?;
    Ok(OpenDrives {
        disk0,
        disk1,
        disk2,
        disk3,
        rooms,
    })
}

/// Takes room for the bytes of those disks whose files are to be saved, and for a save, if one may be made. No file has got bytes yet.
fn take_rooms(
    alloc: Global,
    disk0: &Option<OpenDisk>,
    disk1: &Option<OpenDisk>,
    disk2: &Option<OpenDisk>,
    disk3: &Option<OpenDisk>,
    is_saved: bool,
) -> Result<SaveRooms, AllocError>
    ensures { IfOk result HaveSavedNone }
{
    let saved0 = room_for(alloc, is_held(disk0))?;
    let saved1 = room_for(alloc, is_held(disk1))?;
    let saved2 = room_for(alloc, is_held(disk2))?;
    let saved3 = room_for(alloc, is_held(disk3))?;
    let spare = room_for(alloc, is_saved)?;
    Ok(SaveRooms {
        saved0,
        saved1,
        saved2,
        saved3,
        spare,
    })
}

/// Whether the file of a disk is to be saved.
fn is_held(disk: &Option<OpenDisk>) -> bool {
    match disk {
        Some(disk) => disk.place.is_some(),
        None => false,
    }
}

/// No bytes, with room for those of a disk where one may be saved.
fn room_for(alloc: Global, is_saved: bool) -> Result<Vec<u8>, AllocError>
    ensures { IfOk result (λ room. room.items ≡ []) }
{
    if !is_saved {
        return Ok(Vec::new(alloc));
    }
    let room = Vec::with_capacity(alloc, 512 * SECTORS)?;
    Ok(room)
}

/// Opens the disk of a drive, 0 to 3, if it has one. A file that is only looked at, or whose drive is locked, is read and not held.
fn open_drive<H: Host>(
    host: &mut H,
    alloc: Global,
    drive: u8,
    given: &DriveForm,
    form: &DiskForm,
) -> Result<Option<OpenDisk>, Ending>
    ensures { OpensDrive drive given.now form.now (H.history host.old) result (H.history host.new) }
{
    match &given.image {
        None => Ok(None),
        Some(name) => {
            let is_kept = is_kept(given, form);
            match open_disk_of(host, alloc, drive, name.as_str(), is_kept, form.wait) {
                Ok(disk) => Ok(Some(disk)),
                Err(ending) => Err(ending),
            }
        }
    }
}

/// Whether the file of a drive's disk is to be saved.
fn is_kept(given: &DriveForm, form: &DiskForm) -> bool
    ensures { result ≡ is_kept given.now form.now }
{
    !form.is_look && !given.is_locked
}

/// Opens the disk in the file of a drive. Where it is refused, the end names the drive.
fn open_disk_of<H: Host>(
    host: &mut H,
    alloc: Global,
    drive: u8,
    name: &str,
    is_kept: bool,
    seconds: usize,
) -> Result<OpenDisk, Ending>
    ensures { OfDrive drive (OpensDisk is_kept seconds name.now) (H.history host.old) result (H.history host.new) }
{
    match open_disk(host, alloc, name, is_kept, seconds) {
        Ok(disk) => Ok(disk),
        Err(ending) => Err(of_drive(drive, ending)),
    }
}

/// Opens the disk in a file, which is held before it is read where it is to be saved, and waited for so many seconds.
fn open_disk<H: Host>(
    host: &mut H,
    alloc: Global,
    name: &str,
    is_kept: bool,
    seconds: usize,
) -> Result<OpenDisk, Ending>
    ensures { OpensDisk is_kept seconds name.now (H.history host.old) result (H.history host.new) }
{
    let place = hold_if(host, alloc, name, is_kept, seconds)?;
    let bytes = look_in(host, alloc, name, &place)?;
    let pack = take_pack(host, alloc, name, &bytes)?;
    Ok(OpenDisk { pack, place })
}

/// Holds a file that is to be saved.
fn hold_if<H: Host>(
    host: &mut H,
    alloc: Global,
    name: &str,
    is_kept: bool,
    seconds: usize,
) -> Result<Option<ImagePlace>, Ending>
    ensures { HoldsIf is_kept seconds name.now (H.history host.old) result (H.history host.new) }
{
    if !is_kept {
        return Ok(None);
    }
    let place = hold_to_write(host, alloc, name, seconds)?;
    Ok(Some(place))
}

/// Holds a file, which is waited for so many seconds while another program holds it. One that may not be written is refused, and why is
/// printed.
fn hold_to_write<H: Host>(
    host: &mut H,
    alloc: Global,
    name: &str,
    seconds: usize,
) -> Result<ImagePlace, Ending>
    ensures { HoldsToWrite seconds name.now (H.history host.old) result (H.history host.new) }
{
    let place = hold_within(host, alloc, name, seconds)?;
    if !place.is_held {
        tell_reason(host, alloc, name, Reason::Fault(place.why));
        return Err(Ending::NotWritten(Content::Image, Unwritten::AsItWas));
    }
    Ok(place)
}

/// The bytes of a file, which is held at a place or is only read.
fn look_in<H: Host>(
    host: &mut H,
    alloc: Global,
    name: &str,
    place: &Option<ImagePlace>,
) -> Result<Vec<u8>, Ending>
    ensures { LooksIn place.now name.now (H.history host.old) result (H.history host.new) }
{
    match place {
        None => look_file(host, alloc, name),
        Some(place) => look(host, alloc, place, name),
    }
}

/// The disk that is in a file of these bytes. Where there is none, a note says of which file.
fn take_pack<H: Host>(host: &mut H, alloc: Global, name: &str, bytes: &[u8]) -> Result<Pack, Ending>
    ensures { TakesPack name.now bytes.now (H.history host.old) result (H.history host.new) }
{
    match Pack::from_bytes(alloc, bytes) {
        Ok(pack) => Ok(pack),
        Err(fault) => Err(refuse_pack(host, alloc, name, fault)),
    }
}

/// How the command ends whose file has no disk by this fault.
fn refuse_pack<H: Host>(host: &mut H, alloc: Global, name: &str, fault: PackFault) -> Ending
    ensures { RefusesPack name.now fault (H.history host.old) result (H.history host.new) }
{
    match tell_note(host, alloc, Note::OnName(NameNote::Refuses, name)) {
        Ok(()) => ending_of_pack(fault),
        Err(error) => Ending::from(error),
    }
}

/// The end that a fault of a disk's file is.
fn ending_of_pack(fault: PackFault) -> Ending
    ensures { result ≡ ending_of_pack fault }
{
    match fault {
        PackFault::NotWhole => Ending::Line(ProgramLine::Image(ImageFault::NotWhole)),
        PackFault::TooLarge => Ending::Line(ProgramLine::Image(ImageFault::TooLarge)),
        PackFault::BadWord(number) => Ending::Line(ProgramLine::Image(ImageFault::BadWord(number))),
        PackFault::Memory => Ending::Fault(SessionFault::Memory),
    }
}

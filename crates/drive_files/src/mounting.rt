//! Disks in the drives of a disk control.
ghost use Rattle.std.specs.Prelude.{◌≡◌, ◌≤◌};
ghost use Rattle.rk8e.specs.State.{drive_of, with_drive};
ghost use Rattle.drive_files.specs.Mounting as spec;

use crate::devices::PaperPlaces;
use crate::opening::{OpenDisk, OpenDrives, SaveRooms};
use image_files::ImagePlace;
use program_tasks::DiskForm;
use rk8e::Disk;

/// The greatest time of a disk, in instructions.
const MOST_TIME: u32 = 1_000_000;

/// Where the files of the drives are held, each if it is to be saved, and what is known of their saves, and where those of the papers are.
#[derive(Drop)]
pub struct Places {
    pub place0: Option<ImagePlace>,
    pub place1: Option<ImagePlace>,
    pub place2: Option<ImagePlace>,
    pub place3: Option<ImagePlace>,
    pub rooms: SaveRooms,

    /// How many times the file of a disk was written.
    pub saves: u64,

    pub papers: PaperPlaces,
}

/// The disk control whose drives have these disks, and are locked where that is asked for, and where the files of the disks are held. No file of a
/// paper is.
pub fn disk_of(form: &DiskForm, drives: OpenDrives) -> (Disk, Places)
    ensures disk { result.0 ≡ spec.disk_of form.now drives }
    ensures places { result.1 ≡ spec.places_of drives }
{
    let OpenDrives {
        disk0,
        disk1,
        disk2,
        disk3,
        rooms,
    } = drives;
    let mut disk = Disk::new(time_of_disk(form.seek_time), time_of_disk(form.disk_time));
    let place0 = put_disk(&mut disk, 0, disk0, form.drive0.is_locked);
    let place1 = put_disk(&mut disk, 1, disk1, form.drive1.is_locked);
    let place2 = put_disk(&mut disk, 2, disk2, form.drive2.is_locked);
    let place3 = put_disk(&mut disk, 3, disk3, form.drive3.is_locked);
    let places = Places {
        place0,
        place1,
        place2,
        place3,
        rooms,
        saves: 0,
        papers: PaperPlaces {
            punch: None,
            printer: None,
            transfers: None,
        },
    };
    (disk, places)
}

/// A time that a disk may have.
fn time_of_disk(time: u32) -> u32
    ensures value { result ≡ spec.time_of_disk time }
    ensures most { result ≤ 1000000 }
{
    if time <= MOST_TIME { time } else { MOST_TIME }
}

/// Puts a disk into a drive that has none, and locks the drive, where that is asked for. The answer is where its file is held.
fn put_disk(
    disk: &mut Disk,
    drive: u8,
    found: Option<OpenDisk>,
    is_locked: bool,
) -> Option<ImagePlace>
    ensures disk { disk.new ≡ with_drive disk.old drive (spec.drive_with found is_locked (drive_of disk.old drive)) }
    ensures place { result ≡ spec.place_of found }
{
    let place = put_pack(disk, drive, found);
    if is_locked {
        disk.lock(drive);
    }
    place
}

/// Puts a disk into a drive, if there is one. The answer is where its file is held.
fn put_pack(disk: &mut Disk, drive: u8, found: Option<OpenDisk>) -> Option<ImagePlace>
    ensures disk { disk.new ≡ with_drive disk.old drive (spec.with_disk found (drive_of disk.old drive)) }
    ensures place { result ≡ spec.place_of found }
{
    match found {
        None => None,
        Some(found) => {
            let OpenDisk { pack, place } = found;
            disk.put_pack(drive, pack);
            place
        }
    }
}

//! How many bytes the files of disks and DECtapes have, and the images of the volumes in them.
ghost use Rattle.std.specs.Prelude.{◌≡◌};
ghost use Rattle.disk_layouts.specs.Disks.{image_size as size_of_image, guess_of};

use crate::Layout;

/// The bytes of one volume of an RK05 disk: 3248 blocks of 512 bytes (OS/8 Software Support Manual).
pub const DISK_VOLUME: usize = 1662976;

/// The bytes of a whole RK05 disk: two volumes (OS/8 Software Support Manual).
pub const DISK: usize = 3325952;

/// The bytes of the volume of a DECtape: 737 blocks of 512 bytes (OS/8 Software Support Manual).
pub const TAPE_VOLUME: usize = 377344;

/// The bytes of a whole DECtape: 1474 blocks of 129 words, of two bytes each (SIMH's files of the TU56).
pub const TAPE: usize = 380292;

/// How many bytes the image of the volume has.
pub fn image_size(layout: Layout) -> usize
    ensures { result ≡ size_of_image layout }
{
    match layout {
        Layout::First | Layout::Second => DISK_VOLUME,
        Layout::Dectape => TAPE_VOLUME,
    }
}

/// What a file of so many bytes may be. It is a DECtape of just its size; a disk of two volumes where it is longer than one volume
/// and at most a disk; else nothing.
pub fn guess(size: usize) -> Option<Layout>
    ensures { result ≡ guess_of size }
{
    if size == TAPE {
        return Some(Layout::Dectape);
    }
    if size > DISK_VOLUME && size <= DISK {
        return Some(Layout::First);
    }
    None
}

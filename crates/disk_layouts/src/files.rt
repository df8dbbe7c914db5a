ghost use Rattle.std.specs.Prelude.{◌≡◌, ℕ, ◌*◌, ◌<◌, ◌≤◌, IfOk};
ghost use Rattle.disk_layouts.specs.Disks.{IsImageIn, image_size as size_of_image};
ghost use Rattle.disk_layouts.specs.Files.{Disk, Opens, Lays, MakesTape, needed_bytes as needed_of};
ghost use Rattle.disk_layouts.specs.Kept.{most_bytes as most_of};
ghost use Rattle.disk_layouts.specs.Steps.{Judges};

use crate::copies::{fill_up, put_volume, used_blocks, volume_of};
use crate::sizes::{DISK, DISK_VOLUME, TAPE, TAPE_VOLUME};
use crate::{DiskFault, Layout, image_size};
use std::alloc::{AllocError, Global};
use std::marker::Model;

/// A file that holds a volume at a layout. A contract sees its layout and the list of its bytes.
#[derive(Drop)]
pub struct DiskFile {
    layout: Layout,
    bytes: Vec<u8>,
    length: usize,
}

impl Model for DiskFile {
    ghost use Rattle.std.specs.Prelude.{take};
    ghost use Rattle.disk_layouts.specs.Files.{Disk};
    ghost use Rattle.disk_layouts.specs.Kept.{IsKept};

    ghost Value = { Disk };

    ghost view = { λ file. record { layout = file.layout; bytes = take file.length file.bytes.items } };

    ghost invariant = { λ file. IsKept file.layout file.bytes.items file.length };
}

impl DiskFile {
    /// The file of these bytes. A disk has at most 3,325,952, and what is after its end reads as zeros. A DECtape has just 380,292
    /// (OS/8 Software Support Manual; SIMH's files of both). The memory that a change needs is taken here.
    pub fn new(bytes: Vec<u8>, layout: Layout) -> Result<DiskFile, DiskFault>
        ensures { Opens layout bytes.items result }
    {
        let length = bytes.len();
        judge(length, layout)?;
        let mut whole = bytes;
        fill_up(&mut whole, most_bytes(layout))?;
        Ok(DiskFile {
            layout,
            bytes: whole,
            length,
        })
    }

    /// The image of the volume: 1,662,976 bytes of a disk, 377,344 of a DECtape.
    pub fn volume(&self, alloc: Global) -> Result<Vec<u8>, AllocError>
        ensures { IfOk result (λ image. IsImageIn self.now.layout self.now.bytes image.items) }
    {
        volume_of(alloc, self.layout, self.bytes.as_slice())
    }

    /// Lays an image in place of the volume's bytes, and says whether it has as many as the volume: one of another size leaves the
    /// file as it is. The file gets longer only where a block of the volume that isn't zeros alone ends after it. No memory is taken.
    pub fn lay(&mut self, image: &[u8]) -> bool
        ensures { Lays self.old image.now result self.new }
    {
        if image.len() != image_size(self.layout) {
            return false;
        }
        let used = used_blocks(image);
        put_volume(self.layout, self.bytes.as_mut_slice(), image);
        self.length = self.length.max(needed_bytes(self.layout, used));
        true
    }

    /// The bytes of the file as it is to be written.
    pub fn bytes(&self) -> &[u8]
        ensures { result.now ≡ self.now.bytes }
    {
        &self.bytes[..self.length]
    }
}

/// A new DECtape with this image of its volume of 737 blocks, each 129th word 0. An image of another size is `NoTape` (OS/8 Software
/// Support Manual; SIMH's files of the TU56).
pub fn blank_tape(alloc: Global, image: &[u8]) -> Result<Vec<u8>, DiskFault>
    ensures { MakesTape image.now result }
{
    if image.len() != TAPE_VOLUME {
        return Err(DiskFault::NoTape);
    }
    let mut file = Vec::new(alloc);
    fill_up(&mut file, TAPE)?;
    put_volume(Layout::Dectape, &mut file, image);
    Ok(file)
}

/// Whether a file of so many bytes may be read at a layout.
fn judge(size: usize, layout: Layout) -> Result<(), DiskFault>
    ensures { Judges layout size result }
{
    match layout {
        Layout::First | Layout::Second => {
            if size > DISK {
                return Err(DiskFault::TooLong);
            }
        }
        Layout::Dectape => {
            if size != TAPE {
                return Err(DiskFault::NoTape);
            }
        }
    }
    Ok(())
}

/// How many bytes a whole disk or DECtape has.
fn most_bytes(layout: Layout) -> usize
    ensures { result ≡ most_of layout }
{
    match layout {
        Layout::First | Layout::Second => DISK,
        Layout::Dectape => TAPE,
    }
}

/// Where the last of so many blocks of the volume ends in the file.
fn needed_bytes(layout: Layout, blocks: usize) -> usize
    requires { 512 * blocks ≤ size_of_image layout }
    ensures { result ≡ needed_of layout blocks }
{
    match layout {
        Layout::First => 512 * blocks,
        Layout::Second => {
            if blocks == 0 {
                0
            } else {
                DISK_VOLUME + 512 * blocks
            }
        }
        Layout::Dectape => 0,
    }
}

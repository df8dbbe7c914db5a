//! Bytes of a volume copied from where they lie in a file, and to there.
ghost use Rattle.std.specs.Prelude.{◌≡◌, ℕ, ◌+◌, ◌*◌, ◌%◌, ◌/◌, ◌<◌, ◌≤◌, ◌↔◌, IsTrue, length, slice_index, IfOk, OnOk};
ghost use Rattle.disk_layouts.specs.Disks.{image_size, place, IsImageIn, IsOutside};
ghost use Rattle.disk_layouts.specs.Files.{IsUsed};
ghost use Rattle.disk_layouts.specs.Kept.{most_bytes};
ghost use Rattle.disk_layouts.specs.declared.layouts.Layout.TheVariants.{Dectape};
ghost use Rattle.disk_layouts.specs.declared.sizes.TheConstants.{TAPE, TAPE_VOLUME};

use crate::Layout;
use crate::sizes::{DISK_VOLUME, TAPE_VOLUME};
use std::alloc::{AllocError, Global};

/// Whether so many bytes of an image, from one of them on, are all 0.
fn is_blank(image: &[u8], from: usize, size: usize) -> bool
    requires { from + size ≤ length image.now }
    ensures { IsTrue result ↔ ((k : ℕ) → k < size → slice_index image.now (from + k) ≡ 0) }
{
    let part = &image[from..from + size];
    part.iter().all(|byte| *byte == 0)
}

/// How many blocks of an image there are up to the last that isn't zeros alone.
pub(crate) fn used_blocks(image: &[u8]) -> usize
    requires { length image.now % 512 ≡ 0 }
    ensures used { IsUsed image.now result }
    ensures most { 512 * result ≤ length image.now }
{
    let mut blocks = image.len() / 512;
    while blocks > 0 && is_blank(image, 512 * (blocks - 1), 512) {
        blocks -= 1;
    }
    blocks
}

/// Puts so many bytes of an image, from one of them on, in a file at a place.
fn copy_at(file: &mut [u8], at: usize, image: &[u8], from: usize, size: usize)
    requires file { at + size ≤ length file.old }
    requires image { from + size ≤ length image.now }
    ensures part { (k : ℕ) → k < size
        → slice_index file.new (at + k) ≡ slice_index image.now (from + k) }
    ensures before { (k : ℕ) → k < at → slice_index file.new k ≡ slice_index file.old k }
    ensures following { (k : ℕ) → at + size ≤ k → slice_index file.new k ≡ slice_index file.old k }
{
    file[at..at + size].copy_from_slice(&image[from..from + size]);
}

/// Puts the image of a DECtape's volume in its file, 256 bytes in each 258.
fn put_tape(file: &mut [u8], image: &[u8])
    requires file { length file.old ≡ TAPE }
    requires image { length image.now ≡ TAPE_VOLUME }
    ensures volume { (k : ℕ) → k < TAPE_VOLUME
        → slice_index file.new (place Dectape k) ≡ slice_index image.now k }
    ensures others { (at : ℕ) → IsOutside Dectape at
        → slice_index file.new at ≡ slice_index file.old at }
{
    for number in 0..1474 {
        copy_at(file, 258 * number, image, 256 * number, 256);
    }
}

/// Puts the image of a volume in the file of a whole disk or DECtape.
pub(crate) fn put_volume(layout: Layout, file: &mut [u8], image: &[u8])
    requires file { length file.old ≡ most_bytes layout }
    requires image { length image.now ≡ image_size layout }
    ensures volume { (k : ℕ) → k < image_size layout
        → slice_index file.new (place layout k) ≡ slice_index image.now k }
    ensures others { (at : ℕ) → IsOutside layout at
        → slice_index file.new at ≡ slice_index file.old at }
{
    match layout {
        Layout::First => copy_at(file, 0, image, 0, DISK_VOLUME),
        Layout::Second => copy_at(file, DISK_VOLUME, image, 0, DISK_VOLUME),
        Layout::Dectape => put_tape(file, image),
    }
}

/// The image of the volume of a whole DECtape.
fn tape_volume(alloc: Global, file: &[u8]) -> Result<Vec<u8>, AllocError>
    requires { length file.now ≡ TAPE }
    ensures { IfOk result (λ image. IsImageIn Dectape file.now image.items) }
{
    let mut image = Vec::with_capacity(alloc, TAPE_VOLUME)?;
    for number in 0..1474 {
        image.extend_from_slice(&file[258 * number..258 * number + 256])?;
    }
    Ok(image)
}

/// So many bytes of a file, from one of them on.
fn part_of(alloc: Global, file: &[u8], at: usize, size: usize) -> Result<Vec<u8>, AllocError>
    requires { at + size ≤ length file.now }
    ensures size { IfOk result (λ part. length part.items ≡ size) }
    ensures bytes { IfOk result (λ part. (k : ℕ) → k < size
        → slice_index part.items k ≡ slice_index file.now (at + k)) }
{
    Vec::from_slice(alloc, &file[at..at + size])
}

/// The image of a volume in the file of a whole disk or DECtape.
pub(crate) fn volume_of(alloc: Global, layout: Layout, file: &[u8]) -> Result<Vec<u8>, AllocError>
    requires { length file.now ≡ most_bytes layout }
    ensures { IfOk result (λ image. IsImageIn layout file.now image.items) }
{
    match layout {
        Layout::First => part_of(alloc, file, 0, DISK_VOLUME),
        Layout::Second => part_of(alloc, file, DISK_VOLUME, DISK_VOLUME),
        Layout::Dectape => tape_volume(alloc, file),
    }
}

/// Puts zeros after bytes until there are so many.
pub(crate) fn fill_up(bytes: &mut Vec<u8>, size: usize) -> Result<(), AllocError>
    requires { length bytes.old.items ≤ size }
    ensures size { OnOk result (length bytes.new.items ≡ size) }
    ensures same { OnOk result ((k : ℕ)
        → slice_index bytes.new.items k ≡ slice_index bytes.old.items k) }
{
    bytes.resize(size, 0)?;
    Ok(())
}

ghost use Rattle.std.specs.Prelude.{◌≡◌, ◌+◌, ◌≤◌, ◌<◌, length};
ghost use Rattle.image_kind.specs.Kinds as spec;
ghost use Rattle.image_kind.specs.declared.directories.TheConstants.{BLOCK_BYTES};

use crate::directories::{BLOCK_BYTES, Blocks, TAPE_BLOCK_BYTES, directory_end, is_sound};
use crate::heads::is_head;
use disk_layouts::{DISK, DISK_VOLUME, TAPE};

/// How the blocks of volumes lie in a file.
#[derive(Clone, Copy, PartialEq, Eq, Debug)]
pub enum Form {
    /// A volume: 8 to 4095 blocks of 512 bytes.
    Volume,

    /// An RK05 disk of two volumes of 3248 blocks, or as much of it as was written.
    Disk,

    /// A DECtape of 1474 blocks of 129 words.
    Dectape,
}

/// What a file holds, and how many bytes before and after it are none of it.
#[derive(Clone, Copy, PartialEq, Eq, Debug)]
pub struct ImageKind {
    pub form: Form,
    pub before: usize,
    pub after: usize,
}

/// What a file may be read as.
#[derive(Clone, Copy, PartialEq, Eq, Debug)]
pub struct Readings {
    /// What it is taken for, if anything is known of it.
    pub first: Option<ImageKind>,

    /// What it may be as well.
    pub other: Option<ImageKind>,
}

/// The bytes of the largest volume.
const LARGEST: usize = 2096640;

/// The blocks of a volume of a disk.
const DISK_BLOCKS: u16 = 3248;

/// The blocks of the volume of a DECtape.
const TAPE_BLOCKS: u16 = 737;

/// What a file holds; none where nothing is known of it.
pub fn kind_of(bytes: &[u8]) -> Option<ImageKind>
    ensures { result ≡ spec.kind_of bytes.now }
{
    let Readings { first, other: _ } = readings_of(bytes);
    first
}

/// What a file may be read as. Whole blocks, 8 to 4095 of them, with a whole directory are a volume; one that covers at most 3248 of more
/// may be the first of a disk. Else a DECtape is of exactly its length and a disk of two volumes of at most its own, where a directory begins.
/// Else it is what has a whole directory after a header, or before a trailer, of fewer bytes than a block has. Several of these may fit (OS/8
/// Software Support Manual; SIMH's files of the RK05 and of the TU56; the order is this project's profile). No memory is taken.
#[tactic(auto, unfolding(crate::specs::Kinds::readings_of))]
pub fn readings_of(bytes: &[u8]) -> Readings
    ensures { result ≡ spec.readings_of bytes.now }
{
    match told_kind(bytes) {
        Some(kind) => Readings {
            first: Some(kind),
            other: None,
        },
        None => readings_beside(bytes),
    }
}

/// What is known of a file by itself, or else by its length.
fn told_kind(bytes: &[u8]) -> Option<ImageKind>
    ensures { result ≡ spec.told_kind bytes.now }
{
    if let Some(kind) = whole_volume(bytes) {
        return Some(kind);
    }
    kind_by_length(bytes)
}

/// A file of this form, with so many bytes before its volumes and after them.
fn kind_with(form: Form, before: usize, after: usize) -> Option<ImageKind>
    ensures { result ≡ spec.kind_with form before after }
{
    Some(ImageKind {
        form,
        before,
        after,
    })
}

/// How many whole blocks so many bytes are, as far as a volume goes.
fn volume_blocks(size: usize) -> u16
    ensures { result ≡ spec.volume_blocks size }
{
    (size / BLOCK_BYTES).min(4095) as u16
}

/// Whether a whole directory reads through after so many bytes, in a volume of as many blocks as the file has.
fn is_volume_at(bytes: &[u8], before: u32) -> bool
    ensures { result ≡ spec.is_volume_at bytes.now before }
{
    is_sound(
        bytes,
        Blocks {
            is_tape: false,
            start: before,
            count: volume_blocks(bytes.len()),
        },
    )
}

/// Whether so many bytes are 8 to 4095 whole blocks.
fn are_blocks(size: usize) -> bool
    ensures { result ≡ spec.are_blocks size }
{
    size % BLOCK_BYTES == 0 && (8 * BLOCK_BYTES <= size && size <= LARGEST)
}

/// Whether the directory of such a file covers more than the first volume of a disk, where the file has more.
fn is_past_disk_volume(bytes: &[u8]) -> bool
    ensures { result ≡ spec.is_past_disk_volume bytes.now }
{
    if bytes.len() <= DISK_VOLUME {
        return true;
    }
    let blocks = Blocks {
        is_tape: false,
        start: 0,
        count: volume_blocks(bytes.len()),
    };
    directory_end(bytes, blocks) > DISK_BLOCKS
}

/// Whole blocks with a whole directory, whatever stands in them.
fn whole_volume(bytes: &[u8]) -> Option<ImageKind>
    ensures { result ≡ spec.whole_volume bytes.now }
{
    if are_blocks(bytes.len()) && is_volume_at(bytes, 0) && is_past_disk_volume(bytes) {
        return kind_with(Form::Volume, 0, 0);
    }
    None
}

/// Whether a directory begins in block 1 of one of a disk's volumes: in the second, where the file may be one volume.
fn has_disk_head(bytes: &[u8]) -> bool
    ensures { result ≡ spec.has_disk_head bytes.now }
{
    if is_head(bytes, DISK_VOLUME + BLOCK_BYTES, DISK_BLOCKS) {
        return true;
    }
    bytes.len() > LARGEST && is_head(bytes, BLOCK_BYTES, DISK_BLOCKS)
}

/// A DECtape of exactly its length, or a disk, which may end early, but not in its first volume.
fn kind_by_length(bytes: &[u8]) -> Option<ImageKind>
    ensures { result ≡ spec.kind_by_length bytes.now }
{
    let size = bytes.len();
    if size == TAPE && is_head(bytes, 2 * TAPE_BLOCK_BYTES, TAPE_BLOCKS) {
        return kind_with(Form::Dectape, 0, 0);
    }
    if DISK_VOLUME < size && (size <= DISK && has_disk_head(bytes)) {
        return kind_with(Form::Disk, 0, 0);
    }
    None
}

/// How many bytes, fewer than a block has, a file of so many has beyond its form's; 0 where it has none, or can't be of the form.
fn excess(form: Form, size: usize) -> u32
    ensures value { result ≡ spec.excess form size }
    ensures few { result < BLOCK_BYTES }
{
    let more = match form {
        Form::Dectape => {
            if size >= TAPE + BLOCK_BYTES {
                return 0;
            }
            size.saturating_sub(TAPE)
        }
        Form::Disk => {
            if size >= DISK + BLOCK_BYTES {
                return 0;
            }
            size.saturating_sub(DISK)
        }
        Form::Volume => {
            if size < 8 * BLOCK_BYTES || size >= LARGEST + BLOCK_BYTES {
                return 0;
            }
            size % BLOCK_BYTES
        }
    };
    more as u32
}

/// Whether a whole directory of the form reads through after so many bytes: of a disk that of one of its volumes.
fn is_form_at(bytes: &[u8], form: Form, before: u32) -> bool
    requires { before < BLOCK_BYTES }
    ensures { result ≡ spec.is_form_at bytes.now form before }
{
    match form {
        Form::Dectape => is_sound(
            bytes,
            Blocks {
                is_tape: true,
                start: before,
                count: TAPE_BLOCKS,
            },
        ),
        Form::Disk => is_disk_volume(bytes, before)
            || is_disk_volume(bytes, before + DISK_VOLUME as u32),
        Form::Volume => is_volume_at(bytes, before),
    }
}

/// Whether a whole directory of a disk's volume reads through after so many bytes.
fn is_disk_volume(bytes: &[u8], start: u32) -> bool
    ensures { result ≡ spec.is_disk_volume bytes.now start }
{
    is_sound(
        bytes,
        Blocks {
            is_tape: false,
            start,
            count: DISK_BLOCKS,
        },
    )
}

/// A file of the form with a trailer.
fn with_trailer(bytes: &[u8], form: Form) -> Option<ImageKind>
    ensures { result ≡ spec.with_trailer bytes.now form }
{
    let more = excess(form, bytes.len());
    if more > 0 && is_form_at(bytes, form, 0) {
        return kind_with(form, 0, more as usize);
    }
    None
}

/// A file of the form with a header.
fn with_header(bytes: &[u8], form: Form) -> Option<ImageKind>
    ensures { result ≡ spec.with_header bytes.now form }
{
    let more = excess(form, bytes.len());
    if more > 0 && is_form_at(bytes, form, more) {
        return kind_with(form, more as usize, 0);
    }
    None
}

/// The readings so far and one more, if it fits; more than two are as two.
fn with_reading(found: Readings, kind: Option<ImageKind>) -> Readings
    ensures { result ≡ spec.with_reading found kind }
{
    let Some(kind) = kind else {
        return found;
    };
    let Readings { first, other } = found;
    if first.is_none() {
        return Readings {
            first: Some(kind),
            other,
        };
    }
    if other.is_none() {
        return Readings {
            first,
            other: Some(kind),
        };
    }
    found
}

/// The readings so far and those of this form, with a trailer and with a header.
fn with_readings(bytes: &[u8], form: Form, found: Readings) -> Readings
    ensures { result ≡ spec.with_readings bytes.now form found }
{
    let one = with_reading(found, with_trailer(bytes, form));
    with_reading(one, with_header(bytes, form))
}

/// All readings with a header or a trailer that fit.
fn readings_beside(bytes: &[u8]) -> Readings
    ensures { result ≡ spec.readings_beside bytes.now }
{
    let none = Readings {
        first: None,
        other: None,
    };
    let tapes = with_readings(bytes, Form::Dectape, none);
    let disks = with_readings(bytes, Form::Disk, tapes);
    with_readings(bytes, Form::Volume, disks)
}

ghost use Rattle.std.specs.Prelude.{IfOk};
ghost use Rattle.file_kind.specs.Kinds.{IsKind};

use crate::KindFault;
use crate::judges::{core_start, is_bin, is_rim};
use crate::texts::{all_zero, is_text};
use std::alloc::Global;
use word12::Cell;

/// What a file holds.
#[derive(Clone, Copy, PartialEq, Eq, Debug)]
pub enum FileKind {
    /// Nothing but zeros.
    Zeros,

    /// A core image, whose program starts at this cell.
    Core(Cell),

    /// A BIN tape, and what follows it.
    Bin,

    /// A RIM tape, and what follows it.
    Rim,

    /// A text.
    Text,

    /// None of these.
    Unknown,
}

/// What these frames are: the first that fits of zeros alone, a core image, a BIN tape, a RIM tape, a text. Each is as its own crate has
/// it, by the public source that is named there. The order is this project's profile.
pub fn kind_of(alloc: Global, frames: &[u8]) -> Result<FileKind, KindFault>
    ensures { IfOk result (IsKind frames.now) }
{
    if all_zero(frames) {
        return Ok(FileKind::Zeros);
    }
    if let Some(start) = core_start(alloc, frames)? {
        return Ok(FileKind::Core(start));
    }
    if is_bin(frames) {
        return Ok(FileKind::Bin);
    }
    if is_rim(alloc, frames) {
        return Ok(FileKind::Rim);
    }
    if is_text(frames) {
        return Ok(FileKind::Text);
    }
    Ok(FileKind::Unknown)
}

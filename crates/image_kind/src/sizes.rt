//! How many bytes and words an image file has that is mended.
ghost use Rattle.std.specs.Prelude.{◌≡◌, ◌<◌};
ghost use Rattle.image_kind.specs.Sizes as spec;

use crate::{ImageKind, Margins, Volumes, may_be};
use disk_layouts::{DISK, Layout, TAPE};
use word12::{BLOCK, MOST_BLOCKS};

/// The fewest blocks of a volume.
const LEAST_BLOCKS: usize = 8;

/// The words of a block of a DECtape.
const TAPE_BLOCK: usize = 129;

/// How many bytes a file of so many has when it is mended. One of a kind that may be read as it is asked for keeps its length.
pub(crate) fn mended_size(given: Option<Layout>, kind: Option<ImageKind>, size: usize) -> usize
    ensures { result ≡ spec.mended_size given kind size }
{
    match kind {
        None => fitted_size(given, size),
        Some(kind) => {
            if may_be(given, kind.form) {
                return size;
            }
            fitted_size(given, size)
        }
    }
}

/// The length nearest to this one that a file has which is read so.
fn fitted_size(given: Option<Layout>, size: usize) -> usize
    ensures { result ≡ spec.fitted_size given size }
{
    match given {
        None => 512 * size.div_ceil(512).max(LEAST_BLOCKS).min(MOST_BLOCKS),
        Some(Layout::First | Layout::Second) => size.min(DISK),
        Some(Layout::Dectape) => TAPE,
    }
}

/// How many words lie between the margins of a file of so many bytes.
pub(crate) fn words_within(margins: Margins, size: usize) -> usize
    ensures { result ≡ spec.words_within margins size }
{
    size.saturating_sub(margins.before)
        .saturating_sub(margins.after)
        / 2
}

/// How many words a block has of the file with these volumes.
pub(crate) fn block_words(volumes: Volumes) -> usize
    ensures value { result ≡ spec.block_words volumes }
    ensures some { 0 < result }
{
    match volumes {
        Volumes::One(Some(Layout::Dectape)) => TAPE_BLOCK,
        _ => BLOCK,
    }
}

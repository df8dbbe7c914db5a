//! An image file with its faults mended.
ghost use Rattle.std.specs.Prelude.{◌≡◌, ◌++◌, ℕ, ◌+◌, ◌-◌, ◌*◌, ◌/◌, ◌%◌, ◌≤◌, ◌<◌, length, slice_index, IfOk, OnOk};
ghost use Rattle.image_kind.specs.Mending.{IsMended, wide_word, wide_words};
ghost use Rattle.image_kind.specs.Steps.{AreOff};

use crate::sizes::{block_words, mended_size, words_within};
use crate::{judged_kind, margins_with, volumes_with};
use disk_layouts::Layout;
use std::alloc::{AllocError, Global};

/// A word of the volumes of a file that has more than twelve bits.
#[derive(Clone, Copy, PartialEq, Eq, Debug)]
pub struct WideWord {
    /// Its block, counted from 0 over the volumes of the file.
    pub block: usize,
    /// Its number in the block, from 0.
    pub word: usize,
    /// Its sixteen bits.
    pub bits: u16,
}

/// An image file with its faults mended, and what was done for it.
#[derive(Drop)]
pub struct MendedFile {
    pub bytes: Vec<u8>,
    /// The words of which the top bits were taken off, in their order.
    pub wide: Vec<WideWord>,
    /// How many bytes of zeros were added after the end.
    pub zeros: usize,
    /// How many bytes were cut from the end.
    pub cut: usize,
}

/// An image file with its faults mended, of which a volume is asked for, or each that it has by its kind. Of each word of the volumes the
/// top four bits are off. A length that no such file has becomes the nearest one: zeros are added, or bytes are cut from the end. Bytes that
/// are none of the volumes stay as they are. `AllocError` comes where memory is refused (this project's profile).
pub fn mend_file(
    alloc: Global,
    given: Option<Layout>,
    is_plain: bool,
    file: Vec<u8>,
) -> Result<MendedFile, AllocError>
    ensures { IfOk result (λ it. IsMended given is_plain file.items it) }
{
    let kind = judged_kind(is_plain, &file);
    let margins = margins_with(given, kind);
    let block = block_words(volumes_with(given, kind));
    let old = file.len();
    let new = mended_size(given, kind, old);
    let words = words_within(margins, new);
    let mut bytes = file;
    fit(&mut bytes, new)?;
    let wide = wide_words_in(alloc, &bytes, margins.before, words, block)?;
    take_off_bits(&mut bytes, margins.before, words);
    Ok(MendedFile {
        bytes,
        wide,
        zeros: new.saturating_sub(old),
        cut: old.saturating_sub(new),
    })
}

/// Cuts bytes, or adds zeros after them, so that there are so many.
fn fit(bytes: &mut Vec<u8>, size: usize) -> Result<(), AllocError>
    ensures size { OnOk result (length bytes.new.items ≡ size) }
    ensures same { OnOk result ((k : ℕ) → k < size → slice_index bytes.new.items k ≡ slice_index bytes.old.items k) }
{
    if size < bytes.len() {
        bytes.truncate(size);
        return Ok(());
    }
    bytes.resize(size, 0)?;
    Ok(())
}

/// Those of so many words from a byte on that have more than twelve bits.
fn wide_words_in(
    alloc: Global,
    bytes: &[u8],
    start: usize,
    count: usize,
    block: usize,
) -> Result<Vec<WideWord>, AllocError>
    requires words { count ≤ (length bytes.now - start) / 2 }
    requires block { 0 < block }
    ensures { IfOk result (λ wide. wide.items ≡ wide_words block bytes.now start count) }
{
    let mut wide = Vec::new(alloc);
    for number in 0..count {
        add_if_wide(bytes, start, number, block, &mut wide)?;
    }
    Ok(wide)
}

/// Appends the word of this number from a byte on, if it has more than twelve bits.
fn add_if_wide(
    bytes: &[u8],
    start: usize,
    number: usize,
    block: usize,
    wide: &mut Vec<WideWord>,
) -> Result<(), AllocError>
    requires words { number < (length bytes.now - start) / 2 }
    requires block { 0 < block }
    ensures { OnOk result (wide.new.items ≡ wide.old.items ++ wide_word block bytes.now start number) }
{
    let at = start + 2 * number;
    let bits = u16::from(bytes[at]) + 256 * u16::from(bytes[at + 1]);
    if bits >= 0o10000 {
        wide.push(WideWord {
            block: number / block,
            word: number % block,
            bits,
        })?;
    }
    Ok(())
}

/// Takes the top four bits off so many words from a byte on.
fn take_off_bits(bytes: &mut Vec<u8>, start: usize, count: usize)
    requires { count ≤ (length bytes.old.items - start) / 2 }
    ensures { AreOff start count bytes.old.items bytes.new.items }
{
    take_off_slice(bytes, start, count);
}

/// Takes them off in a slice.
fn take_off_slice(bytes: &mut [u8], start: usize, count: usize)
    requires { count ≤ (length bytes.old - start) / 2 }
    ensures { AreOff start count bytes.old bytes.new }
{
    for number in 0..count {
        let high = start + 2 * number + 1;
        bytes[high] = bytes[high] % 16;
    }
}

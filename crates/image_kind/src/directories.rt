//! Whether a whole directory reads through.
ghost use Rattle.std.specs.Prelude.{◌≡◌, ◌≤◌, ◌<◌, slice_index, IfSome};
ghost use Rattle.image_kind.specs.Directories as spec;
ghost use Rattle.image_kind.specs.Heads.{minus as minus_of};

use crate::names::are_single;

/// Where the blocks of a volume lie in a file.
#[derive(Clone, Copy, PartialEq, Eq, Debug)]
pub struct Blocks {
    /// Whether they lie as on a DECtape.
    pub is_tape: bool,

    /// The first byte of block 0.
    pub start: u32,

    /// How many there are.
    pub count: u16,
}

/// The most segments of a directory.
const MOST_SEGMENTS: u16 = 6;

/// The words of a block.
pub(crate) const BLOCK_WORDS: u16 = 0o400;

/// The bytes of a block.
pub(crate) const BLOCK_BYTES: usize = 512;

/// The bytes of a block of a DECtape's file: those of 129 words.
pub(crate) const TAPE_BLOCK_BYTES: usize = 258;

/// The most information words of an entry (this project's profile).
const MOST_INFORMATION: u16 = 10;

/// Whether a whole directory reads through in these blocks of a file. Its segments follow one another from block 1 on, and all entries lie
/// in their segments and in the volume. No two files have the same name. No memory is taken (OS/8 Software Support Manual).
#[tactic(auto, unfolding(crate::specs::Directories::is_sound))]
pub fn is_sound(bytes: &[u8], blocks: Blocks) -> bool
    ensures { result ≡ spec.is_sound bytes.now blocks }
{
    let info = minus(word(bytes, blocks, 1, 4));
    let first = word(bytes, blocks, 1, 1);
    info <= MOST_INFORMATION
        && (first >= 7
            && (first <= blocks.count
                && (are_in_place(bytes, blocks) && are_single(bytes, blocks, info))))
}

/// A byte of a file, 0 after its end.
fn byte(bytes: &[u8], at: usize) -> u16
    ensures value { result ≡ slice_index bytes.now at }
    ensures range { result < 0o400 }
{
    if at < bytes.len() {
        return u16::from(bytes[at]);
    }
    0
}

/// The low twelve bits of word k of block n.
#[tactic(auto, unfolding(crate::specs::Directories::word))]
pub(crate) fn word(bytes: &[u8], blocks: Blocks, n: u16, k: u16) -> u16
    ensures value { result ≡ spec.word bytes.now blocks n k }
    ensures range { result < 0o10000 }
{
    let at = byte_of(blocks, usize::from(n), usize::from(k));
    (byte(bytes, at) + 0o400 * byte(bytes, at + 1)) % 0o10000
}

/// The first byte of word k of block n.
fn byte_of(blocks: Blocks, n: usize, k: usize) -> usize
    requires block { n < 0x10000 }
    requires word { k < 0x10000 }
    ensures value { result ≡ spec.byte_of blocks n k }
    ensures range { result < 10000000000 }
{
    let start = blocks.start as usize;
    if blocks.is_tape {
        return start + TAPE_BLOCK_BYTES * (2 * n + k / 0o200) + 2 * (k % 0o200);
    }
    start + BLOCK_BYTES * n + 2 * k
}

/// Minus a word.
fn minus(word: u16) -> u16
    requires { word < 0o10000 }
    ensures value { result ≡ minus_of word }
    ensures range { result < 0o10000 }
{
    (0o10000 - word) % 0o10000
}

/// How many words the entry has that begins with word k of block n.
pub(crate) fn entry_words(bytes: &[u8], blocks: Blocks, info: u16, n: u16, k: u16) -> u16
    requires { info < 0o10000 }
    ensures value { result ≡ spec.entry_words bytes.now blocks info n k }
    ensures range { result < 0o10005 }
    ensures some { 2 ≤ result }
{
    if word(bytes, blocks, n, k) == 0 {
        return 2;
    }
    5 + info
}

/// How many blocks it has.
pub(crate) fn entry_length(bytes: &[u8], blocks: Blocks, info: u16, n: u16, k: u16) -> u16
    requires info { info < 0o10000 }
    requires word { k ≤ 0o400 }
    ensures value { result ≡ spec.entry_length bytes.now blocks info n k }
    ensures range { result < 0o10000 }
{
    let last = k + entry_words(bytes, blocks, info, n, k) - 1;
    minus(word(bytes, blocks, n, last))
}

/// What comes after an entry, as a word of its segment and as a block.
fn after_entry(
    bytes: &[u8],
    blocks: Blocks,
    info: u16,
    n: u16,
    at: Option<(u16, u16)>,
) -> Option<(u16, u16)>
    requires info { info < 0o10000 }
    requires range { IfSome at (λ at. at.0 ≤ 0o400) }
    ensures value { result ≡ spec.after_entry bytes.now blocks info n at }
    ensures range { IfSome result (λ at. at.0 ≤ 0o400) }
{
    let (k, place) = at?;
    let end = k + entry_words(bytes, blocks, info, n, k);
    let length = entry_length(bytes, blocks, info, n, k);
    if end <= BLOCK_WORDS && (place <= blocks.count && length <= blocks.count - place) {
        return Some((end, place + length));
    }
    None
}

/// The word and the block after so many entries of a segment, the first of which begins at a block.
fn after_entries(
    bytes: &[u8],
    blocks: Blocks,
    info: u16,
    n: u16,
    place: u16,
    count: u16,
) -> Option<(u16, u16)>
    requires { info < 0o10000 }
    ensures { result ≡ spec.after_entries bytes.now blocks info n place count }
{
    let mut at = Some((5, place));
    for number in 0..count {
        at = after_entry(bytes, blocks, info, n, at);
    }
    at
}

/// How many entries a segment has.
pub(crate) fn entry_count(bytes: &[u8], blocks: Blocks, n: u16) -> u16
    ensures { result ≡ spec.entry_count bytes.now blocks n }
{
    minus(word(bytes, blocks, n, 0))
}

/// The next segment, or 0, and the block after the last entry so far, once the segment in block n was read.
fn after_segment(
    bytes: &[u8],
    blocks: Blocks,
    info: u16,
    at: Option<(u16, u16)>,
) -> Option<(u16, u16)>
    requires { info < 0o10000 }
    ensures { result ≡ spec.after_segment bytes.now blocks info at }
{
    let (n, place) = at?;
    if n == 0 {
        return Some((0, place));
    }
    if n <= 6 && (minus(word(bytes, blocks, n, 4)) == info && word(bytes, blocks, n, 1) == place) {
        let count = entry_count(bytes, blocks, n);
        let (_, end) = after_entries(bytes, blocks, info, n, place, count)?;
        return Some((word(bytes, blocks, n, 2), end));
    }
    None
}

/// The same after so many segments, from the one in block 1 on.
fn after_segments(bytes: &[u8], blocks: Blocks, count: u16) -> Option<(u16, u16)>
    ensures { result ≡ spec.after_segments bytes.now blocks count }
{
    let info = minus(word(bytes, blocks, 1, 4));
    let mut at = Some((1, word(bytes, blocks, 1, 1)));
    for number in 0..count {
        at = after_segment(bytes, blocks, info, at);
    }
    at
}

/// Whether the segments follow one another to the last, of six at most, and each entry lies in its segment and in the volume.
fn are_in_place(bytes: &[u8], blocks: Blocks) -> bool
    ensures { result ≡ spec.is_end (spec.after_segments bytes.now blocks 6) }
{
    match after_segments(bytes, blocks, MOST_SEGMENTS) {
        Some((n, _)) => n == 0,
        None => false,
    }
}

/// The block after the last entry of a directory; 0 where its segments don't follow one another.
#[tactic(auto, unfolding(crate::specs::Directories::directory_end))]
pub(crate) fn directory_end(bytes: &[u8], blocks: Blocks) -> u16
    ensures { result ≡ spec.directory_end bytes.now blocks }
{
    match after_segments(bytes, blocks, MOST_SEGMENTS) {
        Some((_, place)) => place,
        None => 0,
    }
}

//! Whether no two files of a directory have the same name.
ghost use Rattle.std.specs.Prelude.{◌≡◌, ◌≤◌, ◌<◌};
ghost use Rattle.image_kind.specs.Directories as spec;

use crate::directories::{BLOCK_WORDS, Blocks, entry_count, entry_length, entry_words, word};

/// Whether no two files of a directory of so many information words have the same name.
pub(crate) fn are_single(bytes: &[u8], blocks: Blocks, info: u16) -> bool
    requires { info < 0o10000 }
    ensures { result ≡ (spec.single_segments bytes.now blocks info 6).1 }
{
    let (_, are) = single_segments(bytes, blocks, info, 6);
    are
}

/// The name of an entry as one number.
fn name_at(bytes: &[u8], blocks: Blocks, n: u16, k: u16) -> u64
    requires { k ≤ 0o400 }
    ensures { result ≡ spec.name_at bytes.now blocks n k }
{
    let one = u64::from(word(bytes, blocks, n, k));
    let two = u64::from(word(bytes, blocks, n, k + 1));
    let three = u64::from(word(bytes, blocks, n, k + 2));
    let four = u64::from(word(bytes, blocks, n, k + 3));
    ((one * 0o10000 + two) * 0o10000 + three) * 0o10000 + four
}

/// Whether an entry is a file.
fn is_file(bytes: &[u8], blocks: Blocks, info: u16, n: u16, k: u16) -> bool
    requires info { info < 0o10000 }
    requires word { k ≤ 0o400 }
    ensures { result ≡ spec.is_file bytes.now blocks info n k }
{
    word(bytes, blocks, n, k) != 0 && entry_length(bytes, blocks, info, n, k) != 0
}

/// The word after an entry.
fn next_word(bytes: &[u8], blocks: Blocks, info: u16, n: u16, k: u16) -> u16
    requires info { info < 0o10000 }
    requires word { k ≤ 0o400 }
    ensures value { result ≡ spec.next_word bytes.now blocks info n k }
    ensures range { result ≤ 0o400 }
{
    (k + entry_words(bytes, blocks, info, n, k)).min(BLOCK_WORDS)
}

/// How often a name was seen, once more where an entry is its file.
fn count_at(bytes: &[u8], blocks: Blocks, info: u16, n: u16, name: u64, k: u16, times: u8) -> u8
    requires info { info < 0o10000 }
    requires word { k ≤ 0o400 }
    requires times { times ≤ 2 }
    ensures value { result ≡ spec.count_at bytes.now blocks info n name k times }
    ensures range { result ≤ 2 }
{
    if is_file(bytes, blocks, info, n, k) && name_at(bytes, blocks, n, k) == name {
        return (times + 1).min(2);
    }
    times
}

/// The word after so many entries of a segment, and how often the name was seen by then.
fn count_in(
    bytes: &[u8],
    blocks: Blocks,
    info: u16,
    n: u16,
    name: u64,
    times: u8,
    count: u16,
) -> (u16, u8)
    requires info { info < 0o10000 }
    requires times { times ≤ 2 }
    ensures value { result ≡ spec.count_in bytes.now blocks info n name times count }
    ensures range { result.1 ≤ 2 }
{
    let mut k = 5;
    let mut seen = times;
    for number in 0..count {
        seen = count_at(bytes, blocks, info, n, name, k, seen);
        k = next_word(bytes, blocks, info, n, k);
    }
    (k, seen)
}

/// The next segment, and how often the name was seen after one.
fn count_in_segment(
    bytes: &[u8],
    blocks: Blocks,
    info: u16,
    name: u64,
    n: u16,
    times: u8,
) -> (u16, u8)
    requires info { info < 0o10000 }
    requires times { times ≤ 2 }
    ensures value { result ≡ spec.count_in_segment bytes.now blocks info name (n, times) }
    ensures range { result.1 ≤ 2 }
{
    if n == 0 {
        return (0, times);
    }
    let count = entry_count(bytes, blocks, n);
    let (_, seen) = count_in(bytes, blocks, info, n, name, times, count);
    (word(bytes, blocks, n, 2), seen)
}

/// The same of so many segments.
fn count_in_segments(bytes: &[u8], blocks: Blocks, info: u16, name: u64, count: u16) -> (u16, u8)
    requires { info < 0o10000 }
    ensures { result ≡ spec.count_in_segments bytes.now blocks info name count }
{
    let mut n = 1;
    let mut seen = 0;
    for number in 0..count {
        let (link, times) = count_in_segment(bytes, blocks, info, name, n, seen);
        n = link;
        seen = times;
    }
    (n, seen)
}

/// Whether no other file of the directory has the name of an entry.
fn is_single(bytes: &[u8], blocks: Blocks, info: u16, n: u16, k: u16) -> bool
    requires info { info < 0o10000 }
    requires word { k ≤ 0o400 }
    ensures { result ≡ spec.is_single bytes.now blocks info n k }
{
    if is_file(bytes, blocks, info, n, k) {
        let name = name_at(bytes, blocks, n, k);
        let (_, times) = count_in_segments(bytes, blocks, info, name, 6);
        return times == 1;
    }
    true
}

/// The word after so many entries of a segment, and whether that holds of all of them.
fn single_in(
    bytes: &[u8],
    blocks: Blocks,
    info: u16,
    n: u16,
    so_far: bool,
    count: u16,
) -> (u16, bool)
    requires { info < 0o10000 }
    ensures { result ≡ spec.single_in bytes.now blocks info n so_far count }
{
    let mut k = 5;
    let mut are = so_far;
    for number in 0..count {
        are = are && is_single(bytes, blocks, info, n, k);
        k = next_word(bytes, blocks, info, n, k);
    }
    (k, are)
}

/// The next segment, and whether it holds of all entries after one.
fn single_segment(bytes: &[u8], blocks: Blocks, info: u16, n: u16, are: bool) -> (u16, bool)
    requires { info < 0o10000 }
    ensures { result ≡ spec.single_segment bytes.now blocks info (n, are) }
{
    if n == 0 {
        return (0, are);
    }
    let count = entry_count(bytes, blocks, n);
    let (_, all) = single_in(bytes, blocks, info, n, are, count);
    (word(bytes, blocks, n, 2), all)
}

/// The same of so many segments.
fn single_segments(bytes: &[u8], blocks: Blocks, info: u16, count: u16) -> (u16, bool)
    requires { info < 0o10000 }
    ensures { result ≡ spec.single_segments bytes.now blocks info count }
{
    let mut n = 1;
    let mut are = true;
    for number in 0..count {
        let (link, all) = single_segment(bytes, blocks, info, n, are);
        n = link;
        are = all;
    }
    (n, are)
}

ghost use Rattle.std.specs.Prelude.{◌≡◌, ◌+◌, ◌*◌, ◌<◌, ◌≤◌, length};
ghost use Rattle.word12.specs.declared.sizes.TheConstants.{BLOCK, MOST_BLOCKS};
ghost use Rattle.os8_dir.specs.Entries.{minus as minus_of, size_of, total};
ghost use Rattle.os8_dir.specs.Found.{per_segment as per_segment_of, limit as limit_of};
ghost use Rattle.os8_dir.specs.Segments.{words_of_entry, words_of_entries, words_of_segment, segment_count as segment_count_of, link_of, segment_of};
ghost use Rattle.os8_dir.specs.Steps.{with_words_from};

use crate::{DirEntry, Directory};
use volume_image::Block;
use word12::{BLOCK, Word};

/// How many entries a segment takes.
fn per_segment(info: usize) -> usize
    requires { info ≤ 10 }
    ensures value { result ≡ per_segment_of info }
    ensures range { 16 ≤ result }
{
    251 / (5 + info)
}

/// The word that is minus a number, modulo 0o10000.
fn minus_word(number: usize) -> Word
    requires { number < 0o10000 }
    ensures { result ≡ minus_of number }
{
    Word::low((0o10000 - number) as u16)
}

/// The blocks of some entries.
fn blocks_of(entries: &[DirEntry]) -> usize
    requires { total entries.now ≤ MOST_BLOCKS }
    ensures { result ≡ total entries.now }
{
    let mut blocks = 0;
    for entry in entries {
        blocks += entry.length();
    }
    blocks
}

/// Writes words into a segment from a place on.
fn put_words(segment: &mut Block, at: usize, words: &[Word])
    requires { at + length words.now ≤ BLOCK }
    ensures { segment.new ≡ with_words_from segment.old at words.now }
{
    for k in 0..words.len() {
        segment[at + k] = words[k];
    }
}

/// Writes an entry into a segment from a place on, and gives the place after it.
fn put_entry(segment: &mut Block, at: usize, entry: &DirEntry, info: usize) -> usize
    requires few { info ≤ 10 }
    requires fits { at + 5 + info ≤ BLOCK }
    requires small { size_of entry.now < 0o10000 }
    ensures words { segment.new ≡ with_words_from segment.old at (words_of_entry info entry.now) }
    ensures place { result ≡ at + length (words_of_entry info entry.now) }
    ensures range { result ≤ at + 5 + info }
{
    match entry {
        DirEntry::File {
            name,
            info: kept,
            length,
        } => {
            let words = name.words();
            put_words(segment, at, &words);
            let (first, _) = kept.split_at(info);
            put_words(segment, at + 4, first);
            segment[at + 4 + info] = minus_word(*length);
            at + 5 + info
        }
        DirEntry::Empty { length } => {
            segment[at] = Word::ZERO;
            segment[at + 1] = minus_word(*length);
            at + 2
        }
    }
}

/// Writes entries into a segment, after its first five words.
fn put_entries(segment: &mut Block, entries: &[DirEntry], info: usize)
    requires few { info ≤ 10 }
    requires fits { length entries.now * (5 + info) ≤ 251 }
    requires small { total entries.now ≤ MOST_BLOCKS }
    ensures { segment.new ≡ with_words_from segment.old 5 (words_of_entries info entries.now) }
{
    let mut at = 5;
    for entry in entries {
        at = put_entry(segment, at, entry, info);
    }
}

/// Writes the words of a segment, of which the first entry begins at a block.
fn put_segment(segment: &mut Block, entries: &[DirEntry], first: usize, info: usize, link: u16)
    requires few { info ≤ 10 }
    requires fits { length entries.now * (5 + info) ≤ 251 }
    requires inside { first + total entries.now ≤ MOST_BLOCKS }
    requires near { link < 0o10000 }
    ensures { segment.new ≡ words_of_segment first info link entries.now }
{
    let blank = [Word::ZERO; BLOCK];
    *segment = blank;
    put_entries(segment, entries, info);
    segment[0] = minus_word(entries.len());
    segment[1] = Word::low(first as u16);
    segment[2] = Word::low(link);
    segment[4] = minus_word(info);
}

/// The block of the segment after one that is counted from 0; 0 where that is the last.
fn link_after(count: usize, number: usize) -> u16
    requires most { count ≤ MOST_BLOCKS }
    requires inside { number < count }
    ensures value { result ≡ link_of count number }
    ensures range { result < 0o10000 }
{
    if number + 1 < count {
        (number + 2) as u16
    } else {
        0
    }
}

impl Directory {
    /// How many segments the entries take, in blocks 1, 2 and so on: one at least (OS/8 Software Support Manual; how
    /// entries are shared out is this project's profile).
    pub fn segment_count(&self) -> usize
        ensures value { result ≡ segment_count_of self.now }
        ensures some { 1 ≤ result }
        ensures most { result ≤ MOST_BLOCKS }
        ensures six { length self.now.entries ≤ limit_of self.now → result ≤ 6 }
    {
        self.entries().len().saturating_sub(1) / per_segment(self.information_words()) + 1
    }

    /// The words of a segment, counted from 0. Segment `number` stands in block `number + 1`, and links to the block after
    /// it, or is the last (OS/8 Software Support Manual; flag word and rest are 0 in this project's profile).
    pub fn segment(&self, number: usize, words: &mut Block)
        requires inside { number < segment_count_of self.now }
        ensures words { words.new ≡ segment_of self.now number }
    {
        let info = self.information_words();
        let size = per_segment(info);
        let (before, rest) = self.entries().split_at(number * size);
        let (entries, _) = rest.split_at(size.min(rest.len()));
        let link = link_after(self.segment_count(), number);
        put_segment(
            words,
            entries,
            self.first_block() + blocks_of(before),
            info,
            link,
        );
    }
}

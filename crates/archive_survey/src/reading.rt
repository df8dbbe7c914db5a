//! The parts of a directory as they stand in the blocks of a volume.
ghost use Rattle.std.specs.Prelude.{◌≡◌, ℕ, ◌+◌, ◌*◌, ◌<◌, ◌≤◌, ◌++◌, ◌∷◌, [], length, take, if◌then◌else◌, OnOk, IfOk, IfSome};
ghost use Rattle.word12.specs.declared.sizes.TheConstants.{BLOCK};
ghost use Rattle.volume_image.specs.Volume.{IsVolume};
ghost use Rattle.os8_dir.specs.Names.{with_end_zeros};
ghost use Rattle.os8_dir.specs.Entries.{minus as minus_of};
ghost use Rattle.os8_dir.specs.Reading.{entry_at as entry_of, empty_at as empty_of, file_at as file_of};
ghost use Rattle.archive_survey.specs.Findings.{blocks_in, blocks_of, count_of, entries_at, first_segment, later_segment, later_segments, parts, part_at, segment_end, segment_entries};
ghost use Rattle.archive_survey.specs.declared.parts.Part.TheVariants.{Segment};
ghost use Rattle.archive_survey.specs.Steps.{shown_entry};

use crate::Part;
use crate::items::push_item;
use os8_dir::{DirFault, Name};
use std::alloc::{AllocError, Global};
use volume_image::{BlockStore, MemoryVolume};
use word12::{FIRST_FILE_BLOCK, Word};

/// Minus a word, modulo 0o10000.
fn minus(word: Word) -> usize
    ensures value { result ≡ minus_of word }
    ensures range { result < 0o10000 }
{
    usize::from(Word::ZERO.minus(word).get())
}

/// So many words, with zeros after them.
fn information(words: &[Word], info: usize) -> [Word; 10]
    requires few { info ≤ 10 }
    requires there { info ≤ length words.now }
    ensures { result ≡ with_end_zeros 10 (take info words.now) }
{
    let mut kept = [Word::ZERO; 10];
    for k in 0..info {
        kept[k] = words[k];
    }
    kept
}

/// The empty entry from a block on whose words these are after its first, and the words after it.
#[tactic(auto, unfolding(os8_dir::specs::Reading::empty_at))]
fn empty_at(words: &[Word], place: u32) -> Option<(Part, &[Word])>
    ensures entry { shown_entry result ≡ part_at place (empty_of words.now) }
    ensures range { IfSome result (λ entry. blocks_of entry.0 < 0o10000) }
{
    if words.is_empty() {
        return None;
    }
    let size = minus(words[0]) as u32;
    let (_, following) = words.split_at(1);
    Some((Part::Empty { place, size }, following))
}

/// The file's entry from a block on that the words begin with, and the words after it.
#[tactic(auto, unfolding(os8_dir::specs::Reading::file_at))]
fn file_at(words: &[Word], info: usize, place: u32) -> Option<(Part, &[Word])>
    requires { info ≤ 10 }
    ensures entry { shown_entry result ≡ part_at place (file_of info words.now) }
    ensures range { IfSome result (λ entry. blocks_of entry.0 < 0o10000) }
{
    if words.len() < 5 + info {
        return None;
    }
    let name = Name::of([words[0], words[1], words[2], words[3]]);
    let (_, rest) = words.split_at(4);
    let kept = information(rest, info);
    let size = minus(rest[info]) as u32;
    let (_, following) = rest.split_at(info + 1);
    let entry = Part::File {
        name,
        info: kept,
        place,
        size,
    };
    Some((entry, following))
}

/// The entry from a block on that the words begin with, and the words after it.
#[tactic(auto, unfolding(os8_dir::specs::Reading::entry_at))]
fn entry_at(words: &[Word], info: usize, place: u32) -> Option<(Part, &[Word])>
    requires { info ≤ 10 }
    ensures entry { shown_entry result ≡ part_at place (entry_of info words.now) }
    ensures range { IfSome result (λ entry. blocks_of entry.0 < 0o10000) }
{
    if words.is_empty() {
        return None;
    }
    if words[0].get() == 0 {
        let (_, rest) = words.split_at(1);
        empty_at(rest, place)
    } else {
        file_at(words, info, place)
    }
}

/// The blocks of an entry.
fn blocks_of(part: &Part) -> u32
    ensures { result ≡ blocks_of part.now }
{
    match part {
        Part::Segment { .. } | Part::Fault(_) => 0,
        Part::File { size, .. } | Part::Empty { size, .. } => *size,
    }
}

/// Appends so many entries, the first of which begins at a block, and gives the block after the last.
fn put_entries(
    count: usize,
    info: usize,
    first: u32,
    words: &[Word],
    out: &mut Vec<Part>,
) -> Result<u32, AllocError>
    requires few { info ≤ 10 }
    requires low { first < 0o10000 }
    requires short { count < 0o10000 }
    ensures entries { OnOk result (out.new.items ≡ out.old.items ++ entries_at count info first words.now) }
    ensures end { IfOk result (λ end. end ≡ first + blocks_in (entries_at count info first words.now)) }
    ensures range { IfOk result (λ end. end ≤ 0o10000 * 0o10000) }
{
    let mut left = count;
    let mut place = first;
    let mut rest = words;
    while left > 0 {
        match entry_at(rest, info, place) {
            None => {
                push_item(out, Part::Fault(DirFault::EntryPastSegment))?;
                return Ok(place);
            }
            Some((entry, following)) => {
                let size = blocks_of(&entry);
                push_item(out, entry)?;
                place += size;
                rest = following;
            }
        }
        left -= 1;
    }
    Ok(place)
}

/// Appends the entries of a segment, and gives the block after the last that was read.
#[tactic(auto, unfolding(crate::specs::Findings::segment_entries))]
fn put_segment_entries(words: &[Word], out: &mut Vec<Part>) -> Result<u32, AllocError>
    requires { length words.now ≡ BLOCK }
    ensures entries { OnOk result (out.new.items ≡ out.old.items ++ segment_entries words.now) }
    ensures end { IfOk result (λ end. end ≡ segment_end words.now) }
    ensures range { IfOk result (λ end. end ≤ 0o10000 * 0o10000) }
{
    let info = minus(words[4]);
    let first = u32::from(words[1].get());
    if info > 10 {
        return Ok(first);
    }
    let (_, entries) = words.split_at(5);
    put_entries(minus(words[0]), info, first, entries, out)
}

/// Appends an item where a test fails.
fn put_unless<T: Drop>(holds: bool, item: T, out: &mut Vec<T>) -> Result<(), AllocError>
    ensures { OnOk result (out.new.items ≡ out.old.items ++ (if holds then [] else item ∷ [])) }
{
    if holds {
        return Ok(());
    }
    push_item(out, item)
}

/// Appends a segment in a block.
fn put_segment(number: usize, words: &[Word], out: &mut Vec<Part>) -> Result<(), AllocError>
    requires { length words.now ≡ BLOCK }
    ensures { OnOk result (out.new.items ≡ out.old.items ++ Segment number (count_of words.now) ∷ []) }
{
    let count = minus(words[0]);
    push_item(out, Part::Segment { number, count })
}

/// Appends the first segment of a volume of so many blocks, and gives the block after its last entry.
fn put_first(volume: usize, words: &[Word], out: &mut Vec<Part>) -> Result<u32, AllocError>
    requires { length words.now ≡ BLOCK }
    ensures segment { OnOk result (out.new.items ≡ out.old.items ++ first_segment volume words.now) }
    ensures end { IfOk result (λ end. end ≡ segment_end words.now) }
{
    put_segment(1, words, out)?;
    let first = usize::from(words[1].get());
    put_unless(
        minus(words[4]) <= 10,
        Part::Fault(DirFault::BadCount(1)),
        out,
    )?;
    put_unless(
        first >= FIRST_FILE_BLOCK && first <= volume,
        Part::Fault(DirFault::WrongFirstBlock),
        out,
    )?;
    put_segment_entries(words, out)
}

/// Appends a later segment, and gives the block after its last entry.
fn put_later(
    info: usize,
    end: u32,
    number: usize,
    words: &[Word],
    out: &mut Vec<Part>,
) -> Result<u32, AllocError>
    requires { length words.now ≡ BLOCK }
    ensures segment { OnOk result (out.new.items ≡ out.old.items ++ later_segment info end number words.now) }
    ensures end { IfOk result (λ end. end ≡ segment_end words.now) }
{
    put_segment(number, words, out)?;
    let own = minus(words[4]);
    put_unless(own <= 10, Part::Fault(DirFault::BadCount(number)), out)?;
    put_unless(own == info, Part::Fault(DirFault::MixedInfo), out)?;
    put_unless(
        u32::from(words[1].get()) == end,
        Part::Fault(DirFault::WrongFirstBlock),
        out,
    )?;
    put_segment_entries(words, out)
}

/// Appends the segments from a link of the first on, where the first has so many information words and ends at a block.
fn put_links(
    volume: &MemoryVolume,
    info: usize,
    first_end: u32,
    first_link: usize,
    out: &mut Vec<Part>,
) -> Result<(), AllocError>
    requires { IsVolume volume.now.blocks }
    ensures { OnOk result (out.new.items ≡ out.old.items
        ++ later_segments 5 volume.now.blocks info (1 ∷ []) 1 first_end first_link) }
{
    let mut seen = [false, true, false, false, false, false, false];
    let mut from = 1;
    let mut end = first_end;
    let mut link = first_link;
    let mut left: usize = 5;
    while left > 0 && link > 0 {
        if link >= FIRST_FILE_BLOCK || seen[link] {
            return push_item(out, Part::Fault(DirFault::BadLink(from)));
        }
        let words = volume.block(link);
        end = put_later(info, end, link, words, out)?;
        seen[link] = true;
        from = link;
        link = usize::from(words[2].get());
        left -= 1;
    }
    if link > 0 {
        return push_item(out, Part::Fault(DirFault::BadLink(from)));
    }
    Ok(())
}

/// The parts of the directory of a volume.
#[tactic(auto, unfolding(crate::specs::Findings::parts))]
pub(crate) fn parts(alloc: Global, volume: &MemoryVolume) -> Result<Vec<Part>, AllocError>
    requires { IsVolume volume.now.blocks }
    ensures { IfOk result (λ found. found.items ≡ parts volume.now.blocks) }
{
    let mut found = Vec::new(alloc);
    let words = volume.block(1);
    let end = put_first(volume.blocks(), words, &mut found)?;
    let link = usize::from(words[2].get());
    put_links(volume, minus(words[4]), end, link, &mut found)?;
    Ok(found)
}

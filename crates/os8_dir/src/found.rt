ghost use Rattle.std.specs.Prelude.{◌≡◌, ℕ, ◌+◌, ◌<◌, ◌≤◌, ◌++◌, length, take, drop};
ghost use Rattle.word12.specs.declared.sizes.TheConstants.{MOST_BLOCKS};
ghost use Rattle.os8_dir.specs.Entries.{total, IsTidy};
ghost use Rattle.os8_dir.specs.Changes.{gap_below, with_file_lower, lowest_above as lowest_above_of, fitting as fitting_of};
ghost use Rattle.os8_dir.specs.Found.{files_at, rooms_at, find as found, extent_of, largest, size_or_zero, room_of, free_blocks as free_of, count_files as count_of};
ghost use Rattle.os8_dir.specs.Steps.{is_named as is_named_in, last_room as last_room_of, is_gap as is_gap_in, beats as beats_in, with_room as with_room_of, words_in as words_in_entry, information_in};

use crate::{DirEntry, Name};
use word12::Word;

/// The blocks of an empty, 0 of a file.
fn room(entry: &DirEntry) -> usize
    ensures { result ≡ room_of entry.now }
{
    match entry {
        DirEntry::File { .. } => 0,
        DirEntry::Empty { length } => *length,
    }
}

/// The blocks of the last entry where it is an empty, else 0.
pub fn last_room(entries: &[DirEntry]) -> usize
    ensures { result ≡ last_room_of entries.now }
{
    if entries.is_empty() {
        return 0;
    }
    room(&entries[entries.len() - 1])
}

/// Whether the entry is the file of a name.
fn is_named(entry: &DirEntry, name: Name) -> bool
    ensures { result ≡ is_named_in name entry.now }
{
    match entry {
        DirEntry::File {
            name: other,
            length,
            ..
        } => *length > 0 && *other == name,
        DirEntry::Empty { .. } => false,
    }
}

/// Where the file of a name begins, and its length, where the first entry begins at a block.
pub fn find(entries: &[DirEntry], first: usize, name: Name) -> Option<(usize, usize)>
    requires { first + total entries.now ≤ MOST_BLOCKS }
    ensures { result ≡ extent_of (found name (files_at first entries.now)) }
{
    let mut place = first;
    for entry in entries {
        let length = entry.length();
        if is_named(entry, name) {
            return Some((place, length));
        }
        place += length;
    }
    None
}

/// The information words of an entry; an empty has none.
fn words_in(entry: &DirEntry) -> [Word; 10]
    ensures { result ≡ words_in_entry entry.now }
{
    match entry {
        DirEntry::File { info, .. } => *info,
        DirEntry::Empty { .. } => [Word::ZERO; 10],
    }
}

/// The information words of the file of a name, with zeros after them.
pub fn information_of(entries: &[DirEntry], name: Name) -> Option<[Word; 10]>
    ensures { result ≡ information_in name entries.now }
{
    match entries {
        [] => None,
        [entry, following @ ..] => {
            if is_named(entry, name) {
                Some(words_in(entry))
            } else {
                information_of(following, name)
            }
        }
    }
}

/// The blocks of the largest empty, 0 where there is none.
pub fn largest_room(entries: &[DirEntry]) -> usize
    ensures { (place : ℕ) → result ≡ size_or_zero (largest (rooms_at place entries.now)) }
{
    let mut most = 0;
    for entry in entries {
        most = room(entry).max(most);
    }
    most
}

/// The blocks of all empties.
pub fn free_blocks(entries: &[DirEntry]) -> usize
    requires { total entries.now ≤ MOST_BLOCKS }
    ensures { result ≡ free_of entries.now }
{
    let mut free = 0;
    for entry in entries {
        free += room(entry);
    }
    free
}

/// How many of the entries are files.
pub fn count_files(entries: &[DirEntry]) -> usize
    ensures value { result ≡ count_of entries.now }
    ensures range { result < 18446744073709551615 }
{
    let mut count = 0;
    for entry in entries {
        count += match entry {
            DirEntry::File { .. } => 1,
            DirEntry::Empty { .. } => 0,
        };
    }
    count
}

/// Whether the first of two entries is an empty, and the second the file of a name.
fn is_gap(low: &DirEntry, high: &DirEntry, name: Name) -> bool
    ensures { result ≡ is_gap_in name low.now high.now }
{
    match low {
        DirEntry::File { .. } => false,
        DirEntry::Empty { .. } => match high {
            DirEntry::File { name: other, .. } => *other == name,
            DirEntry::Empty { .. } => false,
        },
    }
}

/// The place among the entries of the empty directly below the file of a name.
pub fn gap_place(entries: &[DirEntry], name: Name) -> usize
    requires { 0 < gap_below name entries.now }
    ensures range { result + 2 ≤ length entries.now }
    ensures list { with_file_lower name entries.now ≡ take result entries.now
        ++ (take 1 (drop 1 (drop result entries.now))
        ++ (take 1 (drop result entries.now) ++ drop 1 (drop 1 (drop result entries.now)))) }
{
    let pairs = entries.len().saturating_sub(1);
    for place in 0..pairs {
        if is_gap(&entries[place], &entries[place + 1], name) {
            return place;
        }
    }
    pairs
}

/// The lowest file with an empty directly below it, and how many blocks that empty has.
pub fn lowest_above(entries: &[DirEntry]) -> Option<(Name, usize)>
    requires { IsTidy entries.now }
    ensures { result ≡ lowest_above_of entries.now }
{
    let mut below = 0;
    for entry in entries {
        match entry {
            DirEntry::File { name, .. } => {
                if below > 0 {
                    return Some((*name, below));
                }
            }
            DirEntry::Empty { length } => below = *length,
        }
    }
    None
}

/// Whether another room is a better choice for a wish: the smaller one, or the larger one for a wish of 0.
fn beats(wish: usize, size: usize, other: usize) -> bool
    ensures { result ≡ beats_in wish size other }
{
    if wish == 0 {
        size < other
    } else {
        other < size
    }
}

/// The room that is chosen for a wish, where one more entry is seen.
fn with_room(
    wish: usize,
    chosen: Option<(usize, usize)>,
    place: usize,
    entry: &DirEntry,
) -> Option<(usize, usize)>
    ensures { result ≡ with_room_of wish chosen place entry.now }
{
    match entry {
        DirEntry::File { .. } => chosen,
        DirEntry::Empty { length } => {
            if *length < wish {
                return chosen;
            }
            match chosen {
                Some((at, size)) => {
                    if beats(wish, size, *length) {
                        Some((place, *length))
                    } else {
                        Some((at, size))
                    }
                }
                None => Some((place, *length)),
            }
        }
    }
}

/// The empty for a wish and how many blocks it has, where the first entry begins at a block.
pub fn fitting(entries: &[DirEntry], first: usize, wish: usize) -> Option<(usize, usize)>
    requires { first + total entries.now ≤ MOST_BLOCKS }
    ensures { result ≡ fitting_of wish (rooms_at first entries.now) }
{
    let mut chosen = None;
    let mut place = first;
    for entry in entries {
        chosen = with_room(wish, chosen, place, entry);
        place += entry.length();
    }
    chosen
}

ghost use Rattle.std.specs.Prelude.{◌≡◌, ℕ, ◌+◌, ◌-◌, ◌<◌, ◌≤◌, ◌∷◌, [], length, take, IfOk};
ghost use Rattle.os8_dir.specs.Names.{with_end_zeros};
ghost use Rattle.os8_dir.specs.Entries.{minus as minus_of, size_of};
ghost use Rattle.os8_dir.specs.Reading.{file_at as file_of, empty_at as empty_of, entry_at as entry_of};
ghost use Rattle.os8_dir.specs.Steps.{seen_entry, Shows};

use crate::{DirEntry, DirFault, Name};
use word12::Word;

/// Minus a word, modulo 0o10000.
pub fn minus(word: Word) -> usize
    ensures value { result ≡ minus_of word }
    ensures range { result < 0o10000 }
{
    let number = usize::from(word.get());
    (0o10000 - number) % 0o10000
}

/// So many words, with zeros after them.
pub fn information(words: &[Word], info: usize) -> [Word; 10]
    requires few { info ≤ 10 }
    requires there { info ≤ length words.now }
    ensures { result ≡ with_end_zeros 10 (take info words.now) }
{
    let mut kept = [Word::ZERO; 10];
    for k in 0..info {
        kept[k] = words[k];
    }
    kept
}

/// The empty entry whose words these are after its first, and the words after it.
#[tactic(auto, unfolding(crate::specs::Reading::empty_at))]
fn empty_at(words: &[Word]) -> Result<(DirEntry, &[Word]), DirFault>
    ensures reading { Shows seen_entry result (empty_of words.now) }
    ensures range { IfOk result (λ entry. size_of entry.0 < 0o10000) }
{
    if words.is_empty() {
        return Err(DirFault::EntryPastSegment);
    }
    let length = minus(words[0]);
    let (_, following) = words.split_at(1);
    Ok((DirEntry::Empty { length }, following))
}

/// The file's entry that the words begin with, and the words after it.
#[tactic(auto, unfolding(crate::specs::Reading::file_at))]
fn file_at(words: &[Word], info: usize) -> Result<(DirEntry, &[Word]), DirFault>
    requires { info ≤ 10 }
    ensures reading { Shows seen_entry result (file_of info words.now) }
    ensures range { IfOk result (λ entry. size_of entry.0 < 0o10000) }
{
    if words.len() < 5 + info {
        return Err(DirFault::EntryPastSegment);
    }
    let name = Name::of([words[0], words[1], words[2], words[3]]);
    let (_, rest) = words.split_at(4);
    let kept = information(rest, info);
    let length = minus(rest[info]);
    let (_, following) = rest.split_at(info + 1);
    let entry = DirEntry::File {
        name,
        info: kept,
        length,
    };
    Ok((entry, following))
}

/// The entry that the words begin with, and the words after it.
#[tactic(auto, unfolding(crate::specs::Reading::entry_at))]
pub fn entry_at(words: &[Word], info: usize) -> Result<(DirEntry, &[Word]), DirFault>
    requires { info ≤ 10 }
    ensures reading { Shows seen_entry result (entry_of info words.now) }
    ensures range { IfOk result (λ entry. size_of entry.0 < 0o10000) }
{
    if words.is_empty() {
        return Err(DirFault::EntryPastSegment);
    }
    if words[0].get() == 0 {
        let (_, rest) = words.split_at(1);
        empty_at(rest)
    } else {
        file_at(words, info)
    }
}

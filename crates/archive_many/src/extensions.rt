ghost use Rattle.std.specs.Prelude.{◌≡◌, ◌<◌, ◌≤◌, length, map, IfSome, MatchOption};
ghost use Rattle.name_spelling.specs.Patterns.{is_code};
ghost use Rattle.archive_many.specs.Extensions as spec;
ghost use Rattle.archive_many.specs.Extensions.{AreLists, IsFirstBad};
ghost use Rattle.archive_many.specs.ExtensionSteps.{before_comma, items_after};

use os8_dir::Name;
use word12::{Word, sixbit};

/// The extensions of texts.
const USUAL: &[u8] = b"BA,BI,FT,HL,LS,MA,PA,RA,SB,TX";

/// Whether a file of a name is a text by its extension (this project's profile). It counts by those that are usual, BA BI FT HL LS
/// MA PA RA SB TX, and by lists such as `PA,TX`. An empty item of a list means no extension.
pub fn is_text(name: Name, usual: bool, lists: &[String]) -> bool
    ensures { result ≡ spec.is_text name usual (map (λ list. list.bytes.items) lists.now) }
{
    let [_, _, _, extension] = name.words();
    (usual && is_listed(USUAL, extension)) || is_in_any(lists, extension)
}

/// The place of the first text, counted from 0, that is no list of extensions; none where all are lists (this project's profile).
pub fn bad_extensions(lists: &[String]) -> Option<usize>
    ensures { MatchOption result (AreLists (map (λ list. list.bytes.items) lists.now))
        (IsFirstBad (map (λ list. list.bytes.items) lists.now)) }
{
    for (place, list) in lists.iter().enumerate() {
        if !is_list(list.as_bytes()) {
            return Some(place);
        }
    }
    None
}

/// Whether one of some lists has the extension of a word.
fn is_in_any(lists: &[String], extension: Word) -> bool
    ensures { result ≡ spec.is_in_any (map (λ list. list.bytes.items) lists.now) extension }
{
    for list in lists {
        if is_listed(list.as_bytes(), extension) {
            return true;
        }
    }
    false
}

/// Whether a list has the extension of a word.
fn is_listed(list: &[u8], extension: Word) -> bool
    ensures { result ≡ spec.is_listed list.now extension }
{
    let (item, rest) = list.split_at(comma_in(list));
    if spells(item, extension) {
        return true;
    }
    match rest {
        [] => false,
        [_comma, others @ ..] => is_listed(others, extension),
    }
}

/// Whether a text is a list of extensions.
fn is_list(list: &[u8]) -> bool
    ensures { result ≡ spec.is_list list.now }
{
    let (item, rest) = list.split_at(comma_in(list));
    if extension_word(item).is_none() {
        return false;
    }
    match rest {
        [] => true,
        [_comma, others @ ..] => is_list(others),
    }
}

/// The place of the first comma, or the length of a list with none.
fn comma_in(list: &[u8]) -> usize
    ensures place { result ≡ length (before_comma list.now) }
    ensures range { result ≤ length list.now }
{
    match list {
        [] => 0,
        [character, following @ ..] => {
            if *character == b',' {
                0
            } else {
                comma_in(following) + 1
            }
        }
    }
}

/// Whether an item spells the word of an extension.
fn spells(item: &[u8], extension: Word) -> bool
    ensures { result ≡ is_code (spec.extension_word item.now) extension }
{
    match extension_word(item) {
        None => false,
        Some(word) => word == extension,
    }
}

/// The word that an extension spells.
fn extension_word(item: &[u8]) -> Option<Word>
    ensures { result ≡ spec.extension_word item.now }
{
    match item {
        [] => Some(Word::ZERO),
        [first] => word_of(sixbit(*first), Some(0)),
        [first, second] => word_of(sixbit(*first), sixbit(*second)),
        _ => None,
    }
}

/// The word of two sixbit codes, where both are known.
fn word_of(high: Option<u8>, low: Option<u8>) -> Option<Word>
    requires high { IfSome high (λ code. code < 0o100) }
    requires low { IfSome low (λ code. code < 0o100) }
    ensures { result ≡ spec.word_of high low }
{
    match high {
        None => None,
        Some(high) => match low {
            None => None,
            Some(low) => Some(Word::low(0o100 * u16::from(high) + u16::from(low))),
        },
    }
}

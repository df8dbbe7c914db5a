ghost use Rattle.std.specs.Prelude.{◌≡◌, ◌≤◌, [], ◌∷◌, length, map, take};
ghost use Rattle.os8_dir.specs.Names.{before_dot, words_of_name};
ghost use Rattle.name_spelling.specs.Reading.{typed_name};
ghost use Rattle.name_spelling.specs.Patterns as spec;
ghost use Rattle.name_spelling.specs.PatternSteps.{is_pattern_from, like_from};

use crate::laws::short_names;
use crate::typed_name;
use os8_dir::Name;
use word12::{Word, sixbit};

/// The sign for any characters, also none.
const ANY: u8 = b'*';

/// The sign for one character.
const ONE: u8 = b'?';

/// The most characters of a word that chooses files, those of a name in which each is an escape: eighteen, a dot, and six more.
const MOST: usize = 25;

/// Whether a name is like a word.
pub fn matches(word: &[u8], name: Name) -> bool
    ensures { result ≡ spec.matches word.now name }
{
    if has_sign(word) {
        is_name_like(word, name)
    } else {
        is_spelled(word, name)
    }
}

/// Whether a text spells a name.
fn is_spelled(text: &[u8], name: Name) -> bool
    ensures { result ≡ spec.is_name (typed_name text.now) name }
{
    match typed_name(text) {
        None => false,
        Some(spelled) => spelled == name,
    }
}

/// Whether a name is like a pattern.
fn is_name_like(pattern: &[u8], name: Name) -> bool
    ensures { result ≡ spec.is_name_like pattern.now name }
{
    let (stem, rest) = pattern.split_at(dot_in(pattern));
    let [a, b, c, extension] = name.words();
    is_stem_like(stem, a, b, c) && is_extension_like(rest, extension)
}

/// Whether one of some words chooses the file of a name.
pub fn is_chosen_by(words: &[String], name: Name) -> bool
    ensures { result ≡ spec.is_chosen_by (map (λ word. word.bytes.items) words.now) name }
{
    for word in words {
        if is_choice(word.as_bytes()) && matches(word.as_bytes(), name) {
            return true;
        }
    }
    false
}

/// Whether a word chooses files.
pub fn is_choice(word: &[u8]) -> bool
    ensures { result ≡ spec.is_choice word.now }
{
    if word.len() > MOST {
        short_names();
        return false;
    }
    if has_sign(word) {
        is_pattern(word)
    } else {
        typed_name(word).is_some()
    }
}

/// Whether a pattern is among words: one in which `*` or `?` stands.
pub fn has_pattern(words: &[String]) -> bool
    ensures { result ≡ spec.has_pattern (map (λ word. word.bytes.items) words.now) }
{
    for word in words {
        if has_sign(word.as_bytes()) {
            return true;
        }
    }
    false
}

/// The place of the first dot, or the length of a word with none.
fn dot_in(word: &[u8]) -> usize
    ensures place { result ≡ length (before_dot word.now) }
    ensures range { result ≤ length word.now }
{
    match word {
        [] => 0,
        [character, following @ ..] => {
            if *character == b'.' {
                0
            } else {
                dot_in(following) + 1
            }
        }
    }
}

/// Whether the six characters of three words are like a pattern.
fn is_stem_like(pattern: &[u8], a: Word, b: Word, c: Word) -> bool
    ensures { result ≡ spec.like pattern.now (spec.without_zeros (spec.codes_in (a ∷ b ∷ c ∷ []))) }
{
    let codes = [
        a.get() / 0o100,
        a.get() % 0o100,
        b.get() / 0o100,
        b.get() % 0o100,
        c.get() / 0o100,
        c.get() % 0o100,
    ];
    let (shown, _zeros) = codes.split_at(code_count(&codes));
    is_like(pattern, shown)
}

/// Whether the two characters of a word are like the pattern that stands from a dot on.
fn is_extension_like(pattern: &[u8], extension: Word) -> bool
    ensures { result ≡ like_from pattern.now (spec.without_zeros (spec.codes_in (extension ∷ []))) }
{
    let codes = [extension.get() / 0o100, extension.get() % 0o100];
    let (shown, _zeros) = codes.split_at(code_count(&codes));
    match pattern {
        [] => shown.is_empty(),
        [_dot, following @ ..] => is_like(following, shown),
    }
}

/// How many codes stand before the zeros after the last other one.
fn code_count(codes: &[u16]) -> usize
    ensures codes { take result codes.now ≡ spec.without_zeros codes.now }
    ensures range { result ≤ length codes.now }
{
    match codes {
        [] => 0,
        [code, following @ ..] => {
            let count = code_count(following);
            if count == 0 && *code == 0 {
                0
            } else {
                count + 1
            }
        }
    }
}

/// Whether codes are like a pattern.
fn is_like(pattern: &[u8], codes: &[u16]) -> bool
    ensures { result ≡ spec.like pattern.now codes.now }
{
    match pattern {
        [] => codes.is_empty(),
        [character, following @ ..] => {
            if *character == ANY {
                is_like(following, codes)
                    || match codes {
                        [] => false,
                        [_, others @ ..] => is_like(pattern, others),
                    }
            } else {
                match codes {
                    [] => false,
                    [code, others @ ..] => {
                        stands_for(*character, *code) && is_like(following, others)
                    }
                }
            }
        }
    }
}

/// Whether a character of a pattern stands for a code.
fn stands_for(character: u8, code: u16) -> bool
    ensures { result ≡ spec.stands_for character code }
{
    character == ONE
        || match sixbit(character) {
            None => false,
            Some(known) => u16::from(known) == code,
        }
}

/// Whether a character is a sign.
fn is_sign(character: u8) -> bool
    ensures { result ≡ spec.is_sign character }
{
    character == ANY || character == ONE
}

/// Whether a sign stands in a word.
fn has_sign(word: &[u8]) -> bool
    ensures { result ≡ spec.has_sign word.now }
{
    let mut rest = word;
    while let [character, others @ ..] = rest {
        if is_sign(*character) {
            return true;
        }
        rest = others;
    }
    false
}

/// Whether a word is a pattern.
fn is_pattern(word: &[u8]) -> bool
    ensures { result ≡ spec.is_pattern word.now }
{
    let (stem, rest) = word.split_at(dot_in(word));
    are_within(stem, 12) && is_extension_pattern(rest)
}

/// Whether what stands from a dot on may be that of a pattern.
fn is_extension_pattern(rest: &[u8]) -> bool
    ensures { result ≡ is_pattern_from rest.now }
{
    match rest {
        [] => true,
        [_dot, part @ ..] => are_within(part, 4),
    }
}

/// Whether there is a character, and all of up to so many may stand in a pattern.
fn are_within(part: &[u8], most: usize) -> bool
    ensures { result ≡ spec.are_within most part.now }
{
    !part.is_empty() && part.len() <= most && are_of_pattern(part)
}

/// Whether all characters may stand in a pattern.
fn are_of_pattern(part: &[u8]) -> bool
    ensures { result ≡ spec.are_of_pattern part.now }
{
    match part {
        [] => true,
        [character, following @ ..] => {
            (character.is_ascii_uppercase() || character.is_ascii_digit() || is_sign(*character))
                && are_of_pattern(following)
        }
    }
}

ghost use Rattle.std.specs.Prelude.{◌≡◌, ℕ, ◌+◌, ◌<◌, ◌≤◌, length, IfSome};
ghost use Rattle.os8_dir.specs.Entries.{IsNamed};
ghost use Rattle.os8_dir.specs.Names.{before_dot};
ghost use Rattle.name_spelling.specs.Reading.{extension_in, next_code, read_name, stem_in, typed_name, word_in};

use crate::writing::ESCAPE;
use os8_dir::Name;
use word12::{Word, octal, sixbit};

/// The name of a file that a text spells, as `read_name` has it; nothing where its first word is 0, since no file has such a name (OS/8
/// Software Support Manual; the spelling is this project's profile).
#[tactic(auto, unfolding(crate::specs::Reading::typed_name))]
pub fn typed_name(text: &[u8]) -> Option<Name>
    ensures name { result ≡ typed_name text.now }
    ensures named { IfSome result IsNamed }
{
    let name = read_name(text)?;
    let [first, ..] = name.words();
    if first == Word::ZERO {
        return None;
    }
    Some(name)
}

/// The name that a text spells as `put_name` does, of at most six codes and two of extension; nothing where it spells none (this project's
/// profile). Each name that can be typed in a script is spelled so too.
pub fn read_name(text: &[u8]) -> Option<Name>
    ensures { result ≡ read_name text.now }
{
    let (stem, rest) = text.split_at(dot_in(text));
    let words = stem_in(stem)?;
    let extension = extension_in(rest)?;
    Some(Name::of([words.0, words.1, words.2, extension]))
}

/// The place of the first dot, or the length of a text with none.
fn dot_in(text: &[u8]) -> usize
    ensures place { result ≡ length (before_dot text.now) }
    ensures range { result ≤ length text.now }
{
    for (place, character) in text.iter().enumerate() {
        if *character == b'.' {
            return place;
        }
    }
    text.len()
}

/// The three words of up to six codes, zeros after.
fn stem_in(text: &[u8]) -> Option<(Word, Word, Word)>
    ensures { result ≡ stem_in text.now }
{
    let (first, used) = word_in(text)?;
    let rest = &text[used..];
    let (second, more) = word_in(rest)?;
    let last = &rest[more..];
    let (third, all) = word_in(last)?;
    if all < last.len() {
        return None;
    }
    Some((first, second, third))
}

/// The word of an extension from its dot on; a dot alone has none.
fn extension_in(text: &[u8]) -> Option<Word>
    ensures { result ≡ extension_in text.now }
{
    match text {
        [] => Some(Word::ZERO),
        [_] => None,
        [_, codes @ ..] => {
            let (word, used) = word_in(codes)?;
            if used < codes.len() {
                return None;
            }
            Some(word)
        }
    }
}

/// The word of the next two codes of a text, and how many characters they take; after its end zeros follow.
fn word_in(text: &[u8]) -> Option<(Word, usize)>
    ensures word { result ≡ word_in text.now }
    ensures within { IfSome result (λ word. word.1 ≤ length text.now) }
{
    let (high, used) = next_code(text)?;
    let (low, more) = next_code(&text[used..])?;
    Some((
        Word::low(0o100 * u16::from(high) + u16::from(low)),
        used + more,
    ))
}

/// The next code of a text, and how many characters it takes: `_` and two octal digits, a letter or a digit, or nothing at its end.
fn next_code(text: &[u8]) -> Option<(u8, usize)>
    ensures code { result ≡ next_code text.now }
    ensures within { IfSome result (λ code. code.1 ≤ length text.now) }
    ensures range { IfSome result (λ code. code.0 < 0o100) }
{
    match text {
        [] => Some((0, 0)),
        [ESCAPE, high, low, ..] => {
            let code = octal(&[*high, *low], 2)?;
            Some((code as u8, 3))
        }
        [first, ..] => {
            let code = sixbit(*first)?;
            Some((code, 1))
        }
    }
}

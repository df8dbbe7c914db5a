ghost use Rattle.std.specs.Prelude.{◌≡◌, ℕ, ◌+◌, ◌*◌, ◌/◌, ◌%◌, ◌<◌, ◌≤◌, ◌^◌, length, IfSome};
ghost use Rattle.os8_dir.specs.Entries.{IsNamed};
ghost use Rattle.os8_dir.specs.Names.{name_of, words_of_name, before_dot, codes_within, parsed_name};
ghost use Rattle.os8_dir.specs.PackSteps.{number_of_codes as packed_of, packed_codes, extension_from};

use std::marker::Model;
use word12::{Word, sixbit};

/// The name of a file: six characters and two of extension in sixbit, as four words, padded with 0 (OS/8 Software
/// Support Manual).
///
/// A contract sees one number, the four words to the base 0o10000; so names are in order of their words.
#[derive(Clone, Copy, PartialEq, Eq, PartialOrd, Ord, Debug)]
pub struct Name {
    number: u64,
}

impl Model for Name {
    ghost use Rattle.std.specs.Prelude.{ℕ, ◌<◌};

    ghost Value = { ℕ };

    ghost view = { λ name. name.number };

    ghost invariant = { λ name. name.number < 281474976710656 };

    ghost inverse = { λ number. record { number = number } };
}

/// The place of the first dot, or the length of a text with none.
fn dot_in(text: &[u8]) -> usize
    ensures place { result ≡ length (before_dot text.now) }
    ensures range { result ≤ length text.now }
{
    for (place, character) in text.iter().enumerate() {
        if *character == b'.' {
            return place;
        }
    }
    text.len()
}

/// The sixbit codes of up to `size` characters, with zeros after them, as one number to the base 64.
fn number_of_codes(text: &[u8], size: u8) -> Option<u64>
    requires { size ≤ 6 }
    ensures number { result ≡ packed_codes size text.now }
    ensures range { IfSome result (λ number. number < 0o100 ^ size) }
{
    match text {
        [] => Some(0),
        [first, rest @ ..] => {
            if size == 0 {
                return None;
            }
            let code = sixbit(*first)?;
            let following = number_of_codes(rest, size - 1)?;
            Some(u64::from(code) * 64u64.pow(u32::from(size) - 1) + following)
        }
    }
}

/// The sixbit codes of one up to `size` characters, with zeros after them, as one number to the base 64.
fn packed_within(text: &[u8], size: u8) -> Option<u64>
    requires { size ≤ 6 }
    ensures number { result ≡ packed_of size (codes_within size text.now) }
    ensures range { IfSome result (λ number. number < 0o100 ^ size) }
{
    if text.is_empty() {
        return None;
    }
    number_of_codes(text, size)
}

/// The extension that stands from the first dot on, as one number to the base 64.
fn packed_extension(text: &[u8]) -> Option<u64>
    ensures number { result ≡ packed_of 2 (extension_from text.now) }
    ensures range { IfSome result (λ number. number < 0o10000) }
{
    if text.is_empty() {
        return Some(0);
    }
    let (_, extension) = text.split_at(1);
    packed_within(extension, 2)
}

impl Name {
    /// The name that a text spells: 1 to 6 capital letters or digits, then nothing, or a dot and 1 or 2 more; else
    /// nothing (this project's profile). Its first word is not 0.
    pub fn parse(text: &[u8]) -> Option<Name>
        ensures name { result ≡ parsed_name text.now }
        ensures named { IfSome result IsNamed }
    {
        let (stem, rest) = text.split_at(dot_in(text));
        let prefix = packed_within(stem, 6)?;
        let following = packed_extension(rest)?;
        Some(Name {
            number: prefix * 0o10000 + following,
        })
    }

    /// The name of any four words: three of the name, one of the extension (OS/8 Software Support Manual).
    pub fn of(words: [Word; 4]) -> Name
        ensures number { result ≡ name_of words }
        ensures words { words_of_name result ≡ words }
    {
        let [a, b, c, d] = words;
        let prefix = u64::from(a.get()) * 0o10000 + u64::from(b.get());
        let number = (prefix * 0o10000 + u64::from(c.get())) * 0o10000 + u64::from(d.get());
        Name { number }
    }

    /// The four words of the name: three of the name, one of the extension (OS/8 Software Support Manual).
    pub fn words(self) -> [Word; 4]
        ensures words { result ≡ words_of_name self }
        ensures number { name_of result ≡ self }
    {
        let word = |place: u64| Word::low((self.number / place % 0o10000) as u16);
        [
            word(0o1000000000000),
            word(0o100000000),
            word(0o10000),
            word(1),
        ]
    }

    /// The four words as one number to the base 0o10000.
    pub(crate) fn number(self) -> u64
        ensures { result ≡ self }
    {
        self.number
    }
}

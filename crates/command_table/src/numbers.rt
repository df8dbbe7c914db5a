//! Decimal and octal numbers of few digits.
ghost use Rattle.std.specs.Prelude.{◌≡◌, ◌≤◌, true, is_some, IfSome, Some, length};
ghost use Rattle.command_table.specs.Found.{before_hyphen, digits_from, number_of_digits};
ghost use Rattle.command_table.specs.Found as spec;

use os8_dates::{date_word, parse_date};
use word12::{Cell, MOST_BLOCKS, Word, octal};

/// A decimal number of 1 to 4 digits, if it is within these limits.
pub fn number_in(digits: &[u8], least: usize, most: usize) -> Option<usize>
    ensures value { result ≡ spec.number_in least most digits.now }
    ensures range { IfSome result (λ number. (least ≤ number) × (number ≤ most)) }
{
    match number(digits) {
        Some(number) if least <= number && number <= most => Some(number),
        _ => None,
    }
}

/// A decimal number of 1 to 4 digits.
fn number(digits: &[u8]) -> Option<usize>
    ensures { result ≡ number_of_digits digits.now }
{
    if digits.is_empty() || digits.len() > 4 {
        return None;
    }
    digits_value(digits)
}

/// A number of instructions, 0 to 1000000, of 1 to 7 digits.
pub fn time_in(digits: &[u8]) -> Option<u32>
    ensures value { result ≡ spec.time_of digits.now }
    ensures range { IfSome result (λ number. number ≤ 1000000) }
{
    if digits.is_empty() || digits.len() > 7 {
        return None;
    }
    match digits_value(digits) {
        Some(number) if number <= 1_000_000 => Some(number as u32),
        _ => None,
    }
}

/// The number of decimal digits.
fn digits_value(digits: &[u8]) -> Option<usize>
    requires { length digits.now ≤ 7 }
    ensures { result ≡ digits_from 0 digits.now }
{
    let mut value = 0;
    for digit in digits {
        match digit {
            b'0'..=b'9' => value = 10 * value + usize::from(digit - b'0'),
            _ => return None,
        }
    }
    Some(value)
}

/// A decimal number of 1 to 4 digits, which is within these limits.
pub fn number_of(digits: &[u8], least: usize, most: usize) -> usize
    requires { is_some (spec.number_in least most digits.now) ≡ true }
    ensures value { spec.number_in least most digits.now ≡ Some result }
    ensures range { (least ≤ result) × (result ≤ most) }
{
    number_in(digits, least, most).unwrap()
}

/// A cell: an octal number up to 77777, or its field, a colon and its address.
pub fn cell_in(text: &[u8]) -> Option<Cell>
    ensures { result ≡ spec.cell_of text.now }
{
    match text {
        [field, b':', address @ ..] => cell_at(*field, address),
        _ => Some(Cell::of(octal_to(text, 0o77777)?)),
    }
}

/// The cell at an address of the field that a digit gives.
fn cell_at(digit: u8, address: &[u8]) -> Option<Cell>
    ensures { result ≡ spec.cell_at digit address.now }
{
    match digit {
        b'0'..=b'7' => Some(Cell::at(digit - b'0', word_in(address)?)),
        _ => None,
    }
}

/// A word: an octal number up to 7777.
pub fn word_in(text: &[u8]) -> Option<Word>
    ensures { result ≡ spec.word_of text.now }
{
    Word::new(octal_to(text, 0o7777)? as u16)
}

/// An octal number of 1 to 5 digits, up to this one.
fn octal_to(digits: &[u8], most: u32) -> Option<u32>
    ensures value { result ≡ spec.octal_to most digits.now }
    ensures range { IfSome result (λ number. number ≤ most) }
{
    if digits.is_empty() || digits.len() > 5 {
        return None;
    }
    match octal(digits, digits.len()) {
        Some(number) if number <= most => Some(number),
        _ => None,
    }
}

/// A word with the sixteen bits that it may have in an image: an octal number up to 177777.
pub fn bits_in(text: &[u8]) -> Option<u16>
    ensures { result ≡ spec.bits_of text.now }
{
    if text.len() == 6 {
        return with_top_bit(text);
    }
    Some(octal_to(text, 0o77777)? as u16)
}

/// An octal number of a digit 0 or 1 and up to five more.
fn with_top_bit(text: &[u8]) -> Option<u16>
    ensures { result ≡ spec.with_top_bit text.now }
{
    match text {
        [digit, digits @ ..] if *digit >= b'0' && *digit < b'2' => {
            let low = octal_to(digits, 0o77777)?;
            Some(0o100000 * u16::from(*digit - b'0') + low as u16)
        }
        _ => None,
    }
}

/// The word of a date from 1970 on.
pub fn date_in(text: &[u8]) -> Option<Word>
    ensures { result ≡ spec.date_word text.now }
{
    date_word(parse_date(text)?)
}

/// Blocks of a volume, the first and the last: one, or two numbers with a hyphen between.
pub fn span_in(text: &[u8]) -> Option<(usize, usize)>
    ensures { result ≡ spec.span_of text.now }
{
    let (front, rest) = text.split_at(hyphen_in(text));
    span_from(number_in(front, 0, MOST_BLOCKS), rest)
}

/// A block, and the last one, which a hyphen and its number may give.
fn span_from(first: Option<usize>, rest: &[u8]) -> Option<(usize, usize)>
    ensures { result ≡ spec.span_from first rest.now }
{
    let first = first?;
    match rest {
        [] => Some((first, first)),
        [_, digits @ ..] => match number_in(digits, 0, MOST_BLOCKS) {
            Some(last) if first <= last => Some((first, last)),
            _ => None,
        },
    }
}

/// The place of the first hyphen, or the length of a text with none.
fn hyphen_in(text: &[u8]) -> usize
    ensures place { result ≡ length (before_hyphen text.now) }
    ensures range { result ≤ length text.now }
{
    for (place, byte) in text.iter().enumerate() {
        if *byte == b'-' {
            return place;
        }
    }
    text.len()
}

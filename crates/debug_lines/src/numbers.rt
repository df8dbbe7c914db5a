//! Numbers in a part of a line.
ghost use Rattle.std.specs.Prelude.{◌≡◌, ◌≤◌, IfOk, length};
ghost use Rattle.std.specs.List.{list_all};
ghost use Rattle.word12.specs.Sixbit.{is_digit};
ghost use Rattle.debug_lines.specs.Numbers as spec;

use crate::{Part, Refusal, Refused, text_of};
use word12::{Cell, Word, octal};

/// A word: one to four octal digits.
pub(crate) fn word_in(line: &[u8], part: Part) -> Result<Word, Refusal>
    ensures { result ≡ spec.word_in line.now part }
{
    let number = octal_in(line, part, 4, 0o7777)?;
    Ok(Word::low(number as u16))
}

/// A cell: one to five octal digits.
pub(crate) fn number_of_cell(line: &[u8], part: Part) -> Result<Cell, Refusal>
    ensures { result ≡ spec.number_of_cell line.now part }
{
    let number = octal_in(line, part, 5, 0o77777)?;
    Ok(Cell::of(number))
}

/// An octal number of so many digits at most, and up to this one.
fn octal_in(line: &[u8], part: Part, digits: usize, most: u32) -> Result<u32, Refusal>
    requires { digits ≤ 5 }
    ensures value { result ≡ spec.octal_in digits most line.now part }
    ensures range { IfOk result (λ number. number ≤ most) }
{
    let text = text_of(line, part);
    if text.is_empty() {
        return Err(refusal_at(Refused::NotOctal, part));
    }
    if text.len() > digits {
        return Err(refusal_at(why_longer(text), part));
    }
    match octal(text, text.len()) {
        None => Err(refusal_at(Refused::NotOctal, part)),
        Some(number) => {
            if number <= most {
                Ok(number)
            } else {
                Err(refusal_at(Refused::TooLarge, part))
            }
        }
    }
}

/// Why a text that is too long is no octal number.
fn why_longer(text: &[u8]) -> Refused
    ensures { result ≡ spec.why_longer text.now }
{
    if are_octal_digits(text) {
        Refused::TooLarge
    } else {
        Refused::NotOctal
    }
}

/// A refusal at the head of a part.
pub(crate) fn refusal_at(why: Refused, part: Part) -> Refusal
    ensures { result ≡ spec.refusal_at why part }
{
    Refusal {
        why,
        place: part.start,
    }
}

/// The most digits of a decimal number.
const MOST_DIGITS: usize = 15;

/// A decimal number of up to fifteen digits.
pub(crate) fn decimal_in(line: &[u8], part: Part) -> Result<u64, Refusal>
    ensures { result ≡ spec.decimal_in line.now part }
{
    let text = text_of(line, part);
    if text.is_empty() || !are_digits(text) {
        return Err(refusal_at(Refused::NotDecimal, part));
    }
    if text.len() > MOST_DIGITS {
        return Err(refusal_at(Refused::TooLarge, part));
    }
    Ok(decimal_value(text))
}

/// The number of decimal digits.
fn decimal_value(digits: &[u8]) -> u64
    requires { length digits.now ≤ 15 }
    ensures { result ≡ spec.decimal_after 0 digits.now }
{
    let mut value = 0;
    for digit in digits {
        value = 10 * value + u64::from(digit.saturating_sub(b'0'));
    }
    value
}

/// Whether all bytes are octal digits.
fn are_octal_digits(text: &[u8]) -> bool
    ensures { result ≡ list_all spec.is_octal_digit text.now }
{
    text.iter().all(|byte| is_octal_digit(*byte))
}

/// Whether all bytes are decimal digits.
fn are_digits(text: &[u8]) -> bool
    ensures { result ≡ list_all is_digit text.now }
{
    text.iter().all(|byte| is_digit(*byte))
}

/// Whether a byte is an octal digit.
fn is_octal_digit(byte: u8) -> bool
    ensures { result ≡ spec.is_octal_digit byte }
{
    byte >= b'0' && byte < b'8'
}

/// Whether a byte is a decimal digit.
pub(crate) fn is_digit(byte: u8) -> bool
    ensures { result ≡ is_digit byte }
{
    byte >= b'0' && byte <= b'9'
}

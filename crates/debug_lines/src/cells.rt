//! References to cells, and ranges of them.
ghost use Rattle.std.specs.Prelude.{◌≡◌, ◌<◌, IfSome, length, position};
ghost use Rattle.std.specs.List.{list_all};
ghost use Rattle.debug_lines.specs.Cells as spec;

use crate::numbers::{is_digit, number_of_cell, refusal_at, word_in};
use crate::parts::{first_bytes, following_bytes};
use crate::{Base, Offset, Part, Range, Reference, Refusal, Refused, text_of};
use word12::{Cell, Word};

/// One cell, or two with `..` between.
pub(crate) fn range_in(line: &[u8], part: Part) -> Result<Range, Refusal>
    ensures { result ≡ spec.range_in line.now part }
{
    let rest = text_of(line, following_bytes(part, 1));
    match dot_in(rest) {
        None => {
            let first = cell_in(line, part)?;
            Ok(Range { first, last: None })
        }
        Some(place) => {
            let first = cell_in(line, first_bytes(part, place + 1))?;
            let last = last_in(line, following_bytes(part, place + 1))?;
            Ok(Range {
                first,
                last: Some(last),
            })
        }
    }
}

/// The cell after `..`.
fn last_in(line: &[u8], part: Part) -> Result<Reference, Refusal>
    ensures { result ≡ spec.last_in line.now part }
{
    match text_of(line, part) {
        [b'.', b'.', ..] => cell_in(line, following_bytes(part, 2)),
        _ => Err(refusal_at(Refused::NotName, part)),
    }
}

/// A cell: an octal number, a name or `.`, each with an offset or without, or a field, a colon and an address.
pub(crate) fn cell_in(line: &[u8], part: Part) -> Result<Reference, Refusal>
    ensures { result ≡ spec.cell_in line.now part }
{
    match text_of(line, part) {
        [field, b':', ..] => cell_of_field(*field, line, part),
        _ => cell_from_base(line, part),
    }
}

/// The cell of a field, a colon and an address.
fn cell_of_field(field: u8, line: &[u8], part: Part) -> Result<Reference, Refusal>
    ensures { result ≡ spec.cell_of_field field line.now part }
{
    if field < b'0' || field > b'7' {
        return Err(refusal_at(Refused::NotOctal, part));
    }
    let address = word_in(line, following_bytes(part, 2))?;
    Ok(Reference {
        base: Base::Number(Cell::at(field - b'0', address)),
        offset: Offset::Plus(Word::ZERO),
    })
}

/// The cell of a base, and of an offset where there is a sign.
fn cell_from_base(line: &[u8], part: Part) -> Result<Reference, Refusal>
    ensures { result ≡ spec.cell_from_base line.now part }
{
    match sign_in(text_of(line, part)) {
        None => {
            let base = base_in(line, part)?;
            Ok(Reference {
                base,
                offset: Offset::Plus(Word::ZERO),
            })
        }
        Some(place) => {
            let base = base_in(line, first_bytes(part, place))?;
            let offset = offset_in(line, following_bytes(part, place))?;
            Ok(Reference { base, offset })
        }
    }
}

/// An offset: its sign, and a word.
fn offset_in(line: &[u8], part: Part) -> Result<Offset, Refusal>
    ensures { result ≡ spec.offset_in line.now part }
{
    let word = word_in(line, following_bytes(part, 1))?;
    match text_of(line, part) {
        [b'-', ..] => Ok(Offset::Minus(word)),
        _ => Ok(Offset::Plus(word)),
    }
}

/// What a reference begins with: `.`, an octal number, or a name.
fn base_in(line: &[u8], part: Part) -> Result<Base, Refusal>
    ensures { result ≡ spec.base_in line.now part }
{
    let text = text_of(line, part);
    match text {
        [b'.'] => Ok(Base::Here),
        [b'0'..=b'9', ..] => {
            let cell = number_of_cell(line, part)?;
            Ok(Base::Number(cell))
        }
        _ => {
            if is_name(text) {
                Ok(Base::Name(part))
            } else {
                Err(refusal_at(Refused::NotName, part))
            }
        }
    }
}

/// Whether a text is a name: a letter, and then letters and digits.
fn is_name(text: &[u8]) -> bool
    ensures { result ≡ spec.is_name text.now }
{
    match text {
        [] => false,
        [first, following @ ..] => { is_small_letter(*first) && are_of_name(following) }
    }
}

/// Whether a byte is a small letter.
fn is_small_letter(byte: u8) -> bool
    ensures { result ≡ spec.is_small_letter byte }
{
    byte >= b'a' && byte <= b'z'
}

/// Whether all bytes may stand in a name.
fn are_of_name(text: &[u8]) -> bool
    ensures { result ≡ list_all spec.is_of_name text.now }
{
    text.iter().all(|byte| is_of_name(*byte))
}

/// Whether a byte may stand in a name.
fn is_of_name(byte: u8) -> bool
    ensures { result ≡ spec.is_of_name byte }
{
    is_small_letter(byte) || is_digit(byte)
}

/// The place of the first dot of a text.
fn dot_in(text: &[u8]) -> Option<usize>
    ensures place { result ≡ position spec.is_dot text.now }
    ensures range { IfSome result (λ place. place < length text.now) }
{
    text.iter().position(|byte| *byte == b'.')
}

/// The place of the first sign of a text.
fn sign_in(text: &[u8]) -> Option<usize>
    ensures { result ≡ position spec.is_sign text.now }
{
    text.iter().position(|byte| is_sign(*byte))
}

/// Whether a byte begins an offset.
fn is_sign(byte: u8) -> bool
    ensures { result ≡ spec.is_sign byte }
{
    byte == b'+' || byte == b'-'
}

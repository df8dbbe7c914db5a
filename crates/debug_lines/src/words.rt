//! The words of a line.
ghost use Rattle.std.specs.Prelude.{◌≡◌, ◌≤◌, ◌<◌, OnOk, IfOk, length};
ghost use Rattle.debug_lines.specs.Words as spec;

use crate::Part;
use std::alloc::{AllocError, Global};

/// The words of a line, in their order.
pub(crate) fn words_in(alloc: Global, line: &[u8]) -> Result<Vec<Part>, AllocError>
    ensures { IfOk result (λ words. words.items ≡ spec.words_of line.now) }
{
    let mut words = Vec::new(alloc);
    let mut place = 0;
    while place < line.len() {
        if is_blank(line[place]) {
            place += 1;
        } else {
            let (_before, text) = line.split_at(place);
            let end = place + word_length(text);
            words.push(Part { start: place, end })?;
            place = end;
        }
    }
    Ok(words)
}

/// How many bytes the word has with which a text begins, one at least.
fn word_length(text: &[u8]) -> usize
    requires { 0 < length text.now }
    ensures length { result ≡ spec.word_length text.now }
    ensures least { 0 < result }
    ensures most { result ≤ length text.now }
{
    match text {
        [] => 0,
        [first, following @ ..] => {
            if is_quote(*first) {
                quoted_length(*first, following) + 1
            } else if is_mark(*first) {
                1
            } else {
                plain_length(following) + 1
            }
        }
    }
}

/// How many bytes stand up to the first of a quote's sign, that one with them, or in a text with none.
fn quoted_length(quote: u8, text: &[u8]) -> usize
    ensures length { result ≡ spec.quoted_length quote text.now }
    ensures most { result ≤ length text.now }
{
    for (place, byte) in text.iter().enumerate() {
        if *byte == quote {
            return place + 1;
        }
    }
    text.len()
}

/// How many plain bytes a text begins with.
fn plain_length(text: &[u8]) -> usize
    ensures length { result ≡ spec.plain_length text.now }
    ensures most { result ≤ length text.now }
{
    for (place, byte) in text.iter().enumerate() {
        if !is_plain(*byte) {
            return place;
        }
    }
    text.len()
}

/// Whether a byte is a blank: a space or a control character.
fn is_blank(byte: u8) -> bool
    ensures { result ≡ spec.is_blank byte }
{
    byte <= b' '
}

/// Whether a byte is a word of its own.
fn is_mark(byte: u8) -> bool
    ensures { result ≡ spec.is_mark byte }
{
    byte == b';' || byte == b'=' || byte == b'#' || byte == b'<' || byte == b'>'
}

/// Whether a byte begins and ends a quote.
pub(crate) fn is_quote(byte: u8) -> bool
    ensures { result ≡ spec.is_quote byte }
{
    byte == b'"' || byte == b'\''
}

/// Whether a byte may stand in a word with others.
fn is_plain(byte: u8) -> bool
    ensures { result ≡ spec.is_plain byte }
{
    !(is_blank(byte) || is_mark(byte) || is_quote(byte))
}

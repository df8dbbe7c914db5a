//! A line of a listing.
ghost use Rattle.std.specs.Prelude.{◌≡◌, ◌++◌, OnOk};
ghost use Rattle.pal8_listing.specs.Rows.{below_text, gap, last_text, line_text, link_mark};

use crate::words::ListedWord;
use source_listing::{put_margin, put_word};
use std::alloc::AllocError;

/// What stands right after a word, if it is made through a link.
fn link_mark(is_link: bool) -> &'static [u8]
    ensures { result.now ≡ link_mark is_link }
{
    if is_link {
        return b"@";
    }
    b""
}

/// What stands between the first word of a line and the line.
fn gap(is_link: bool) -> &'static [u8]
    ensures { result.now ≡ gap is_link }
{
    if is_link {
        return b"@    ";
    }
    b"     "
}

/// Puts a line of a source after its first word, and the others below.
pub(crate) fn put_line(
    text: &mut Vec<u8>,
    line: &[u8],
    words: &[ListedWord],
) -> Result<(), AllocError>
    ensures { OnOk result (text.new.items ≡ text.old.items ++ line_text line.now words.now) }
{
    match words {
        [] => {
            put_margin(text, line)?;
            text.extend_from_slice(line)?;
            text.extend_from_slice(b"\n")?;
            Ok(())
        }
        [first, others @ ..] => {
            put_word(text, first.cell, first.word)?;
            text.extend_from_slice(gap(first.is_link))?;
            text.extend_from_slice(line)?;
            text.extend_from_slice(b"\n")?;
            put_below(text, others)
        }
    }
}

/// Puts words that stand below the first of a line.
fn put_below(text: &mut Vec<u8>, words: &[ListedWord]) -> Result<(), AllocError>
    ensures { OnOk result (text.new.items ≡ text.old.items ++ below_text words.now) }
{
    let mut rest = words;
    while let [word, others @ ..] = rest {
        put_word(text, word.cell, word.word)?;
        text.extend_from_slice(link_mark(word.is_link))?;
        text.extend_from_slice(b"\n")?;
        rest = others;
    }
    Ok(())
}

/// Puts what stands after the last LF of a source, if there is anything.
pub(crate) fn put_last(
    text: &mut Vec<u8>,
    line: &[u8],
    words: &[ListedWord],
) -> Result<(), AllocError>
    ensures { OnOk result (text.new.items ≡ text.old.items ++ last_text line.now words.now) }
{
    if line.is_empty() && words.is_empty() {
        return Ok(());
    }
    put_line(text, line, words)
}

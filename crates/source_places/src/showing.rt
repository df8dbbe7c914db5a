//! Lines of a source as they are shown.
ghost use Rattle.std.specs.Prelude.{◌≡◌, ◌-◌, ◌++◌, IfOk, OnOk};
ghost use Rattle.source_places.specs.Showing.{after_lines, up_to_lf, shown_byte, visible_bytes, shown_line, blanks_below};

use std::alloc::{AllocError, Global};

/// A line of a source as it is shown, by its number from 1. A byte that is neither printable ASCII nor a tab is shown as `?`, and no CR is
/// shown (this project's profile).
pub(crate) fn shown_line(alloc: Global, source: &[u8], line: usize) -> Result<Vec<u8>, AllocError>
    ensures { IfOk result (λ text. text.items ≡ shown_line source.now line) }
{
    let text = visible_line(alloc, after_lines(source, line.saturating_sub(1)))?;
    Ok(text)
}

/// What stands after so many LFs.
fn after_lines(bytes: &[u8], count: usize) -> &[u8]
    ensures { result.now ≡ after_lines count bytes.now }
{
    let mut left = count;
    let mut rest = bytes;
    while let [byte, others @ ..] = rest {
        if left == 0 {
            return rest;
        }
        if *byte == b'\n' {
            left -= 1;
        }
        rest = others;
    }
    rest
}

/// Bytes up to their first LF as they are shown, each CR left out.
fn visible_line(alloc: Global, bytes: &[u8]) -> Result<Vec<u8>, AllocError>
    ensures { IfOk result (λ text. text.items ≡ visible_bytes (up_to_lf bytes.now)) }
{
    let mut text = Vec::new(alloc);
    let mut rest = bytes;
    while let [byte, others @ ..] = rest {
        match *byte {
            b'\n' => return Ok(text),
            b'\r' => {}
            _ => text.push(shown_byte(*byte))?,
        }
        rest = others;
    }
    Ok(text)
}

/// A byte as it is shown: printable ASCII and tab are, another is `?`.
fn shown_byte(byte: u8) -> u8
    ensures { result ≡ shown_byte byte }
{
    match byte {
        b' '..=b'~' | b'\t' => byte,
        _ => b'?',
    }
}

/// Puts blanks below bytes, and tabs below tabs.
pub(crate) fn put_below(text: &mut Vec<u8>, bytes: &[u8]) -> Result<(), AllocError>
    ensures { OnOk result (text.new.items ≡ text.old.items ++ blanks_below bytes.now) }
{
    let mut rest = bytes;
    while let [byte, others @ ..] = rest {
        text.push(if *byte == b'\t' { b'\t' } else { b' ' })?;
        rest = others;
    }
    Ok(())
}

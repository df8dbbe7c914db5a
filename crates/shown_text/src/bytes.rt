//! Bytes as they are shown.
ghost use Rattle.std.specs.Prelude.{◌≡◌, ◌++◌, OnOk};
ghost use Rattle.shown_text.specs.Showing.{escape, is_plain, shown_byte, text_from, shown_text, with_quotes};

use std::alloc::AllocError;

/// The first byte that stands as it is in a line.
pub(crate) const BLANK: u8 = 0o40;

/// Appends bytes as they are shown in a line. A graphic character of ASCII other than `\`, and the blank, stand as they are, any other byte as
/// `\` and three octal digits (this project's profile).
pub fn put_shown(text: &mut Vec<u8>, bytes: &[u8]) -> Result<(), AllocError>
    ensures { OnOk result (text.new.items ≡ text.old.items ++ shown_text bytes.now) }
{
    put_bytes(text, BLANK, bytes)
}

/// Appends bytes as they are shown in one column of a line: as in a line, but the blank too is `\` and three octal digits (this project's
/// profile).
pub fn put_quoted(text: &mut Vec<u8>, bytes: &[u8]) -> Result<(), AllocError>
    ensures { OnOk result (text.new.items ≡ text.old.items ++ with_quotes bytes.now) }
{
    put_bytes(text, BLANK + 1, bytes)
}

/// Appends bytes as they are shown where the first that stands as it is, is this one.
fn put_bytes(text: &mut Vec<u8>, first: u8, bytes: &[u8]) -> Result<(), AllocError>
    ensures { OnOk result (text.new.items ≡ text.old.items ++ text_from first bytes.now) }
{
    let mut rest = bytes;
    while let [byte, others @ ..] = rest {
        put_byte(text, first, *byte)?;
        rest = others;
    }
    Ok(())
}

/// Appends a byte as it is shown.
fn put_byte(text: &mut Vec<u8>, first: u8, byte: u8) -> Result<(), AllocError>
    ensures { OnOk result (text.new.items ≡ text.old.items ++ shown_byte first byte) }
{
    if is_plain(first, byte) {
        text.push(byte)?;
        return Ok(());
    }
    text.extend_from_slice(&escape(byte))?;
    Ok(())
}

/// Whether a byte is shown as it is.
pub(crate) fn is_plain(first: u8, byte: u8) -> bool
    ensures { result ≡ is_plain first byte }
{
    byte >= first && byte < 0o177 && byte != b'\\'
}

/// What is shown of another byte.
pub(crate) fn escape(byte: u8) -> [u8; 4]
    ensures { result ≡ escape byte }
{
    [
        b'\\',
        b'0' + byte / 0o100 % 8,
        b'0' + byte / 8 % 8,
        b'0' + byte % 8,
    ]
}

//! Texts as they are shown where a line is formatted.
ghost use Rattle.std.specs.Prelude.{◌≡◌, ◌∷◌, [], MatchOption, Some};
ghost use Rattle.std.specs.Fmt.{WritesOnOk};
ghost use Rattle.shown_text.specs.Showing.{shown_text, shown_byte};
ghost use Rattle.shown_text.specs.declared.bytes.TheConstants.{BLANK};

use crate::bytes::{BLANK, escape, is_plain};
use std::fmt;

/// A text as it is shown in a line (this project's profile). Showing it takes no memory.
#[derive(Clone, Copy)]
pub struct ShownText<'a> {
    pub text: &'a str,
}

impl<'a> fmt::Display for ShownText<'a> {
    ghost output = { λ it. Some (shown_text it.text.now) };

    fn fmt<W: fmt::Write>(&self, f: &mut fmt::Formatter<W>) -> fmt::Result {
        write_bytes(self.text.as_bytes(), f)
    }
}

/// Writes bytes as they are shown.
fn write_bytes<W: fmt::Write>(bytes: &[u8], f: &mut fmt::Formatter<W>) -> fmt::Result
    ensures { WritesOnOk W.write_str_gives f.old result (shown_text bytes.now) f.new }
{
    let mut rest = bytes;
    'bytes: while let Some((byte, others)) = next_byte(rest) {
        write_byte(byte, f)?;
        rest = others;
    }
    Ok(())
}

/// The first of bytes, and the others.
fn next_byte(bytes: &[u8]) -> Option<(u8, &[u8])>
    ensures { MatchOption result (bytes.now ≡ []) (λ it. bytes.now ≡ it.0 ∷ it.1.now) }
{
    match bytes {
        [] => None,
        [byte, others @ ..] => Some((*byte, others)),
    }
}

/// Writes a byte as it is shown.
fn write_byte<W: fmt::Write>(byte: u8, f: &mut fmt::Formatter<W>) -> fmt::Result
    ensures { WritesOnOk W.write_str_gives f.old result (shown_byte BLANK byte) f.new }
{
    if is_plain(BLANK, byte) {
        return f.write_char(char::from(byte));
    }
    f.write_str(str::from_utf8(&escape(byte)).map_err(|_| fmt::Error)?)
}

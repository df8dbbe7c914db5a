//! What a fault is about, and how it is shown.
ghost use Rattle.std.specs.Prelude.{◌≡◌, ◌++◌, OnOk};
ghost use Rattle.source_places.specs.Showing.{character_text, about_text};

use crate::spelling::put_spelling;
use std::alloc::AllocError;

/// What a fault is about.
#[derive(Clone, Copy, PartialEq, Eq, Debug)]
pub enum About {
    Nothing,
    /// A name, as the number that the sixbit codes of its six characters make.
    Name(u64),
    /// A byte.
    Character(u8),
}

/// Puts the name or the character that a fault is about after a blank, if there is one.
pub fn put_named(text: &mut Vec<u8>, about: About) -> Result<(), AllocError>
    ensures { OnOk result (text.new.items ≡ text.old.items ++ about_text about) }
{
    match about {
        About::Name(name) => {
            text.extend_from_slice(b" ")?;
            put_spelling(text, name)?;
            Ok(())
        }
        About::Character(byte) => {
            text.extend_from_slice(b" ")?;
            put_character(text, byte)?;
            Ok(())
        }
        About::Nothing => Ok(()),
    }
}

/// Puts a byte as it is, if it is printable ASCII, and else its three octal digits (this project's profile).
pub fn put_character(text: &mut Vec<u8>, byte: u8) -> Result<(), AllocError>
    ensures { OnOk result (text.new.items ≡ text.old.items ++ character_text byte) }
{
    if byte > 0o40 && byte < 0o177 {
        text.push(byte)?;
        return Ok(());
    }
    text.extend_from_slice(&[0o60 + byte / 0o100, 0o60 + byte / 8 % 8, 0o60 + byte % 8])?;
    Ok(())
}

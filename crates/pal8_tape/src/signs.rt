//! Which signs of a PAL III source are PAL8's.
ghost use Rattle.std.specs.Prelude.{◌≡◌, IfOk};
ghost use Rattle.pal8_tape.specs.Signs.{character_sign, is_of_pal8, name_sign, sign_text};

use pal8_grammar::is_reserved;
use pal8_lex::Name;
use source_places::{About, put_spelling};
use std::alloc::{AllocError, Global};

/// The name or the character of PAL8 that the first fault of a PAL III source is about, as text. Of UA it is the undefined name, where PAL8 reserves
/// it. Of IC it is the character, where PAL8 has it. Of all else it is empty (this project's profile of the two).
pub fn sign_text(alloc: Global, about: About) -> Result<Vec<u8>, AllocError>
    ensures { IfOk result (λ text. text.items ≡ sign_text about) }
{
    match about {
        About::Name(name) => name_sign(alloc, name),
        About::Character(byte) => character_sign(alloc, byte),
        About::Nothing => Ok(Vec::new(alloc)),
    }
}

/// A name, if PAL8 reserves it.
fn name_sign(alloc: Global, name: u64) -> Result<Vec<u8>, AllocError>
    ensures { IfOk result (λ text. text.items ≡ name_sign name) }
{
    let mut text = Vec::new(alloc);
    if is_reserved(Name::from_number(name)) {
        put_spelling(&mut text, name)?;
    }
    Ok(text)
}

/// A character, if PAL8 has it.
fn character_sign(alloc: Global, byte: u8) -> Result<Vec<u8>, AllocError>
    ensures { IfOk result (λ text. text.items ≡ character_sign byte) }
{
    let mut text = Vec::new(alloc);
    if is_of_pal8(byte) {
        text.push(byte)?;
    }
    Ok(text)
}

/// Whether PAL8 has a character that PAL III has not.
fn is_of_pal8(byte: u8) -> bool
    ensures { result ≡ is_of_pal8 byte }
{
    matches!(
        byte,
        b'(' | b')' | b'[' | b']' | b'<' | b'>' | b'"' | b'!' | b'&' | b'^' | b'%'
    )
}

ghost use Rattle.std.specs.Prelude.{◌≡◌, map, IfOk};
ghost use Rattle.name_spelling.specs.Reading.{typed_name};
ghost use Rattle.archive_many.specs.HostNames.{IsLastPart, NamesHost, NamesVolume};
ghost use Rattle.archive_many.specs.HostNames as spec;

use crate::VolumeFile;
use arrayvec::ArrayVec;
use name_spelling::laws::{safe_names, short_names};
use name_spelling::{put_spelled, typed_name};
use os8_dir::Name;
use refusals::text_lines::TextLine;
use std::alloc::{AllocError, Global};

/// The most bytes of a typed name.
const MOST: usize = 25;

/// The name of the host's file for a file of a volume: its name as it is typed (this project's profile).
pub fn host_name(alloc: Global, file: &VolumeFile) -> Result<String, AllocError>
    ensures { IfOk result (λ text. NamesHost file.now text.bytes.items) }
{
    safe_names();
    let mut line = TextLine::new();
    put_spelled(&mut line, file.name);
    match str::from_utf8(line.as_slice()) {
        Ok(text) => String::from_str(alloc, text),
        Err(_) => unreachable!(),
    }
}

/// The name of a volume's file for a path of the host: what stands after its last slash, with small letters raised, where that
/// spells a name (this project's profile).
pub fn volume_name(path: &[u8]) -> Option<Name>
    ensures { NamesVolume path.now result }
{
    raised_name(last_part(path))
}

/// What stands after the last slash of a path.
fn last_part(path: &[u8]) -> &[u8]
    ensures { IsLastPart path.now result.now }
{
    let mut part = path;
    let mut rest = path;
    while let [character, others @ ..] = rest {
        if *character == b'/' {
            part = others;
        }
        rest = others;
    }
    part
}

/// The name that a text spells with its small letters raised.
fn raised_name(part: &[u8]) -> Option<Name>
    ensures { result ≡ typed_name (map spec.capital_of part.now) }
{
    if part.len() > MOST {
        short_names();
        return None;
    }
    let mut text: ArrayVec<u8, MOST> = ArrayVec::new();
    for character in part {
        text.push(capital_of(*character));
    }
    typed_name(text.as_slice())
}

/// A capital letter for a small one, and any other character as it is.
fn capital_of(character: u8) -> u8
    ensures { result ≡ spec.capital_of character }
{
    match character {
        b'a'..=b'z' => character - 0o40,
        _ => character,
    }
}

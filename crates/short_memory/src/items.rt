//! The items of a script, one at a time.
ghost use Rattle.std.specs.Prelude.{◌<◌, ◌≤◌, length, IfSome};

use script8::{Next, next_item};
use std::alloc::Global;
use system_session::Session;
use volume_image::MemoryVolume;

/// What became of an item.
#[derive(Clone, Copy, PartialEq, Eq)]
pub enum Done {
    /// It was answered.
    Whole,

    /// It was refused, and nothing is written.
    Refused,
}

/// How many bytes the first item of a text has, or its empty line; where memory ran out, at the second try.
pub fn next_bytes(alloc: Global, text: &[u8]) -> Option<usize>
    ensures { IfSome result (λ bytes. (0 < bytes) × (bytes ≤ length text.now)) }
{
    match next_item(alloc, text, true) {
        Ok(next) => bytes_of(&next, text.len()),
        Err(_) => match next_item(alloc, text, true) {
            Ok(next) => bytes_of(&next, text.len()),
            Err(_) => None,
        },
    }
}

/// How many bytes of a text were taken, at least one.
fn bytes_of(next: &Next, most: usize) -> Option<usize>
    ensures { IfSome result (λ bytes. (0 < bytes) × (bytes ≤ most)) }
{
    let bytes = match next {
        Next::Blank(bytes) => *bytes,
        Next::Item { item: _, bytes } => *bytes,
        _ => 0,
    };
    if bytes == 0 || bytes > most {
        return None;
    }
    Some(bytes)
}

/// Does an item, and writes its lines, for which there is room.
pub fn run_item(
    alloc: Global,
    session: &mut Session<MemoryVolume>,
    item: &[u8],
    out: &mut Vec<u8>,
) -> Done {
    let before = out.len();
    let mut reader = item;
    match session.run_text(alloc, &mut reader, out) {
        Ok(()) => Done::Whole,
        Err(_) => {
            out.truncate(before);
            Done::Refused
        }
    }
}

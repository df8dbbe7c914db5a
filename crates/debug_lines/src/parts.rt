ghost use Rattle.std.specs.Prelude.{◌≡◌, ◌-◌, ◌≤◌, [], ◌∷◌, ◌++◌, OnOk, length};
ghost use Rattle.debug_lines.specs.Parts as spec;

use std::alloc::AllocError;

/// Bytes of a line, from one place on and before another; the first byte has the place 0.
#[derive(Clone, Copy, PartialEq, Eq, Debug)]
pub struct Part {
    pub start: usize,
    pub end: usize,
}

/// The bytes of a part that the line has.
pub fn text_of(line: &[u8], part: Part) -> &[u8]
    ensures text { result.now ≡ spec.text_of line.now part }
    ensures fits { length result.now ≤ part.end - part.start }
{
    let (_before, rest) = line.split_at(part.start.min(line.len()));
    let (text, _following) = rest.split_at(part.end.saturating_sub(part.start).min(rest.len()));
    text
}

/// The place after so many bytes of a part, at most its end.
fn place_after(part: Part, count: usize) -> usize
    ensures { result ≡ spec.place_after count part }
{
    if count <= part.end.saturating_sub(part.start) {
        part.start.saturating_add(count)
    } else {
        part.end
    }
}

/// So many bytes of a part.
pub(crate) fn first_bytes(part: Part, count: usize) -> Part
    ensures { result ≡ spec.first_bytes count part }
{
    Part {
        start: part.start,
        end: place_after(part, count),
    }
}

/// A part without so many bytes at its head.
pub(crate) fn following_bytes(part: Part, count: usize) -> Part
    ensures { result ≡ spec.following_bytes count part }
{
    Part {
        start: place_after(part, count),
        end: part.end,
    }
}

/// Whether a part has just these bytes.
pub(crate) fn is_word(line: &[u8], part: Part, word: &[u8]) -> bool
    ensures { result ≡ spec.is_word word.now line.now part }
{
    text_of(line, part) == word
}

/// Puts an item after others.
pub(crate) fn put<T: Drop>(items: &mut Vec<T>, item: T) -> Result<(), AllocError>
    ensures { OnOk result (items.new.items ≡ items.old.items ++ item ∷ []) }
{
    items.push(item)?;
    Ok(())
}

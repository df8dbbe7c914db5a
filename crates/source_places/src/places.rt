//! Places of sources, and those of a join in its sources.
ghost use Rattle.std.specs.Prelude.{◌≡◌, ◌<◌, ◌+◌, nat_eq, if◌then◌else◌, take, IfOk};
ghost use Rattle.pal_lex.specs.Text.{text_of};
ghost use Rattle.source_places.specs.Places.{place_in, place_by, bytes_of, next_line, next_column};

use crate::texts::host_text;
use std::alloc::{AllocError, Global};

/// A place in one of several sources.
#[derive(Clone, Copy, PartialEq, Eq, Debug)]
pub struct Place {
    /// The source, from 0.
    pub source: usize,
    /// Its line, from 1. LF ends a line, with a CR before it or not.
    pub line: usize,
    /// The byte of the line, from 1. A CR counts for nothing.
    pub column: usize,
}

/// A place of the join of sources by its source, line and column, where so many bytes of each source that another follows
/// are in the join.
pub fn place_of(
    alloc: Global,
    sources: &[&[u8]],
    counts: &[usize],
    place: usize,
) -> Result<Place, AllocError>
    ensures { IfOk result (λ it. it ≡ place_by sources.now (place_in counts.now place)) }
{
    let (source, at) = place_in(counts, place);
    let text = host_text(alloc, bytes_of(sources, source))?;
    let before = first_bytes(&text, at);
    Ok(Place {
        source,
        line: next_line(before),
        column: next_column(before),
    })
}

/// The source of a place in a join, and the place in this source.
fn place_in(counts: &[usize], place: usize) -> (usize, usize)
    ensures { result ≡ place_in counts.now place }
{
    let mut source = 0;
    let mut left = place;
    for count in counts {
        if left < *count {
            return (source, left);
        }
        left -= *count;
        source += 1;
    }
    (source, left)
}

/// The bytes of a source, of which the first is number 0; none where there is none of this number.
pub fn bytes_of<'a>(sources: &[&'a [u8]], number: usize) -> &'a [u8]
    ensures { result.now ≡ bytes_of sources.now number }
{
    let mut left = number;
    let mut rest = sources;
    while let [source, others @ ..] = rest {
        if left == 0 {
            return source;
        }
        left -= 1;
        rest = others;
    }
    &[]
}

/// The name of a source; an empty one where there is none of this number.
pub fn name_of<'a>(names: &[&'a str], number: usize) -> &'a str
    ensures { result.now ≡ bytes_of names.now number }
{
    let mut left = number;
    let mut rest = names;
    while let [name, others @ ..] = rest {
        if left == 0 {
            return name;
        }
        left -= 1;
        rest = others;
    }
    ""
}

/// So many bytes from the beginning of a text, or all of it.
pub fn first_bytes(text: &[u8], count: usize) -> &[u8]
    ensures { result.now ≡ take count text.now }
{
    if count < text.len() {
        return text.split_at(count).0;
    }
    text
}

/// The line after a text, from 1: LF ends a line (this project's profile).
pub fn next_line(text: &[u8]) -> usize
    ensures { result ≡ next_line (text_of text.now) }
{
    let mut line = 1;
    for byte in text {
        line = line_after(line, *byte);
    }
    line
}

/// The line after one more byte.
fn line_after(line: usize, byte: u8) -> usize
    requires { line < 18446744073709551615 }
    ensures { result ≡ (if nat_eq byte 0o12 then 1 else 0) + line }
{
    match byte {
        b'\n' => line + 1,
        _ => line,
    }
}

/// The column after a text, from 1.
fn next_column(text: &[u8]) -> usize
    ensures { result ≡ next_column (text_of text.now) }
{
    let mut column = 1;
    for byte in text {
        column = column_after(column, *byte);
    }
    column
}

/// The column after one more byte.
fn column_after(column: usize, byte: u8) -> usize
    requires { column < 18446744073709551615 }
    ensures { result ≡ (if nat_eq byte 0o12 then 1 else column + 1) }
{
    match byte {
        b'\n' => 1,
        _ => column + 1,
    }
}

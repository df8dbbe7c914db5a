//! Where a byte of sources stands.
ghost use Rattle.std.specs.Prelude.{◌≡◌, ◌<◌, take};
ghost use Rattle.pal_lex.specs.Text.{text_of};
ghost use Rattle.source_places.specs.Places as hosts;
ghost use Rattle.pal8_tape.specs.Places.{column_after, column_with, place_by, place_of};

use source_places::{Place, bytes_of, first_bytes, next_line};

/// The place of a byte of a source with this number, by the byte's number from 0. Where there is none of this number, it is the place after the
/// last one.
fn place_of(number: usize, source: &[u8], at: usize) -> Place
    ensures { result ≡ place_of number source.now at }
{
    let before = first_bytes(source, at);
    Place {
        source: number,
        line: next_line(before),
        column: column_after(before),
    }
}

/// The place of a byte of the join of sources, of each of which that another follows so many bytes are in the join.
pub(crate) fn place_by(sources: &[&[u8]], counts: &[usize], at: usize) -> Place
    ensures { result ≡ place_by sources.now (hosts.place_in counts.now at) }
{
    let (number, left) = place_in(counts, at);
    place_of(number, bytes_of(sources, number), left)
}

/// The source of a place in a join, and the place in this source.
pub(crate) fn place_in(counts: &[usize], place: usize) -> (usize, usize)
    ensures { result ≡ hosts.place_in counts.now place }
{
    let mut source = 0;
    let mut left = place;
    for count in counts {
        if left < *count {
            return (source, left);
        }
        left -= *count;
        source += 1;
    }
    (source, left)
}

/// The column after a text, from 1.
fn column_after(text: &[u8]) -> usize
    ensures { result ≡ column_after (text_of text.now) }
{
    let mut column = 1;
    for byte in text {
        column = column_with(column, *byte);
    }
    column
}

/// The column after one more byte.
fn column_with(column: usize, byte: u8) -> usize
    requires { column < 18446744073709551615 }
    ensures { result ≡ column_with byte column }
{
    match byte {
        b'\n' => 1,
        b'\r' => column,
        _ => column + 1,
    }
}

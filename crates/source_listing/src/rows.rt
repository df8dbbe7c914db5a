//! The lines of a listing.
ghost use Rattle.std.specs.Prelude.{◌≡◌, ◌++◌, ◌+◌, ◌≤◌, [], List, take, drop, IfOk, OnOk};
ghost use Rattle.source_listing.specs.Rows.{Row, first_end, two_ends, rows, own_ends, later_ends, all_rows, word_text, below_text, margin, line_text, last_text, rows_text};

use std::alloc::{AllocError, Global};
use word12::{Cell, Word};

/// Puts the rows of sources that have so many bytes each in their join, over which these words are spread.
pub(crate) fn put_rows(
    alloc: Global,
    text: &mut Vec<u8>,
    sources: &[&[u8]],
    counts: &[usize],
    ends: &[bool],
    pairs: &[(Cell, Word)],
) -> Result<(), AllocError>
    ensures { OnOk result (text.new.items ≡ text.old.items
        ++ rows_text (all_rows sources.now counts.now ends.now) pairs.now) }
{
    let mut counts = counts;
    let mut ends = ends;
    let mut left = pairs;
    let mut rest = sources;
    while let [source, others @ ..] = rest {
        left = put_source(alloc, text, source, own_ends(counts, ends), left)?;
        ends = later_ends(counts, ends);
        counts = split(counts, 1).1;
        rest = others;
    }
    Ok(())
}

/// What is given for the bytes of a source that are in the join, by the counts for it and further ones.
pub(crate) fn own_ends<'a, T>(counts: &[usize], ends: &'a [T]) -> &'a [T]
    ensures { result.now ≡ own_ends counts.now ends.now }
{
    match counts {
        [] => ends,
        [count, ..] => split(ends, *count).0,
    }
}

/// The ends of the sources after it.
fn later_ends<'a>(counts: &[usize], ends: &'a [bool]) -> &'a [bool]
    ensures { result.now ≡ later_ends counts.now ends.now }
{
    match counts {
        [] => &[],
        [count, ..] => split(ends, *count).1,
    }
}

/// So many from the beginning, or all, and those after them.
pub fn split<T>(items: &[T], count: usize) -> (&[T], &[T])
    ensures first { result.0.now ≡ take count items.now }
    ensures others { result.1.now ≡ drop count items.now }
{
    if count < items.len() {
        return items.split_at(count);
    }
    (items, &[])
}

/// Puts the rows of a source, with the words that its bytes end, and answers the words that are left.
fn put_source<'a>(
    alloc: Global,
    text: &mut Vec<u8>,
    source: &[u8],
    ends: &[bool],
    pairs: &'a [(Cell, Word)],
) -> Result<&'a [(Cell, Word)], AllocError>
    ensures { IfOk result (λ left. (later : List Row) → text.new.items ++ rows_text later left.now
        ≡ text.old.items ++ rows_text (rows [] 0 source.now ends.now ++ later) pairs.now) }
{
    let mut line = Vec::new(alloc);
    let mut words = 0;
    let mut ends = ends;
    let mut left = pairs;
    let mut rest = source;
    while let [byte, others @ ..] = rest {
        match *byte {
            b'\r' => {}
            b'\n' => {
                words += two_ends(ends);
                let (here, later) = split(left, words);
                put_line(text, &line, here)?;
                line.clear();
                words = 0;
                left = later;
                ends = split(ends, 2).1;
            }
            _ => {
                line.push(*byte)?;
                words += first_end(ends);
                ends = split(ends, 1).1;
            }
        }
        rest = others;
    }
    let (here, later) = split(left, words);
    put_last(text, &line, here)?;
    Ok(later)
}

/// Puts the line after the last LF of a source, if there is any.
fn put_last(text: &mut Vec<u8>, line: &[u8], pairs: &[(Cell, Word)]) -> Result<(), AllocError>
    ensures { OnOk result (text.new.items ≡ text.old.items ++ last_text line.now pairs.now) }
{
    if line.is_empty() {
        return Ok(());
    }
    put_line(text, line, pairs)
}

/// One word, if the first of some bytes ends one.
fn first_end(ends: &[bool]) -> usize
    ensures value { result ≡ first_end ends.now }
    ensures range { result ≤ 1 }
{
    match ends {
        [true, ..] => 1,
        _ => 0,
    }
}

/// As many words as the first two of some bytes end.
#[tactic(auto, unfolding(crate::specs::Rows::two_ends))]
fn two_ends(ends: &[bool]) -> usize
    ensures value { result ≡ two_ends ends.now }
    ensures range { result ≤ 2 }
{
    first_end(ends) + first_end(split(ends, 1).1)
}

/// Puts a line of a source after its first word, and the others below.
fn put_line(text: &mut Vec<u8>, line: &[u8], pairs: &[(Cell, Word)]) -> Result<(), AllocError>
    ensures { OnOk result (text.new.items ≡ text.old.items ++ line_text line.now pairs.now) }
{
    match pairs {
        [] => {
            put_margin(text, line)?;
            text.extend_from_slice(line)?;
            text.extend_from_slice(b"\n")?;
            Ok(())
        }
        [(cell, word), others @ ..] => {
            put_word(text, *cell, *word)?;
            text.extend_from_slice(b"     ")?;
            text.extend_from_slice(line)?;
            text.extend_from_slice(b"\n")?;
            put_below(text, others)
        }
    }
}

/// Puts what stands before a line with no word: as many blanks as the columns have, and nothing before an empty line.
pub fn put_margin(text: &mut Vec<u8>, line: &[u8]) -> Result<(), AllocError>
    ensures { OnOk result (text.new.items ≡ text.old.items ++ margin line.now) }
{
    if !line.is_empty() {
        text.extend_from_slice(b"                ")?;
    }
    Ok(())
}

/// Puts words on lines of their own, as those that stand below the first of a line.
pub fn put_below(text: &mut Vec<u8>, pairs: &[(Cell, Word)]) -> Result<(), AllocError>
    ensures { OnOk result (text.new.items ≡ text.old.items ++ below_text pairs.now) }
{
    let mut rest = pairs;
    while let [(cell, word), others @ ..] = rest {
        put_word(text, *cell, *word)?;
        text.extend_from_slice(b"\n")?;
        rest = others;
    }
    Ok(())
}

/// Puts a cell and its word in octal: the five digits of the cell and the four of the word.
pub fn put_word(text: &mut Vec<u8>, cell: Cell, word: Word) -> Result<(), AllocError>
    ensures { OnOk result (text.new.items ≡ text.old.items ++ word_text (cell, word)) }
{
    text.push(b'0' + cell.field())?;
    text.extend_from_slice(&cell.address().octal4())?;
    text.extend_from_slice(b"  ")?;
    text.extend_from_slice(&word.octal4())?;
    Ok(())
}

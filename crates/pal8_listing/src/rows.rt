//! The lines of sources with their words.
ghost use Rattle.std.specs.Prelude.{◌≡◌, ◌++◌, [], List, drop, IfOk, OnOk};
ghost use Rattle.pal8_listing.specs.Rows.{Line, all_lines, join_after, last_text, line_text, lines_read, number_after, number_by, numbered_lines, one_less, rows_of, rows_text, words_at, words_below};

use crate::lines::{put_last, put_line};
use crate::words::{ListedWord, split_words};
use source_listing::split;
use source_places::{first_bytes, next_line};
use std::alloc::{AllocError, Global};

/// Puts the lines of sources that have so many bytes each in this join, with these words.
pub(crate) fn put_rows(
    alloc: Global,
    text: &mut Vec<u8>,
    sources: &[&[u8]],
    counts: &[usize],
    join: &[u8],
    words: &[ListedWord],
) -> Result<(), AllocError>
    ensures { OnOk result (text.new.items ≡ text.old.items ++ rows_text (rows_of (all_lines 1 sources.now counts.now join.now) words.now)) }
{
    let mut number = 1;
    let mut counts = counts;
    let mut join = join;
    let mut words = words;
    let mut rest = sources;
    while let [source, others @ ..] = rest {
        let read = lines_read(counts, join);
        words = put_source(alloc, text, source, number, read, words)?;
        number = number_after(number, read);
        join = join_after(counts, join);
        counts = split(counts, 1).1;
        rest = others;
    }
    Ok(())
}

/// How many lines of a join end in the bytes that are of the next source, if another one follows that.
pub(crate) fn lines_read(counts: &[usize], join: &[u8]) -> Option<usize>
    ensures { result ≡ lines_read counts.now join.now }
{
    match counts {
        [] => None,
        [count, ..] => Some(next_line(first_bytes(join, *count)).saturating_sub(1)),
    }
}

pub(crate) fn number_after(number: u64, read: Option<usize>) -> u64
    ensures { result ≡ number_after number read }
{
    match read {
        None => number,
        Some(lines) => number.saturating_add(lines as u64),
    }
}

/// What is left of a join after the bytes that are of the next source.
pub(crate) fn join_after<'a>(counts: &[usize], join: &'a [u8]) -> &'a [u8]
    ensures { result.now ≡ join_after counts.now join.now }
{
    match counts {
        [] => join,
        [count, ..] => split(join, *count).1,
    }
}

/// The number of a line in the join, where so many lines are left that are read, or all are.
fn number_by(left: Option<usize>, number: u64) -> Option<u64>
    ensures { result ≡ number_by left number }
{
    match left {
        None => Some(number),
        Some(left) => {
            if left == 0 {
                return None;
            }
            Some(number)
        }
    }
}

fn one_less(left: Option<usize>) -> Option<usize>
    ensures { result ≡ one_less left }
{
    match left {
        None => None,
        Some(left) => Some(left.saturating_sub(1)),
    }
}

/// The words of a line with this number, and those after it.
fn words_of(words: &[ListedWord], number: Option<u64>) -> (&[ListedWord], &[ListedWord])
    ensures here { result.0.now ≡ words_at number words.now }
    ensures after { result.1.now ≡ words_below number words.now }
{
    match number {
        None => (&[], words),
        Some(number) => split_words(words, number),
    }
}

/// Puts the lines of a source with their words, and answers the words that are left.
fn put_source<'a>(
    alloc: Global,
    text: &mut Vec<u8>,
    source: &[u8],
    number: u64,
    left: Option<usize>,
    words: &'a [ListedWord],
) -> Result<&'a [ListedWord], AllocError>
    ensures { IfOk result (λ after. (later : List Line) → text.new.items ++ rows_text (rows_of later after.now)
        ≡ text.old.items ++ rows_text (rows_of (numbered_lines [] number left source.now ++ later) words.now)) }
{
    let mut line = Vec::new(alloc);
    let mut number = number;
    let mut left = left;
    let mut words = words;
    let mut rest = source;
    while let [byte, others @ ..] = rest {
        match *byte {
            b'\r' => {}
            b'\n' => {
                let (here, after) = words_of(words, number_by(left, number));
                put_line(text, &line, here)?;
                line.clear();
                words = after;
                number = number.saturating_add(1);
                left = one_less(left);
            }
            _ => line.push(*byte)?,
        }
        rest = others;
    }
    let (here, after) = words_of(words, number_by(left, number));
    put_last(text, &line, here)?;
    Ok(after)
}

//! The cross reference of a listing: names with their values and the lines that use them.
ghost use Rattle.std.specs.Prelude.{◌≡◌, ◌++◌, ◌∷◌, [], ℕ, List, IfOk, OnOk};
ghost use Rattle.pal_lex.specs.Text.{limit};
ghost use Rattle.pal8_places.specs.declared.options.Options as options;
ghost use Rattle.pal8_listing.specs.Steps.{AreByName};
ghost use Rattle.pal8_listing.specs.Uses.{cross_text, further_text, is_of, one_use, later_starts, sign_text, spot_from, spot_text, use_text, uses_text};
ghost use Rattle.std.specs.Prelude.{filter, ◌+◌, ◌-◌};
ghost use Rattle.pal8_listing.specs.declared.mentions.Mention as mention;

use crate::mentions::Mention;
use crate::rows::{join_after, lines_read, number_after};
use crate::uses::uses_of;
use source_listing::{put_symbol, split};
use source_places::put_number;
use std::alloc::{AllocError, Global};
use std::collections::BTreeMap;
use word12::Word;

/// The number in a join of the first line of each source but the first, where each source that another follows has so many bytes in the join (PAL8, in
/// this project's profile). Lines count from 1, and `PAUSE`'s counts, too.
pub fn later_starts(alloc: Global, counts: &[usize], join: &[u8]) -> Result<Vec<u64>, AllocError>
    ensures { IfOk result (λ starts. starts.items ≡ later_starts 1 counts.now join.now) }
{
    let mut starts = Vec::new(alloc);
    let mut number = 1;
    let mut join = join;
    let mut rest = counts;
    while let [_, others @ ..] = rest {
        number = number_after(number, lines_read(rest, join));
        starts.push(number)?;
        join = join_after(rest, join);
        rest = others;
    }
    Ok(starts)
}

/// The line of a source that begins at one of a join, where it stands at another there.
fn line_in(first: u64, line: u64) -> u64
    ensures { result ≡ limit (line - first + 1) }
{
    line.saturating_sub(first).saturating_add(1)
}

/// The source, from 1, in which a line of a join stands, and its line there, from 1. The sources but the first begin at these lines of the join.
pub fn spot_of(starts: &[u64], line: u64) -> (u64, u64)
    ensures { result ≡ spot_from 1 1 starts.now line }
{
    let mut source: u64 = 1;
    let mut first = 1;
    let mut rest = starts;
    while let [next, others @ ..] = rest {
        if line < *next {
            return (source, line_in(first, line));
        }
        source = source.saturating_add(1);
        first = *next;
        rest = others;
    }
    (source, line_in(first, line))
}

/// Puts a line, after the number of its source where there are several.
fn put_spot(text: &mut Vec<u8>, starts: &[u64], spot: (u64, u64)) -> Result<(), AllocError>
    ensures { OnOk result (text.new.items ≡ text.old.items ++ spot_text starts.now spot) }
{
    if !starts.is_empty() {
        put_number(text, spot.0)?;
        text.extend_from_slice(b":")?;
    }
    put_number(text, spot.1)
}

/// What stands after a line, if it defines the name.
fn sign(is_definition: bool) -> &'static [u8]
    ensures { result.now ≡ sign_text is_definition }
{
    if is_definition {
        return b"#";
    }
    b""
}

/// Puts the line of a use.
fn put_use(text: &mut Vec<u8>, starts: &[u64], mention: Mention) -> Result<(), AllocError>
    ensures { OnOk result (text.new.items ≡ text.old.items ++ use_text starts.now mention) }
{
    put_spot(text, starts, spot_of(starts, mention.line))?;
    text.extend_from_slice(sign(mention.is_definition))?;
    Ok(())
}

/// Two uses in a line, as one.
fn one_use(first: Mention, second: Mention) -> Mention
    ensures { result ≡ one_use first second }
{
    Mention {
        name: first.name,
        line: first.line,
        is_definition: first.is_definition || second.is_definition,
    }
}

/// Puts a use, unless the next one is in its line, and answers what is still to be put.
fn put_before(
    text: &mut Vec<u8>,
    starts: &[u64],
    current: Mention,
    next: Mention,
) -> Result<Mention, AllocError>
    ensures { IfOk result (λ last. (others : List mention.Mention) → text.new.items ++ further_text starts.now last others
        ≡ text.old.items ++ further_text starts.now current (next ∷ others)) }
{
    if current.line == next.line {
        return Ok(one_use(current, next));
    }
    put_use(text, starts, current)?;
    text.extend_from_slice(b" ")?;
    Ok(next)
}

/// Puts a use and further ones, each line once.
fn put_further(
    text: &mut Vec<u8>,
    starts: &[u64],
    first: Mention,
    others: &[Mention],
) -> Result<(), AllocError>
    ensures { OnOk result (text.new.items ≡ text.old.items ++ further_text starts.now first others.now) }
{
    let mut current = first;
    let mut rest = others;
    while let [next, later @ ..] = rest {
        current = put_before(text, starts, current, *next)?;
        rest = later;
    }
    put_use(text, starts, current)
}

/// Puts the uses of a name.
fn put_uses(text: &mut Vec<u8>, starts: &[u64], uses: &[Mention]) -> Result<(), AllocError>
    ensures { OnOk result (text.new.items ≡ text.old.items ++ uses_text starts.now uses.now) }
{
    match uses {
        [first, others @ ..] => {
            text.extend_from_slice(b"  ")?;
            put_further(text, starts, *first, others)
        }
        [] => Ok(()),
    }
}

/// Puts a name on a line with its value and the lines that use it.
fn put_entry(
    text: &mut Vec<u8>,
    starts: &[u64],
    found: &[Mention],
    name: u64,
    value: Word,
) -> Result<(), AllocError>
    ensures { (whole : List mention.Mention) → AreByName whole found.now → OnOk result (text.new.items ≡ text.old.items
        ++ cross_text starts.now (λ n. filter (is_of n) whole) ((name, value) ∷ [])) }
{
    put_symbol(text, name, value.get())?;
    put_uses(text, starts, uses_of(found, name))?;
    text.extend_from_slice(b"\n")?;
    Ok(())
}

/// Puts names, each on a line with its value and the lines that use it, in the order of their numbers.
pub(crate) fn put_cross(
    text: &mut Vec<u8>,
    starts: &[u64],
    found: &[Mention],
    names: &BTreeMap<u64, Word>,
) -> Result<(), AllocError>
    ensures { (whole : List mention.Mention) → AreByName whole found.now → OnOk result (text.new.items ≡ text.old.items
        ++ cross_text starts.now (λ n. filter (is_of n) whole) names.now.entries) }
{
    for (name, value) in names {
        put_entry(text, starts, found, *name, *value)?;
    }
    Ok(())
}

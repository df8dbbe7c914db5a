//! The items of a script, one after another.
ghost use Rattle.std.specs.Prelude.{◌≡◌, if◌then◌else◌, ◌∷◌, ◌++◌, ◌-◌, ◌<◌, ◌≤◌, ℕ, List, [], length, drop, Ok, Err, IfOk, true, false};
ghost use Rattle.script8.specs.CutSteps.{Cuts, Cut, FirstLineSays, with_line_end};
ghost use Rattle.script8.specs.Items.{BeginsWith, WaitsForLines, ended_lines};
ghost use Rattle.refusals.specs.declared.faults.SessionFault.TheVariants.{BadLine};
ghost use Rattle.script8.specs.declared.items.Item.TheVariants.{Refused};
ghost use Rattle.script8.specs.declared.lines.Line.TheVariants.{Store};
ghost use Rattle.script8.specs.declared.items.Next.TheVariants as next;

use crate::{Bytes, Entry, FileEntry, Line, parse_line};
use refusals::SessionFault;
use std::alloc::{AllocError, Global};

/// An item of a script.
#[derive(Drop)]
pub enum Item {
    /// An entry is done.
    Do(Entry),

    /// Turns of the lowest job are taken until no job is left.
    Finish,

    /// A line is refused.
    Refused(SessionFault),
}

/// What a text begins with.
#[derive(Drop)]
pub enum Next {
    /// No item; in a text that goes on none is whole before so many more lines are ended.
    End(u32),

    /// An empty line of so many bytes, its LF with them.
    Blank(usize),

    /// An item of so many bytes, the LF of its last line with them.
    Item { item: Item, bytes: usize },
}

/// What a text begins with, where it is the end of a script, or goes on. The lines of a STORE are taken with it. Where they are
/// not all there, it is refused as `BadLine` at a script's end, and is no whole item otherwise (this project's profile). So a text
/// that comes in parts needs no second look before the lines that are wanted have come.
pub fn next_item(alloc: Global, text: &[u8], is_end: bool) -> Result<Next, SessionFault>
    ensures { BeginsWith text.now is_end result }
{
    match lines_length(text, 1, is_end) {
        Ok(bytes) => line_item(alloc, text, bytes, is_end),
        Err(missing) => Ok(Next::End(missing)),
    }
}

/// How many lines a text that wanted so many still wants after these bytes of it.
pub fn lines_left(lines: u32, bytes: &[u8]) -> u32
    ensures number { result ≡ lines - length (ended_lines bytes.now) }
    ensures waits { (text : List ℕ) → WaitsForLines text lines → WaitsForLines (text ++ bytes.now) result }
{
    (lines as usize).saturating_sub(ends_in(bytes)) as u32
}

/// How many lines a text ends: the number of its LFs.
fn ends_in(text: &[u8]) -> usize
    ensures { result ≡ length (ended_lines text.now) }
{
    let mut ends = 0;
    for byte in text {
        if *byte == b'\n' {
            ends += 1;
        }
    }
    ends
}

/// What a text begins with if its first line has so many bytes, its LF with them.
fn line_item(alloc: Global, text: &[u8], bytes: usize, is_end: bool) -> Result<Next, SessionFault>
    requires { Cuts text.now is_end 1 bytes }
    ensures { BeginsWith text.now is_end result }
{
    let (line, _) = text.split_at(bytes);
    match parse_line(alloc, without_end(line)) {
        Ok(Line::Empty) => Ok(Next::Blank(bytes)),
        Ok(Line::Finish) => Ok(Next::Item {
            item: Item::Finish,
            bytes,
        }),
        Ok(Line::Whole(entry)) => Ok(Next::Item {
            item: Item::Do(entry),
            bytes,
        }),
        Ok(Line::Store { name, lines }) => store_item(alloc, text, bytes, name, lines, is_end),
        Err(fault) => match fault {
            SessionFault::BadLine => Ok(Next::Item {
                item: Item::Refused(SessionFault::BadLine),
                bytes,
            }),
            _ => Err(fault),
        },
    }
}

/// What a text begins with if its first line is a STORE, and has so many bytes.
fn store_item(
    alloc: Global,
    text: &[u8],
    bytes: usize,
    name: Bytes,
    lines: u32,
    is_end: bool,
) -> Result<Next, SessionFault>
    requires { FirstLineSays text.now is_end (Ok (Store name lines)) bytes }
    ensures { BeginsWith text.now is_end result }
{
    let (_, following) = text.split_at(bytes);
    match lines_length(following, lines, is_end) {
        Ok(more) => {
            let (lines, _) = following.split_at(more);
            let text = ended_text(alloc, lines)?;
            Ok(Next::Item {
                item: Item::Do(Entry::Files(FileEntry::Store { name, text })),
                bytes: bytes + more,
            })
        }
        Err(missing) => Ok(cut_off(text, missing, is_end)),
    }
}

/// What a text begins with if it is a STORE for which lines are missing.
fn cut_off(text: &[u8], missing: u32, is_end: bool) -> Next
    ensures over { is_end ≡ true → result ≡ next.Item (Refused BadLine) (length text.now) }
    ensures on { is_end ≡ false → result ≡ next.End missing }
{
    if !is_end {
        return Next::End(missing);
    }
    Next::Item {
        item: Item::Refused(SessionFault::BadLine),
        bytes: text.len(),
    }
}

/// A law: a text of no byte has no whole item before a line is ended. The function does nothing.
pub fn one_line_wanted()
    ensures { WaitsForLines [] 1 }
{}

/// How many bytes so many lines have, the LFs with them, or how many are missing; the last line of a script may lack its own.
/// Where several are still wanted, a block that ends fewer, and has bytes after it, needs no closer look.
fn lines_length(text: &[u8], lines: u32, is_end: bool) -> Result<usize, u32>
    ensures { Cut text.now is_end lines result }
{
    let mut left = lines;
    let mut begin = 0;
    while text.len() - begin > BLOCK && left >= 2 {
        let ends = ends_in(&text[begin..begin + BLOCK]);
        if ends >= left as usize {
            break;
        }
        left -= ends as u32;
        begin += BLOCK;
    }
    let mut is_begun = false;
    for place in begin..text.len() {
        if left == 0 {
            return Ok(place);
        }
        if text[place] == b'\n' {
            left -= 1;
            is_begun = false;
        } else {
            is_begun = true;
        }
    }
    if left == 0 {
        return Ok(text.len());
    }
    if left > 1 || !is_begun || !is_end {
        return Err(left);
    }
    Ok(text.len())
}

/// The bytes that are looked at in one go for the ends of lines.
const BLOCK: usize = 64;

/// A line without the LF that may stand at its end.
fn without_end(line: &[u8]) -> &[u8]
    requires { 0 < length line.now }
    ensures { with_line_end line.now ≡ result.now ++ 0o12 ∷ [] }
{
    match line.strip_suffix(b"\n".as_slice()) {
        Some(prefix) => prefix,
        None => line,
    }
}

/// A text, with an LF at its end.
fn ended_text(alloc: Global, text: &[u8]) -> Result<Bytes, AllocError>
    ensures { IfOk result (λ own. own ≡ with_line_end text.now) }
{
    let mut items = Vec::with_capacity(alloc, text.len().saturating_add(1))?;
    items.extend_from_slice(text)?;
    if needs_end(text) {
        items.push(b'\n')?;
    }
    Ok(Bytes::new(items))
}

/// Whether a text ends in the midst of a line.
fn needs_end(text: &[u8]) -> bool
    ensures { with_line_end text.now ≡ text.now ++ (if result then 0o12 ∷ [] else []) }
{
    if text.is_empty() {
        return false;
    }
    match text.strip_suffix(b"\n".as_slice()) {
        Some(_) => false,
        None => true,
    }
}

//! What a line says.

ghost use Rattle.std.specs.Prelude.{◌≡◌, ◌≤◌, drop, length, slice_index};
ghost use Rattle.source_names.specs.Laws.{visible_name};
ghost use Rattle.source_names.specs.Names.{begins_blank, cell_in, has_tag_form, is_blank, name_in, says_nothing, short_name, six_places, without_blanks, without_return};
ghost use Rattle.source_names.specs.Steps.{line_length};

use pal_sym::SymbolName;
use word12::{Cell, octal_cell};

/// The digits of a cell.
const DIGITS: usize = 5;

/// How many bytes stand before the first LF.
pub fn line_length(text: &[u8]) -> usize
    ensures value { result ≡ line_length text.now }
    ensures range { result ≤ length text.now }
{
    let mut count = 0;
    let mut rest = text;
    while let [byte, others @ ..] = rest {
        if *byte == b'\n' {
            return count;
        }
        count += 1;
        rest = others;
    }
    count
}

/// A line without the CR at its end.
pub fn without_return(line: &[u8]) -> &[u8]
    ensures { result.now ≡ without_return line.now }
{
    if let [others @ .., last] = line {
        if *last == b'\r' {
            return others;
        }
    }
    line
}

/// Whether a line is empty, or a comment.
pub fn says_nothing(line: &[u8]) -> bool
    ensures { result ≡ says_nothing line.now }
{
    match line {
        [byte, ..] => *byte == b'/',
        [] => true,
    }
}

/// The cell that a line says, if it says one.
pub fn cell_in(line: &[u8]) -> Option<Cell>
    ensures { result ≡ cell_in line.now }
{
    if line.len() < DIGITS {
        return None;
    }
    let (digits, others) = line.split_at(DIGITS);
    if !begins_blank(others) {
        return None;
    }
    octal_cell(digits)
}

/// What stands after a line's cell and the blanks there.
pub fn name_in(line: &[u8]) -> &[u8]
    requires { 5 ≤ length line.now }
    ensures { result.now ≡ name_in line.now }
{
    let (_, others) = line.split_at(DIGITS);
    without_blanks(others)
}

fn begins_blank(text: &[u8]) -> bool
    ensures { result ≡ begins_blank text.now }
{
    match text {
        [byte, ..] => is_blank(*byte),
        [] => false,
    }
}

fn without_blanks(text: &[u8]) -> &[u8]
    ensures { result.now ≡ without_blanks text.now }
{
    let mut rest = text;
    while let [byte, others @ ..] = rest {
        if !is_blank(*byte) {
            return rest;
        }
        rest = others;
    }
    rest
}

/// A blank or a tab.
fn is_blank(byte: u8) -> bool
    ensures { result ≡ is_blank byte }
{
    byte == b' ' || byte == b'\t'
}

/// The name that a text is, if it is one of six characters at most.
pub fn short_name(name: &[u8]) -> Option<SymbolName>
    ensures { result ≡ short_name name.now }
{
    if name.len() > 6 {
        return None;
    }
    SymbolName::of(name)
}

/// Whether a name has the form of the tags that listings make.
pub fn has_tag_form(name: &[u8]) -> bool
    ensures { result ≡ has_tag_form name.now }
{
    match name {
        [first, others @ ..] => *first == b'A' && octal_cell(others).is_some(),
        [] => false,
    }
}

/// A name in six places, with 0 after it.
pub fn six_places(name: &[u8]) -> [u8; 6]
    ensures { result ≡ six_places name.now }
{
    let at = |place| byte_at(name, place);
    [at(0), at(1), at(2), at(3), at(4), at(5)]
}

/// The characters of a name in six places: those before the first 0.
pub fn visible_name(six: &[u8]) -> &[u8]
    ensures { result.now ≡ visible_name six.now }
{
    let (name, _) = six.split_at(shown_length(six));
    name
}

/// How many characters a name in six places has.
fn shown_length(six: &[u8]) -> usize
    ensures value { result ≡ length (visible_name six.now) }
    ensures range { result ≤ length six.now }
{
    let mut count = 0;
    let mut rest = six;
    while let [byte, others @ ..] = rest {
        if *byte == 0 {
            return count;
        }
        count += 1;
        rest = others;
    }
    count
}

/// The byte at a place, or 0 past the end.
fn byte_at(text: &[u8], place: usize) -> u8
    ensures { result ≡ slice_index text.now place }
{
    if place < text.len() { text[place] } else { 0 }
}

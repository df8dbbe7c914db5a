//! A text in which a statement that has a fault is harmless.
ghost use Rattle.std.specs.Prelude.{◌≡◌, ◌<◌, ◌+◌, ◌++◌, length, take, drop, replicate, IfOk, OnOk};
ghost use Rattle.pal_lex.specs.Text.{text_of};
ghost use Rattle.pal8_lex.specs.Kinds as kinds;
ghost use Rattle.pal8_lex.specs.Reading.{HasRead};
ghost use Rattle.pal8_grammar.specs.Bodies.{is_equals, name_of, opens};
ghost use Rattle.pal8_asm.specs.Sources.{statements};
ghost use Rattle.pal8_asm.specs.Walking.{statement_in};
ghost use Rattle.pal8_tape.specs.Marks.{begins};
ghost use Rattle.pal8_tape.specs.Mending.{begins_reserved, with_blanks, free_tags, harmless, harmless_by, harmless_statement, is_definition, is_far_reaching, tag_text, with_part};
ghost use Rattle.pal8_tape.specs.MendSteps.{harmless_text, harmless_text_with, text_in};

use pal8_asm::{Statement, push_byte, shown_statement};
use pal8_grammar::{free_name, is_reserved};
use pal8_lex::{End, Kind, Lexer, Name, Token, tag_count};
use source_places::{first_bytes, put_spelling};
use std::alloc::{AllocError, Global};

/// A statement that is to be harmless: the text in which it stands, and its place there.
#[derive(Clone, Copy)]
struct Mending<'t> {
    text: &'t [u8],
    start: u64,
    /// Whether places and names of the text have no fault.
    is_passed: bool,
}

/// A text in which the statement that begins at a place is its tags that are free names, and the word 0, with blanks after them. A definition is its
/// tags alone, where places and names have no fault. There is no such text where a bracket opens at the statement's end, or a reserved name begins
/// its body: it may concern those after it.
pub(crate) fn harmless(
    alloc: Global,
    text: &[u8],
    is_passed: bool,
    start: u64,
) -> Result<Option<Vec<u8>>, AllocError>
    ensures { IfOk result (λ next. text_in next ≡ harmless is_passed start text.now) }
{
    let mut lexer = Lexer::new(alloc);
    let mut found = None;
    let mut taken = 0;
    while taken < text.len() {
        let mending = Mending {
            text,
            start,
            is_passed,
        };
        look(alloc, &mut lexer, mending, taken, &mut found)?;
        taken += 1;
    }
    Ok(found)
}

/// Takes the byte of a text at a place, and finds the harmless text by the bytes so far.
fn look(
    alloc: Global,
    lexer: &mut Lexer,
    mending: Mending<'_>,
    at: usize,
    found: &mut Option<Vec<u8>>,
) -> Result<(), AllocError>
    requires inside { at < length mending.text.now }
    requires small { at < 18446744073709551615 }
    ensures { HasRead lexer.old (text_of (take at mending.entry.text.now))
        → text_in found.old ≡ harmless_text mending.entry (statements (text_of (take at mending.entry.text.now)))
        → OnOk result ((text_in found.new ≡ harmless_text mending.entry (statements (text_of (take (at + 1) mending.entry.text.now))))
        × HasRead lexer.new (text_of (take (at + 1) mending.entry.text.now))) }
{
    match push_byte(lexer, mending.text[at])? {
        Some(end) => find(alloc, mending, at, shown_statement(lexer, end), found),
        None => Ok(()),
    }
}

/// Finds the harmless text by a statement that a byte ends, if it is the one that begins at the place.
fn find(
    alloc: Global,
    mending: Mending<'_>,
    at: usize,
    statement: Statement<'_>,
    found: &mut Option<Vec<u8>>,
) -> Result<(), AllocError>
    ensures { OnOk result (text_in found.new ≡ harmless_text_with mending.entry (statement_in at statement.entry) (text_in found.old)) }
{
    if begins(mending.start, statement.tokens) {
        let next = harmless_by(alloc, mending, at, statement.tokens, statement.end)?;
        *found = next;
    }
    Ok(())
}

/// Whether the first token stands there.
fn begins(start: u64, tokens: &[Token]) -> bool
    ensures { result ≡ begins start tokens.now }
{
    match tokens {
        [first, ..] => first.start == start,
        [] => false,
    }
}

/// The harmless text by the statement that begins and ends at these places.
fn harmless_by(
    alloc: Global,
    mending: Mending<'_>,
    at: usize,
    tokens: &[Token],
    end: End,
) -> Result<Option<Vec<u8>>, AllocError>
    ensures { IfOk result (λ next. text_in next ≡ harmless_by mending.entry.is_passed mending.entry.text.now mending.entry.start at tokens.now end) }
{
    if is_far_reaching(tokens, end) {
        return Ok(None);
    }
    let part = harmless_statement(alloc, mending.is_passed, tokens)?;
    let next = with_part(alloc, mending.start as usize, at, &part, mending.text)?;
    Ok(Some(next))
}

/// Whether a statement may concern those after it.
fn is_far_reaching(tokens: &[Token], end: End) -> bool
    ensures { result ≡ is_far_reaching tokens.now end }
{
    let (_tags, body) = tokens.split_at(2 * tag_count(tokens));
    opens(end) || begins_reserved(body)
}

fn opens(end: End) -> bool
    ensures { result ≡ opens end }
{
    matches!(end, End::Open)
}

/// Whether a reserved name comes first.
fn begins_reserved(tokens: &[Token]) -> bool
    ensures { result ≡ begins_reserved tokens.now }
{
    match tokens {
        [first, ..] => match name_of(first.kind) {
            Some(name) => is_reserved(name),
            None => false,
        },
        [] => false,
    }
}

fn name_of(kind: Kind) -> Option<Name>
    ensures { result ≡ name_of kind }
{
    match kind {
        Kind::Name(name) => Some(name),
        Kind::Number(_) | Kind::Character(_) | Kind::Here | Kind::Operator(_) => None,
        Kind::Equals | Kind::Comma | Kind::Star | Kind::Opening(_) => None,
        Kind::Closing(_) | Kind::String | Kind::Bad => None,
    }
}

/// The tags of a statement that are free names, and the word 0, but after those of a definition in a text whose places and names have no fault.
fn harmless_statement(
    alloc: Global,
    is_passed: bool,
    tokens: &[Token],
) -> Result<Vec<u8>, AllocError>
    ensures { IfOk result (λ part. part.items ≡ harmless_statement is_passed tokens.now) }
{
    let (_tags, body) = tokens.split_at(2 * tag_count(tokens));
    let mut part = Vec::new(alloc);
    put_free_tags(&mut part, tokens)?;
    if is_passed && is_definition(body) {
        return Ok(part);
    }
    part.extend_from_slice(b"0")?;
    Ok(part)
}

/// Whether an `=` comes second.
fn is_definition(tokens: &[Token]) -> bool
    ensures { result ≡ is_definition tokens.now }
{
    match tokens {
        [_, next, ..] => is_equals(next.kind),
        _ => false,
    }
}

fn is_equals(kind: Kind) -> bool
    ensures { result ≡ is_equals kind }
{
    matches!(kind, Kind::Equals)
}

/// Puts the tags of a statement that are free names after a text.
fn put_free_tags(text: &mut Vec<u8>, tokens: &[Token]) -> Result<(), AllocError>
    ensures { OnOk result (text.new.items ≡ text.old.items ++ free_tags tokens.now) }
{
    let mut rest = tokens;
    while let [token, next, others @ ..] = rest {
        if !is_comma(next.kind) {
            return Ok(());
        }
        put_tag(text, free_name(token.kind))?;
        rest = others;
    }
    Ok(())
}

fn is_comma(kind: Kind) -> bool
    ensures { result ≡ kinds.is_comma kind }
{
    matches!(kind, Kind::Comma)
}

/// Puts a tag after a text, if it is a name.
fn put_tag(text: &mut Vec<u8>, name: Option<Name>) -> Result<(), AllocError>
    ensures { OnOk result (text.new.items ≡ text.old.items ++ tag_text name) }
{
    match name {
        Some(name) => {
            put_spelling(text, name.number())?;
            text.extend_from_slice(b",")?;
            Ok(())
        }
        None => Ok(()),
    }
}

/// A text with another one, and then blanks, for its bytes from one place up to another.
fn with_part(
    alloc: Global,
    start: usize,
    end: usize,
    part: &[u8],
    text: &[u8],
) -> Result<Vec<u8>, AllocError>
    ensures { IfOk result (λ new. new.items ≡ with_part start end part.now text.now) }
{
    let wide = with_blanks(alloc, end.saturating_sub(start), part)?;
    let mut new = Vec::new(alloc);
    new.extend_from_slice(first_bytes(text, start))?;
    new.extend_from_slice(&wide)?;
    new.extend_from_slice(later_bytes(text, end))?;
    Ok(new)
}

/// So many bytes: a text, and then blanks.
fn with_blanks(alloc: Global, count: usize, text: &[u8]) -> Result<Vec<u8>, AllocError>
    ensures { IfOk result (λ wide. wide.items ≡ with_blanks count text.now) }
{
    let mut all = Vec::new(alloc);
    all.extend_from_slice(text)?;
    put_blanks(&mut all, count)?;
    let mut wide = Vec::new(alloc);
    wide.extend_from_slice(first_bytes(&all, count))?;
    Ok(wide)
}

/// Puts so many blanks after a text.
fn put_blanks(text: &mut Vec<u8>, count: usize) -> Result<(), AllocError>
    ensures { OnOk result (text.new.items ≡ text.old.items ++ replicate count 0o40) }
{
    for _ in 0..count {
        text.push(b' ')?;
    }
    Ok(())
}

/// The bytes of a text from a place on.
fn later_bytes(text: &[u8], place: usize) -> &[u8]
    ensures { result.now ≡ drop place text.now }
{
    if place < text.len() {
        return text.split_at(place).1;
    }
    &[]
}

//! Where a text pauses.
ghost use Rattle.std.specs.Prelude.{◌≡◌, ℕ, if◌then◌else◌, IfOk, List};
ghost use Rattle.pal_lex.specs.Text.{text_of};
ghost use Rattle.pal8_lex.specs.Text as lex;
ghost use Rattle.pal8_lex.specs.Text.{live};
ghost use Rattle.pal8_lex.specs.Reading.{HasRead, anew};
ghost use Rattle.pal8_asm.specs.Pushing.{shown_statement};
ghost use Rattle.pal8_asm.specs.Sources.{PassResult, statements};
ghost use Rattle.pal8_tape.specs.Joins.{has_none, is_line_open, pass_on};
ghost use Rattle.pal8_tape.specs.Passing.{Follows};
ghost use Rattle.pal8_tape.specs.Steps.{Finds, FindsAtEnd, IsPassing, MeetsByte, MeetsStatement};

use crate::JoinFault;
use crate::passes::Pass;
use pal8_asm::{push_byte, shown_statement};
use pal8_lex::{End, Lexer, Token};
use std::alloc::Global;

/// Where a text pauses.
#[derive(Clone, Copy)]
pub(crate) struct Pause {
    /// How many bytes stand before PAUSE.
    pub(crate) count: usize,
    /// What ends it.
    pub(crate) end: End,
}

/// Passes the statements of a text up to its first PAUSE that is selected and alone, and answers where that is, if it has one. The text's end ends
/// its last line.
pub(crate) fn find_pause(
    alloc: Global,
    pass: &mut Pass,
    text: &[u8],
) -> Result<Option<Pause>, JoinFault>
    ensures { (left : PassResult) → Follows pass.old left → IfOk result (λ found. Finds left text.now found pass.new) }
{
    let mut lexer = Lexer::new(alloc);
    let mut count = 0;
    let mut taken = 0;
    while taken < text.len() {
        if let Some(end) = meet_byte(pass, &mut lexer, text[taken])? {
            return Ok(Some(Pause { count, end }));
        }
        taken += 1;
        count = count_after(&lexer, count, taken);
    }
    find_at_end(pass, &mut lexer, text, count)
}

/// Ends the last line of a text, if it goes on, and answers where the text pauses, if PAUSE is its last statement.
fn find_at_end(
    pass: &mut Pass,
    lexer: &mut Lexer,
    text: &[u8],
    count: usize,
) -> Result<Option<Pause>, JoinFault>
    ensures { (left : PassResult) (before : List ℕ) → IsPassing left (text_of text.now) before lexer.old pass.old
        → IfOk result (λ found. FindsAtEnd left text.now before count found pass.new) }
{
    if !is_line_open(text) {
        return Ok(None);
    }
    match meet_byte(pass, lexer, b'\n')? {
        Some(end) => Ok(Some(Pause { count, end })),
        None => Ok(None),
    }
}

/// Takes the next byte of a text, and answers what ends PAUSE, if it does.
fn meet_byte(pass: &mut Pass, lexer: &mut Lexer, byte: u8) -> Result<Option<End>, JoinFault>
    ensures { (left : PassResult) (here : List ℕ) → HasRead lexer.old here → Follows pass.old (pass_on left (statements here))
        → IfOk result (λ end. MeetsByte left here byte end lexer.new pass.new) }
{
    match push_byte(lexer, byte)? {
        Some(end) => meet_statement(pass, lexer, end),
        None => Ok(None),
    }
}

/// Passes the statement that a lexer shows, and answers what ends it, if it is PAUSE.
fn meet_statement(pass: &mut Pass, lexer: &Lexer, end: End) -> Result<Option<End>, JoinFault>
    ensures { (at : ℕ) (left : PassResult) → Follows pass.old left → IfOk result (λ paused. MeetsStatement left (shown_statement at end lexer.now)
        paused pass.new) }
{
    let again = end;
    if pass.meet(shown_statement(lexer, end))? {
        return Ok(Some(again));
    }
    Ok(None)
}

/// How many bytes stand before the tokens of the statement that goes on, after a byte more.
fn count_after(lexer: &Lexer, count: usize, taken: usize) -> usize
    ensures { result ≡ (if has_none (anew lexer.now).draft.tokens then taken else count) }
{
    match lexer.end() {
        Some(_) => taken,
        None => {
            if is_empty(lexer.tokens()) {
                return taken;
            }
            count
        }
    }
}

fn is_empty(tokens: &[Token]) -> bool
    ensures { result ≡ has_none tokens.now }
{
    match tokens {
        [] => true,
        [_, ..] => false,
    }
}

/// Whether CR, form feed, NUL or rubout, which are as if they weren't there.
fn is_dropped(byte: u8) -> bool
    ensures { result ≡ lex.is_dropped byte }
{
    matches!(byte, 0 | 0o14 | 0o15 | 0o177)
}

/// Whether the last line of a text goes on: its last byte that is there is no line end.
pub fn is_line_open(text: &[u8]) -> bool
    ensures { result ≡ is_line_open (live (text_of text.now)) }
{
    let mut left = text.len();
    while left > 0 {
        let byte = text[left - 1];
        if !is_dropped(byte) {
            return byte != b'\n';
        }
        left -= 1;
    }
    false
}

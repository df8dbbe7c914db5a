//! The differences that a statement shows.
ghost use Rattle.std.specs.Prelude.{◌≡◌, ◌||◌, ℕ, IfOk};
ghost use Rattle.pal8_asm.specs.Sources.{PassResult};
ghost use Rattle.pal8_tape.specs.Joins.{is_operation};
ghost use Rattle.pal8_tape.specs.Passing.{Follows};
ghost use Rattle.pal8_listing.specs.Closer.{first_levels, has_closer, is_leading};
ghost use Rattle.pal8_listing.specs.Notes.{are_apart, has_apart, has_tab, has_tab_byte, is_operator, is_tab, is_term};
ghost use Rattle.pal8_listing.specs.NotesTexts.{words_of};

use crate::levels::Levels;
use pal8_grammar::is_reserved;
use pal8_lex::{Kind, Token};
use pal8_tape::Pass;
use std::alloc::{AllocError, Global};

/// How palbart reads a statement in another way.
#[derive(Clone, Copy)]
pub enum Difference {
    /// A blank before an operator ends a term, and what follows it is or'ed.
    Apart,
    /// Operators bind closer than a blank.
    Closer,
    /// A tab in a string, or after `"`, is a blank.
    Tab,
}

/// The words of a difference.
pub(crate) fn words_of(difference: Difference) -> &'static [u8]
    ensures { result.now ≡ words_of difference }
{
    match difference {
        Difference::Apart => b"palbart ors what stands before and after a blank before an operator",
        Difference::Closer => {
            b"palbart applies the other operators before it ors what a blank joins"
        }
        Difference::Tab => b"palbart reads a tab in a string, or after \", as a blank",
    }
}

/// Whether a token is a term that is no literal.
fn is_term(kind: Kind) -> bool
    ensures { result ≡ is_term kind }
{
    match kind {
        Kind::Name(name) => !is_reserved(name),
        Kind::Number(_) | Kind::Character(_) | Kind::Here => true,
        Kind::Equals | Kind::Comma | Kind::Star | Kind::Operator(_) => false,
        Kind::Opening(_) | Kind::Closing(_) | Kind::String | Kind::Bad => false,
    }
}

fn is_operator(kind: Kind) -> bool
    ensures { result ≡ is_operator kind }
{
    matches!(kind, Kind::Operator(_))
}

/// Whether a byte that is no token stands between a term and the operator after it.
fn are_apart(token: &Token, next: &Token) -> bool
    ensures { result ≡ are_apart token.now next.now }
{
    is_term(token.kind) && is_operator(next.kind) && token.end < next.start
}

/// Whether a byte that is no token stands between any term and the operator after it.
pub(crate) fn has_apart(tokens: &[Token]) -> bool
    ensures { result ≡ has_apart tokens.now }
{
    let mut rest = tokens;
    while let [token, others @ ..] = rest {
        match others {
            [next, ..] => {
                if are_apart(token, next) {
                    return true;
                }
            }
            [] => return false,
        }
        rest = others;
    }
    false
}

fn is_tab(kind: Kind) -> bool
    ensures { result ≡ is_tab kind }
{
    match kind {
        Kind::Character(byte) => byte == 0o211,
        Kind::Name(_) | Kind::Number(_) | Kind::Here | Kind::Operator(_) => false,
        Kind::Equals | Kind::Comma | Kind::Star | Kind::Opening(_) => false,
        Kind::Closing(_) | Kind::String | Kind::Bad => false,
    }
}

/// Whether a tab stands after `"`.
fn has_tab_token(tokens: &[Token]) -> bool
    ensures { result ≡ has_tab tokens.now }
{
    let mut rest = tokens;
    while let [token, others @ ..] = rest {
        if is_tab(token.kind) {
            return true;
        }
        rest = others;
    }
    false
}

/// Whether a tab stands in a string.
fn has_tab_byte(string: &[u8]) -> bool
    ensures { result ≡ has_tab_byte string.now }
{
    let mut rest = string;
    while let [byte, others @ ..] = rest {
        if *byte == b'\t' {
            return true;
        }
        rest = others;
    }
    false
}

/// Whether a tab stands after `"`, or in a string.
pub(crate) fn has_tab(tokens: &[Token], string: &[u8]) -> bool
    ensures { result ≡ (has_tab tokens.now || has_tab_byte string.now) }
{
    has_tab_token(tokens) || has_tab_byte(string)
}

/// Whether a token is the name of an operation in the next statement of a pass, or a reserved one.
fn is_leading(pass: &Pass, kind: Kind) -> bool
    ensures { (left : PassResult) → Follows pass.now left → result ≡ is_leading (is_operation left) kind }
{
    match kind {
        Kind::Name(name) => is_reserved(name) || pass.is_operation(name),
        Kind::Number(_) | Kind::Character(_) | Kind::Here | Kind::Operator(_) => false,
        Kind::Equals | Kind::Comma | Kind::Star | Kind::Opening(_) => false,
        Kind::Closing(_) | Kind::String | Kind::Bad => false,
    }
}

/// Whether an operator of the next statement of a pass binds closer than a blank before it.
pub(crate) fn has_closer(alloc: Global, pass: &Pass, tokens: &[Token]) -> Result<bool, AllocError>
    ensures { (left : PassResult) → Follows pass.now left → IfOk result (λ closer. closer ≡ has_closer (is_operation left) first_levels tokens.now) }
{
    let mut levels = Levels::new(alloc)?;
    let mut rest = tokens;
    while let [token, others @ ..] = rest {
        if levels.take(is_leading(pass, token.kind), token)? {
            return Ok(true);
        }
        rest = others;
    }
    Ok(false)
}

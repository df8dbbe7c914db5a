//! The next statement of a text, as a lexer shows it.
ghost use Rattle.std.specs.Prelude.{◌≡◌, ℕ, IfOk, List};
ghost use Rattle.pal8_lex.specs.Reading.{HasRead};
ghost use Rattle.pal8_asm.specs.Pushing.{EndsStatement, shown_statement};
ghost use Rattle.pal8_asm.specs.Walking.{statement_in};

use pal8_lex::{End, Lexer, Token};
use std::alloc::AllocError;

/// A statement of a text.
#[derive(Clone, Copy)]
pub struct Statement<'t> {
    /// The line in which it begins, 1 and up, and 2^64 - 1 where it would be more.
    pub line: u64,
    pub tokens: &'t [Token],
    /// The bytes of its string; none, if it has no string.
    pub string: &'t [u8],
    /// Whether its end cuts its string.
    pub is_cut: bool,
    /// What ends it.
    pub end: End,
}

/// Takes the next byte of a text, and answers what ends the statement that it ends, if it ends one. The lexer shows that statement then (PAL8, in
/// this project's profile).
///
/// Where memory ran out the byte was not taken. The statement that was shown is gone then.
pub fn push_byte(lexer: &mut Lexer, byte: u8) -> Result<Option<End>, AllocError>
    ensures { (here : List ℕ) → HasRead lexer.old here → IfOk result (λ end. EndsStatement here byte end lexer.new) }
{
    if !lexer.push(byte)? {
        return Ok(None);
    }
    Ok(lexer.end())
}

/// The statement that a lexer shows, which ends so.
pub fn shown_statement(lexer: &Lexer, end: End) -> Statement<'_>
    ensures { (at : ℕ) → statement_in at result ≡ shown_statement at end lexer.now }
{
    Statement {
        line: lexer.line(),
        tokens: lexer.tokens(),
        string: lexer.string(),
        is_cut: lexer.is_cut(),
        end,
    }
}

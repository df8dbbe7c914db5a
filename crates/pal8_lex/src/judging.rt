ghost use Rattle.std.specs.Prelude.{◌≡◌, ◌*◌, ◌≤◌, length};
ghost use Rattle.pal8_lex.specs.Judging.{has_bad, has_bad_number, is_bad, is_bad_number, is_out, tag_count};

use crate::kinds::is_comma;
use crate::{Kind, Number, Token};

/// How numbers are read.
#[derive(Clone, Copy)]
pub enum Radix {
    Octal,
    Decimal,
}

fn is_bad(kind: Kind) -> bool
    ensures { result ≡ is_bad kind }
{
    matches!(kind, Kind::Bad)
}

/// Whether letters and digits are no number of twelve bits by a radix.
fn is_out(radix: Radix, number: Number) -> bool
    ensures { result ≡ is_out radix number }
{
    match radix {
        Radix::Octal => number.octal >= 0o10000,
        Radix::Decimal => number.decimal >= 0o10000,
    }
}

/// Whether a token begins with a digit, and is no number by a radix.
fn is_bad_number(radix: Radix, kind: Kind) -> bool
    ensures { result ≡ is_bad_number radix kind }
{
    match kind {
        Kind::Number(number) => is_out(radix, number),
        Kind::Name(_) | Kind::Character(_) | Kind::Here | Kind::Operator(_) => false,
        Kind::Equals | Kind::Comma | Kind::Star | Kind::Opening(_) => false,
        Kind::Closing(_) | Kind::String | Kind::Bad => false,
    }
}

/// Whether a byte of a statement stands in none, or a `"` has nothing after it (PAL8, in this project's profile).
pub fn has_bad(tokens: &[Token]) -> bool
    ensures { result ≡ has_bad tokens.now }
{
    let mut rest = tokens;
    while let [token, others @ ..] = rest {
        if is_bad(token.kind) {
            return true;
        }
        rest = others;
    }
    false
}

/// Whether one of these tokens begins with a digit and is no number of twelve bits by a radix (PAL8, in this project's profile).
pub fn has_bad_number(tokens: &[Token], radix: Radix) -> bool
    ensures { result ≡ has_bad_number radix tokens.now }
{
    let mut rest = tokens;
    while let [token, others @ ..] = rest {
        if is_bad_number(radix, token.kind) {
            return true;
        }
        rest = others;
    }
    false
}

/// How many tags stand in front of a statement's body: pairs of a token, whatever it is, and `,` (PAL8, in this project's profile).
pub fn tag_count(tokens: &[Token]) -> usize
    ensures count { result ≡ tag_count tokens.now }
    ensures range { 2 * result ≤ length tokens.now }
{
    let mut count = 0;
    let mut rest = tokens;
    while let [_, next, others @ ..] = rest {
        if !is_comma(next.kind) {
            return count;
        }
        count += 1;
        rest = others;
    }
    count
}

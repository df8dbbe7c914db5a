//! Names and numbers, read from the beginning of bytes.

ghost use Rattle.std.specs.Prelude.{◌≡◌, ℕ, true, ◌≤◌, length};
ghost use Rattle.pal_lex.specs.Text.{limit};
ghost use Rattle.pal_lex.specs.Runs.{base};
ghost use Rattle.word12.specs.Sixbit.{is_letter};
ghost use Rattle.pal_lex.specs.Cutting.{is_coded};
ghost use Rattle.pal_lex.specs.GrowthSteps.{IsRun};

use crate::runs::{Radix, first_kind, grown, longer_name};
use crate::{Kind, Name, Term, Token};

/// The token of a name or a number, how many characters it has after its first one, and the weight of the next one.
#[derive(Clone, Copy)]
pub struct Grown {
    pub token: Token,
    pub more: usize,
    pub weight: u32,
}

/// Whether a byte is a letter or a digit.
#[inline(always)]
fn is_coded(byte: u8) -> bool
    ensures { result ≡ is_coded byte }
{
    matches!(byte, b'A'..=b'Z' | b'0'..=b'9')
}

/// Whether a byte is a letter.
#[inline(always)]
fn is_letter(byte: u8) -> bool
    ensures { result ≡ is_letter byte }
{
    matches!(byte, b'A'..=b'Z')
}

/// The name that a letter at a place begins, with the letters and digits after it.
#[inline(always)]
fn name_of(first: u8, others: &[u8], place: u64) -> Grown
    requires { is_letter first ≡ true }
    ensures run { (radix : Radix) (at : ℕ) → place ≡ limit at
        → IsRun (base radix) first others.now at result }
    ensures range { result.more ≤ length others.now }
{
    let mut name = longer_name(Name::from_number(0), 0o10000000000, first);
    let mut end = place.saturating_add(1);
    let mut weight = 0o100000000;
    let mut more = 0;
    while more < others.len() && is_coded(others[more]) {
        name = longer_name(name, weight, others[more]);
        end = end.saturating_add(1);
        weight /= 0o100;
        more += 1;
    }
    Grown {
        token: Token {
            kind: Kind::Term(Term::Name(name)),
            start: place,
            end,
        },
        more,
        weight,
    }
}

/// The name or number that a character at a place begins, with the letters and digits after it.
#[inline(always)]
pub fn run_of(radix: Radix, first: u8, others: &[u8], place: u64) -> Grown
    requires { is_coded first ≡ true }
    ensures run { (at : ℕ) → place ≡ limit at → IsRun (base radix) first others.now at result }
    ensures range { result.more ≤ length others.now }
{
    if is_letter(first) {
        return name_of(first, others, place);
    }
    let mut token = Token {
        kind: first_kind(radix, first),
        start: place,
        end: place.saturating_add(1),
    };
    let mut weight = 0o100000000;
    let mut more = 0;
    while more < others.len() && is_coded(others[more]) {
        token.kind = grown(token.kind, radix, weight, others[more]);
        token.end = token.end.saturating_add(1);
        weight /= 0o100;
        more += 1;
    }
    Grown {
        token,
        more,
        weight,
    }
}

ghost use Rattle.std.specs.Prelude.{◌≡◌};
ghost use Rattle.pal8_grammar.specs.Values.{goes_on, is_whole};

use crate::kinds::operator_of;
use pal8_lex::{Pool, Radix, Token};

/// What the next token of a value stands after.
#[derive(Clone, Copy)]
pub enum Stand {
    /// Nothing of a value.
    Value,
    /// Nothing of an expression.
    Expression,
    /// The name of an operation, with which a value begins, by its number.
    Operation(u64),
    /// `I` or `Z`.
    Address,
    /// A sign, in an address or else in an expression.
    Sign(bool),
    /// A term, in an address or else in an expression.
    Term(bool),
}

/// An open literal: which pool it asks, and whether it is a term of an address or else of an expression.
#[derive(Clone, Copy)]
pub struct Outer {
    pub pool: Pool,
    pub is_address: bool,
}

/// How values are read.
#[derive(Clone, Copy)]
pub struct Rules {
    pub radix: Radix,
    /// Whether literals may stand there.
    pub has_literals: bool,
}

/// Whether a token goes on with a value.
#[inline]
pub fn goes_on(stand: Stand, token: &Token) -> bool
    ensures { result ≡ goes_on stand token.now }
{
    match stand {
        Stand::Operation(_) => token.is_spaced || operator_of(token.kind).is_some(),
        Stand::Address => token.is_spaced,
        Stand::Term(is_address) => {
            (token.is_spaced && !is_address) || operator_of(token.kind).is_some()
        }
        Stand::Value | Stand::Expression | Stand::Sign(_) => false,
    }
}

/// Whether a value may end here.
pub fn is_whole(stand: Stand) -> bool
    ensures { result ≡ is_whole stand }
{
    match stand {
        Stand::Operation(_) | Stand::Address | Stand::Term(_) => true,
        Stand::Value | Stand::Expression | Stand::Sign(_) => false,
    }
}

ghost use Rattle.std.specs.Prelude.{◌≡◌};

use crate::Name;
use std::marker::Model;
use word12::Word;

/// What an expression is made of.
#[derive(Clone, Copy, Default)]
pub enum Term {
    Name(Name),
    Number(Word),
    /// `.`, the present location.
    #[default]
    Here,
}

/// What a token is.
#[derive(Clone, Copy)]
pub enum Kind {
    Term(Term),
    /// What begins with a digit and is no number of twelve bits by the present radix.
    BadNumber,
    Blank,
    Plus,
    Minus,
    Equals,
    Comma,
    Star,
}

/// A token, with the place of its first byte and the place after its last one, in the source of its statement, from
/// 0. Each is 2^64 - 1 where it would be more.
#[derive(Clone, Copy)]
pub struct Token {
    pub kind: Kind,
    pub start: u64,
    pub end: u64,
}

/// The tokens of a statement, in their order.
#[derive(Drop)]
pub struct Tokens {
    items: Vec<Token>,
}

impl Model for Tokens {
    ghost use Rattle.std.specs.Prelude.{List};
    ghost use Rattle.pal_lex.specs.declared.pieces.Token.{Token};

    ghost Value = { List Token };

    ghost view = { λ tokens. tokens.items.items };
}

impl Tokens {
    pub(crate) fn new(items: Vec<Token>) -> Tokens
        ensures { result ≡ items.items }
    {
        Tokens { items }
    }

    /// The tokens as a slice.
    pub fn as_slice(&self) -> &[Token]
        ensures { result.now ≡ self.now }
    {
        &self.items
    }
}

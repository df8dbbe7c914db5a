ghost use Rattle.std.specs.Prelude.{◌≡◌};
ghost use Rattle.pal8_lex.specs.Runs.{word_of};

use std::marker::Model;
use word12::Word;

/// A name, or the first six characters of a number. It is the number of six digits to the base 64 that their sixbit codes make,
/// with 0 for each that is missing. A small letter counts as its capital.
#[derive(Clone, Copy)]
pub struct Name {
    number: u64,
}

impl Model for Name {
    ghost use Rattle.std.specs.Prelude.{ℕ};

    ghost Value = { ℕ };

    ghost view = { λ name. name.number };

    ghost inverse = { λ number. record { number = number } };
}

impl Name {
    /// The name of a number, which six sixbit codes make.
    #[inline]
    pub fn from_number(number: u64) -> Name
        ensures { result ≡ number }
    {
        Name { number }
    }

    /// The number that its six sixbit codes make.
    #[inline]
    pub fn number(self) -> u64
        ensures { result ≡ self }
    {
        self.number
    }
}

/// Letters and digits that begin with a digit, read by both radixes, since the radix isn't known here.
#[derive(Clone, Copy)]
pub struct Number {
    /// Its first six characters, which count where it names a file or a device.
    pub spelling: Name,
    /// The octal number, or 0o10000 where it is none of twelve bits.
    pub octal: u16,
    /// The decimal number, or 0o10000 where it is none of twelve bits.
    pub decimal: u16,
}

impl Number {
    /// The word that it is as an octal number, if it is one.
    pub fn octal_word(self) -> Option<Word>
        ensures { result ≡ word_of self.octal }
    {
        Word::new(self.octal)
    }

    /// The word that it is as a decimal number, if it is one.
    pub fn decimal_word(self) -> Option<Word>
        ensures { result ≡ word_of self.decimal }
    {
        Word::new(self.decimal)
    }
}

/// A sign that joins two terms.
#[derive(Clone, Copy)]
pub enum Operator {
    /// `+`
    Plus,
    /// `-`
    Minus,
    /// `!`, inclusive or.
    Or,
    /// `&`
    And,
    /// `^`, the product.
    Times,
    /// `%`, the quotient.
    Divide,
}

/// Which page's pool a literal asks.
#[derive(Clone, Copy)]
pub enum Pool {
    /// `(`: that of the page where the literal stands.
    Own,
    /// `[`: that of page zero.
    Zero,
}

/// What a token is.
#[derive(Clone, Copy)]
pub enum Kind {
    /// Letters and digits that begin with a letter.
    Name(Name),
    /// Letters and digits that begin with a digit.
    Number(Number),
    /// `"` and a byte: that byte with 0o200 set.
    Character(u8),
    /// `.`, the present place.
    Here,
    Operator(Operator),
    Equals,
    Comma,
    Star,
    /// `(` or `[`
    Opening(Pool),
    /// `)` or `]`
    Closing(Pool),
    /// The string of a TEXT, with its delimiters.
    String,
    /// A byte that stands in no statement, or a `"` with nothing after it.
    Bad,
}

/// A token, with the places in its text of its first byte and after its last one, from 0; each is 2^64 - 1 where it would be more.
#[derive(Clone, Copy)]
pub struct Token {
    pub kind: Kind,
    /// Whether a blank that means something stands before it.
    pub is_spaced: bool,
    pub start: u64,
    pub end: u64,
}

ghost use Rattle.std.specs.Prelude.{◌≡◌, ℕ, ◌+◌, ◌-◌, ◌%◌, ◌<◌, ◌≤◌, ◌↔◌, IsSome, IfSome, Some, bit_and, bit_or, bit_xor};
ghost use Rattle.word12.specs.Octal.{octal4, octal_number};

use std::fmt;
use std::marker::Model;

/// A word of twelve bits, of which bit 0 is the most significant (Small Computer Handbook).
///
/// Sums and differences are modulo 0o10000.
#[derive(Clone, Copy, PartialEq, Eq, PartialOrd, Ord, Hash, Debug)]
pub struct Word {
    bits: u16,
}

impl Model for Word {
    ghost Value = { ℕ };

    ghost view = { λ word. word.bits };

    ghost invariant = { λ word. word.bits < 0o10000 };

    ghost inverse = { λ number. record { bits = number } };
}

impl Word {
    pub const ZERO: Word = Word { bits: 0 };

    pub const ONE: Word = Word { bits: 1 };

    /// The word of a number below 0o10000, else nothing.
    #[inline]
    pub fn new(number: u16) -> Option<Word>
        ensures fits { IsSome result ↔ (number < 0o10000) }
        ensures value { IfSome result (λ word. word ≡ number) }
    {
        if number < 0o10000 {
            Some(Word { bits: number })
        } else {
            None
        }
    }

    /// The low twelve bits of a number.
    #[inline]
    pub fn low(number: u16) -> Word
        ensures value { result ≡ number % 0o10000 }
        ensures range { result < 0o10000 }
    {
        Word {
            bits: number % 0o10000,
        }
    }

    /// The word as a number, 0 to 0o7777.
    #[inline]
    pub fn get(self) -> u16
        ensures value { result ≡ self }
        ensures range { result < 0o10000 }
    {
        self.bits
    }

    /// The sum modulo 0o10000.
    #[inline]
    pub fn plus(self, other: Word) -> Word
        ensures value { result ≡ (self + other) % 0o10000 }
        ensures range { result < 0o10000 }
    {
        Word::low(self.bits + other.bits)
    }

    /// The difference modulo 0o10000.
    #[inline]
    pub fn minus(self, other: Word) -> Word
        ensures value { result ≡ (self + 0o10000 - other) % 0o10000 }
        ensures range { result < 0o10000 }
    {
        Word::low(self.bits + 0o10000 - other.bits)
    }

    /// Inclusive or, bit by bit.
    #[inline]
    #[tactic(auto, using(crate::proofs::TwelveBits::or_of_12))]
    pub fn or(self, other: Word) -> Word
        ensures value { result ≡ bit_or self other }
        ensures range { result < 0o10000 }
    {
        Word {
            bits: self.bits | other.bits,
        }
    }

    /// And, bit by bit.
    #[inline]
    pub fn and(self, other: Word) -> Word
        ensures value { result ≡ bit_and self other }
        ensures range { result < 0o10000 }
    {
        Word {
            bits: self.bits & other.bits,
        }
    }

    /// The complement: each of the twelve bits is the other one.
    #[inline]
    pub fn not(self) -> Word
        ensures bits { result ≡ bit_xor self 0o7777 }
        ensures value { result ≡ 0o7777 - self }
        ensures range { result < 0o10000 }
    {
        Word {
            bits: 0o7777 - self.bits,
        }
    }

    /// The word as four octal digits in ASCII, zeros in front.
    pub fn octal4(self) -> [u8; 4]
        ensures digits { result ≡ octal4 self }
        ensures number { octal_number result ≡ self }
    {
        let digit = |place: u16| (48 + self.bits / place % 8) as u8;
        [digit(0o1000), digit(0o100), digit(8), digit(1)]
    }
}

/// Four octal digits, as the handbook writes words.
impl fmt::Display for Word {
    ghost output = { λ word. Some (octal4 word) };

    fn fmt<W: fmt::Write>(&self, f: &mut fmt::Formatter<W>) -> fmt::Result {
        f.write_str(str::from_utf8(&self.octal4()).map_err(|_| fmt::Error)?)
    }
}

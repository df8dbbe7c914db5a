ghost use Rattle.std.specs.Prelude.{◌≡◌, ◌≤◌};
ghost use Rattle.pal_lex.specs.Runs.{base};
ghost use Rattle.pal_lex.specs.GrowthSteps.{longer_name, longer_number, grown_term, grown, first_kind};

use crate::{Kind, Name, Term};
use word12::{Word, sixbit};

/// How numbers are read.
#[derive(Clone, Copy)]
pub enum Radix {
    Octal,
    Decimal,
}

impl Radix {
    #[inline(always)]
    fn base(self) -> u16
        ensures value { result ≡ base self }
        ensures range { result ≤ 10 }
    {
        match self {
            Radix::Octal => 8,
            Radix::Decimal => 10,
        }
    }
}

/// A name with one character more, which counts by its weight.
#[inline(always)]
pub fn longer_name(name: Name, weight: u32, character: u8) -> Name
    ensures { result ≡ longer_name name weight character }
{
    let code = u64::from(sixbit(character).unwrap_or(0));
    Name::from_number(name.number().saturating_add(u64::from(weight) * code))
}

/// A number with one character more.
#[inline(always)]
fn longer_number(number: Word, radix: Radix, character: u8) -> Kind
    ensures { result ≡ longer_number (base radix) number character }
{
    let base = radix.base();
    if character < 0o60 || u16::from(character) >= 0o60 + base {
        return Kind::BadNumber;
    }
    match Word::new(base * number.get() + u16::from(character - 0o60)) {
        Some(word) => Kind::Term(Term::Number(word)),
        None => Kind::BadNumber,
    }
}

#[inline(always)]
fn grown_term(term: Term, radix: Radix, weight: u32, character: u8) -> Kind
    ensures { result ≡ grown_term (base radix) weight character term }
{
    match term {
        Term::Name(name) => Kind::Term(Term::Name(longer_name(name, weight, character))),
        Term::Number(number) => longer_number(number, radix, character),
        Term::Here => Kind::Term(Term::Here),
    }
}

/// A name or a number with one character more.
#[inline(always)]
pub fn grown(kind: Kind, radix: Radix, weight: u32, character: u8) -> Kind
    ensures { result ≡ grown (base radix) weight character kind }
{
    match kind {
        Kind::Term(term) => grown_term(term, radix, weight, character),
        Kind::BadNumber | Kind::Blank | Kind::Plus | Kind::Minus => kind,
        Kind::Equals | Kind::Comma | Kind::Star => kind,
    }
}

/// What a letter or a digit begins.
#[inline(always)]
pub fn first_kind(radix: Radix, character: u8) -> Kind
    ensures { result ≡ first_kind (base radix) character }
{
    match character {
        b'A'..=b'Z' => Kind::Term(Term::Name(longer_name(
            Name::from_number(0),
            0o10000000000,
            character,
        ))),
        _ => longer_number(Word::ZERO, radix, character),
    }
}

ghost use Rattle.std.specs.Prelude.{◌≡◌};
ghost use Rattle.word12.specs.Sixbit.{is_letter};
ghost use Rattle.pal8_lex.specs.Text.{capital};
ghost use Rattle.pal8_lex.specs.Runs.{longer_name, longer_number, longer, first_kind};

use crate::rules::capital;
use crate::{Kind, Name, Number};
use word12::sixbit;

/// A name with one character more, which counts by its weight.
#[inline(always)]
fn longer_name(name: Name, weight: u32, character: u8) -> Name
    ensures { result ≡ longer_name name weight character }
{
    let code = u64::from(sixbit(character).unwrap_or(0));
    Name::from_number(name.number().saturating_add(u64::from(weight) * code))
}

/// A number with one character more: 0o10000 where it isn't one of twelve bits by this base.
#[inline(always)]
fn longer_number(base: u8, number: u16, character: u8) -> u16
    ensures { result ≡ longer_number base number character }
{
    if character < 0o060 || u16::from(character) >= 0o060 + u16::from(base) {
        return 0o10000;
    }
    let longer = u32::from(base) * u32::from(number) + u32::from(character - 0o060);
    if longer < 0o10000 {
        longer as u16
    } else {
        0o10000
    }
}

/// A name or a number with one character more, whose weight in the name is this.
#[inline(always)]
pub fn longer(kind: Kind, weight: u32, byte: u8) -> Kind
    ensures { result ≡ longer kind weight byte }
{
    let character = capital(byte);
    match kind {
        Kind::Name(name) => Kind::Name(longer_name(name, weight, character)),
        Kind::Number(number) => Kind::Number(Number {
            spelling: longer_name(number.spelling, weight, character),
            octal: longer_number(8, number.octal, character),
            decimal: longer_number(10, number.decimal, character),
        }),
        Kind::Character(_) | Kind::Here | Kind::Operator(_) | Kind::Equals => kind,
        Kind::Comma | Kind::Star | Kind::Opening(_) | Kind::Closing(_) => kind,
        Kind::String | Kind::Bad => kind,
    }
}

/// The name or the number that a letter or a digit begins.
#[inline(always)]
pub fn first_kind(byte: u8) -> Kind
    ensures { result ≡ first_kind byte }
{
    let character = capital(byte);
    let name = longer_name(Name::from_number(0), 0o10000000000, character);
    match character {
        b'A'..=b'Z' => Kind::Name(name),
        _ => Kind::Number(Number {
            spelling: name,
            octal: longer_number(8, 0, character),
            decimal: longer_number(10, 0, character),
        }),
    }
}

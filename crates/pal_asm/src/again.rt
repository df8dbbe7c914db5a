//! A statement in the second pass, in which each name is set again.

ghost use Rattle.std.specs.Prelude.{◌≡◌, ℕ, ◌+◌, ◌<◌, ◌≤◌, Option, Some, None, IfOk, OnOk};
ghost use Rattle.pal_sym.specs.Values.{symbol_value};
ghost use Rattle.pal_lex.specs.declared.phrases.Body.{Body};
ghost use Rattle.pal_asm.specs.PassSteps.{Moves, MakesBody, SetsValue, spot_by, spot_fault, with_tags_again, with_body_again};

use crate::Code;
use crate::expressions::value_of;
use crate::spots::{Spot, after_word, field, origin};
use crate::words::word_of;
use pal_lex::{Body, Name, Part};
use pal_sym::{SymbolName, Symbols};
use word12::{Cell, Word};

/// Sets tags again to a place, from the left.
pub fn set_tags(symbols: &mut Symbols, tags: &[Name], place: Word)
    ensures { (n : ℕ) → symbol_value symbols.new n
        ≡ with_tags_again tags.now place (symbol_value symbols.old) n }
{
    let mut rest = tags;
    while let [tag, others @ ..] = rest {
        symbols.again(SymbolName::from_number(tag.number()), place);
        rest = others;
    }
}

/// Sets a name again to the value of an expression.
fn set_value(symbols: &mut Symbols, location: u16, name: Name, parts: &[Part]) -> Result<(), Code>
    ensures { SetsValue name parts.now location symbols.old symbols.new result }
{
    let value = value_of(symbols, location, parts)?;
    symbols.again(SymbolName::from_number(name.number()), value);
    Ok(())
}

/// The spot after a body, in the second pass, which sets names again.
fn spot_after(symbols: &mut Symbols, spot: Spot, body: &Body) -> Result<Spot, Code>
    ensures spot { Moves (spot_by (symbol_value symbols.old) body.now spot)
        (spot_fault (symbol_value symbols.old) spot.location body.now) result }
    ensures values { OnOk result ((n : ℕ) → symbol_value symbols.new n
        ≡ with_body_again (symbol_value symbols.old) spot.location body.now n) }
    ensures field { spot.field < 8 → IfOk result (λ s. s.field < 8) }
{
    match body {
        Body::Nothing | Body::Decimal | Body::Octal | Body::Pause => Ok(spot),
        Body::Define(name, value) => {
            set_value(symbols, spot.location, *name, value.parts())?;
            Ok(spot)
        }
        Body::Origin(place) => origin(symbols, spot, place.parts()),
        Body::Field(number) => field(symbols, spot, number.parts()),
        Body::Reference { .. } | Body::Word(_) => after_word(spot),
    }
}

/// The spot after a body in the second pass, and its word with the cell of that.
pub fn spot_and_word(
    symbols: &mut Symbols,
    spot: Spot,
    body: &Body,
) -> Result<(Spot, Option<(Cell, Word)>), Code>
    requires { spot.field < 8 }
    ensures made { MakesBody (symbol_value symbols.old) symbols.new spot body.now result }
    ensures field { IfOk result (λ made. made.0.field < 8) }
{
    let word = word_of(symbols, spot.location, body)?;
    let next = spot_after(symbols, spot, body)?;
    match word {
        Some(word) => Ok((
            next,
            Some((Cell::at(spot.field, Word::low(spot.location)), word)),
        )),
        None => Ok((next, None)),
    }
}

ghost use Rattle.std.specs.Prelude.{◌≡◌, ◌+◌, true, false, ◌<◌, IfOk, unwrap_or};
ghost use Rattle.pal_sym.specs.Values.{symbol_value};
ghost use Rattle.pal_lex.specs.declared.phrases.Body.{Body};
ghost use Rattle.pal_asm.specs.Expressions.{value_of};
ghost use Rattle.pal_asm.specs.Faults.{past};
ghost use Rattle.pal_asm.specs.PassSteps.{Moves, spot_by, spot_fault};
ghost use Rattle.pal_asm.specs.declared.spots.Spot.{Spot};
ghost use Rattle.pal_asm.specs.declared.spots.TheConstants.{FIRST_PLACE};

use crate::Code;
use crate::expressions::{place_value, value_of};
use pal_lex::Part;
use pal_sym::Symbols;

/// Where an assembler is in core.
#[derive(Clone, Copy)]
pub struct Spot {
    /// The place of the next word, 0 to 0o10000, which is past 7777.
    pub location: u16,
    pub field: u8,
    /// Whether there was a word.
    pub word: bool,
}

/// Where a source begins, and each `FIELD`.
pub const FIRST_PLACE: u16 = 0o200;

/// The spot at which a source begins.
pub fn first_spot() -> Spot
    ensures { result ≡ record { location = FIRST_PLACE; field = 0; word = false } }
{
    Spot {
        location: FIRST_PLACE,
        field: 0,
        word: false,
    }
}

/// The spot after an origin.
pub fn origin(symbols: &Symbols, spot: Spot, parts: &[Part]) -> Result<Spot, Code>
    ensures spot { Moves (spot_by (symbol_value symbols.now) (Body.Origin parts.now) spot)
        (spot_fault (symbol_value symbols.now) spot.location (Body.Origin parts.now)) result }
    ensures field { IfOk result (λ s. s.field ≡ spot.field) }
{
    let place = value_of(symbols, spot.location, parts)?;
    Ok(Spot {
        location: place.get(),
        field: spot.field,
        word: spot.word,
    })
}

/// The spot after a `FIELD`.
pub fn field(symbols: &Symbols, spot: Spot, parts: &[Part]) -> Result<Spot, Code>
    ensures spot { Moves (spot_by (symbol_value symbols.now) (Body.Field parts.now) spot)
        (spot_fault (symbol_value symbols.now) spot.location (Body.Field parts.now)) result }
    ensures field { IfOk result (λ s. s.field < 8) }
{
    let number = value_of(symbols, spot.location, parts)?.get();
    if number > 7 {
        return Err(Code::FD);
    }
    Ok(Spot {
        field: number as u8,
        word: spot.word,
        ..first_spot()
    })
}

/// The spot after a word.
pub fn after_word(spot: Spot) -> Result<Spot, Code>
    ensures spot { Moves (record { location = spot.location + 1; field = spot.field; word = true })
        (past spot.location) result }
    ensures field { IfOk result (λ s. s.field ≡ spot.field) }
{
    let place = place_value(spot.location)?;
    Ok(Spot {
        location: place.get() + 1,
        field: spot.field,
        word: true,
    })
}

ghost use Rattle.std.specs.Prelude.{◌≡◌, ◌+◌, ◌≤◌, length};
ghost use Rattle.pal_sym.specs.Values.{symbol_value};
ghost use Rattle.pal_lex.specs.declared.phrases.Body.{Body};
ghost use Rattle.pal_asm.specs.Passes.{definitions};
ghost use Rattle.pal_asm.specs.Faults.{tags_fault};
ghost use Rattle.pal_asm.specs.PassSteps.{tag_fault, Judges, DefinesTags, PassesBody, ReadsStatement};

use crate::Code;
use crate::expressions::{place_value, value_of};
use crate::spots::{Spot, after_word, field, origin};
use pal_lex::{Body, Name, Part};
use pal_sym::{SymbolName, Symbols};

/// How many names a body defines.
pub fn definitions(body: &Body) -> usize
    ensures { result ≡ definitions body.now }
{
    match body {
        Body::Define(..) => 1,
        Body::Nothing | Body::Decimal | Body::Octal | Body::Pause => 0,
        Body::Origin(_) | Body::Field(_) | Body::Reference { .. } | Body::Word(_) => 0,
    }
}

/// Judges a tag at a place by what it stands for so far. It takes no memory.
fn judge_tag(symbols: &Symbols, tag: Name, location: u16) -> Result<(), Code>
    ensures { Judges (tag_fault location (symbol_value symbols.now tag)) result }
{
    let place = place_value(location)?;
    match symbols.value(SymbolName::from_number(tag.number())) {
        Some(known) => {
            if known != place {
                return Err(Code::DT);
            }
            Ok(())
        }
        None => Ok(()),
    }
}

/// Judges tags at a place by what they stand for so far, from the left. It takes no memory.
pub fn judge_tags(symbols: &Symbols, tags: &[Name], location: u16) -> Result<(), Code>
    ensures { Judges (tags_fault (symbol_value symbols.now) location tags.now) result }
{
    let mut rest = tags;
    while let [tag, others @ ..] = rest {
        judge_tag(symbols, *tag, location)?;
        rest = others;
    }
    Ok(())
}

/// Defines tags at a place, from the left.
fn define_tags(symbols: &mut Symbols, tags: &[Name], location: u16) -> Result<(), Code>
    requires { length tags.now ≤ symbols.old.room }
    ensures { DefinesTags tags.now location symbols.old symbols.new result }
{
    let mut rest = tags;
    while let [tag, others @ ..] = rest {
        let place = place_value(location)?;
        symbols
            .define_tag(SymbolName::from_number(tag.number()), place)
            .map_err(|_| Code::DT)?;
        rest = others;
    }
    Ok(())
}

/// Gives a name the value of an expression.
fn define(symbols: &mut Symbols, spot: Spot, name: Name, parts: &[Part]) -> Result<Spot, Code>
    requires { 1 ≤ symbols.old.room }
    ensures { PassesBody (Body.Define name parts.now) spot symbols.old symbols.new result }
{
    let value = value_of(symbols, spot.location, parts)?;
    symbols
        .define_value(SymbolName::from_number(name.number()), value)
        .map_err(|_| Code::RD)?;
    Ok(spot)
}

/// Passes a body in the first pass.
fn pass_body(symbols: &mut Symbols, spot: Spot, body: &Body) -> Result<Spot, Code>
    requires { definitions body.now ≤ symbols.old.room }
    ensures { PassesBody body.now spot symbols.old symbols.new result }
{
    match body {
        Body::Nothing | Body::Decimal | Body::Octal | Body::Pause => Ok(spot),
        Body::Origin(place) => origin(symbols, spot, place.parts()),
        Body::Define(name, value) => define(symbols, spot, *name, value.parts()),
        Body::Field(number) => field(symbols, spot, number.parts()),
        Body::Reference { .. } | Body::Word(_) => after_word(spot),
    }
}

/// Passes a statement in the first pass: its tags, then its body.
pub fn pass(symbols: &mut Symbols, spot: Spot, tags: &[Name], body: &Body) -> Result<Spot, Code>
    requires { length tags.now + definitions body.now ≤ symbols.old.room }
    ensures { ReadsStatement tags.now body.now spot symbols.old symbols.new result }
{
    define_tags(symbols, tags, spot.location)?;
    pass_body(symbols, spot, body)
}

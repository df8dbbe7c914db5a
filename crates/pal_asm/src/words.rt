ghost use Rattle.std.specs.Prelude.{◌≡◌, ◌<◌, IfOk, IfSome};
ghost use Rattle.pal_sym.specs.Values.{symbol_value};
ghost use Rattle.pal_asm.specs.Words.{offset_of, body_word};
ghost use Rattle.pal_asm.specs.Faults.{word_fault};
ghost use Rattle.pal_asm.specs.PassSteps.{GivesValue, MakesWord};
ghost use Rattle.pal_lex.specs.declared.phrases.Body.{Body};

use crate::Code;
use crate::expressions::{address_value, value_of};
use pal_lex::{Body, Expression, Operation};
use pal_sym::Symbols;
use word12::{PAGE, Word};

/// The bit of a memory reference that stands for its own page.
const OWN_PAGE: u16 = 0o200;
/// The bit of a memory reference that is indirect.
const INDIRECT: u16 = 0o400;

/// What stands in a memory reference at a place for an address, if it can be reached.
fn offset_of(location: u16, address: Word) -> Option<Word>
    ensures value { result ≡ offset_of location address }
    ensures range { IfSome result (λ offset. offset < 0o400) }
{
    let number = address.get();
    if number < PAGE {
        return Some(Word::low(number));
    }
    if number / PAGE == location / PAGE {
        return Some(Word::low(number % PAGE + OWN_PAGE));
    }
    None
}

/// The word of a memory reference at a place.
pub fn reference_word(
    symbols: &Symbols,
    location: u16,
    operation: Operation,
    indirect: bool,
    address: &Option<Expression>,
) -> Result<Word, Code>
    ensures value { GivesValue
        (body_word (symbol_value symbols.now) location (Body.Reference operation indirect address.now))
        (word_fault (symbol_value symbols.now) location (Body.Reference operation indirect address.now))
        result }
    ensures range { IfOk result (λ word. word < 0o10000) }
{
    let address = address_value(symbols, location, address)?;
    match offset_of(location, address) {
        Some(offset) => {
            let bit = if indirect { INDIRECT } else { 0 };
            Ok(Word::low(operation.word().get() + bit + offset.get()))
        }
        None => Err(Code::IR),
    }
}

/// The word of a body at a place, if it is one.
pub fn word_of(symbols: &Symbols, location: u16, body: &Body) -> Result<Option<Word>, Code>
    ensures value { MakesWord (body_word (symbol_value symbols.now) location body.now)
        (word_fault (symbol_value symbols.now) location body.now) result }
    ensures range { IfOk result (λ word. IfSome word (λ w. w < 0o10000)) }
{
    match body {
        Body::Reference {
            operation,
            indirect,
            address,
        } => {
            let word = reference_word(symbols, location, *operation, *indirect, address)?;
            Ok(Some(word))
        }
        Body::Word(value) => {
            let word = value_of(symbols, location, value.parts())?;
            Ok(Some(word))
        }
        Body::Nothing | Body::Decimal | Body::Octal | Body::Pause => Ok(None),
        Body::Origin(_) | Body::Define(..) | Body::Field(_) => Ok(None),
    }
}

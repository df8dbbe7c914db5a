ghost use Rattle.std.specs.Prelude.{◌≡◌, ◌<◌, IfOk};
ghost use Rattle.pal_sym.specs.Values.{symbol_value};
ghost use Rattle.pal_asm.specs.Expressions.{term_value, value_of, join_values, address_value};
ghost use Rattle.pal_asm.specs.Faults.{fault_of_name, past, term_fault, terms_fault, address_fault};
ghost use Rattle.pal_asm.specs.PassSteps.{GivesValue};

use crate::Code;
use pal_lex::{Expression, Joint, Name, Part, Term};
use pal_sym::{SymbolName, Symbols};
use word12::Word;

/// The value of a name.
fn name_value(symbols: &Symbols, name: Name) -> Result<Word, Code>
    ensures value { GivesValue (symbol_value symbols.now name) (fault_of_name (symbol_value symbols.now name))
        result }
    ensures range { IfOk result (λ word. word < 0o10000) }
{
    match symbols.value(SymbolName::from_number(name.number())) {
        Some(word) => {
            let _number = word.get();
            Ok(word)
        }
        None => Err(Code::UA),
    }
}

/// The place as a word.
pub fn place_value(location: u16) -> Result<Word, Code>
    ensures value { GivesValue (Some location) (past location) result }
    ensures range { IfOk result (λ word. word < 0o10000) }
{
    match Word::new(location) {
        Some(word) => {
            let _number = word.get();
            Ok(word)
        }
        None => Err(Code::PF),
    }
}

/// The value of a term at a place.
fn term_value(symbols: &Symbols, location: u16, term: Term) -> Result<Word, Code>
    ensures value { GivesValue (term_value (symbol_value symbols.now) location term)
        (term_fault (symbol_value symbols.now) location term) result }
    ensures range { IfOk result (λ word. word < 0o10000) }
{
    match term {
        Term::Name(name) => name_value(symbols, name),
        Term::Number(word) => {
            let _number = word.get();
            Ok(word)
        }
        Term::Here => place_value(location),
    }
}

/// Two values joined.
fn join_values(joint: Joint, before: Word, value: Word) -> Word
    ensures value { result ≡ join_values joint before value }
    ensures range { result < 0o10000 }
{
    match joint {
        Joint::Add => before.plus(value),
        Joint::Subtract => before.minus(value),
        Joint::Or => before.or(value),
    }
}

/// The value of an expression at a place, from left to right.
pub fn value_of(symbols: &Symbols, location: u16, parts: &[Part]) -> Result<Word, Code>
    ensures value { GivesValue (value_of (symbol_value symbols.now) location parts.now)
        (terms_fault (symbol_value symbols.now) location parts.now) result }
    ensures range { IfOk result (λ word. word < 0o10000) }
{
    let mut rest = parts;
    let mut value = Word::low(0);
    while let [part, others @ ..] = rest {
        value = join_values(part.joint, value, term_value(symbols, location, part.term)?);
        rest = others;
    }
    Ok(value)
}

/// The value of an address, which is 0 where it is missing.
pub fn address_value(
    symbols: &Symbols,
    location: u16,
    address: &Option<Expression>,
) -> Result<Word, Code>
    ensures value { GivesValue (address_value (symbol_value symbols.now) location address.now)
        (address_fault (symbol_value symbols.now) location address.now) result }
    ensures range { IfOk result (λ word. word < 0o10000) }
{
    match address {
        Some(address) => value_of(symbols, location, address.parts()),
        None => Ok(Word::low(0)),
    }
}

//! Whether a word has a fault.
ghost use Rattle.std.specs.Prelude.{◌≡◌, Some, None, Ok, ◌∷◌, List, IfOk};
ghost use Rattle.pal_lex.specs.Reading.{with_tokens};
ghost use Rattle.pal_lex.specs.declared.pieces.Token.{Token};
ghost use Rattle.pal_asm.specs.Expressions.{term_value, value_of};
ghost use Rattle.pal_asm.specs.PassSteps.{GivesValue};
ghost use Rattle.pal_asm.specs.Places.{Source, place_at};
ghost use Rattle.pal_asm.specs.Words.{word_values};
ghost use Rattle.pal_asm.specs.Faults.{term_fault, terms_fault, word_fault, out_of_reach, first_order};
ghost use Rattle.host_sources.specs.Symbols.{meaning_in, Follows};
ghost use Rattle.host_sources.specs.JudgeSteps.{known_last};
ghost use Rattle.host_sources.specs.Unknowns.{unknown_in};
ghost use Rattle.host_sources.specs.Further.{with_line};

use crate::names::{Definitions, join_values, name_value, set_tags, take_body};
use crate::unknowns::about;
use pal_asm::Code;
use pal_lex::{Body, Name, Part, Statement, Term};
use std::alloc::AllocError;
use std::collections::BTreeMap;
use word12::PAGE;

/// Takes the next statement, which has no fault that the first pass meets. If it is a word with a fault, where names stand
/// for these values at last, answers that with its line and the name that it is about.
pub(crate) fn judge(
    names: &mut Definitions,
    last: &BTreeMap<u64, u16>,
    statement: &Statement,
) -> Result<Option<(Code, u64, Option<u64>)>, AllocError>
    ensures follows { (older : Source) (tokens : List Token) → Follows names.old.symbols names.old.place older
        → first_order (Ok (with_tokens tokens statement.now) ∷ older) ≡ None
        → IfOk result (λ fault. Follows names.new.symbols names.new.place
        (Ok (with_tokens tokens statement.now) ∷ older)) }
    ensures fault { (older : Source) → Follows names.old.symbols names.old.place older
        → IfOk result (λ fault. fault ≡ with_line statement.now.line
        (unknown_in (word_values (meaning_in last.now) statement.now.tags older) statement.now.body)
        (word_fault (word_values (meaning_in last.now) statement.now.tags older) (place_at older)
        statement.now.body)) }
{
    set_tags(&mut names.symbols, statement.tags.names(), names.place)?;
    let fault = fault_of_statement(names, last, statement);
    let place = take_body(&mut names.symbols, names.place, &statement.body)?;
    names.place = place;
    Ok(fault)
}

/// The fault of a statement whose tags were taken, with its line and the name that it is about, if it is a word that has one.
fn fault_of_statement(
    names: &Definitions,
    last: &BTreeMap<u64, u16>,
    statement: &Statement,
) -> Option<(Code, u64, Option<u64>)>
    ensures { result ≡ with_line statement.now.line
        (unknown_in (known_last names.now.symbols last.now) statement.now.body)
        (word_fault (known_last names.now.symbols last.now) names.now.place statement.now.body) }
{
    match word_fault(&names.symbols, last, names.place, &statement.body) {
        Some(code) => {
            let about = about(&names.symbols, last, &statement.body, code);
            Some((code, statement.line, about))
        }
        None => None,
    }
}

/// The fault of a body at a place, if it is a word that has one.
fn word_fault(
    now: &BTreeMap<u64, u16>,
    last: &BTreeMap<u64, u16>,
    place: u16,
    body: &Body,
) -> Option<Code>
    ensures { result ≡ word_fault (known_last now.now last.now) place body.now }
{
    match body {
        Body::Reference { address, .. } => match address {
            Some(address) => match value_of(now, last, place, address.parts()) {
                Ok(address) => out_of_reach(place, address),
                Err(code) => Some(code),
            },
            None => out_of_reach(place, 0),
        },
        Body::Word(value) => match value_of(now, last, place, value.parts()) {
            Ok(_) => None,
            Err(code) => Some(code),
        },
        Body::Nothing | Body::Decimal | Body::Octal | Body::Pause => None,
        Body::Origin(_) | Body::Define(..) | Body::Field(_) => None,
    }
}

/// The fault of a memory reference at a place, if it can't reach an address.
fn out_of_reach(place: u16, address: u16) -> Option<Code>
    ensures { result ≡ out_of_reach place (Some address) }
{
    if address < PAGE || address / PAGE == place / PAGE {
        return None;
    }
    Some(Code::IR)
}

/// The value of an expression in a word at a place, or the fault of the first of its terms that has one.
fn value_of(
    now: &BTreeMap<u64, u16>,
    last: &BTreeMap<u64, u16>,
    place: u16,
    parts: &[Part],
) -> Result<u16, Code>
    ensures { GivesValue (value_of (known_last now.now last.now) place parts.now)
        (terms_fault (known_last now.now last.now) place parts.now) result }
{
    let mut value = 0;
    let mut rest = parts;
    while let [part, others @ ..] = rest {
        let term = term_value(now, last, place, part.term)?;
        value = join_values(part.joint, value, term);
        rest = others;
    }
    Ok(value)
}

/// The value of a term in a word at a place, or its fault.
fn term_value(
    now: &BTreeMap<u64, u16>,
    last: &BTreeMap<u64, u16>,
    place: u16,
    term: Term,
) -> Result<u16, Code>
    ensures { GivesValue (term_value (known_last now.now last.now) place term)
        (term_fault (known_last now.now last.now) place term) result }
{
    match term {
        Term::Name(name) => match word_value(now, last, name) {
            Some(value) => Ok(value),
            None => Err(Code::UA),
        },
        Term::Number(word) => Ok(word.get()),
        Term::Here => {
            if place > 0o7777 {
                return Err(Code::PF);
            }
            Ok(place)
        }
    }
}

/// What a name stands for in a word.
pub(crate) fn word_value(
    now: &BTreeMap<u64, u16>,
    last: &BTreeMap<u64, u16>,
    name: Name,
) -> Option<u16>
    ensures { result ≡ known_last now.now last.now name }
{
    match name_value(now, name) {
        Some(value) => Some(value),
        None => name_value(last, name),
    }
}

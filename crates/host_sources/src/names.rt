//! What names stand for.
ghost use Rattle.std.specs.Prelude.{◌≡◌, ℕ, None, Ok, [], ◌∷◌, List, false, IfOk, IfErr, OnOk};
ghost use Rattle.pal_lex.specs.Text.{text_of};
ghost use Rattle.pal_lex.specs.Statements.{statements};
ghost use Rattle.pal_lex.specs.Reading.{HasRead, with_tokens};
ghost use Rattle.pal_lex.specs.declared.pieces.Token.{Token};
ghost use Rattle.pal_asm.specs.Expressions as spec;
ghost use Rattle.pal_asm.specs.Places.{Source, with_tags as tag_values};
ghost use Rattle.pal_asm.specs.Faults.{first_order};
ghost use Rattle.pal_sym.specs.Permanent.{permanent};
ghost use Rattle.host_sources.specs.Symbols.{meaning_in, with_tags, with_body, Follows};
ghost use Rattle.host_sources.specs.NameSteps.{values_by, place_by};
ghost use Rattle.host_sources.specs.declared.faults.SourceFault.TheVariants.{Memory};

use crate::SourceFault;
use crate::reading::statement_ended;
use pal_asm::laws::{no_fault_before, statements_stay};
use pal_lex::{Body, Joint, Lexer, Name, Part, Statement, Term};
use pal_sym::{SymbolName, Symbols};
use std::alloc::{AllocError, Global};
use std::collections::BTreeMap;

/// The address at which a source begins, and each `FIELD`.
const FIRST: u16 = 0o200;

/// What the names that statements define stand for, and the place of the next statement.
#[derive(Drop)]
pub struct Definitions {
    /// The value of each name that is defined, by the number that the sixbit codes of its six characters make.
    pub symbols: BTreeMap<u64, u16>,
    /// The address of the next statement.
    pub place: u16,
}

/// The names of no statement.
pub(crate) fn no_names(alloc: Global) -> Definitions
    ensures { Follows result.symbols result.place [] }
{
    Definitions {
        symbols: BTreeMap::new(alloc),
        place: FIRST,
    }
}

/// A text that was read, with its names.
#[derive(Drop)]
pub(crate) struct Reading {
    pub lexer: Lexer,
    pub names: Definitions,
}

/// The names of a text with no fault that the first pass meets. The only fault is `Memory`.
pub fn names_of(alloc: Global, text: &[u8]) -> Result<Definitions, SourceFault>
    requires { first_order (statements (text_of text.now)) ≡ None }
    ensures names { IfOk result (λ names. Follows names.symbols names.place (statements (text_of text.now))) }
    ensures fault { IfErr result (λ fault. fault ≡ Memory) }
{
    let reading = reading_of(alloc, text)?;
    Ok(reading.names)
}

/// Reads a text with no fault that the first pass meets. The only fault is `Memory`.
pub(crate) fn reading_of(alloc: Global, text: &[u8]) -> Result<Reading, SourceFault>
    requires { first_order (statements (text_of text.now)) ≡ None }
    ensures names { IfOk result
        (λ reading. Follows reading.names.symbols reading.names.place (statements (text_of text.now))) }
    ensures read { IfOk result (λ reading. HasRead reading.lexer 0 (text_of text.now)) }
    ensures setting { IfOk result (λ reading. reading.lexer.may_pause ≡ false) }
    ensures fault { IfErr result (λ fault. fault ≡ Memory) }
{
    statements_stay();
    no_fault_before();
    let mut lexer = Lexer::without_tokens(alloc);
    let mut names = no_names(alloc);
    let mut taken = 0;
    while taken < text.len() {
        take_byte(&mut lexer, &mut names, text[taken])?;
        taken += 1;
    }
    Ok(Reading { lexer, names })
}

/// Takes the next byte, which ends no statement with a fault that the first pass meets.
fn take_byte(lexer: &mut Lexer, names: &mut Definitions, byte: u8) -> Result<(), SourceFault>
    ensures takes { (text : List ℕ) → HasRead lexer.old 0 text → lexer.old.may_pause ≡ false
        → first_order (statements (byte ∷ text)) ≡ None
        → Follows names.old.symbols names.old.place (statements text)
        → OnOk result (Follows names.new.symbols names.new.place (statements (byte ∷ text))
        × HasRead lexer.new 0 (byte ∷ text)) }
    ensures setting { lexer.new.may_pause ≡ lexer.old.may_pause }
    ensures fault { IfErr result (λ fault. fault ≡ Memory) }
{
    match statement_ended(lexer, byte)? {
        Some(statement) => {
            take(names, &statement)?;
            Ok(())
        }
        None => Ok(()),
    }
}

/// Takes the next statement, which has no fault after those before it.
fn take(names: &mut Definitions, statement: &Statement) -> Result<(), AllocError>
    ensures { (older : Source) (tokens : List Token) → Follows names.old.symbols names.old.place older
        → first_order (Ok (with_tokens tokens statement.now) ∷ older) ≡ None
        → OnOk result (Follows names.new.symbols names.new.place
        (Ok (with_tokens tokens statement.now) ∷ older)) }
{
    set_tags(&mut names.symbols, statement.tags.names(), names.place)?;
    let place = take_body(&mut names.symbols, names.place, &statement.body)?;
    names.place = place;
    Ok(())
}

/// Gives tags the place of their statement.
pub(crate) fn set_tags(
    symbols: &mut BTreeMap<u64, u16>,
    tags: &[Name],
    place: u16,
) -> Result<(), AllocError>
    ensures values { OnOk result
        ((n : ℕ) → meaning_in symbols.new n ≡ tag_values tags.now place (meaning_in symbols.old) n) }
    ensures entries { OnOk result (symbols.new.entries ≡ with_tags symbols.old.entries tags.now place) }
{
    let mut rest = tags;
    while let [tag, others @ ..] = rest {
        symbols.insert(tag.number(), place)?;
        rest = others;
    }
    Ok(())
}

/// Takes a body at a place, and answers the next place.
pub(crate) fn take_body(
    symbols: &mut BTreeMap<u64, u16>,
    place: u16,
    body: &Body,
) -> Result<u16, AllocError>
    ensures values { OnOk result
        ((n : ℕ) → meaning_in symbols.new n ≡ values_by (meaning_in symbols.old) place body.now n) }
    ensures entries { OnOk result
        (symbols.new.entries ≡ with_body symbols.old.entries (meaning_in symbols.old) place body.now) }
    ensures place { IfOk result (λ next. next ≡ place_by (meaning_in symbols.old) place body.now) }
{
    match body {
        Body::Nothing | Body::Decimal | Body::Octal | Body::Pause => Ok(place),
        Body::Origin(to) => Ok(value_of(symbols, place, to.parts()).unwrap_or(0)),
        Body::Define(name, value) => {
            if let Some(value) = value_of(symbols, place, value.parts()) {
                symbols.insert(name.number(), value)?;
            }
            Ok(place)
        }
        Body::Field(_) => Ok(FIRST),
        Body::Reference { .. } | Body::Word(_) => Ok(place.saturating_add(1)),
    }
}

/// The value of an expression at a place, from left to right.
fn value_of(symbols: &BTreeMap<u64, u16>, place: u16, parts: &[Part]) -> Option<u16>
    ensures { result ≡ spec.value_of (meaning_in symbols.now) place parts.now }
{
    let mut value = 0;
    let mut rest = parts;
    while let [part, others @ ..] = rest {
        let term = term_value(symbols, place, part.term)?;
        value = join_values(part.joint, value, term);
        rest = others;
    }
    Some(value)
}

/// The value of a term at a place.
fn term_value(symbols: &BTreeMap<u64, u16>, place: u16, term: Term) -> Option<u16>
    ensures { result ≡ spec.term_value (meaning_in symbols.now) place term }
{
    match term {
        Term::Name(name) => name_value(symbols, name),
        Term::Number(word) => Some(word.get()),
        Term::Here => Some(place),
    }
}

/// What a name stands for.
pub(crate) fn name_value(symbols: &BTreeMap<u64, u16>, name: Name) -> Option<u16>
    ensures { result ≡ meaning_in symbols.now name }
{
    value_by_number(symbols, name.number())
}

/// What the name of a number stands for, the permanent value where no statement defines it.
pub fn value_by_number(symbols: &BTreeMap<u64, u16>, name: u64) -> Option<u16>
    ensures { result ≡ meaning_in symbols.now name }
{
    match symbols.get(&name) {
        Some(value) => Some(*value),
        None => permanent_value(name),
    }
}

/// The permanent value of a name, if it has one.
fn permanent_value(name: u64) -> Option<u16>
    ensures { result ≡ permanent name }
{
    let word = Symbols::permanent(SymbolName::from_number(name))?;
    Some(word.get())
}

/// Two values joined: sum and difference modulo 0o10000, inclusive or.
pub(crate) fn join_values(joint: Joint, before: u16, value: u16) -> u16
    ensures { result ≡ spec.join_values joint before value }
{
    match joint {
        Joint::Add => ((u32::from(before) + u32::from(value)) % 0o10000) as u16,
        Joint::Subtract => {
            ((u32::from(before) + 0o10000).saturating_sub(u32::from(value)) % 0o10000) as u16
        }
        Joint::Or => before | value,
    }
}

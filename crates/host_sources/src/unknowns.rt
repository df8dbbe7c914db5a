//! The name that a fault UA is about.
ghost use Rattle.std.specs.Prelude.{◌≡◌, ◌+◌, ◌<◌, ◌∷◌, ℕ, None, false, List, length, take, IfOk, IfErr};
ghost use Rattle.pal_lex.specs.Text.{text_of};
ghost use Rattle.pal_lex.specs.Statements.{statements, first_fault};
ghost use Rattle.pal_lex.specs.Reading.{HasRead};
ghost use Rattle.pal_asm.specs.Places.{Source};
ghost use Rattle.pal_asm.specs.Faults.{first_order};
ghost use Rattle.host_sources.specs.Unknowns.{Standing, unknown_term, unknown_of, unknown_in, unknown_ended, unknown_name, about};
ghost use Rattle.host_sources.specs.Symbols.{Follows};
ghost use Rattle.host_sources.specs.JudgeSteps.{known_last, Stands};
ghost use Rattle.host_sources.specs.Steps.{IsMetAt};
ghost use Rattle.host_sources.specs.declared.faults.SourceFault.TheVariants.{Memory};

use crate::SourceFault;
use crate::faults::unless_memory;
use crate::judging::word_value;
use crate::locating::Passed;
use crate::names::{Definitions, names_of, no_names, reading_of, set_tags};
use pal_asm::Code;
use pal_asm::laws::{no_fault_before, no_lexical_fault, statements_stay};
use pal_lex::{Body, Lexer, Part, Statement, Term};
use source_places::first_bytes;
use std::alloc::{AllocError, Global};
use std::collections::BTreeMap;

/// The name that the fault of a text is about, if it is UA. The only fault of the call is `Memory`.
pub(crate) fn name_of_fault(
    alloc: Global,
    text: &[u8],
    met: Passed,
    code: Code,
) -> Result<Option<u64>, SourceFault>
    requires { IsMetAt text.now met }
    ensures name { IfOk result (λ name. name ≡ about code (unknown_name (text_of text.now))) }
    ensures fault { IfErr result (λ fault. fault ≡ Memory) }
{
    match code {
        Code::UA => unknown_name(alloc, text, met),
        Code::IC | Code::SY | Code::NU | Code::DT | Code::RD => Ok(None),
        Code::IR | Code::FD | Code::PF | Code::NE | Code::NW => Ok(None),
    }
}

/// The first name that stands for nothing where the statement with the fault of a text is judged. The only fault of the call
/// is `Memory`.
fn unknown_name(alloc: Global, text: &[u8], met: Passed) -> Result<Option<u64>, SourceFault>
    requires { IsMetAt text.now met }
    ensures name { IfOk result (λ name. name ≡ unknown_name (text_of text.now)) }
    ensures fault { IfErr result (λ fault. fault ≡ Memory) }
{
    statements_stay();
    no_fault_before();
    match met {
        Passed::Refused(end) => {
            let none = no_names(alloc);
            let name = unknown_ended(alloc, text, end, &none.symbols)?;
            Ok(name)
        }
        Passed::Over(end) => {
            let last = names_of(alloc, text)?;
            let name = unknown_ended(alloc, text, end, &last.symbols)?;
            Ok(name)
        }
        Passed::Open => Ok(None),
    }
}

/// The first name that stands for nothing in the statement that a byte of a text ends. The first pass meets no fault
/// before it, and names stand for these values at last. The only fault of the call is `Memory`.
fn unknown_ended(
    alloc: Global,
    text: &[u8],
    end: usize,
    last: &BTreeMap<u64, u16>,
) -> Result<Option<u64>, SourceFault>
    requires inside { end < length text.now }
    requires fine { first_order (statements (text_of (take end text.now))) ≡ None }
    ensures name { (standing : Standing) → Stands last.now standing
        → IfOk result (λ name. name ≡ unknown_ended standing (text_of (take (end + 1) text.now))) }
    ensures fault { IfErr result (λ fault. fault ≡ Memory) }
{
    no_lexical_fault();
    let mut reading = reading_of(alloc, first_bytes(text, end))?;
    let name = unknown_at(&mut reading.lexer, &mut reading.names, last, text[end])?;
    Ok(name)
}

/// The first name that stands for nothing in the statement that the next byte ends.
fn unknown_at(
    lexer: &mut Lexer,
    names: &mut Definitions,
    last: &BTreeMap<u64, u16>,
    byte: u8,
) -> Result<Option<u64>, SourceFault>
    ensures name { (text : List ℕ) (standing : Standing) → HasRead lexer.old 0 text
        → lexer.old.may_pause ≡ false → first_fault (statements text) ≡ None
        → Follows names.old.symbols names.old.place (statements text) → Stands last.now standing
        → IfOk result (λ name. name ≡ unknown_ended standing (byte ∷ text)) }
    ensures fault { IfErr result (λ fault. fault ≡ Memory) }
{
    match lexer.push(byte) {
        Ok(None) => Ok(None),
        Ok(Some(statement)) => {
            let name = unknown_after(names, last, &statement)?;
            Ok(name)
        }
        Err(fault) => {
            unless_memory(fault)?;
            Ok(None)
        }
    }
}

/// The first name that stands for nothing in the next statement. Its tags are taken.
fn unknown_after(
    names: &mut Definitions,
    last: &BTreeMap<u64, u16>,
    statement: &Statement,
) -> Result<Option<u64>, AllocError>
    ensures { (older : Source) (standing : Standing) → Follows names.old.symbols names.old.place older
        → Stands last.now standing
        → IfOk result (λ name. name ≡ unknown_in (standing statement.now.tags older) statement.now.body) }
{
    set_tags(&mut names.symbols, statement.tags.names(), names.place)?;
    let name = unknown_in(&names.symbols, last, &statement.body);
    Ok(name)
}

/// The name that a fault of a body is about, if it is UA.
pub(crate) fn about(
    now: &BTreeMap<u64, u16>,
    last: &BTreeMap<u64, u16>,
    body: &Body,
    code: Code,
) -> Option<u64>
    ensures { result ≡ about code (unknown_in (known_last now.now last.now) body.now) }
{
    match code {
        Code::UA => unknown_in(now, last, body),
        Code::IC | Code::SY | Code::NU | Code::DT | Code::RD => None,
        Code::IR | Code::FD | Code::PF | Code::NE | Code::NW => None,
    }
}

/// The first name of a body that stands for nothing.
fn unknown_in(now: &BTreeMap<u64, u16>, last: &BTreeMap<u64, u16>, body: &Body) -> Option<u64>
    ensures { result ≡ unknown_in (known_last now.now last.now) body.now }
{
    match body {
        Body::Nothing | Body::Decimal | Body::Octal | Body::Pause => None,
        Body::Origin(to) => unknown_of(now, last, to.parts()),
        Body::Define(_, value) => unknown_of(now, last, value.parts()),
        Body::Field(number) => unknown_of(now, last, number.parts()),
        Body::Reference { address, .. } => match address {
            Some(address) => unknown_of(now, last, address.parts()),
            None => None,
        },
        Body::Word(value) => unknown_of(now, last, value.parts()),
    }
}

/// The first name of an expression, from the left, that stands for nothing.
fn unknown_of(now: &BTreeMap<u64, u16>, last: &BTreeMap<u64, u16>, parts: &[Part]) -> Option<u64>
    ensures { result ≡ unknown_of (known_last now.now last.now) parts.now }
{
    let mut rest = parts;
    while let [part, others @ ..] = rest {
        match unknown_term(now, last, part.term) {
            Some(name) => return Some(name),
            None => rest = others,
        }
    }
    None
}

/// The name that a term is, if it stands for nothing.
fn unknown_term(now: &BTreeMap<u64, u16>, last: &BTreeMap<u64, u16>, term: Term) -> Option<u64>
    ensures { result ≡ unknown_term (known_last now.now last.now) term }
{
    match term {
        Term::Name(name) => match word_value(now, last, name) {
            Some(_) => None,
            None => Some(name.number()),
        },
        Term::Number(_) | Term::Here => None,
    }
}

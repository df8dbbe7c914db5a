ghost use Rattle.std.specs.Prelude.{◌≡◌};
ghost use Rattle.pal8_grammar.specs.Values.{if_first, is_closing, is_first_sign, is_same, modifier_by, modifier_of, name_step, step_of_name, number_in, number_step, opening_of, operation_of, operator_of, sign_of, term_of};
ghost use Rattle.pal8_grammar.specs.Steps.{setting_of};
ghost use Rattle.pal8_grammar.specs.Bodies.{is_equals, is_star, is_string};
ghost use Rattle.pal8_grammar.specs.Names.{free_name, name_of};
ghost use Rattle.pal8_grammar.specs.SourceNames.{names_of, vocabulary_of};

use crate::{Rules, SourceNames, Step, is_reserved};
use pal_lex::name;
use pal8_lex::{Kind, Name, Number, Operator, Pool, Radix};
use word12::Word;

const INDIRECT: u64 = name!(b'I' 0 0 0 0 0);

const ZERO: u64 = name!(b'Z' 0 0 0 0 0);

/// The operation that a token names, with its word.
pub fn operation_of(names: &SourceNames, kind: Kind) -> Option<(Name, Word)>
    ensures { result ≡ operation_of (vocabulary_of (names_of names.now)) kind }
{
    match kind {
        Kind::Name(name) => match names.operation(name) {
            Some(word) => Some((name, word)),
            None => None,
        },
        Kind::Number(_) | Kind::Character(_) | Kind::Here | Kind::Operator(_) => None,
        Kind::Equals | Kind::Comma | Kind::Star | Kind::Opening(_) => None,
        Kind::Closing(_) | Kind::String | Kind::Bad => None,
    }
}

/// Whether a name is `I`, or else `Z`, if it is one of these.
fn modifier_by(name: Name) -> Option<bool>
    ensures { result ≡ modifier_by name }
{
    match name.number() {
        INDIRECT => Some(true),
        ZERO => Some(false),
        _ => None,
    }
}

/// Whether a token is `I`, or else `Z`, if it is one of these.
pub fn modifier_of(kind: Kind) -> Option<bool>
    ensures { result ≡ modifier_of kind }
{
    match kind {
        Kind::Name(name) => modifier_by(name),
        Kind::Number(_) | Kind::Character(_) | Kind::Here | Kind::Operator(_) => None,
        Kind::Equals | Kind::Comma | Kind::Star | Kind::Opening(_) => None,
        Kind::Closing(_) | Kind::String | Kind::Bad => None,
    }
}

/// The operator that a token is.
#[inline]
pub fn operator_of(kind: Kind) -> Option<Operator>
    ensures { result ≡ operator_of kind }
{
    match kind {
        Kind::Operator(operator) => Some(operator),
        Kind::Name(_) | Kind::Number(_) | Kind::Character(_) | Kind::Here => None,
        Kind::Equals | Kind::Comma | Kind::Star | Kind::Opening(_) => None,
        Kind::Closing(_) | Kind::String | Kind::Bad => None,
    }
}

fn is_first_sign(operator: Operator) -> bool
    ensures { result ≡ is_first_sign operator }
{
    matches!(operator, Operator::Plus | Operator::Minus)
}

/// The sign that a token is, with which an expression may begin.
pub fn sign_of(kind: Kind) -> Option<Operator>
    ensures { result ≡ sign_of kind }
{
    match operator_of(kind) {
        Some(operator) => {
            let again = operator;
            if is_first_sign(operator) {
                Some(again)
            } else {
                None
            }
        }
        None => None,
    }
}

/// The opening that a token is.
pub fn opening_of(kind: Kind) -> Option<Pool>
    ensures { result ≡ opening_of kind }
{
    match kind {
        Kind::Opening(pool) => Some(pool),
        Kind::Name(_) | Kind::Number(_) | Kind::Character(_) | Kind::Here => None,
        Kind::Equals | Kind::Comma | Kind::Star | Kind::Operator(_) => None,
        Kind::Closing(_) | Kind::String | Kind::Bad => None,
    }
}

fn is_same(pool: Pool, other: Pool) -> bool
    ensures { result ≡ is_same pool other }
{
    match pool {
        Pool::Own => matches!(other, Pool::Own),
        Pool::Zero => matches!(other, Pool::Zero),
    }
}

/// Whether a token closes a literal of this pool.
pub fn is_closing(pool: Pool, kind: Kind) -> bool
    ensures { result ≡ is_closing pool kind }
{
    match kind {
        Kind::Closing(other) => is_same(pool, other),
        Kind::Name(_) | Kind::Number(_) | Kind::Character(_) | Kind::Here => false,
        Kind::Equals | Kind::Comma | Kind::Star | Kind::Operator(_) => false,
        Kind::Opening(_) | Kind::String | Kind::Bad => false,
    }
}

/// The step that a number is by a radix, if it is one.
fn number_step(radix: Radix, number: Number) -> Option<Step>
    ensures { result ≡ number_step (number_in radix number) }
{
    let word = match radix {
        Radix::Octal => number.octal_word(),
        Radix::Decimal => number.decimal_word(),
    };
    match word {
        Some(word) => Some(Step::Number(word)),
        None => None,
    }
}

/// The step that a name is as a term. A permanent one has its value with it.
pub fn step_of_name(names: &SourceNames, name: Name) -> Step
    ensures { result ≡ step_of_name (vocabulary_of (names_of names.now)) name }
{
    match names.permanent_value(name) {
        Some(value) => Step::Permanent(name, value),
        None => Step::Name(name),
    }
}

/// The step that a name is as a term, if it isn't reserved.
fn name_step(names: &SourceNames, name: Name) -> Option<Step>
    ensures { result ≡ name_step (vocabulary_of (names_of names.now)) name }
{
    if is_reserved(name) {
        None
    } else {
        Some(step_of_name(names, name))
    }
}

/// The step that a term is, if it is no literal.
pub fn term_of(names: &SourceNames, rules: Rules, kind: Kind) -> Option<Step>
    ensures { result ≡ term_of (setting_of names.now rules) kind }
{
    match kind {
        Kind::Name(name) => name_step(names, name),
        Kind::Number(number) => number_step(rules.radix, number),
        Kind::Character(byte) => Some(Step::Number(Word::low(u16::from(byte)))),
        Kind::Here => Some(Step::Here),
        Kind::Operator(_) | Kind::Equals | Kind::Comma | Kind::Star => None,
        Kind::Opening(_) | Kind::Closing(_) | Kind::String | Kind::Bad => None,
    }
}

/// The name that a token is.
pub fn name_of(kind: Kind) -> Option<Name>
    ensures { result ≡ name_of kind }
{
    match kind {
        Kind::Name(name) => Some(name),
        Kind::Number(_) | Kind::Character(_) | Kind::Here | Kind::Operator(_) => None,
        Kind::Equals | Kind::Comma | Kind::Star | Kind::Opening(_) => None,
        Kind::Closing(_) | Kind::String | Kind::Bad => None,
    }
}

/// The name that a token is, if it isn't reserved (PAL8, in this project's profile).
pub fn free_name(kind: Kind) -> Option<Name>
    ensures { result ≡ free_name kind }
{
    match name_of(kind) {
        Some(name) => { if is_reserved(name) { None } else { Some(name) } }
        None => None,
    }
}

pub fn is_star(kind: Kind) -> bool
    ensures { result ≡ is_star kind }
{
    matches!(kind, Kind::Star)
}

pub fn is_equals(kind: Kind) -> bool
    ensures { result ≡ is_equals kind }
{
    matches!(kind, Kind::Equals)
}

pub fn is_string(kind: Kind) -> bool
    ensures { result ≡ is_string kind }
{
    matches!(kind, Kind::String)
}

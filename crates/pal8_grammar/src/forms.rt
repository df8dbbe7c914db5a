//! What begins with a reserved name.

ghost use Rattle.std.specs.Prelude.{◌≡◌};
ghost use Rattle.pal8_grammar.specs.Bodies.{ends_condition, form_by, is_condition, names_file, opens};

use crate::Body;
use crate::kinds::name_of;
use pal_lex::name;
use pal8_lex::{End, Name, Token};

/// What a reserved name begins.
#[derive(Clone, Copy)]
pub enum Form {
    /// A body that stands alone.
    Alone(Body),
    /// A body with an expression.
    Valued(Body),
    /// `PAGE`, alone or with an expression.
    Page,
    /// `RELOC`, alone or with an expression.
    Reloc,
    Text,
    /// `IFDEF` and a name.
    IfDefined,
    /// `IFNDEF` and a name.
    IfUndefined,
    FileName,
    Device,
    /// `FIXMRI` with a name, `=` and a value.
    FixOperation,
    /// Nothing.
    Later,
}

const DECIMAL: u64 = name!(b'D' b'E' b'C' b'I' b'M' b'A');

const OCTAL: u64 = name!(b'O' b'C' b'T' b'A' b'L' 0);

const EJECT: u64 = name!(b'E' b'J' b'E' b'C' b'T' 0);

const XLIST: u64 = name!(b'X' b'L' b'I' b'S' b'T' 0);

const FIELD: u64 = name!(b'F' b'I' b'E' b'L' b'D' 0);

const ZBLOCK: u64 = name!(b'Z' b'B' b'L' b'O' b'C' b'K');

const PAGE: u64 = name!(b'P' b'A' b'G' b'E' 0 0);

const TEXT: u64 = name!(b'T' b'E' b'X' b'T' 0 0);

const IFZERO: u64 = name!(b'I' b'F' b'Z' b'E' b'R' b'O');

const IFNZRO: u64 = name!(b'I' b'F' b'N' b'Z' b'R' b'O');

const IFDEF: u64 = name!(b'I' b'F' b'D' b'E' b'F' 0);

const IFNDEF: u64 = name!(b'I' b'F' b'N' b'D' b'E' b'F');

const NOPUNCH: u64 = name!(b'N' b'O' b'P' b'U' b'N' b'C');

const ENPUNCH: u64 = name!(b'E' b'N' b'P' b'U' b'N' b'C');

const RELOC: u64 = name!(b'R' b'E' b'L' b'O' b'C' 0);

const FILENAME: u64 = name!(b'F' b'I' b'L' b'E' b'N' b'A');

const DEVICE: u64 = name!(b'D' b'E' b'V' b'I' b'C' b'E');

const EXPUNGE: u64 = name!(b'E' b'X' b'P' b'U' b'N' b'G');

const FIXTAB: u64 = name!(b'F' b'I' b'X' b'T' b'A' b'B');

const FIXMRI: u64 = name!(b'F' b'I' b'X' b'M' b'R' b'I');

/// What a reserved name begins.
pub fn form_by(name: Name) -> Form
    ensures { result ≡ form_by name }
{
    match name.number() {
        DECIMAL => Form::Alone(Body::Decimal),
        OCTAL => Form::Alone(Body::Octal),
        EJECT => Form::Alone(Body::Listing),
        XLIST => Form::Alone(Body::Listing),
        FIELD => Form::Valued(Body::Field),
        ZBLOCK => Form::Valued(Body::Zeros),
        PAGE => Form::Page,
        TEXT => Form::Text,
        IFZERO => Form::Valued(Body::IfZero),
        IFNZRO => Form::Valued(Body::IfNotZero),
        IFDEF => Form::IfDefined,
        IFNDEF => Form::IfUndefined,
        NOPUNCH => Form::Alone(Body::NoPunch),
        ENPUNCH => Form::Alone(Body::Punch),
        RELOC => Form::Reloc,
        FILENAME => Form::FileName,
        DEVICE => Form::Device,
        EXPUNGE => Form::Alone(Body::Expunge),
        FIXTAB => Form::Alone(Body::FixTable),
        FIXMRI => Form::FixOperation,
        _ => Form::Later,
    }
}

/// Whether FILENAME or DEVICE begins a body.
pub fn names_file(tokens: &[Token]) -> bool
    ensures { result ≡ names_file tokens.now }
{
    match tokens.first() {
        Some(token) => match name_of(token.kind) {
            Some(name) => name.number() == FILENAME || name.number() == DEVICE,
            None => false,
        },
        None => false,
    }
}

/// Whether a `<` ends a statement.
fn opens(end: End) -> bool
    ensures { result ≡ opens end }
{
    matches!(end, End::Open)
}

/// Whether a body is a condition.
fn is_condition(body: Body) -> bool
    ensures { result ≡ is_condition body }
{
    match body {
        Body::IfZero | Body::IfNotZero | Body::IfDefined(_) | Body::IfUndefined(_) => true,
        Body::Nothing | Body::Origin | Body::Define(_) | Body::Decimal | Body::Octal => false,
        Body::Field | Body::NextPage | Body::Page | Body::Zeros | Body::Text => false,
        Body::Listing | Body::Word | Body::NoPunch | Body::Punch | Body::Relocate => false,
        Body::Unrelocate | Body::FileName | Body::Device | Body::Expunge => false,
        Body::FixTable | Body::FixOperation(_) => false,
    }
}

/// Whether a statement with this body ends as it must: a condition by `<`, any other by another end (PAL8, in this project's profile).
pub fn ends_condition(end: End, body: Body) -> bool
    ensures { result ≡ ends_condition end body }
{
    if is_condition(body) {
        opens(end)
    } else {
        !opens(end)
    }
}

ghost use Rattle.std.specs.Prelude.{◌≡◌};
ghost use Rattle.pal_lex.specs.Language.{is_reserved, operation_of, name_of_term, name_of, is_named, free_name, operation_in};

use crate::{Kind, Name, Operation, Term, name};

/// `DECIMAL`, of which six characters count.
pub const DECIMAL: u64 = name!(b'D' b'E' b'C' b'I' b'M' b'A');

pub const OCTAL: u64 = name!(b'O' b'C' b'T' b'A' b'L' 0);

pub const FIELD: u64 = name!(b'F' b'I' b'E' b'L' b'D' 0);

/// Ends a source that goes on in the next one.
pub const PAUSE: u64 = name!(b'P' b'A' b'U' b'S' b'E' 0);
/// Stands before the address of a memory reference that is indirect.
pub const INDIRECT: u64 = name!(b'I' 0 0 0 0 0);
/// Stands before an address, and means nothing.
pub const ZERO_PAGE: u64 = name!(b'Z' 0 0 0 0 0);

const AND: u64 = name!(b'A' b'N' b'D' 0 0 0);

const TAD: u64 = name!(b'T' b'A' b'D' 0 0 0);

const ISZ: u64 = name!(b'I' b'S' b'Z' 0 0 0);

const DCA: u64 = name!(b'D' b'C' b'A' 0 0 0);

const JMS: u64 = name!(b'J' b'M' b'S' 0 0 0);

const JMP: u64 = name!(b'J' b'M' b'P' 0 0 0);

/// Whether a name has a meaning of its own, and stands for no value.
pub fn is_reserved(name: Name) -> bool
    ensures { result ≡ is_reserved name }
{
    is_reserved_number(name.number())
}

/// Whether the name of this number has a meaning of its own, and stands for no value.
pub fn is_reserved_number(number: u64) -> bool
    ensures { result ≡ is_reserved number }
{
    number == DECIMAL
        || number == OCTAL
        || number == FIELD
        || number == PAUSE
        || number == INDIRECT
        || number == ZERO_PAGE
}

/// The operation that the name of this number means at the beginning of a memory reference.
pub fn operation_of_number(number: u64) -> Option<Operation>
    ensures { result ≡ operation_of number }
{
    if number == AND {
        Some(Operation::And)
    } else if number == TAD {
        Some(Operation::Tad)
    } else if number == ISZ {
        Some(Operation::Isz)
    } else if number == DCA {
        Some(Operation::Dca)
    } else if number == JMS {
        Some(Operation::Jms)
    } else if number == JMP {
        Some(Operation::Jmp)
    } else {
        None
    }
}

fn name_of_term(term: Term) -> Option<Name>
    ensures { result ≡ name_of_term term }
{
    match term {
        Term::Name(name) => Some(name),
        Term::Number(_) | Term::Here => None,
    }
}

/// The name that a token is.
fn name_of(kind: Kind) -> Option<Name>
    ensures { result ≡ name_of kind }
{
    match kind {
        Kind::Term(term) => name_of_term(term),
        Kind::BadNumber | Kind::Blank | Kind::Plus | Kind::Minus => None,
        Kind::Equals | Kind::Comma | Kind::Star => None,
    }
}

/// Whether a token is the name of this number.
pub fn is_named(name: u64, kind: Kind) -> bool
    ensures { result ≡ is_named name kind }
{
    match name_of(kind) {
        Some(found) => found.number() == name,
        None => false,
    }
}

/// The name that a token is, where it isn't reserved.
pub fn free_name(kind: Kind) -> Option<Name>
    ensures { result ≡ free_name kind }
{
    let name = name_of(kind)?;
    if is_reserved(name) {
        return None;
    }
    Some(name)
}

/// The operation that a token is.
pub fn operation_in(kind: Kind) -> Option<Operation>
    ensures { result ≡ operation_in kind }
{
    let name = name_of(kind)?;
    operation_of_number(name.number())
}

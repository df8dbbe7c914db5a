//! Where in its statement a fault is.
ghost use Rattle.std.specs.Prelude.{◌≡◌, ℕ, ◌∷◌, List, IfOk, if◌then◌else◌};
ghost use Rattle.pal8_lex.specs.Judging as judging;
ghost use Rattle.pal8_lex.specs.Reading.{HasRead};
ghost use Rattle.pal8_lex.specs.Statements.{statements};
ghost use Rattle.pal8_tape.specs.Marks.{begins, fault_mark, first_start, is_meant, is_name, is_number_fault, is_redefinition, mark_in, mark_of, meant_mark, radix_at, radix_for};

use pal8_asm::{AsmFault, assemble};
use pal8_lex::{Kind, Lexer, Radix, Token, tag_count};
use pal8_places::{Code, Options};
use source_places::first_bytes;
use std::alloc::{AllocError, Global};

/// Where the fault of a source is whose statement begins at a place.
pub(crate) fn fault_mark(
    alloc: Global,
    options: Options,
    source: &[u8],
    code: &Code,
    start: u64,
) -> Result<u64, AllocError>
    ensures { IfOk result (λ at. at ≡ fault_mark options source.now code.now start) }
{
    let radix = radix_for(alloc, options, source, code, start)?;
    let mut lexer = Lexer::new(alloc);
    let mut mark = start;
    let mut taken = 0;
    while taken < source.len() {
        let next = look(&mut lexer, code, radix, start, mark, source[taken])?;
        mark = next;
        taken += 1;
    }
    Ok(mark)
}

/// How numbers are read where the statement begins that has a fault, if it is NU.
fn radix_for(
    alloc: Global,
    options: Options,
    source: &[u8],
    code: &Code,
    start: u64,
) -> Result<Radix, AllocError>
    ensures { IfOk result (λ radix. radix ≡ radix_for options code.now source.now start) }
{
    if is_number_fault(code) {
        return radix_at(alloc, options, source, start as usize);
    }
    Ok(Radix::Octal)
}

/// How numbers are read where a statement begins: in octal, if 8 is none there.
fn radix_at(
    alloc: Global,
    options: Options,
    source: &[u8],
    start: usize,
) -> Result<Radix, AllocError>
    ensures { IfOk result (λ radix. radix ≡ radix_at options source.now start) }
{
    let mut probe = Vec::new(alloc);
    probe.extend_from_slice(first_bytes(source, start))?;
    probe.extend_from_slice(b"8;")?;
    match assemble(alloc, options, &probe) {
        Ok(_) => Ok(Radix::Decimal),
        Err(AsmFault::At(code, _)) => {
            if is_number_fault(&code) {
                Ok(Radix::Octal)
            } else {
                Ok(Radix::Decimal)
            }
        }
        Err(AsmFault::Memory) => Err(AllocError),
    }
}

fn is_number_fault(code: &Code) -> bool
    ensures { result ≡ is_number_fault code.now }
{
    match code {
        Code::NU => true,
        Code::IC | Code::SY | Code::UA(_) | Code::DT(_) | Code::RD | Code::IR | Code::II => false,
        Code::FD | Code::PG | Code::PF | Code::DZ | Code::PE | Code::ZE | Code::PH => false,
        Code::RL | Code::NE | Code::NW | Code::PageClash(_) | Code::ZeroClash(_) => false,
    }
}

fn is_redefinition(code: &Code) -> bool
    ensures { result ≡ is_redefinition code.now }
{
    match code {
        Code::RD => true,
        Code::IC | Code::SY | Code::NU | Code::UA(_) | Code::DT(_) | Code::IR | Code::II => false,
        Code::FD | Code::PG | Code::PF | Code::DZ | Code::PE | Code::ZE | Code::PH => false,
        Code::RL | Code::NE | Code::NW | Code::PageClash(_) | Code::ZeroClash(_) => false,
    }
}

/// Takes the next byte, and answers where the fault is of the statement that begins at a place, by the bytes so far.
fn look(
    lexer: &mut Lexer,
    code: &Code,
    radix: Radix,
    start: u64,
    mark: u64,
    byte: u8,
) -> Result<u64, AllocError>
    ensures { (text : List ℕ) → HasRead lexer.old text → mark ≡ mark_in code.now radix start (statements text)
        → IfOk result (λ next. (next ≡ mark_in code.now radix start (statements (byte ∷ text)))
        × HasRead lexer.new (byte ∷ text)) }
{
    if lexer.push(byte)? {
        return Ok(with_statement(code, radix, start, mark, lexer.tokens()));
    }
    Ok(mark)
}

/// The mark with one statement more, that has these tokens.
fn with_statement(code: &Code, radix: Radix, start: u64, mark: u64, tokens: &[Token]) -> u64
    ensures { result ≡ (if begins start tokens.now then mark_of code.now radix start tokens.now else mark) }
{
    match tokens {
        [first, ..] => {
            if first.start == start {
                return mark_of(code, radix, start, tokens);
            }
            mark
        }
        [] => mark,
    }
}

/// Where a fault is in its statement: of RD at the name after the tags, of others at the first token that they are about, else at the start.
fn mark_of(code: &Code, radix: Radix, start: u64, tokens: &[Token]) -> u64
    ensures { result ≡ mark_of code.now radix start tokens.now }
{
    if is_redefinition(code) {
        let (_tags, body) = tokens.split_at(2 * tag_count(tokens));
        return first_start(start, body);
    }
    meant_mark(code, radix, start, tokens)
}

/// Where the first token stands, else the start.
fn first_start(start: u64, tokens: &[Token]) -> u64
    ensures { result ≡ first_start start tokens.now }
{
    match tokens {
        [first, ..] => first.start,
        [] => start,
    }
}

/// Where the first token stands that a fault is about, else the start.
fn meant_mark(code: &Code, radix: Radix, start: u64, tokens: &[Token]) -> u64
    ensures { result ≡ meant_mark code.now radix start tokens.now }
{
    let mut rest = tokens;
    while let [token, others @ ..] = rest {
        if is_meant(code, radix, token) {
            return token.start;
        }
        rest = others;
    }
    start
}

/// Whether a token is what a fault is about.
fn is_meant(code: &Code, radix: Radix, token: &Token) -> bool
    ensures { result ≡ is_meant code.now radix token.now.kind }
{
    match code {
        Code::IC => is_bad(token.kind),
        Code::NU => is_bad_number(radix, token.kind),
        Code::UA(name) => is_name(*name, token.kind),
        Code::DT(name) => is_name(*name, token.kind),
        Code::SY | Code::RD | Code::IR | Code::II | Code::FD => false,
        Code::PG | Code::PF | Code::DZ | Code::PE | Code::ZE | Code::PH | Code::NE => false,
        Code::RL | Code::NW | Code::PageClash(_) | Code::ZeroClash(_) => false,
    }
}

/// Whether a token begins with a digit, and is no number of twelve bits by a radix.
fn is_bad_number(radix: Radix, kind: Kind) -> bool
    ensures { result ≡ judging.is_bad_number radix kind }
{
    match kind {
        Kind::Number(number) => match radix {
            Radix::Octal => number.octal >= 0o10000,
            Radix::Decimal => number.decimal >= 0o10000,
        },
        Kind::Name(_) | Kind::Character(_) | Kind::Here | Kind::Operator(_) => false,
        Kind::Equals | Kind::Comma | Kind::Star | Kind::Opening(_) => false,
        Kind::Closing(_) | Kind::String | Kind::Bad => false,
    }
}

fn is_bad(kind: Kind) -> bool
    ensures { result ≡ judging.is_bad kind }
{
    matches!(kind, Kind::Bad)
}

fn is_name(name: u64, kind: Kind) -> bool
    ensures { result ≡ is_name name kind }
{
    match kind {
        Kind::Name(found) => found.number() == name,
        Kind::Number(_) | Kind::Character(_) | Kind::Here | Kind::Operator(_) => false,
        Kind::Equals | Kind::Comma | Kind::Star | Kind::Opening(_) => false,
        Kind::Closing(_) | Kind::String | Kind::Bad => false,
    }
}

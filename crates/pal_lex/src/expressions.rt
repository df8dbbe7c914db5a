ghost use Rattle.std.specs.Prelude.{◌≡◌, true, Some, IfOk};
ghost use Rattle.pal_lex.specs.Grammar.{joint_of, free_term, term_of, parts, terms, expression};
ghost use Rattle.pal_lex.specs.AfterSteps.{parts_after};

use crate::kinds::is_sign;
use crate::language::is_reserved;
use crate::{Expression, Joint, Kind, Part, Term, Token};
use smallvec::SmallVec;
use std::alloc::{AllocError, Global};

/// What joins two terms; a blank does so where blanks may stand.
fn joint_of(blanks: bool, kind: Kind) -> Option<Joint>
    ensures { result ≡ joint_of blanks kind }
{
    match kind {
        Kind::Plus => Some(Joint::Add),
        Kind::Minus => Some(Joint::Subtract),
        Kind::Blank if blanks => Some(Joint::Or),
        _ => None,
    }
}

/// A term, where it is no reserved name.
fn free_term(term: Term) -> Option<Term>
    ensures { result ≡ free_term term }
{
    if let Term::Name(name) = term {
        if is_reserved(name) {
            return None;
        }
    }
    Some(term)
}

/// The term that a token is.
fn term_of(kind: Kind) -> Option<Term>
    ensures { result ≡ term_of kind }
{
    match kind {
        Kind::Term(term) => free_term(term),
        Kind::BadNumber | Kind::Blank | Kind::Plus | Kind::Minus => None,
        Kind::Equals | Kind::Comma | Kind::Star => None,
    }
}

/// The terms before some tokens, and the terms that these are, each with what joins it to those before it.
#[inline(always)]
fn longer_expression(
    before: SmallVec<Part, 2>,
    blanks: bool,
    tokens: &[Token],
) -> Result<Option<Expression>, AllocError>
    ensures { IfOk result (λ e. e ≡ parts_after before.items (parts blanks tokens.now)) }
{
    let mut parts = before;
    let mut rest = tokens;
    while let [joint, term, others @ ..] = rest {
        match joint_of(blanks, joint.kind) {
            Some(joint) => match term_of(term.kind) {
                Some(term) => parts.push(Part { joint, term })?,
                None => return Ok(None),
            },
            None => return Ok(None),
        }
        rest = others;
    }
    if rest.is_empty() {
        return Ok(Some(Expression::new(parts)));
    }
    Ok(None)
}

/// A term, and further terms.
pub fn terms(
    alloc: Global,
    blanks: bool,
    tokens: &[Token],
) -> Result<Option<Expression>, AllocError>
    ensures { IfOk result (λ e. e ≡ terms blanks tokens.now) }
{
    match tokens {
        [first, others @ ..] => match term_of(first.kind) {
            Some(term) => {
                let mut parts = SmallVec::new(alloc);
                parts.push(Part {
                    joint: Joint::Add,
                    term,
                })?;
                longer_expression(parts, blanks, others)
            }
            None => Ok(None),
        },
        [] => Ok(None),
    }
}

/// Terms, of which the first may have a sign.
pub fn expression(alloc: Global, tokens: &[Token]) -> Result<Option<Expression>, AllocError>
    ensures { IfOk result (λ e. e ≡ expression tokens.now) }
{
    match tokens {
        [first, ..] if is_sign(first.kind) => longer_expression(SmallVec::new(alloc), true, tokens),
        _ => terms(alloc, true, tokens),
    }
}

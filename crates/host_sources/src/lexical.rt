//! Faults after one of a character, a number or a statement's form.
ghost use Rattle.std.specs.Prelude.{◌≡◌, ◌++◌, ◌∷◌, [], ℕ, None, IfOk, IfErr, OnOk};
ghost use Rattle.pal_lex.specs.Text.{text_of};
ghost use Rattle.pal_asm.specs.Faults.{fault_of};
ghost use Rattle.source_places.specs.Places.{place_in, place_by};
ghost use Rattle.host_sources.specs.Lexical as spec;
ghost use Rattle.host_sources.specs.MendSteps.{Advances, GoesOn, PutsFault};
ghost use Rattle.host_sources.specs.Marks.{at_mark};
ghost use Rattle.host_sources.specs.Marks as marks;
ghost use Rattle.host_sources.specs.Steps.{IsMetAt};
ghost use Rattle.host_sources.specs.declared.locating.Passed.TheVariants.{Refused};
ghost use Rattle.host_sources.specs.declared.faults.SourceFault.TheVariants.{Memory};

use crate::joins::Join;
use crate::locating::{Passed, fault_end};
use crate::marks::fault_mark;
use crate::mending::mend_text;
use crate::{Fault, SourceFault};
use pal_asm::{AsmFault, Code, assemble};
use source_places::place_of;
use std::alloc::{AllocError, Global};

/// So many faults of a join of sources after the first, if this is IC, SY or NU. Each is the first of the text in which the statements of
/// those before it are harmless. The only fault of the call is `Memory`.
pub(crate) fn lexical_further(
    alloc: Global,
    sources: &[&[u8]],
    join: Join,
    most: usize,
) -> Result<Vec<Fault>, SourceFault>
    ensures faults { IfOk result (λ faults. faults.items ≡ spec.lexical_further
        (λ at. place_by sources.now (place_in join.counts.items at)) most
        (text_of join.text.items)) }
    ensures fault { IfErr result (λ fault. fault ≡ Memory) }
{
    let mut faults = Vec::new(alloc);
    let mut text = join.text;
    let mut left = most;
    while left > 0 {
        if !advance(alloc, sources, &join.counts, &mut text, &mut faults)? {
            return Ok(faults);
        }
        left -= 1;
    }
    Ok(faults)
}

/// Makes the statement with the fault of a text harmless, puts the next fault after others, and answers whether there is one.
fn advance(
    alloc: Global,
    sources: &[&[u8]],
    counts: &[usize],
    text: &mut Vec<u8>,
    faults: &mut Vec<Fault>,
) -> Result<bool, SourceFault>
    ensures advances { IfOk result (λ goes. Advances
        (λ at. place_by sources.now (place_in counts.now at)) (text_of text.old.items)
        (text_of text.new.items) faults.old.items faults.new.items goes) }
    ensures fault { IfErr result (λ fault. fault ≡ Memory) }
{
    match next_text(alloc, text)? {
        Some(next) => {
            *text = next;
            let goes = put_fault(alloc, sources, counts, text, faults)?;
            Ok(goes)
        }
        None => Ok(false),
    }
}

/// Puts the first fault of a text after others, and answers whether it is IC, SY or NU.
fn put_fault(
    alloc: Global,
    sources: &[&[u8]],
    counts: &[usize],
    text: &[u8],
    faults: &mut Vec<Fault>,
) -> Result<bool, SourceFault>
    ensures puts { IfOk result (λ goes. PutsFault
        (spec.lexical_fault (λ at. place_by sources.now (place_in counts.now at)) (text_of text.now))
        faults.old.items faults.new.items goes) }
    ensures fault { IfErr result (λ fault. fault ≡ Memory) }
{
    match lexical_fault(alloc, sources, counts, text)? {
        Some(fault) => {
            put(faults, fault)?;
            Ok(true)
        }
        None => Ok(false),
    }
}

/// Puts a fault after others.
pub(crate) fn put(faults: &mut Vec<Fault>, fault: Fault) -> Result<(), AllocError>
    ensures { OnOk result (faults.new.items ≡ faults.old.items ++ fault ∷ []) }
{
    faults.push(fault)?;
    Ok(())
}

/// The text with its statement with the fault made harmless, if others can be found after this one. The only fault of the call is `Memory`.
fn next_text(alloc: Global, text: &[u8]) -> Result<Option<Vec<u8>>, SourceFault>
    ensures goes { IfOk result (λ next. GoesOn (text_of text.now) next) }
    ensures fault { IfErr result (λ fault. fault ≡ Memory) }
{
    match fault_end(alloc, text)? {
        Passed::Refused(end) => match code_of(alloc, text)? {
            Some(_) => {
                let next = mend_text(alloc, text, end)?;
                Ok(next)
            }
            None => Ok(None),
        },
        Passed::Over(_) => Ok(None),
        Passed::Open => Ok(None),
    }
}

/// The first fault of a text, if it is IC, SY or NU, as a fault of sources that have so many bytes each in it. The only fault of the call is
/// `Memory`.
fn lexical_fault(
    alloc: Global,
    sources: &[&[u8]],
    counts: &[usize],
    text: &[u8],
) -> Result<Option<Fault>, SourceFault>
    ensures found { IfOk result (λ found. found ≡ spec.lexical_fault
        (λ at. place_by sources.now (place_in counts.now at)) (text_of text.now)) }
    ensures fault { IfErr result (λ fault. fault ≡ Memory) }
{
    match fault_end(alloc, text)? {
        Passed::Refused(end) => match code_of(alloc, text)? {
            Some((code, line)) => {
                let fault = with_place(alloc, sources, counts, text, end, code, line)?;
                Ok(Some(fault))
            }
            None => Ok(None),
        },
        Passed::Over(_) => Ok(None),
        Passed::Open => Ok(None),
    }
}

/// The fault of a statement that a byte of a text ends, with its place.
fn with_place(
    alloc: Global,
    sources: &[&[u8]],
    counts: &[usize],
    text: &[u8],
    end: usize,
    code: Code,
    line: u64,
) -> Result<Fault, SourceFault>
    requires { IsMetAt text.now (Refused end) }
    ensures found { IfOk result (λ fault. fault ≡ at_mark
        (λ at. place_by sources.now (place_in counts.now at)) code line
        (marks.fault_mark code None (text_of text.now))) }
    ensures fault { IfErr result (λ fault. fault ≡ Memory) }
{
    let mark = fault_mark(alloc, text, Passed::Refused(end), code, None)?;
    let place = place_of(alloc, sources, counts, mark.at)?;
    Ok(Fault {
        code,
        line,
        place,
        about: mark.about,
    })
}

/// The code and the line of the first fault of a text, if it is IC, SY or NU.
fn code_of(alloc: Global, text: &[u8]) -> Result<Option<(Code, u64)>, SourceFault>
    ensures found { IfOk result (λ found. found ≡ spec.lexical_by (fault_of (text_of text.now))) }
    ensures fault { IfErr result (λ fault. fault ≡ Memory) }
{
    match assemble(alloc, text) {
        Ok(_) => Ok(None),
        Err(AsmFault::Memory) => Err(SourceFault::Memory),
        Err(AsmFault::At(code, line)) => {
            let again = code;
            if is_lexical(code) {
                return Ok(Some((again, line)));
            }
            Ok(None)
        }
    }
}

/// Whether a fault is one of a statement that is read alone.
fn is_lexical(code: Code) -> bool
    ensures { result ≡ spec.is_lexical code }
{
    match code {
        Code::IC | Code::SY | Code::NU => true,
        Code::UA | Code::DT | Code::RD | Code::IR => false,
        Code::FD | Code::PF | Code::NE | Code::NW => false,
    }
}

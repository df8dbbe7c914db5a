//! Where in its statement a fault is.
ghost use Rattle.std.specs.Prelude.{◌≡◌, None, IfOk, IfErr};
ghost use Rattle.pal_lex.specs.Text.{text_of};
ghost use Rattle.pal_lex.specs.Statements.{statements};
ghost use Rattle.pal_asm.specs.Faults.{first_order};
ghost use Rattle.pal_faults.specs.declared.assembling.Code.TheVariants.{NU};
ghost use Rattle.host_sources.specs.Marks.{at_character, at_name, mark_of, fault_mark};
ghost use Rattle.host_sources.specs.Marks as spec;
ghost use Rattle.host_sources.specs.Steps.{IsMetAt};
ghost use Rattle.host_sources.specs.declared.faults.SourceFault.TheVariants.{Memory};

use crate::SourceFault;
use crate::locating::Passed;
use crate::radixes::is_decimal;
use crate::runs::{Wanted, first_illegal, first_run};
use crate::starts::statement_place;
use pal_asm::Code;
use pal_asm::laws::{no_fault_before, statements_stay};
use source_places::{About, first_bytes};
use std::alloc::{AllocError, Global};

/// Where a fault is in a text, and what stands there.
#[derive(Clone, Copy, PartialEq, Eq, Debug)]
pub(crate) struct Mark {
    pub at: usize,
    pub about: About,
}

/// Where the fault of a text is, and what stands there. It is in the statement that has it, at the `$` where there is no word, and after
/// the text where there is no `$`. The name is the one that UA is about. The only fault of the call is `Memory`.
pub(crate) fn fault_mark(
    alloc: Global,
    text: &[u8],
    met: Passed,
    code: Code,
    name: Option<u64>,
) -> Result<Mark, SourceFault>
    requires { IsMetAt text.now met }
    ensures mark { IfOk result (λ mark. mark ≡ fault_mark code name (text_of text.now)) }
    ensures fault { IfErr result (λ fault. fault ≡ Memory) }
{
    statements_stay();
    no_fault_before();
    match met {
        Passed::Refused(end) => {
            let mark = mark_of(alloc, first_bytes(text, end), code, name)?;
            Ok(mark)
        }
        Passed::Over(end) => {
            let mark = mark_of(alloc, first_bytes(text, end), code, name)?;
            Ok(mark)
        }
        Passed::Open => Ok(Mark {
            at: text.len(),
            about: About::Nothing,
        }),
    }
}

/// Where the fault of the statement is that a byte after a text ends, and what stands there, where the first pass meets no fault before it.
/// The only fault of the call is `Memory`.
pub(crate) fn mark_of(
    alloc: Global,
    before: &[u8],
    code: Code,
    name: Option<u64>,
) -> Result<Mark, SourceFault>
    requires { first_order (statements (text_of before.now)) ≡ None }
    ensures mark { IfOk result (λ mark. mark ≡ mark_of code name (text_of before.now)) }
    ensures fault { IfErr result (λ fault. fault ≡ Memory) }
{
    match code {
        Code::IC => Ok(at_character(statement_place(before), first_illegal(before))),
        Code::NU => {
            let mark = at_number(alloc, before)?;
            Ok(mark)
        }
        Code::UA => {
            let mark = at_name(alloc, before, name)?;
            Ok(mark)
        }
        Code::SY | Code::DT | Code::RD | Code::IR => Ok(at_start(before)),
        Code::FD | Code::PF | Code::NE | Code::NW => Ok(at_start(before)),
    }
}

/// The fault of the statement that a byte after a text ends, where the statement begins.
fn at_start(before: &[u8]) -> Mark
    ensures { result ≡ spec.at_start (text_of before.now) }
{
    Mark {
        at: statement_place(before),
        about: About::Nothing,
    }
}

/// The fault at a character, if there is one.
fn at_character(start: usize, character: Option<(u8, usize)>) -> Mark
    ensures { result ≡ at_character start character }
{
    match character {
        Some((byte, at)) => Mark {
            at,
            about: About::Character(byte),
        },
        None => Mark {
            at: start,
            about: About::Nothing,
        },
    }
}

/// The fault NU, where the first bad number begins.
fn at_number(alloc: Global, before: &[u8]) -> Result<Mark, SourceFault>
    requires { first_order (statements (text_of before.now)) ≡ None }
    ensures mark { IfOk result (λ mark. mark ≡ mark_of NU None (text_of before.now)) }
    ensures fault { IfErr result (λ fault. fault ≡ Memory) }
{
    let is_decimal = is_decimal(alloc, before)?;
    let run = first_run(alloc, before, &Wanted::BadNumber(is_decimal))?;
    Ok(Mark {
        at: run.unwrap_or(statement_place(before)),
        about: About::Nothing,
    })
}

/// The fault UA, where its name first stands.
fn at_name(alloc: Global, before: &[u8], name: Option<u64>) -> Result<Mark, AllocError>
    ensures { IfOk result (λ mark. mark ≡ at_name name (text_of before.now)) }
{
    match name {
        Some(name) => {
            let run = first_run(alloc, before, &Wanted::Name(name))?;
            Ok(Mark {
                at: run.unwrap_or(statement_place(before)),
                about: About::Name(name),
            })
        }
        None => Ok(at_start(before)),
    }
}

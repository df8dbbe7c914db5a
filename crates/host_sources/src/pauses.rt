//! Where a source pauses.
ghost use Rattle.std.specs.Prelude.{◌≡◌, ℕ, true, IfOk, IfErr, None, List};
ghost use Rattle.pal_lex.specs.Statements.{statements, first_fault};
ghost use Rattle.pal_lex.specs.Reading.{HasRead, is_pause_body};
ghost use Rattle.host_sources.specs.Steps.{end_by, is_pause_met, ends_text, Meets, Renews, IsPrefix};
ghost use Rattle.host_sources.specs.declared.faults.SourceFault.TheVariants.{Memory};

use crate::SourceFault;
use crate::faults::unless_memory;
use pal_lex::laws::pause_is_bad;
use pal_lex::{Body, Lexer, Statement};
use std::alloc::Global;

/// What a byte is to a lexer.
#[derive(Clone, Copy)]
enum Met {
    Nothing,
    /// The end of a statement other than PAUSE.
    End,
    Pause,
}

/// How many bytes of a text stand before its first PAUSE that stands alone: up to the end of a statement before it. None
/// where it has no PAUSE. The only fault is `Memory`.
pub(crate) fn prefix_of(alloc: Global, text: &[u8]) -> Result<Option<usize>, SourceFault>
    ensures prefix { IfOk result (λ prefix. IsPrefix text.now prefix) }
    ensures fault { IfErr result (λ fault. fault ≡ Memory) }
{
    let mut lexer = Lexer::several_without_tokens(alloc);
    let mut end = 0;
    let mut taken = 0;
    while taken < text.len() {
        let met = meet(&mut lexer, text[taken])?;
        if is_pause(met) {
            return Ok(Some(end));
        }
        if ends_text(met, text[taken]) {
            return Ok(None);
        }
        taken += 1;
        end = renew(alloc, &mut lexer, met, end, taken);
    }
    Ok(None)
}

/// Whether PAUSE was met.
fn is_pause(met: Met) -> bool
    ensures { result ≡ is_pause_met met }
{
    match met {
        Met::Pause => true,
        Met::Nothing | Met::End => false,
    }
}

/// Whether a byte that is this to a lexer ends the text.
fn ends_text(met: Met, byte: u8) -> bool
    ensures { result ≡ ends_text met byte }
{
    match met {
        Met::End => byte == b'$',
        Met::Nothing | Met::Pause => false,
    }
}

/// Answers the end of the last statement, which is after this byte or where it was. After it a lexer of no byte reads on,
/// and so a fault of one statement hides no PAUSE.
fn renew(alloc: Global, lexer: &mut Lexer, met: Met, end: usize, following: usize) -> usize
    ensures renews { Renews met end following result lexer.old lexer.new }
    ensures may { lexer.old.may_pause ≡ true → lexer.new.may_pause ≡ true }
{
    match met {
        Met::End => {
            *lexer = Lexer::several_without_tokens(alloc);
            following
        }
        Met::Nothing | Met::Pause => end,
    }
}

/// Takes a byte of a source that may pause.
fn meet(lexer: &mut Lexer, byte: u8) -> Result<Met, SourceFault>
    ensures meets { (text : List ℕ) → HasRead lexer.old 0 text → lexer.old.may_pause ≡ true
        → first_fault (statements text) ≡ None → IfOk result (λ met. Meets text byte met lexer.new) }
    ensures setting { lexer.new.may_pause ≡ lexer.old.may_pause }
    ensures fault { IfErr result (λ fault. fault ≡ Memory) }
{
    pause_is_bad();
    match lexer.push(byte) {
        Ok(None) => Ok(Met::Nothing),
        Ok(Some(statement)) => Ok(end_of_statement(&statement)),
        Err(fault) => {
            unless_memory(fault)?;
            Ok(Met::End)
        }
    }
}

/// What the end of a statement is.
fn end_of_statement(statement: &Statement) -> Met
    ensures { result ≡ end_by (is_pause_body statement.now.body) }
{
    match statement.body {
        Body::Pause => Met::Pause,
        _ => Met::End,
    }
}

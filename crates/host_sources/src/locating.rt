//! Where a text has its fault.
ghost use Rattle.std.specs.Prelude.{◌≡◌, ◌<◌, ℕ, ◌||◌, not, true, false, List, [], ◌∷◌, ◌++◌, IfOk, IfErr};
ghost use Rattle.pal_lex.specs.Text.{text_of, is_over};
ghost use Rattle.pal_lex.specs.Statements.{statements};
ghost use Rattle.pal_lex.specs.Reading.{HasRead};
ghost use Rattle.pal_asm.specs.Places.{Source};
ghost use Rattle.pal_asm.specs.Passes.{IsFirst, IsSecond};
ghost use Rattle.host_sources.specs.Places.{is_refused};
ghost use Rattle.host_sources.specs.Places as spec;
ghost use Rattle.host_sources.specs.Steps.{step_after, Passes, PassesByte, PassesStatement, MakesByte, IsSettledAt, IsMetAt};
ghost use Rattle.host_sources.specs.declared.faults.SourceFault.TheVariants.{Memory};

use crate::SourceFault;
use crate::faults::unless_memory;
use pal_asm::laws::{lexical_fault_is_told, no_fault_before, no_lexical_fault, statements_stay};
use pal_asm::{AsmFault, Assembler};
use pal_lex::laws::dollar_ends_source;
use pal_lex::{Lexer, Statement};
use std::alloc::Global;

/// What a pass finds, with the place of the byte that shows it.
#[derive(Clone, Copy)]
pub(crate) enum Passed {
    /// A fault of a statement in the first pass.
    Refused(usize),
    /// The `$`; in the second pass a word with a fault, or it.
    Over(usize),
    /// The end of the text.
    Open,
}

/// Whether a pass goes on after a byte.
#[derive(Clone, Copy)]
enum Step {
    GoesOn,
    Over,
    Refused,
}

/// The byte that ends the statement with the fault of a text, and the pass that meets it there. The only fault of the call is
/// `Memory`.
pub(crate) fn fault_end(alloc: Global, text: &[u8]) -> Result<Passed, SourceFault>
    ensures met { IfOk result (λ met. IsMetAt text.now met) }
    ensures fault { IfErr result (λ fault. fault ≡ Memory) }
{
    dollar_ends_source();
    no_fault_before();
    let mut assembler = Assembler::new(alloc);
    match first_pass(alloc, text, &mut assembler)? {
        Passed::Refused(end) => Ok(Passed::Refused(end)),
        Passed::Open => Ok(Passed::Open),
        Passed::Over(end) => match assembler.begin_second() {
            Ok(()) => {
                let end = second_pass(alloc, text, &mut assembler)?;
                Ok(Passed::Over(end))
            }
            Err(_) => Ok(Passed::Over(end)),
        },
    }
}

/// Whether a text has its `$`, and no fault that the first pass meets. The only fault of the call is `Memory`.
pub(crate) fn is_passed(alloc: Global, text: &[u8]) -> Result<bool, SourceFault>
    ensures passed { IfOk result
        (λ passed. passed ≡ not (is_refused (text_of text.now) || not (is_over (text_of text.now)))) }
    ensures fault { IfErr result (λ fault. fault ≡ Memory) }
{
    dollar_ends_source();
    let mut assembler = Assembler::new(alloc);
    match first_pass(alloc, text, &mut assembler)? {
        Passed::Over(_) => Ok(true),
        Passed::Refused(_) => Ok(false),
        Passed::Open => Ok(false),
    }
}

/// Whether a text has a fault that the first pass meets. The only fault of the call is `Memory`.
pub(crate) fn is_refused(alloc: Global, text: &[u8]) -> Result<bool, SourceFault>
    ensures refused { IfOk result (λ refused. refused ≡ spec.is_refused (text_of text.now)) }
    ensures fault { IfErr result (λ fault. fault ≡ Memory) }
{
    dollar_ends_source();
    let mut assembler = Assembler::new(alloc);
    match first_pass(alloc, text, &mut assembler)? {
        Passed::Refused(_) => Ok(true),
        Passed::Over(_) => Ok(false),
        Passed::Open => Ok(false),
    }
}

/// Takes a text up to its `$` in the first pass.
fn first_pass(alloc: Global, text: &[u8], assembler: &mut Assembler) -> Result<Passed, SourceFault>
    requires { IsFirst assembler.old [] }
    ensures passes { IfOk result (λ passed. Passes text.now passed assembler.new) }
    ensures fault { IfErr result (λ fault. fault ≡ Memory) }
{
    let mut lexer = Lexer::without_tokens(alloc);
    let mut taken = 0;
    while taken < text.len() {
        match pass(&mut lexer, assembler, text[taken])? {
            Step::GoesOn => {}
            Step::Over => return Ok(Passed::Over(taken)),
            Step::Refused => return Ok(Passed::Refused(taken)),
        }
        taken += 1;
    }
    Ok(Passed::Open)
}

/// Takes a byte in the first pass.
fn pass(lexer: &mut Lexer, assembler: &mut Assembler, byte: u8) -> Result<Step, SourceFault>
    ensures passes { (text : List ℕ) → HasRead lexer.old 0 text → lexer.old.may_pause ≡ false
        → is_over text ≡ false → IsFirst assembler.old (statements text)
        → IfOk result (λ step. PassesByte text byte step lexer.new assembler.new) }
    ensures setting { lexer.new.may_pause ≡ lexer.old.may_pause }
    ensures fault { IfErr result (λ fault. fault ≡ Memory) }
{
    lexical_fault_is_told();
    match lexer.push(byte) {
        Ok(None) => Ok(Step::GoesOn),
        Ok(Some(statement)) => {
            if pass_statement(assembler, &statement)? {
                return Ok(step_after(byte));
            }
            Ok(Step::Refused)
        }
        Err(fault) => {
            unless_memory(fault)?;
            Ok(Step::Refused)
        }
    }
}

/// Takes a statement in the first pass, and answers whether it has no fault.
fn pass_statement(assembler: &mut Assembler, statement: &Statement) -> Result<bool, SourceFault>
    ensures passes { (older : Source) → IsFirst assembler.old older
        → IfOk result (λ fine. PassesStatement statement.now older fine assembler.new) }
    ensures fault { IfErr result (λ fault. fault ≡ Memory) }
{
    match assembler.first(statement) {
        Ok(()) => Ok(true),
        Err(AsmFault::Memory) => Err(SourceFault::Memory),
        Err(AsmFault::At(_, _)) => Ok(false),
    }
}

/// Whether a text goes on after a byte that ends a statement without fault.
fn step_after(byte: u8) -> Step
    ensures { result ≡ step_after byte }
{
    if byte == b'$' {
        return Step::Over;
    }
    Step::GoesOn
}

/// Takes, in the second pass, a text that has its `$`, a word and no fault of the first pass. Answers the place of the byte
/// that ends the first word with a fault, or that of the `$`.
fn second_pass(alloc: Global, text: &[u8], assembler: &mut Assembler) -> Result<usize, SourceFault>
    requires second { IsSecond assembler.old (statements (text_of text.now)) [] }
    requires over { is_over (text_of text.now) ≡ true }
    ensures settled { IfOk result (λ end. IsSettledAt text.now end) }
    ensures fault { IfErr result (λ fault. fault ≡ Memory) }
{
    let mut lexer = Lexer::without_tokens(alloc);
    let mut taken = 0;
    while taken < text.len() {
        if !make(&mut lexer, assembler, text[taken])? {
            return Ok(taken);
        }
        taken += 1;
    }
    Ok(taken)
}

/// Takes a byte in the second pass, and answers whether it goes on.
fn make(lexer: &mut Lexer, assembler: &mut Assembler, byte: u8) -> Result<bool, SourceFault>
    ensures makes { (text later : List ℕ) → HasRead lexer.old 0 text → lexer.old.may_pause ≡ false
        → is_over text ≡ false → IsSecond assembler.old (statements (later ++ byte ∷ text)) (statements text)
        → IfOk result (λ goes_on. MakesByte (statements (later
        ++ byte ∷ text)) text byte goes_on lexer.new assembler.new) }
    ensures setting { lexer.new.may_pause ≡ lexer.old.may_pause }
    ensures fault { IfErr result (λ fault. fault ≡ Memory) }
{
    statements_stay();
    no_fault_before();
    no_lexical_fault();
    match lexer.push(byte) {
        Ok(None) => Ok(true),
        Ok(Some(statement)) => match assembler.second(&statement) {
            Ok(_) => Ok(byte != b'$'),
            Err(_) => Ok(false),
        },
        Err(fault) => {
            unless_memory(fault)?;
            Ok(false)
        }
    }
}

//! Whole sources, one or several, in each pass from their first byte on.

ghost use Rattle.std.specs.Prelude.{◌≡◌, ℕ, IfOk, IfErr, None, List, ◌++◌, ◌∷◌, []};
ghost use Rattle.pal_lex.specs.Text.{text_of};
ghost use Rattle.pal_lex.specs.Statements.{statements};
ghost use Rattle.pal_lex.specs.Joins.{join_of};
ghost use Rattle.pal_lex.specs.Reading.{HasRead};
ghost use Rattle.pal_asm.specs.Faults.{no_end};
ghost use Rattle.pal_asm.specs.Passing.{IsMade};
ghost use Rattle.pal_asm.specs.Texts.{texts, ArePairsOf, IsFaultOf};
ghost use Rattle.pal_asm.specs.TextSteps.{are_several, HasPassedAll, BeginsPass, BeginsAgain, PassesSource, MakesSource, GoesOn, IsFirstFault, AreWordsOf, IsWordsFault};

use crate::laws::statements_stay;
use crate::making::make_text;
use crate::passing::{Pass, begin_second_pass, end_source, pass_text};
use crate::{AsmFault, Assembler};
use pal_lex::Lexer;
use pal_lex::laws::{join_goes_on, source_ends_join};
use std::alloc::Global;
use word12::{Cell, Word};

/// The words of a source, each with its cell, in the order of the source. Else it is the first fault with its line, 1 and
/// up (PAL III Symbolic Assembler manual, and this project's profile of it). Want of memory is answered only where no
/// fault was met.
pub fn assemble(alloc: Global, source: &[u8]) -> Result<Vec<(Cell, Word)>, AsmFault>
    ensures pairs { IfOk result (λ pairs. ArePairsOf (text_of source.now) pairs.items) }
    ensures fault { IfErr result (λ fault. IsFaultOf (text_of source.now) fault) }
{
    assemble_all(alloc, &[source])
}

/// The words of sources that are one, each with its cell, in their order; or the first fault with its line, 1 and up. Each
/// source but the last goes on in the next one at its first PAUSE that stands alone. Lines count over them all (PAL III
/// Symbolic Assembler manual, and this project's profile of it). No source at all is an empty one.
///
/// Want of memory is answered only where no fault was met. In the first pass that is after statements with none. In the
/// second the whole has its `$`, a word and no fault that the first one reports.
pub fn assemble_all(alloc: Global, sources: &[&[u8]]) -> Result<Vec<(Cell, Word)>, AsmFault>
    ensures pairs { IfOk result (λ pairs. ArePairsOf (join_of (texts sources.now)) pairs.items) }
    ensures fault { IfErr result (λ fault. IsFaultOf (join_of (texts sources.now)) fault) }
{
    let mut pass = begin(alloc, sources);
    first_pass(&mut pass, sources)?;
    let lexer = lexer_of(alloc, sources);
    begin_second_pass(&mut pass, lexer)?;
    second_pass(alloc, sources, &mut pass)
}

/// Whether there is more than one source.
fn are_several(sources: &[&[u8]]) -> bool
    ensures { result ≡ are_several (texts sources.now) }
{
    sources.len() > 1
}

/// A lexer of no byte of sources.
fn lexer_of(alloc: Global, sources: &[&[u8]]) -> Lexer
    ensures read { HasRead result 0 [] }
    ensures several { result.may_pause ≡ are_several (texts sources.now) }
{
    if are_several(sources) {
        return Lexer::several_without_tokens(alloc);
    }
    Lexer::without_tokens(alloc)
}

/// A first pass over sources, of which it has read nothing.
fn begin(alloc: Global, sources: &[&[u8]]) -> Pass
    ensures { BeginsPass [] (texts sources.now) result }
{
    Pass {
        lexer: lexer_of(alloc, sources),
        assembler: Assembler::new(alloc),
        waiting: None,
        is_at_end: false,
    }
}

/// Goes on with the first of these sources after one that was read, and answers whether it counts. It takes no memory.
fn go_on(pass: &mut Pass, others: &[&[u8]]) -> Result<bool, AsmFault>
    ensures goes { GoesOn (texts others.now) pass.old.lexer result pass.new.lexer pass.new.is_at_end }
    ensures same { (pass.new.assembler ≡ pass.old.assembler) × (pass.new.waiting ≡ pass.old.waiting) }
{
    if others.is_empty() {
        return Ok(false);
    }
    end_source(pass, !are_several(others))?;
    Ok(!pass.is_at_end)
}

/// Takes a source in the first pass, and answers whether it goes on with the next of the others.
fn first_source(pass: &mut Pass, source: &[u8], others: &[&[u8]]) -> Result<bool, AsmFault>
    ensures { (before : List ℕ) → BeginsPass before (text_of source.now ∷ texts others.now) pass.old
        → PassesSource before (text_of source.now) (texts others.now) result pass.new }
{
    join_goes_on();
    source_ends_join();
    statements_stay();
    let mut offset = 0;
    pass_text(pass, source, &mut offset)?;
    go_on(pass, others)
}

/// Takes all sources in the first pass.
fn first_pass(pass: &mut Pass, sources: &[&[u8]]) -> Result<(), AsmFault>
    requires { BeginsPass [] (texts sources.now) pass.old }
    ensures passed { IfOk result (λ _. HasPassedAll (join_of (texts sources.now)) pass.new) }
    ensures fault { IfErr result (λ fault. IsFirstFault (join_of (texts sources.now)) fault) }
{
    let mut rest = sources;
    while let [source, others @ ..] = rest {
        let goes_on = first_source(pass, source, others)?;
        if !goes_on {
            return Ok(());
        }
        rest = others;
    }
    Ok(())
}

/// Takes a source in the second pass, and answers whether it goes on with the next of the others.
fn second_source(
    pass: &mut Pass,
    pairs: &mut Vec<(Cell, Word)>,
    source: &[u8],
    others: &[&[u8]],
) -> Result<bool, AsmFault>
    ensures { (whole before : List ℕ) → whole ≡ join_of (text_of source.now ∷ texts others.now) ++ before
        → no_end whole ≡ None
        → BeginsAgain (statements whole) before (text_of source.now ∷ texts others.now) pass.old
        pairs.old.items
        → MakesSource (statements whole) before (text_of source.now) (texts others.now) result pass.new
        pairs.new.items }
{
    join_goes_on();
    source_ends_join();
    statements_stay();
    let mut offset = 0;
    make_text(pass, pairs, source, &mut offset)?;
    go_on(pass, others)
}

/// Takes all sources in the second pass.
fn second_pass(
    alloc: Global,
    sources: &[&[u8]],
    pass: &mut Pass,
) -> Result<Vec<(Cell, Word)>, AsmFault>
    requires ends { no_end (join_of (texts sources.now)) ≡ None }
    requires begins { BeginsAgain (statements (join_of (texts sources.now))) [] (texts sources.now)
        pass.old [] }
    ensures pairs { IfOk result (λ pairs. AreWordsOf (join_of (texts sources.now)) pairs.items) }
    ensures fault { IfErr result (λ fault. IsWordsFault (join_of (texts sources.now)) fault) }
{
    let mut pairs = Vec::new(alloc);
    let mut rest = sources;
    while let [source, others @ ..] = rest {
        let goes_on = second_source(pass, &mut pairs, source, others)?;
        if !goes_on {
            return Ok(pairs);
        }
        rest = others;
    }
    Ok(pairs)
}

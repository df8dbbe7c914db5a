//! Faults after the first.
ghost use Rattle.std.specs.Prelude.{◌≡◌, ℕ, ◌++◌, ◌∷◌, [], take, drop, false, Option, None, List, IfOk, IfErr, OnOk};
ghost use Rattle.pal_lex.specs.Text.{text_of};
ghost use Rattle.pal_lex.specs.Statements.{statements};
ghost use Rattle.pal_lex.specs.Reading.{HasRead};
ghost use Rattle.pal_asm.specs.Faults.{first_order};
ghost use Rattle.source_places.specs.Places.{place_in, place_by};
ghost use Rattle.source_places.specs.declared.places.Place.{Place};
ghost use Rattle.host_sources.specs.Symbols.{meaning_in, Follows};
ghost use Rattle.host_sources.specs.JudgeSteps.{faults_of_words, IsJudged};
ghost use Rattle.host_sources.specs.Further.{with_place, word_faults, further_faults};
ghost use Rattle.host_sources.specs.Marks.{at_mark, mark_of};
ghost use Rattle.host_sources.specs.declared.faults.SourceFault.TheVariants.{Memory};

use crate::joins::{Join, join_all};
use crate::judging::judge;
use crate::lexical::{lexical_further, put};
use crate::locating::is_passed;
use crate::marks::mark_of;
use crate::names::{Definitions, names_of, no_names};
use crate::reading::statement_ended;
use crate::{Fault, SourceFault};
use pal_asm::Code;
use pal_asm::laws::{no_fault_before, statements_stay};
use pal_lex::Lexer;
use source_places::{first_bytes, place_of};
use std::alloc::{AllocError, Global};
use std::collections::BTreeMap;

/// A word with a fault.
#[derive(Clone, Copy)]
struct Found {
    code: Code,
    /// The line in the join.
    line: u64,
    /// The place in the join of the byte that ends the statement.
    end: usize,
    /// The name that it is about, if it is UA.
    about: Option<u64>,
}

/// So many of the faults of sources of the host after the first, in the order of the sources. Where the first is one of a word (UA or IR),
/// which the second pass meets, what names stand for is known, and each word is judged by itself. Where it is IC, SY or NU, its statement is
/// read as its first tag, if that has no fault, and the word 0. The next fault is the first of that text, if it is IC, SY or NU, and so on.
/// There is no next one where the statement has DECIMAL, OCTAL or PAUSE, which say how what follows is read. There are none where the
/// sources have another fault, or none at all (this project's profile of PAL III). The only fault of the call is `Memory`.
pub fn further_faults(
    alloc: Global,
    sources: &[&[u8]],
    most: usize,
) -> Result<Vec<Fault>, SourceFault>
    ensures faults { IfOk result (λ faults. faults.items ≡ further_faults sources.now most) }
    ensures fault { IfErr result (λ fault. fault ≡ Memory) }
{
    let join = join_all(alloc, sources)?;
    if !is_passed(alloc, &join.text)? {
        let faults = lexical_further(alloc, sources, join, most)?;
        return Ok(faults);
    }
    let last = names_of(alloc, &join.text)?;
    let found = word_faults(alloc, &join.text, &last.symbols)?;
    let faults = faults_of_sources(alloc, sources, &join, further(&found, most))?;
    Ok(faults)
}

/// So many after the first.
fn further(found: &[Found], most: usize) -> &[Found]
    ensures { result.now ≡ take most (drop 1 found.now) }
{
    match found {
        [] => found,
        [_, others @ ..] => {
            if most < others.len() {
                return others.split_at(most).0;
            }
            others
        }
    }
}

/// Words of a join of sources with faults as faults of the sources.
fn faults_of_sources(
    alloc: Global,
    sources: &[&[u8]],
    join: &Join,
    found: &[Found],
) -> Result<Vec<Fault>, SourceFault>
    requires { first_order (statements (text_of join.now.text.items)) ≡ None }
    ensures faults { IfOk result (λ faults. faults.items ≡ faults_of_words
        (λ at. place_by sources.now (place_in join.now.counts.items at)) join.now.text.items
        found.now) }
    ensures fault { IfErr result (λ fault. fault ≡ Memory) }
{
    let mut faults = Vec::new(alloc);
    let mut rest = found;
    while let [first, others @ ..] = rest {
        let fault = at_mark(alloc, sources, join, first)?;
        put(&mut faults, fault)?;
        rest = others;
    }
    Ok(faults)
}

/// A word of a join of sources with a fault as a fault of the sources.
fn at_mark(
    alloc: Global,
    sources: &[&[u8]],
    join: &Join,
    found: &Found,
) -> Result<Fault, SourceFault>
    requires { first_order (statements (text_of join.now.text.items)) ≡ None }
    ensures fault { IfOk result (λ fault. fault ≡ at_mark
        (λ at. place_by sources.now (place_in join.now.counts.items at)) found.now.code found.now.line
        (mark_of found.now.code found.now.about
        (text_of (take found.now.end join.now.text.items)))) }
    ensures memory { IfErr result (λ fault. fault ≡ Memory) }
{
    statements_stay();
    no_fault_before();
    let before = first_bytes(&join.text, found.end);
    let mark = mark_of(alloc, before, found.code, found.about)?;
    let place = place_of(alloc, sources, &join.counts, mark.at)?;
    Ok(Fault {
        code: found.code,
        line: found.line,
        place,
        about: mark.about,
    })
}

/// The words of a text that have a fault, where the first pass meets none, and these are the names that it defines at last.
/// The only fault of the call is `Memory`.
fn word_faults(
    alloc: Global,
    text: &[u8],
    last: &BTreeMap<u64, u16>,
) -> Result<Vec<Found>, SourceFault>
    requires { first_order (statements (text_of text.now)) ≡ None }
    ensures found { IfOk result (λ found. (place : ℕ → Place) → faults_of_words place text.now found.items
        ≡ word_faults place (meaning_in last.now) (text_of text.now)) }
    ensures fault { IfErr result (λ fault. fault ≡ Memory) }
{
    statements_stay();
    no_fault_before();
    let mut lexer = Lexer::without_tokens(alloc);
    let mut names = no_names(alloc);
    let mut found = Vec::new(alloc);
    let mut taken = 0;
    while taken < text.len() {
        let fault = judge_byte(&mut lexer, &mut names, last, text[taken])?;
        keep(&mut found, fault, taken)?;
        taken += 1;
    }
    Ok(found)
}

/// Puts a fault after others, if there is one.
fn keep(
    found: &mut Vec<Found>,
    fault: Option<(Code, u64, Option<u64>)>,
    end: usize,
) -> Result<(), AllocError>
    ensures { OnOk result ((place : ℕ → Place) (text : List ℕ) → faults_of_words place text found.new.items
        ≡ faults_of_words place text found.old.items ++ with_place place (text_of (take end text)) fault) }
{
    match fault {
        Some((code, line, about)) => {
            found.push(Found {
                code,
                line,
                end,
                about,
            })?;
            Ok(())
        }
        None => Ok(()),
    }
}

/// Takes the next byte, and answers the fault of the word that it ends, if it has one.
fn judge_byte(
    lexer: &mut Lexer,
    names: &mut Definitions,
    last: &BTreeMap<u64, u16>,
    byte: u8,
) -> Result<Option<(Code, u64, Option<u64>)>, SourceFault>
    ensures judges { (text : List ℕ) → HasRead lexer.old 0 text → lexer.old.may_pause ≡ false
        → first_order (statements (byte ∷ text)) ≡ None
        → Follows names.old.symbols names.old.place (statements text)
        → IfOk result (λ fault. IsJudged text byte (meaning_in last.now) fault lexer.new names.new.symbols
        names.new.place) }
    ensures setting { lexer.new.may_pause ≡ lexer.old.may_pause }
    ensures fault { IfErr result (λ fault. fault ≡ Memory) }
{
    match statement_ended(lexer, byte)? {
        Some(statement) => {
            let judged = judge(names, last, &statement)?;
            Ok(judged)
        }
        None => Ok(None),
    }
}

//! Faults after the first.
ghost use Rattle.std.specs.Prelude.{◌≡◌, ◌++◌, ◌∷◌, [], ℕ, List, Err, IfOk, IfErr, OnOk, map};
ghost use Rattle.pal_lex.specs.Text.{text_of};
ghost use Rattle.pal8_asm.specs.Assembling.{Assembles};
ghost use Rattle.pal8_tape.specs.Joins.{counts_of, joined_bytes};
ghost use Rattle.pal8_tape.specs.Further as spec;
ghost use Rattle.pal8_tape.specs.Further.{further_faults};
ghost use Rattle.pal8_tape.specs.MendSteps.{Mends};
ghost use Rattle.pal8_tape.specs.declared.faults.SourceFault.TheVariants.{Memory};

use crate::places::place_in;
use crate::tapes::at_token;
use crate::texts::{ended_texts, join_texts, mend};
use crate::{Fault, Join, SourceFault};
use pal8_asm::{AsmFault, Assembler, Fault as First, assemble};
use pal8_places::{Code, Options};
use std::alloc::{AllocError, Global};

/// How many statements at most are made harmless to find further faults.
const MOST_HARMLESS: usize = 100;

/// So many of the faults of sources after the first, in their order. A statement with a fault is read as its tags that are free names, and the word 0.
/// The next fault is the first of those texts, and so on, of at most 100 times.
///
/// Where the first fault is IC, SY or NU, so is each further one. There is no next one where the statement opens a bracket, or a reserved name begins
/// its body: what it says may concern those after it. Where the first fault is one of a word, further ones are UA, DZ, RL and II of words. PE and ZE
/// aren't among them, and a word with a fault asks for nothing. A late definition is judged with the words, and one with a fault is its tags
/// alone. There are none where the sources have another first fault, or none at all. The sources are read by these options (PAL8, in this project's
/// profile). The only fault of the call is `Memory`.
pub fn further_faults(
    alloc: Global,
    options: Options,
    sources: &[&[u8]],
    most: usize,
) -> Result<Vec<Fault>, SourceFault>
    ensures faults { IfOk result (λ faults. faults.items ≡ further_faults options sources.now most) }
    ensures fault { IfErr result (λ fault. fault ≡ Memory) }
{
    let mut texts = ended_texts(alloc, sources)?;
    let passed = is_passed(alloc, options, &texts)?;
    let mut faults = Vec::new(alloc);
    let mut left = MOST_HARMLESS;
    while left > 0 {
        if faults.len() >= most {
            return Ok(faults);
        }
        let is_mended = mend_first(alloc, options, &mut texts, passed)?;
        if !is_mended {
            return Ok(faults);
        }
        let fault = further_fault(alloc, options, sources, &texts, passed)?;
        put(&mut faults, fault)?;
        left -= 1;
    }
    Ok(faults)
}

/// Puts an item after others, if there is one.
fn put<T: Drop>(items: &mut Vec<T>, item: Option<T>) -> Result<(), AllocError>
    ensures { OnOk result (items.new.items ≡ items.old.items ++ spec.items_of item) }
{
    match item {
        Some(item) => {
            items.push(item)?;
            Ok(())
        }
        None => Ok(()),
    }
}

/// Whether no statement of texts has a fault but for words, and their source ends.
fn is_passed(alloc: Global, options: Options, texts: &[Vec<u8>]) -> Result<bool, SourceFault>
    ensures passed { IfOk result (λ is. is ≡ spec.is_passed options (map (λ text. text.items) texts.now)) }
    ensures fault { IfErr result (λ fault. fault ≡ Memory) }
{
    let join = join_texts(alloc, options, texts)?;
    let mut assembler = Assembler::new(alloc, options);
    match assembler.read(alloc, &join.text) {
        Ok(_) => Ok(true),
        Err(AsmFault::At(_, _)) => Ok(false),
        Err(AsmFault::Memory) => Err(SourceFault::Memory),
    }
}

/// Makes the statement with the first fault of texts harmless, if the next one is looked for, and answers whether it is.
fn mend_first(
    alloc: Global,
    options: Options,
    texts: &mut Vec<Vec<u8>>,
    passed: bool,
) -> Result<bool, SourceFault>
    ensures mends { IfOk result (λ is. Mends (spec.next_texts options passed (map (λ text. text.items) texts.old.items)) is texts.new.items) }
    ensures fault { IfErr result (λ fault. fault ≡ Memory) }
{
    let join = join_texts(alloc, options, texts)?;
    match assemble(alloc, options, &join.text) {
        Ok(_pairs) => Ok(false),
        Err(fault) => mend_after(alloc, options, texts, &join, passed, fault),
    }
}

/// The same by the fault of their join.
fn mend_after(
    alloc: Global,
    options: Options,
    texts: &mut Vec<Vec<u8>>,
    join: &Join,
    passed: bool,
    fault: AsmFault,
) -> Result<bool, SourceFault>
    requires text { join.now.text.items ≡ joined_bytes options (map (λ text. text.items) texts.old.items) }
    requires counts { join.now.counts.items ≡ counts_of options (map (λ text. text.items) texts.old.items) }
    requires fault { Assembles options (text_of join.now.text.items) (Err fault) }
    ensures mends { IfOk result (λ is. Mends (spec.next_texts options passed (map (λ text. text.items) texts.old.items)) is texts.new.items) }
    ensures fault { IfErr result (λ fault. fault ≡ Memory) }
{
    match fault {
        AsmFault::Memory => Err(SourceFault::Memory),
        AsmFault::At(code, place) => {
            let first = First { code, place };
            mend_by(alloc, options, texts, join, passed, first)
        }
    }
}

/// Makes the statement of texts harmless that has this first fault of their join, if the next one is looked for.
fn mend_by(
    alloc: Global,
    options: Options,
    texts: &mut Vec<Vec<u8>>,
    join: &Join,
    passed: bool,
    first: First,
) -> Result<bool, SourceFault>
    requires counts { join.now.counts.items ≡ counts_of options (map (λ text. text.items) texts.old.items) }
    ensures mends { IfOk result (λ is. Mends (spec.next_by options passed (map (λ text. text.items) texts.old.items)
        (spec.fault_by passed (Err first))) is texts.new.items) }
    ensures fault { IfErr result (λ fault. fault ≡ Memory) }
{
    if !is_followed(passed, &first.code) {
        return Ok(false);
    }
    let (number, start) = place_in(&join.counts, first.place.start as usize);
    let is_mended = mend(alloc, texts, passed, number, start as u64)?;
    Ok(is_mended)
}

/// The first fault of texts at its place in the sources, if it is one of the further faults.
fn further_fault(
    alloc: Global,
    options: Options,
    sources: &[&[u8]],
    texts: &[Vec<u8>],
    passed: bool,
) -> Result<Option<Fault>, SourceFault>
    ensures found { IfOk result (λ found. found ≡ spec.further_fault options passed sources.now (map (λ text. text.items) texts.now)) }
    ensures fault { IfErr result (λ fault. fault ≡ Memory) }
{
    let join = join_texts(alloc, options, texts)?;
    match assemble(alloc, options, &join.text) {
        Ok(_pairs) => Ok(None),
        Err(fault) => fault_with_place(alloc, options, sources, &join, passed, fault),
    }
}

/// The same by the fault of their join.
fn fault_with_place(
    alloc: Global,
    options: Options,
    sources: &[&[u8]],
    join: &Join,
    passed: bool,
    fault: AsmFault,
) -> Result<Option<Fault>, SourceFault>
    ensures found { (texts : List (List ℕ)) → join.now.text.items ≡ joined_bytes options texts → join.now.counts.items ≡ counts_of options texts
        → Assembles options (text_of join.now.text.items) (Err fault) → IfOk result (λ found. found ≡ spec.further_fault options passed sources.now texts) }
    ensures fault { IfErr result (λ fault. fault ≡ Memory) }
{
    match fault {
        AsmFault::Memory => Err(SourceFault::Memory),
        AsmFault::At(code, place) => {
            let first = First { code, place };
            further_by(alloc, options, sources, join, passed, first)
        }
    }
}

/// This first fault of a join at its place in the sources, if it is one of the further faults.
fn further_by(
    alloc: Global,
    options: Options,
    sources: &[&[u8]],
    join: &Join,
    passed: bool,
    first: First,
) -> Result<Option<Fault>, SourceFault>
    ensures found { (texts : List (List ℕ)) → join.now.text.items ≡ joined_bytes options texts → join.now.counts.items ≡ counts_of options texts
        → IfOk result (λ found. found ≡ spec.further_by options passed sources.now texts (Err first)) }
    ensures fault { IfErr result (λ fault. fault ≡ Memory) }
{
    if !is_further(passed, &first.code) {
        return Ok(None);
    }
    let fault = at_token(alloc, options, sources, join, first.code, first.place)?;
    Ok(Some(fault))
}

/// Whether further faults are looked for after one.
fn is_followed(passed: bool, code: &Code) -> bool
    ensures { result ≡ spec.is_followed passed code.now }
{
    if passed {
        is_of_word(code)
    } else {
        is_lexical(code)
    }
}

/// Whether a fault is one of the further faults.
fn is_further(passed: bool, code: &Code) -> bool
    ensures { result ≡ spec.is_further passed code.now }
{
    if passed {
        is_own(code)
    } else {
        is_lexical(code)
    }
}

/// Whether a fault is one of a statement's characters, numbers and form.
fn is_lexical(code: &Code) -> bool
    ensures { result ≡ spec.is_lexical code.now }
{
    match code {
        Code::IC | Code::SY | Code::NU => true,
        Code::UA(_) | Code::DT(_) | Code::RD | Code::IR | Code::II | Code::FD => false,
        Code::PG | Code::PF | Code::DZ | Code::PE | Code::ZE | Code::PH => false,
        Code::RL | Code::NE | Code::NW | Code::PageClash(_) | Code::ZeroClash(_) => false,
    }
}

/// Whether a fault is one of a word, or of a definition that is judged with the words.
fn is_of_word(code: &Code) -> bool
    ensures { result ≡ spec.is_of_word code.now }
{
    match code {
        Code::UA(_) | Code::DZ | Code::RL | Code::II | Code::PE | Code::ZE => true,
        Code::PF | Code::IR | Code::RD => true,
        Code::IC | Code::SY | Code::NU | Code::DT(_) | Code::FD | Code::PG | Code::PH => false,
        Code::NE | Code::NW | Code::PageClash(_) | Code::ZeroClash(_) => false,
    }
}

/// Whether a fault is one of a word that another word isn't the cause of.
fn is_own(code: &Code) -> bool
    ensures { result ≡ spec.is_own code.now }
{
    match code {
        Code::UA(_) | Code::DZ | Code::RL | Code::II => true,
        Code::PE | Code::ZE | Code::PF | Code::IR | Code::RD => false,
        Code::IC | Code::SY | Code::NU | Code::DT(_) | Code::FD | Code::PG | Code::PH => false,
        Code::NE | Code::NW | Code::PageClash(_) | Code::ZeroClash(_) => false,
    }
}

//! What is printed of the faults of sources.
ghost use Rattle.std.specs.Prelude.{◌≡◌, ◌++◌, ◌∷◌, [], map, OnOk, IsAscii};
ghost use Rattle.host_sources.specs.FaultLines as pal3;
ghost use Rattle.host_sources.specs.Further.{further_faults};
ghost use Rattle.outcome.specs.Notes.{note_text};
ghost use Rattle.pal8_tape.specs.FaultLines as pal8;
ghost use Rattle.pal8_tape.specs.Further as pal8_further;
ghost use Rattle.pal8_tape.specs.Signs as signs;
ghost use Rattle.image_files.specs.Answers.{AreLines};
ghost use Rattle.assemble_commands.specs.Faults as spec;
ghost use Rattle.assemble_commands.specs.FaultSteps.{AreFurther};

use file_kind::{are_marked, is_text};
use host_sources::Fault;
use outcome::{Ending, NameNote, Note, PlainNote};
use pal8_places::Options;
use pal8_tape::sign_text;
use refusals::SessionFault;
use source_places::About;
use std::alloc::{AllocError, Global};

/// How many further faults are printed at most.
pub const MOST_FURTHER: usize = 20;

/// What is printed of the faults of PAL III sources with these names, by the first one.
pub(crate) fn faults_text(
    alloc: Global,
    sources: &[&[u8]],
    names: &[&str],
    fault: Fault,
) -> Result<Vec<u8>, Ending>
    ensures { AreLines (spec.faults_text sources.now names.now fault) result }
{
    let further = further_texts(alloc, sources, names)?;
    let first = host_sources::fault_text(alloc, sources, names, fault)?;
    let mut text = Vec::new(alloc);
    put_top_bits_notes(alloc, sources, names, &mut text)?;
    text.extend_from_slice(&first)?;
    put_sign_note(alloc, fault.about, &mut text)?;
    put_further(&further, &mut text)?;
    Ok(text)
}

/// What is printed of the faults of PAL8 sources with these names, by the first one.
pub(crate) fn pal8_faults_text(
    alloc: Global,
    options: Options,
    sources: &[&[u8]],
    names: &[&str],
    fault: pal8_tape::Fault,
) -> Result<Vec<u8>, Ending>
    ensures { AreLines (spec.pal8_faults_text options sources.now names.now fault) result }
{
    let further = pal8_further_texts(alloc, options, sources, names)?;
    let first = pal8_tape::fault_text(alloc, sources, names, fault)?;
    let mut text = Vec::new(alloc);
    put_top_bits_notes(alloc, sources, names, &mut text)?;
    text.extend_from_slice(&first)?;
    put_further(&further, &mut text)?;
    Ok(text)
}

/// The texts of the faults after the first, so many of them as are printed.
fn further_texts(alloc: Global, sources: &[&[u8]], names: &[&str]) -> Result<Vec<Vec<u8>>, Ending>
    ensures { AreFurther (map (pal3.fault_text sources.now names.now) (further_faults sources.now MOST_FURTHER)) result }
{
    match host_sources::further_faults(alloc, sources, MOST_FURTHER) {
        Ok(faults) => texts_of(alloc, sources, names, &faults),
        Err(_) => Err(Ending::Fault(SessionFault::Memory)),
    }
}

/// The texts of faults.
fn texts_of(
    alloc: Global,
    sources: &[&[u8]],
    names: &[&str],
    faults: &[Fault],
) -> Result<Vec<Vec<u8>>, Ending>
    ensures { AreFurther (map (pal3.fault_text sources.now names.now) faults.now) result }
{
    let mut texts = Vec::new(alloc);
    let mut rest = faults;
    while let [fault, others @ ..] = rest {
        let text = host_sources::fault_text(alloc, sources, names, *fault)?;
        add(&mut texts, text)?;
        rest = others;
    }
    Ok(texts)
}

/// The texts of the faults of PAL8 sources after the first, so many of them as are printed.
fn pal8_further_texts(
    alloc: Global,
    options: Options,
    sources: &[&[u8]],
    names: &[&str],
) -> Result<Vec<Vec<u8>>, Ending>
    ensures { AreFurther (map (pal8.fault_text sources.now names.now) (pal8_further.further_faults options sources.now MOST_FURTHER)) result }
{
    match pal8_tape::further_faults(alloc, options, sources, MOST_FURTHER) {
        Ok(faults) => pal8_texts_of(alloc, sources, names, &faults),
        Err(_) => Err(Ending::Fault(SessionFault::Memory)),
    }
}

/// The texts of faults of PAL8 sources.
fn pal8_texts_of(
    alloc: Global,
    sources: &[&[u8]],
    names: &[&str],
    faults: &[pal8_tape::Fault],
) -> Result<Vec<Vec<u8>>, Ending>
    ensures { AreFurther (map (pal8.fault_text sources.now names.now) faults.now) result }
{
    let mut texts = Vec::new(alloc);
    let mut rest = faults;
    while let [fault, others @ ..] = rest {
        let text = pal8_tape::fault_text(alloc, sources, names, *fault)?;
        add(&mut texts, text)?;
        rest = others;
    }
    Ok(texts)
}

fn add(texts: &mut Vec<Vec<u8>>, text: Vec<u8>) -> Result<(), AllocError>
    ensures { OnOk result (map (λ text. text.items) texts.new.items ≡ map (λ text. text.items) texts.old.items ++ text.items ∷ []) }
{
    texts.push(text)?;
    Ok(())
}

/// Puts which of the sources are the frames of a text, with the top bits that they have on a volume.
fn put_top_bits_notes(
    alloc: Global,
    sources: &[&[u8]],
    names: &[&str],
    text: &mut Vec<u8>,
) -> Result<(), AllocError>
    ensures { OnOk result (text.new.items ≡ text.old.items ++ spec.top_bits_notes sources.now names.now) }
{
    let mut rest = sources;
    let mut left = names;
    while let [source, others @ ..] = rest {
        let [name, later @ ..] = left else {
            return Ok(());
        };
        put_top_bits_note(alloc, source, name, text)?;
        rest = others;
        left = later;
    }
    Ok(())
}

fn put_top_bits_note(
    alloc: Global,
    source: &[u8],
    name: &str,
    text: &mut Vec<u8>,
) -> Result<(), AllocError>
    ensures { OnOk result (text.new.items ≡ text.old.items ++ spec.top_bits_note source.now name.now) }
{
    if are_marked(source) && is_text(source) {
        return put_note(alloc, Note::OnName(NameNote::TopBits, name), text);
    }
    Ok(())
}

fn put_note(alloc: Global, note: Note<'_>, text: &mut Vec<u8>) -> Result<(), AllocError>
    ensures { OnOk result (text.new.items ≡ text.old.items ++ note_text note.entry) }
{
    let note = format!(in alloc; "{note}")?;
    text.extend_from_slice(note.as_bytes())?;
    Ok(())
}

/// Puts at which word of PAL8 a source of PAL III has its fault, by what that is about, if it has it at one.
#[tactic(auto, using(crate::proofs::SignLemmas::sign_ascii))]
fn put_sign_note(alloc: Global, about: About, text: &mut Vec<u8>) -> Result<(), AllocError>
    ensures { OnOk result (text.new.items ≡ text.old.items ++ spec.sign_note (signs.sign_text about)) }
{
    let sign = sign_text(alloc, about)?;
    put_sign(alloc, &sign, text)
}

fn put_sign(alloc: Global, sign: &[u8], text: &mut Vec<u8>) -> Result<(), AllocError>
    requires { IsAscii sign.now }
    ensures { OnOk result (text.new.items ≡ text.old.items ++ spec.sign_note sign.now) }
{
    if sign.is_empty() {
        return Ok(());
    }
    match str::from_utf8(sign) {
        Ok(sign) => put_note(alloc, Note::OnName(NameNote::Pal8, sign), text),
        Err(_) => Ok(()),
    }
}

/// Puts what is printed of further faults, by the text of each.
fn put_further(texts: &[Vec<u8>], text: &mut Vec<u8>) -> Result<(), AllocError>
    ensures { OnOk result (text.new.items ≡ text.old.items ++ spec.further_text (map (λ it. it.items) texts.now)) }
{
    if texts.is_empty() {
        return Ok(());
    }
    text.extend_from_slice(PlainNote::FurtherFaults.text().as_bytes())?;
    put_without_numbers(texts, text)
}

/// Puts texts of faults without their numbered lines, of which only the first fault has one.
fn put_without_numbers(texts: &[Vec<u8>], text: &mut Vec<u8>) -> Result<(), AllocError>
    ensures { OnOk result (text.new.items ≡ text.old.items ++ spec.texts_without_numbers (map (λ it. it.items) texts.now)) }
{
    let mut rest = texts;
    while let [it, others @ ..] = rest {
        put_first_lines(it, text)?;
        rest = others;
    }
    Ok(())
}

/// Puts the first three lines of a text.
fn put_first_lines(lines: &[u8], text: &mut Vec<u8>) -> Result<(), AllocError>
    ensures { OnOk result (text.new.items ≡ text.old.items ++ spec.first_lines 3 lines.now) }
{
    let mut count: usize = 3;
    let mut rest = lines;
    while let [byte, others @ ..] = rest {
        if count == 0 {
            return Ok(());
        }
        text.push(*byte)?;
        count = lines_after(count, *byte);
        rest = others;
    }
    Ok(())
}

/// How many lines are left after a byte.
fn lines_after(count: usize, byte: u8) -> usize
    ensures { result ≡ spec.lines_after count byte }
{
    if byte == b'\n' {
        return count.saturating_sub(1);
    }
    count
}

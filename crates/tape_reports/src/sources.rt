//! The source of a tape.
ghost use Rattle.std.specs.Prelude.{◌≡◌, IfErr, IfOk, option_map};
ghost use Rattle.tape_source.specs.Sources.{IsFlowFault, IsNamedFault};
ghost use Rattle.tape_reports.specs.Written.{IsNamedText, IsPlainText, IsSourceText, IsTextFault, fault_of_list, fault_of_pal8};

use pal8_source::Pal8Fault;
use program_reports::SourceFault;
use refusals::SessionFault;
use std::alloc::Global;
use tape_source::{ListFault, named_source_from, named_source_of, source_from, source_of};
use word12::Cell;

/// The PAL III source of a BIN tape (PAL III Symbolic Assembler manual, and this project's profile of it). It assembles without a fault to
/// the last words that the tape gives its cells. Where a program is to start at some cells, just the words that it reaches stand as
/// instructions. The first of these cells to which the tape gives no word is refused. Where a text gives cells names, a line `FAAAA NAME`
/// each, these are their tags, and its first line that is refused is reported.
pub fn source_lines(
    alloc: Global,
    frames: &[u8],
    starts: &[Cell],
    names: &Option<Vec<u8>>,
) -> Result<Vec<u8>, ListFault>
    ensures source { IfOk result (λ text.
        IsSourceText frames.now starts.now (option_map (λ names. names.items) names.now) text.items) }
    ensures fault { IfErr result (λ fault.
        IsTextFault frames.now starts.now (option_map (λ names. names.items) names.now) fault) }
{
    match names {
        Some(names) => named_text(alloc, frames, starts, names),
        None => plain_text(alloc, frames, starts),
    }
}

/// The source of frames, by where a program starts, if it is given.
fn plain_text(alloc: Global, frames: &[u8], starts: &[Cell]) -> Result<Vec<u8>, ListFault>
    ensures source { IfOk result (λ text. IsPlainText frames.now starts.now text.items) }
    ensures fault { IfErr result (λ fault. IsFlowFault frames.now starts.now fault) }
{
    if starts.is_empty() {
        return source_of(alloc, frames);
    }
    source_from(alloc, frames, starts)
}

/// The same with the names that a text gives.
fn named_text(
    alloc: Global,
    frames: &[u8],
    starts: &[Cell],
    names: &[u8],
) -> Result<Vec<u8>, ListFault>
    ensures source { IfOk result (λ text. IsNamedText frames.now starts.now names.now text.items) }
    ensures fault { IfErr result (λ fault. IsNamedFault frames.now starts.now names.now fault) }
{
    if starts.is_empty() {
        return named_source_of(alloc, frames, names);
    }
    named_source_from(alloc, frames, starts, names)
}

/// Why a tape has no source, as a fault of what is written.
pub fn list_fault(fault: ListFault) -> SourceFault
    ensures { result ≡ fault_of_list fault }
{
    match fault {
        ListFault::Tape(fault) => SourceFault::Session(SessionFault::Tape(fault)),
        ListFault::NoWord => SourceFault::NoWord,
        ListFault::NoStart(start) => SourceFault::NoStart(start),
        ListFault::Names(line, why) => SourceFault::Names(line, why),
        ListFault::Memory => SourceFault::Session(SessionFault::Memory),
    }
}

/// The same where the source is to be PAL8.
pub fn pal8_fault(fault: Pal8Fault) -> SourceFault
    ensures { result ≡ fault_of_pal8 fault }
{
    match fault {
        Pal8Fault::List(fault) => list_fault(fault),
        Pal8Fault::Reserved(cell) => SourceFault::Reserved(cell),
    }
}

//! Faults, as a compiler reports them.
ghost use Rattle.std.specs.Prelude.{◌≡◌, ◌++◌, IfOk, OnOk};
ghost use Rattle.word12.specs.Octal.{octal5};
ghost use Rattle.pal8_tape.specs.FaultLines.{about, fault_words, script_text, fault_text};
ghost use Rattle.std.specs.Prelude.{codes};

use crate::Fault;
use crate::codes::{letters_of, words_of};
use pal8_places::Code;
use source_places::{
    bytes_of, name_of, put_character, put_marked_line, put_number, put_place, put_spelling,
};
use std::alloc::{AllocError, Global};
use word12::Cell;

/// The text of a fault of sources with these names, four lines that LF ends. The first is the fault, after the name of its source and its place there.
/// UA has the undefined name by the six characters that count, IC the character, and a word on a pool's cell the cell. Then come the line of the
/// source, a caret below the column, and the fault as it is reported to scripts.
///
/// In the line of the source a byte that is neither printable ASCII nor a tab is shown as `?`, and no CR stands in it (this project's
/// profile).
pub fn fault_text(
    alloc: Global,
    sources: &[&[u8]],
    names: &[&str],
    fault: Fault,
) -> Result<Vec<u8>, AllocError>
    ensures { IfOk result (λ text. text.items ≡ fault_text sources.now names.now fault) }
{
    let place = fault.place;
    let mut text = Vec::new(alloc);
    put_place(&mut text, name_of(names, place.source), place)?;
    put_fault(&mut text, fault.code, fault.byte)?;
    put_marked_line(alloc, &mut text, bytes_of(sources, place.source), place)?;
    put_numbered(&mut text, fault)?;
    Ok(text)
}

/// Puts a fault by its letters and words, and after them what it is about.
fn put_fault(text: &mut Vec<u8>, code: Code, byte: u8) -> Result<(), AllocError>
    ensures { OnOk result (text.new.items ≡ text.old.items ++ fault_words code byte) }
{
    let again = code;
    let last = code;
    text.extend_from_slice(letters_of(code))?;
    text.extend_from_slice(b": ")?;
    text.extend_from_slice(words_of(again))?;
    put_about(text, last, byte)?;
    text.extend_from_slice(b"\n")?;
    Ok(())
}

/// Puts the character, the name or the cell that a fault is about.
fn put_about(text: &mut Vec<u8>, code: Code, byte: u8) -> Result<(), AllocError>
    ensures { OnOk result (text.new.items ≡ text.old.items ++ about code byte) }
{
    match code {
        Code::IC => {
            text.extend_from_slice(b" ")?;
            put_character(text, byte)?;
            Ok(())
        }
        Code::UA(name) => {
            text.extend_from_slice(b" ")?;
            put_spelling(text, name)?;
            Ok(())
        }
        Code::PageClash(cell) => put_cell(text, cell),
        Code::ZeroClash(cell) => put_cell(text, cell),
        Code::SY | Code::NU | Code::DT(_) | Code::RD | Code::IR | Code::II | Code::FD => Ok(()),
        Code::PG | Code::PF | Code::DZ | Code::PE | Code::ZE | Code::RL | Code::PH => Ok(()),
        Code::NE | Code::NW => Ok(()),
    }
}

/// Puts a cell in octal.
fn put_cell(text: &mut Vec<u8>, cell: Cell) -> Result<(), AllocError>
    ensures { OnOk result (text.new.items ≡ text.old.items ++ codes " at " ++ octal5 cell) }
{
    text.extend_from_slice(b" at ")?;
    text.extend_from_slice(&cell.octal5())?;
    Ok(())
}

/// Puts a fault as it is reported to scripts.
fn put_numbered(text: &mut Vec<u8>, fault: Fault) -> Result<(), AllocError>
    ensures { OnOk result (text.new.items ≡ text.old.items ++ script_text fault) }
{
    text.extend_from_slice(b"? 5 ")?;
    text.extend_from_slice(letters_of(fault.code))?;
    text.extend_from_slice(b" ")?;
    put_number(text, fault.line)?;
    text.extend_from_slice(b"\n")?;
    Ok(())
}

//! Faults, as a compiler prints them.
ghost use Rattle.std.specs.Prelude.{◌≡◌, ◌++◌, IfOk, OnOk};
ghost use Rattle.host_sources.specs.FaultLines.{letters_of, words_of, fault_words, headline, script_text, fault_text};

use crate::Fault;
use pal_asm::Code;
use source_places::{bytes_of, name_of, put_marked_line, put_named, put_number, put_place};
use std::alloc::{AllocError, Global};

/// The text of a fault of sources with these names, four lines that LF ends. The first is the fault after the name of its source and its place
/// there. UA has the undefined name by the six characters that count, IC the character, or its three octal digits where it isn't printable
/// ASCII. Then come the line of the source, a caret below the column, and the fault as it is printed for scripts.
///
/// In the line of the source a byte that is neither printable ASCII nor a tab is shown as `?`, and no CR stands in it (this
/// project's profile).
pub fn fault_text(
    alloc: Global,
    sources: &[&[u8]],
    names: &[&str],
    fault: Fault,
) -> Result<Vec<u8>, AllocError>
    ensures { IfOk result (λ text. text.items ≡ fault_text sources.now names.now fault) }
{
    let place = fault.place;
    let mut text = Vec::new(alloc);
    put_headline(&mut text, name_of(names, place.source), fault)?;
    put_marked_line(alloc, &mut text, bytes_of(sources, place.source), place)?;
    put_numbered(&mut text, fault)?;
    Ok(text)
}

/// Puts a fault after the name of its source and its place there.
fn put_headline(text: &mut Vec<u8>, name: &str, fault: Fault) -> Result<(), AllocError>
    ensures { OnOk result (text.new.items ≡ text.old.items ++ headline name.now fault) }
{
    put_place(text, name, fault.place)?;
    put_fault(text, fault)?;
    text.extend_from_slice(b"\n")?;
    Ok(())
}

/// Puts a fault by its letters and words, and after them what it is about.
fn put_fault(text: &mut Vec<u8>, fault: Fault) -> Result<(), AllocError>
    ensures { OnOk result (text.new.items ≡ text.old.items ++ fault_words fault) }
{
    text.extend_from_slice(letters_of(fault.code))?;
    text.extend_from_slice(b": ")?;
    text.extend_from_slice(words_of(fault.code))?;
    put_named(text, fault.about)?;
    Ok(())
}

/// Puts a fault as it is printed for scripts.
fn put_numbered(text: &mut Vec<u8>, fault: Fault) -> Result<(), AllocError>
    ensures { OnOk result (text.new.items ≡ text.old.items ++ script_text fault) }
{
    text.extend_from_slice(b"? 5 ")?;
    text.extend_from_slice(letters_of(fault.code))?;
    text.extend_from_slice(b" ")?;
    put_number(text, fault.line)?;
    text.extend_from_slice(b"\n")?;
    Ok(())
}

/// The two letters of a fault.
fn letters_of(code: Code) -> &'static [u8]
    ensures { result.now ≡ letters_of code }
{
    match code {
        Code::IC => b"IC",
        Code::SY => b"SY",
        Code::NU => b"NU",
        Code::UA => b"UA",
        Code::DT => b"DT",
        Code::RD => b"RD",
        Code::IR => b"IR",
        Code::FD => b"FD",
        Code::PF => b"PF",
        Code::NE => b"NE",
        Code::NW => b"NW",
    }
}

/// The words of a fault.
fn words_of(code: Code) -> &'static [u8]
    ensures { result.now ≡ words_of code }
{
    match code {
        Code::IC => b"illegal character",
        Code::SY => b"bad statement",
        Code::NU => b"bad number",
        Code::UA => b"undefined name",
        Code::DT => b"duplicate tag",
        Code::RD => b"redefinition",
        Code::IR => b"illegal reference",
        Code::FD => b"bad field",
        Code::PF => b"past 7777",
        Code::NE => b"no $",
        Code::NW => b"no word",
    }
}

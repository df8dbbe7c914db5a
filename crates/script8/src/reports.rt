//! What may take more than one line of 80 bytes.
ghost use Rattle.std.specs.Prelude.{◌≡◌, ◌≤◌, ◌++◌, ℕ, List, codes, OnOk, OnErr, vec_capacity};
ghost use Rattle.script8.specs.Replies.{report_lines, printed_character, printed_text, line_of};
ghost use Rattle.refusals.specs.Listed.{file_line, file_lines, free_line};

use crate::Report;
use crate::line_replies::octal3;
use os8_dir::Name;
use refusals::text_lines::{TextLine, put, put_name, put_number};
use std::alloc::AllocError;

/// Appends the lines of a report; where memory is refused, nothing.
pub(crate) fn put_report(report: &Report, out: &mut Vec<u8>) -> Result<(), AllocError>
    ensures ok { OnOk result (out.new.items ≡ out.old.items ++ report_lines report.now) }
    ensures err { OnErr result (out.new.items ≡ out.old.items) }
    ensures capacity { vec_capacity out.old ≤ vec_capacity out.new }
{
    let before = out.len();
    match put_report_lines(report, out) {
        Ok(()) => Ok(()),
        Err(error) => {
            out.truncate(before);
            Err(error)
        }
    }
}

/// Appends the lines of a report; where memory is refused, a part of them.
fn put_report_lines(report: &Report, out: &mut Vec<u8>) -> Result<(), AllocError>
    ensures ok { OnOk result (out.new.items ≡ out.old.items ++ report_lines report.now) }
    ensures err { OnErr result ((more : List ℕ) × out.new.items ≡ out.old.items ++ more) }
    ensures capacity { vec_capacity out.old ≤ vec_capacity out.new }
{
    match report {
        Report::Direct { files, free } => put_direct(files.files(), *free, out),
        Report::Registers(text) => put_registers(text.as_slice(), out),
        Report::Printed(characters) => put_printed(characters.as_slice(), out),
    }
}

/// Appends the lines of files and of the free blocks; where memory is refused, some of them.
fn put_direct(files: &[(Name, usize)], free: usize, out: &mut Vec<u8>) -> Result<(), AllocError>
    ensures ok { OnOk result (out.new.items ≡ out.old.items ++ file_lines files.now ++ free_line free) }
    ensures err { OnErr result ((more : List ℕ) × out.new.items ≡ out.old.items ++ more) }
    ensures capacity { vec_capacity out.old ≤ vec_capacity out.new }
{
    for file in files {
        put_file(file, out)?;
    }
    put_free(free, out)
}

/// Appends the line of a file.
fn put_file(file: &(Name, usize), out: &mut Vec<u8>) -> Result<(), AllocError>
    ensures ok { OnOk result (out.new.items ≡ out.old.items ++ file_line file.now) }
    ensures err { OnErr result (out.new.items ≡ out.old.items) }
    ensures capacity { vec_capacity out.old ≤ vec_capacity out.new }
{
    let (name, blocks) = *file;
    let mut line = TextLine::new();
    put_name(&mut line, name);
    put(&mut line, b" ");
    put_number(&mut line, blocks as u64);
    put(&mut line, b"\n");
    out.extend_from_slice(line.as_slice())
}

/// Appends the line of the free blocks.
fn put_free(free: usize, out: &mut Vec<u8>) -> Result<(), AllocError>
    ensures ok { OnOk result (out.new.items ≡ out.old.items ++ free_line free) }
    ensures err { OnErr result (out.new.items ≡ out.old.items) }
    ensures capacity { vec_capacity out.old ≤ vec_capacity out.new }
{
    let mut line = TextLine::new();
    put(&mut line, b"FREE ");
    put_number(&mut line, free as u64);
    put(&mut line, b"\n");
    out.extend_from_slice(line.as_slice())
}

/// Appends the line of the registers; where memory is refused, a part of it.
fn put_registers(text: &[u8], out: &mut Vec<u8>) -> Result<(), AllocError>
    ensures ok { OnOk result (out.new.items ≡ out.old.items ++ line_of text.now) }
    ensures err { OnErr result ((more : List ℕ) × out.new.items ≡ out.old.items ++ more) }
    ensures capacity { vec_capacity out.old ≤ vec_capacity out.new }
{
    out.extend_from_slice(text)?;
    out.extend_from_slice(b"\n")
}

/// Appends the line of the printed characters; where memory is refused, a part of it.
fn put_printed(characters: &[u8], out: &mut Vec<u8>) -> Result<(), AllocError>
    ensures ok { OnOk result (out.new.items ≡ out.old.items
        ++ line_of (codes "PRINTED" ++ printed_text characters.now)) }
    ensures err { OnErr result ((more : List ℕ) × out.new.items ≡ out.old.items ++ more) }
    ensures capacity { vec_capacity out.old ≤ vec_capacity out.new }
{
    out.extend_from_slice(b"PRINTED")?;
    put_characters(characters, out)?;
    out.extend_from_slice(b"\n")
}

/// Appends a blank and the octal digits of each character; where memory is refused, a part of them.
fn put_characters(characters: &[u8], out: &mut Vec<u8>) -> Result<(), AllocError>
    ensures ok { OnOk result (out.new.items ≡ out.old.items ++ printed_text characters.now) }
    ensures err { OnErr result ((more : List ℕ) × out.new.items ≡ out.old.items ++ more) }
    ensures capacity { vec_capacity out.old ≤ vec_capacity out.new }
{
    for character in characters {
        put_character(*character, out)?;
    }
    Ok(())
}

/// Appends a blank and the octal digits of a character.
fn put_character(character: u8, out: &mut Vec<u8>) -> Result<(), AllocError>
    ensures ok { OnOk result (out.new.items ≡ out.old.items ++ printed_character character) }
    ensures err { OnErr result (out.new.items ≡ out.old.items) }
    ensures capacity { vec_capacity out.old ≤ vec_capacity out.new }
{
    let [high, middle, low] = octal3(character);
    out.extend_from_slice(&[b' ', high, middle, low])
}

//! The lines for how far a machine went, and why no further.
ghost use Rattle.std.specs.Prelude.{◌≡◌, ◌+◌, ◌≤◌, ◌++◌, length, OnOk};
ghost use Rattle.arrayvec.specs.ArrayVec.{array_vec_len};
ghost use Rattle.word12.specs.Octal.{octal5};
ghost use Rattle.image_files.specs.Answers.{AreLines};
ghost use Rattle.run_commands.specs.RunLines as spec;
ghost use Rattle.run_commands.specs.RunLines.{halted_text, run_text, steps_text, why_text};

use outcome::Ending;
use refusals::text_lines::{TextLine, put, put_number};
use std::alloc::{AllocError, Global};
use terminal8::{Absence, Ended, TerminalEnd};
use word12::{Cell, Word};

/// How far a machine at a terminal went, and why no further.
#[derive(Clone, Copy)]
pub(crate) enum RunLine {
    /// An 8/I halted before this cell, with this AC and L.
    Halted(Cell, Word, u8),

    /// An 8/E halted before this cell, with this AC, L and MQ.
    HaltedWithMq(Cell, Word, u8, Word),

    /// It met a word in a cell that is unassigned.
    Unassigned(Cell, Word),

    /// No key is left, and it waits for one at this cell.
    KeysEnd(Cell),

    /// It made as many steps as it was to make, up to this cell.
    Limit(Cell),

    /// It went so far, up to this cell.
    Steps(Ended, Cell),

    /// It did an IOT of a device that isn't there.
    NoDevice(Absence),
}

/// The line of a run.
pub(crate) fn run_line(alloc: Global, line: &RunLine) -> Result<Vec<u8>, Ending>
    ensures { AreLines (spec.run_line line.now) result }
{
    let mut text = Vec::new(alloc);
    put_run(line, &mut text)?;
    Ok(text)
}

/// Appends the line of a run.
pub(crate) fn put_run(line: &RunLine, out: &mut Vec<u8>) -> Result<(), AllocError>
    ensures { OnOk result (out.new.items ≡ out.old.items ++ spec.run_line line.now) }
{
    let mut text = TextLine::new();
    put_text(&mut text, *line);
    put(&mut text, b"\n");
    out.extend_from_slice(text.as_slice())
}

/// Puts the text of a line into an empty one.
fn put_text(text: &mut TextLine, line: RunLine)
    requires { array_vec_len text.old ≡ 0 }
    ensures text { text.new.items ≡ text.old.items ++ run_text line }
    ensures short { array_vec_len text.new ≤ 60 }
{
    match line {
        RunLine::Halted(cell, ac, l) => put_halted(text, cell, ac, l),
        RunLine::HaltedWithMq(cell, ac, l, mq) => {
            put_halted(text, cell, ac, l);
            put(text, b" MQ ");
            put(text, &mq.octal4());
        }
        RunLine::Unassigned(cell, word) => {
            put(text, b"UNASSIGNED ");
            put_cell(text, cell);
            put(text, b" ");
            put(text, &word.octal4());
        }
        RunLine::KeysEnd(cell) => {
            put(text, b"KEYS END ");
            put_cell(text, cell);
        }
        RunLine::Limit(cell) => {
            put(text, b"LIMIT ");
            put_cell(text, cell);
        }
        RunLine::Steps(ended, cell) => put_steps(text, ended, cell),
        RunLine::NoDevice(absence) => {
            put(text, b"note: no device ");
            put(text, &absence.word.octal4());
            put(text, b" at ");
            put_cell(text, absence.cell);
        }
    }
}

/// Puts where a machine halted, with its AC and L, into an empty line.
fn put_halted(text: &mut TextLine, cell: Cell, ac: Word, l: u8)
    requires { array_vec_len text.old ≡ 0 }
    ensures text { text.new.items ≡ text.old.items ++ halted_text cell ac l }
    ensures short { array_vec_len text.new ≤ 40 }
{
    put(text, b"HALT ");
    put_cell(text, cell);
    put(text, b" AC ");
    put(text, &ac.octal4());
    put(text, b" L ");
    put(text, &[b'0' + l % 8]);
}

/// Puts how far a machine went, and why no further, into an empty line.
fn put_steps(text: &mut TextLine, ended: Ended, cell: Cell)
    requires { array_vec_len text.old ≡ 0 }
    ensures text { text.new.items ≡ text.old.items ++ steps_text ended cell }
    ensures short { array_vec_len text.new ≤ 60 }
{
    put(text, b"STEPS ");
    put_number(text, ended.steps);
    put(text, b" ");
    put(text, word_of(ended.why));
    put(text, b" ");
    put_cell(text, cell);
}

/// The word for why a machine goes no further.
fn word_of(why: TerminalEnd) -> &'static [u8]
    ensures word { result.now ≡ why_text why }
    ensures short { length result.now ≤ 10 }
{
    match why {
        TerminalEnd::Halt => b"HALT",
        TerminalEnd::Unassigned => b"UNASSIGNED",
        TerminalEnd::Keys => b"KEYS",
        TerminalEnd::Limit => b"LIMIT",
    }
}

/// Puts a cell as its field and address in octal.
fn put_cell(text: &mut TextLine, cell: Cell)
    requires { array_vec_len text.old ≤ 40 }
    ensures text { text.new.items ≡ text.old.items ++ octal5 cell }
    ensures short { array_vec_len text.new ≡ array_vec_len text.old + 5 }
{
    put(text, &cell.octal5());
}

ghost use Rattle.std.specs.Prelude.{◌≡◌};
ghost use Rattle.script8.specs.Lines.{says, Parses, form_of, command_of, words_of, bare, with_word, with_words, whole as whole_of, bare_entry, entry_with_word, at_console, bare_console, console_with_word, console_with_words};

use crate::assembling::assemble;
use crate::operands::{character, name, number, setting, steps, within};
use crate::parts::first_part;
use crate::{ConsoleEntry, Entry, FileEntry, JobEntry, Line};
use refusals::SessionFault;
use std::alloc::Global;
use word12::{octal_cell, octal_word};

/// What a line of a script says (this project's profile). One CR at its end is dropped, and an empty line is nothing. A line
/// of none of the forms, or with a number out of its limits, is `BadLine`.
#[tactic(auto, unfolding(crate::specs::Lines::says))]
pub fn parse_line(alloc: Global, line: &[u8]) -> Result<Line, SessionFault>
    ensures { Parses (says line.now) result }
{
    let command = without_return(line);
    if command.is_empty() {
        return Ok(Line::Empty);
    }
    parse_words(alloc, command)
}

/// What a command says by the number of its words.
fn parse_words(alloc: Global, command: &[u8]) -> Result<Line, SessionFault>
    ensures { Parses (form_of (words_of command.now)) result }
{
    let (verb, is_last, rest) = first_part(command, b' ');
    if is_last {
        return parse_bare(verb);
    }
    let (first, is_last, rest) = first_part(rest, b' ');
    if is_last {
        return parse_with_word(alloc, verb, first);
    }
    let (second, is_last, _) = first_part(rest, b' ');
    if is_last {
        return parse_with_words(alloc, verb, first, second);
    }
    Err(SessionFault::BadLine)
}

/// What a command of one word says.
fn parse_bare(verb: &[u8]) -> Result<Line, SessionFault>
    ensures { result ≡ bare verb.now }
{
    if verb == b"FINISH".as_slice() {
        return Ok(Line::Finish);
    }
    whole(parse_bare_entry(verb))
}

/// What a command of two words says.
fn parse_with_word(alloc: Global, verb: &[u8], word: &[u8]) -> Result<Line, SessionFault>
    ensures { Parses (with_word verb.now word.now) result }
{
    if verb == b"DELETE".as_slice() {
        let name = name(alloc, word)?;
        return Ok(Line::Whole(Entry::Files(FileEntry::Delete { name })));
    }
    if verb == b"LOAD".as_slice() {
        let name = name(alloc, word)?;
        return Ok(Line::Whole(Entry::Jobs(JobEntry::Load { name })));
    }
    if verb == b"ASSEMBLE".as_slice() {
        return assemble(alloc, word);
    }
    whole(parse_entry_with_word(verb, word))
}

/// What a command of three words says.
fn parse_with_words(
    alloc: Global,
    verb: &[u8],
    first: &[u8],
    second: &[u8],
) -> Result<Line, SessionFault>
    ensures { Parses (with_words verb.now first.now second.now) result }
{
    if verb == b"STORE".as_slice() {
        let Some(lines) = within(number(second), 0, 999_999) else {
            return Err(SessionFault::BadLine);
        };
        let name = name(alloc, first)?;
        return Ok(Line::Store { name, lines });
    }
    whole(console(parse_console_with_words(verb, first, second)))
}

/// What a line of one entry says.
fn whole(entry: Option<Entry>) -> Result<Line, SessionFault>
    ensures { result ≡ whole_of entry }
{
    match entry {
        Some(entry) => Ok(Line::Whole(entry)),
        None => Err(SessionFault::BadLine),
    }
}

/// The entries of one word.
fn parse_bare_entry(verb: &[u8]) -> Option<Entry>
    ensures { result ≡ bare_entry verb.now }
{
    if verb == b"DIRECT".as_slice() {
        return Some(Entry::Files(FileEntry::Direct));
    }
    if verb == b"SQUEEZE".as_slice() {
        return Some(Entry::Jobs(JobEntry::Squeeze));
    }
    console(parse_bare_console(verb))
}

/// The entries of two words, but those with names.
fn parse_entry_with_word(verb: &[u8], word: &[u8]) -> Option<Entry>
    ensures { result ≡ entry_with_word verb.now word.now }
{
    if verb == b"TURN".as_slice() {
        return Some(Entry::Jobs(JobEntry::Turn(number(word)?)));
    }
    console(parse_console_with_word(verb, word))
}

/// An entry of the console.
fn console(entry: Option<ConsoleEntry>) -> Option<Entry>
    ensures { result ≡ at_console entry }
{
    Some(Entry::Console(entry?))
}

/// The entries of the console of one word.
fn parse_bare_console(verb: &[u8]) -> Option<ConsoleEntry>
    ensures { result ≡ bare_console verb.now }
{
    if verb == b"DONE".as_slice() {
        return Some(ConsoleEntry::Done);
    }
    if verb == b"REGISTERS".as_slice() {
        return Some(ConsoleEntry::Registers);
    }
    if verb == b"PRINTED".as_slice() {
        return Some(ConsoleEntry::Printed);
    }
    None
}

/// The entries of the console of two words.
fn parse_console_with_word(verb: &[u8], word: &[u8]) -> Option<ConsoleEntry>
    ensures { result ≡ console_with_word verb.now word.now }
{
    if verb == b"START".as_slice() {
        return Some(ConsoleEntry::Start(octal_cell(word)?));
    }
    if verb == b"STEP".as_slice() {
        return Some(ConsoleEntry::Step(steps(word)?));
    }
    if verb == b"GO".as_slice() {
        return Some(ConsoleEntry::Go(steps(word)?));
    }
    if verb == b"KEY".as_slice() {
        return Some(ConsoleEntry::Key(character(word)?));
    }
    if verb == b"SWITCHES".as_slice() {
        return Some(ConsoleEntry::Switches(octal_word(word)?));
    }
    if verb == b"EXAMINE".as_slice() {
        return Some(ConsoleEntry::Examine(octal_cell(word)?));
    }
    None
}

/// The entries of the console of three words.
fn parse_console_with_words(verb: &[u8], first: &[u8], second: &[u8]) -> Option<ConsoleEntry>
    ensures { result ≡ console_with_words verb.now first.now second.now }
{
    if verb == b"RUN".as_slice() {
        let cell = octal_cell(first)?;
        let steps = steps(second)?;
        return Some(ConsoleEntry::Run { cell, steps });
    }
    if verb == b"DEPOSIT".as_slice() {
        let cell = octal_cell(first)?;
        let word = octal_word(second)?;
        return Some(ConsoleEntry::Deposit { cell, word });
    }
    if verb == b"BREAK".as_slice() {
        let cell = octal_cell(first)?;
        let is_on = setting(second)?;
        return Some(ConsoleEntry::Break { cell, is_on });
    }
    None
}

/// A line without the one CR that may stand at its end.
fn without_return(line: &[u8]) -> &[u8]
    ensures { result.now ≡ command_of line.now }
{
    match line.strip_suffix(b"\r".as_slice()) {
        Some(prefix) => prefix,
        None => line,
    }
}

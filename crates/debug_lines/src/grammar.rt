//! What a command says by its words.
ghost use Rattle.std.specs.Prelude.{◌≡◌};
ghost use Rattle.debug_lines.specs.Grammar as spec;

use crate::cells::{cell_in, range_in};
use crate::numbers::{decimal_in, refusal_at, word_in};
use crate::operands::{form_in, quote_in, register_in, text_in};
use crate::parts::is_word;
use crate::{Command, Form, Part, Range, Reference, Refusal, Refused, Register, Verb};

/// That a word is missing at a place.
pub(crate) fn missing(place: usize) -> Refusal
    ensures { result ≡ spec.missing place }
{
    Refusal {
        why: Refused::MissingWord,
        place,
    }
}

/// The one word of some.
pub(crate) fn one_word(before: usize, words: &[Part]) -> Result<Part, Refusal>
    ensures { result ≡ spec.one_word before words.now }
{
    match words {
        [] => Err(missing(before)),
        [word] => Ok(*word),
        [_, other, ..] => Err(refusal_at(Refused::LeftOver, *other)),
    }
}

/// The one word of some, or none.
fn maybe_word(words: &[Part]) -> Result<Option<Part>, Refusal>
    ensures { result ≡ spec.maybe_word words.now }
{
    match words {
        [] => Ok(None),
        [word] => Ok(Some(*word)),
        [_, other, ..] => Err(refusal_at(Refused::LeftOver, *other)),
    }
}

/// A command that has no words.
fn alone(command: Command, words: &[Part]) -> Result<Command, Refusal>
    ensures { result ≡ spec.alone command words.now }
{
    match words {
        [] => Ok(command),
        [other, ..] => Err(refusal_at(Refused::LeftOver, *other)),
    }
}

/// The cell of one word.
fn one_cell(line: &[u8], before: usize, words: &[Part]) -> Result<Reference, Refusal>
    ensures { result ≡ spec.one_cell line.now before words.now }
{
    let word = one_word(before, words)?;
    cell_in(line, word)
}

/// The decimal number of one word.
pub(crate) fn one_number(line: &[u8], before: usize, words: &[Part]) -> Result<u64, Refusal>
    ensures { result ≡ spec.one_number line.now before words.now }
{
    let word = one_word(before, words)?;
    decimal_in(line, word)
}

/// The text of one word.
fn one_text(line: &[u8], before: usize, words: &[Part]) -> Result<Part, Refusal>
    ensures { result ≡ spec.one_text line.now before words.now }
{
    let word = one_word(before, words)?;
    text_in(line, word)
}

/// The quoted text of one word.
fn one_quote(line: &[u8], before: usize, words: &[Part]) -> Result<Part, Refusal>
    ensures { result ≡ spec.one_quote line.now before words.now }
{
    let word = one_word(before, words)?;
    quote_in(line, word)
}

/// The decimal number of one word, or of none.
fn maybe_number(line: &[u8], words: &[Part]) -> Result<Option<u64>, Refusal>
    ensures { result ≡ spec.maybe_number line.now words.now }
{
    match maybe_word(words)? {
        None => Ok(None),
        Some(word) => {
            let number = decimal_in(line, word)?;
            Ok(Some(number))
        }
    }
}

/// The text of one word, or of none.
fn maybe_text(line: &[u8], words: &[Part]) -> Result<Option<Part>, Refusal>
    ensures { result ≡ spec.maybe_text line.now words.now }
{
    match maybe_word(words)? {
        None => Ok(None),
        Some(word) => {
            let text = text_in(line, word)?;
            Ok(Some(text))
        }
    }
}

/// The range of one word, or of none.
fn maybe_range(line: &[u8], words: &[Part]) -> Result<Option<Range>, Refusal>
    ensures { result ≡ spec.maybe_range line.now words.now }
{
    match maybe_word(words)? {
        None => Ok(None),
        Some(word) => {
            let range = range_in(line, word)?;
            Ok(Some(range))
        }
    }
}

/// An `examine`: a range, and then nothing, or `as` and a form.
fn examine_of(line: &[u8], before: usize, words: &[Part]) -> Result<Command, Refusal>
    ensures { result ≡ spec.examine_of line.now before words.now }
{
    match words {
        [] => Err(missing(before)),
        [word, others @ ..] => {
            let range = range_in(line, *word)?;
            let form = as_form(line, others)?;
            Ok(Command::Examine { range, form })
        }
    }
}

/// Nothing, or `as` and a form.
fn as_form(line: &[u8], words: &[Part]) -> Result<Option<Form>, Refusal>
    ensures { result ≡ spec.as_form line.now words.now }
{
    match words {
        [] => Ok(None),
        [word, others @ ..] => {
            if !is_word(line, *word, b"as") {
                return Err(refusal_at(Refused::LeftOver, *word));
            }
            let name = one_word(word.end, others)?;
            let form = form_in(line, name)?;
            Ok(Some(form))
        }
    }
}

/// A `set`: a register, `=`, and a word.
fn set_of(line: &[u8], before: usize, words: &[Part]) -> Result<Command, Refusal>
    ensures { result ≡ spec.set_of line.now before words.now }
{
    match words {
        [] => Err(missing(before)),
        [word, others @ ..] => {
            let register = register_in(line, *word)?;
            set_to(line, register, word.end, others)
        }
    }
}

/// A `set` of a register to what stands after `=`.
fn set_to(
    line: &[u8],
    register: Register,
    before: usize,
    words: &[Part],
) -> Result<Command, Refusal>
    ensures { result ≡ spec.set_to line.now register before words.now }
{
    match words {
        [] => Err(missing(before)),
        [sign, others @ ..] => {
            if !is_word(line, *sign, b"=") {
                return Err(refusal_at(Refused::NotComparison, *sign));
            }
            let number = one_word(sign.end, others)?;
            let word = word_in(line, number)?;
            Ok(Command::Set { register, word })
        }
    }
}

/// A `deposit`: a cell, and the rest of the line, in which something stands.
pub(crate) fn deposit_of(line: &[u8], before: usize, words: &[Part]) -> Result<Command, Refusal>
    ensures { result ≡ spec.deposit_of line.now before words.now }
{
    match words {
        [] => Err(missing(before)),
        [word, others @ ..] => {
            let cell = cell_in(line, *word)?;
            let rest = rest_of(line, word.end, others)?;
            Ok(Command::Deposit { cell, rest })
        }
    }
}

/// The rest of a line from the first of some words on.
fn rest_of(line: &[u8], before: usize, words: &[Part]) -> Result<Part, Refusal>
    ensures { result ≡ spec.rest_of line.now before words.now }
{
    match words {
        [] => Err(missing(before)),
        [word, ..] => Ok(Part {
            start: word.start,
            end: line.len(),
        }),
    }
}

/// A `trace`: `off`, or a file.
fn trace_of(line: &[u8], before: usize, words: &[Part]) -> Result<Command, Refusal>
    ensures { result ≡ spec.trace_of line.now before words.now }
{
    let word = one_word(before, words)?;
    if is_word(line, word, b"off") {
        return Ok(Command::Trace(None));
    }
    let file = text_in(line, word)?;
    Ok(Command::Trace(Some(file)))
}

/// What a command says by its words, but for `break`. One that is missing is missed after the command itself.
pub(crate) fn simple_command(
    line: &[u8],
    verb: Verb,
    before: usize,
    words: &[Part],
) -> Result<Command, Refusal>
    ensures { result ≡ spec.simple_command line.now verb before words.now }
{
    match verb {
        Verb::Help => Ok(Command::Help(maybe_text(line, words)?)),
        Verb::Examine => examine_of(line, before, words),
        Verb::List => Ok(Command::List(maybe_range(line, words)?)),
        Verb::Registers => alone(Command::Registers, words),
        Verb::Where => alone(Command::Where, words),
        Verb::Symbols => Ok(Command::Symbols(maybe_text(line, words)?)),
        Verb::Who => Ok(Command::Who(one_cell(line, before, words)?)),
        Verb::Deposit => deposit_of(line, before, words),
        Verb::Set => set_of(line, before, words),
        Verb::Key => Ok(Command::Key(one_quote(line, before, words)?)),
        Verb::Step => Ok(Command::Step(maybe_number(line, words)?)),
        Verb::Next => Ok(Command::Next(maybe_number(line, words)?)),
        Verb::Finish => alone(Command::Finish, words),
        Verb::Continue => alone(Command::Continue, words),
        Verb::Until => Ok(Command::Until(one_cell(line, before, words)?)),
        Verb::Break => Err(missing(before)),
        Verb::Breaks => alone(Command::Breaks, words),
        Verb::Unbreak => Ok(Command::Unbreak(maybe_number(line, words)?)),
        Verb::Back => Ok(Command::Back(maybe_number(line, words)?)),
        Verb::ReverseContinue => alone(Command::ReverseContinue, words),
        Verb::ReverseNext => alone(Command::ReverseNext, words),
        Verb::ReverseFinish => alone(Command::ReverseFinish, words),
        Verb::Goto => Ok(Command::Goto(one_number(line, before, words)?)),
        Verb::LastWrite => Ok(Command::LastWrite(one_cell(line, before, words)?)),
        Verb::Save => Ok(Command::Save(one_text(line, before, words)?)),
        Verb::Trace => trace_of(line, before, words),
        Verb::Quit => alone(Command::Quit, words),
    }
}

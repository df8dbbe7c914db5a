//! What stands after a command: quoted texts, registers, forms, classes and comparisons.
ghost use Rattle.std.specs.Prelude.{◌≡◌, position};
ghost use Rattle.debug_lines.specs.Operands as spec;

use crate::cells::cell_in;
use crate::numbers::{refusal_at, word_in};
use crate::parts::{first_bytes, following_bytes, is_word};
use crate::words::is_quote;
use crate::{Class, Comparison, Form, Part, Refusal, Refused, Register, Sign, Subject, text_of};

/// A text: a word, or what stands between quotes.
pub(crate) fn text_in(line: &[u8], part: Part) -> Result<Part, Refusal>
    ensures { result ≡ spec.text_in line.now part }
{
    if is_quoted(line, part) {
        quote_in(line, part)
    } else {
        Ok(part)
    }
}

/// Whether a word begins with a quote.
pub(crate) fn is_quoted(line: &[u8], part: Part) -> bool
    ensures { result ≡ spec.is_quoted line.now part }
{
    match text_of(line, part) {
        [] => false,
        [first, ..] => is_quote(*first),
    }
}

/// What stands between quotes.
pub(crate) fn quote_in(line: &[u8], part: Part) -> Result<Part, Refusal>
    ensures { result ≡ spec.quote_in line.now part }
{
    match text_of(line, part) {
        [] => Err(refusal_at(Refused::NotQuoted, part)),
        [first, following @ ..] => {
            if is_quote(*first) {
                until_close(part, quote_place(following, *first))
            } else {
                Err(refusal_at(Refused::NotQuoted, part))
            }
        }
    }
}

/// What stands in a quote before its end, which has this place after the first byte.
fn until_close(part: Part, end: Option<usize>) -> Result<Part, Refusal>
    ensures { result ≡ spec.until_close part end }
{
    match end {
        None => Err(refusal_at(Refused::UnclosedQuote, part)),
        Some(end) => Ok(first_bytes(following_bytes(part, 1), end)),
    }
}

/// The place of the first sign of a quote in a text.
fn quote_place(text: &[u8], quote: u8) -> Option<usize>
    ensures { result ≡ position (spec.is_byte quote) text.now }
{
    text.iter().position(|byte| *byte == quote)
}

/// One character between quotes.
pub(crate) fn character_in(line: &[u8], part: Part) -> Result<Part, Refusal>
    ensures { result ≡ spec.character_in line.now part }
{
    let inside = quote_in(line, part)?;
    match text_of(line, inside) {
        [_] => Ok(inside),
        _ => Err(refusal_at(Refused::NotQuoted, part)),
    }
}

/// A register by its name.
pub(crate) fn register_in(line: &[u8], part: Part) -> Result<Register, Refusal>
    ensures { result ≡ spec.register_in line.now part }
{
    match register_of(text_of(line, part)) {
        Some(register) => Ok(register),
        None => Err(refusal_at(Refused::NotName, part)),
    }
}

/// The register of a name.
fn register_of(name: &[u8]) -> Option<Register>
    ensures { result ≡ spec.register_of name.now }
{
    if name == b"ac".as_slice() {
        Some(Register::Accumulator)
    } else if name == b"l".as_slice() {
        Some(Register::Link)
    } else if name == b"mq".as_slice() {
        Some(Register::Quotient)
    } else if name == b"pc".as_slice() {
        Some(Register::Counter)
    } else if name == b"sr".as_slice() {
        Some(Register::Switches)
    } else if name == b"if".as_slice() {
        Some(Register::InstructionField)
    } else if name == b"df".as_slice() {
        Some(Register::DataField)
    } else {
        None
    }
}

/// A form by its name.
pub(crate) fn form_in(line: &[u8], part: Part) -> Result<Form, Refusal>
    ensures { result ≡ spec.form_in line.now part }
{
    match form_of(text_of(line, part)) {
        Some(form) => Ok(form),
        None => Err(refusal_at(Refused::NotName, part)),
    }
}

/// The form of a name.
fn form_of(name: &[u8]) -> Option<Form>
    ensures { result ≡ spec.form_of name.now }
{
    if name == b"octal".as_slice() {
        Some(Form::Octal)
    } else if name == b"instruction".as_slice() {
        Some(Form::Instruction)
    } else if name == b"character".as_slice() {
        Some(Form::Character)
    } else if name == b"sixbit".as_slice() {
        Some(Form::Sixbit)
    } else if name == b"text".as_slice() {
        Some(Form::Text)
    } else {
        None
    }
}

/// The class of instructions of a name.
pub(crate) fn class_of(name: &[u8]) -> Option<Class>
    ensures { result ≡ spec.class_of name.now }
{
    if name == b"iot".as_slice() {
        Some(Class::Transfer)
    } else if name == b"jms".as_slice() {
        Some(Class::Call)
    } else if name == b"jmp".as_slice() {
        Some(Class::Jump)
    } else if name == b"hlt".as_slice() {
        Some(Class::Halt)
    } else if name == b"opr".as_slice() {
        Some(Class::Operate)
    } else if name == b"ref".as_slice() {
        Some(Class::MemoryReference)
    } else {
        None
    }
}

/// A comparison: a register or a cell in brackets, a sign, and a word.
pub(crate) fn comparison_in(
    line: &[u8],
    subject: Part,
    sign: Part,
    word: Part,
) -> Result<Comparison, Refusal>
    ensures { result ≡ spec.comparison_in line.now subject sign word }
{
    let subject = subject_in(line, subject)?;
    let sign = sign_in(line, sign)?;
    let word = word_in(line, word)?;
    Ok(Comparison {
        subject,
        sign,
        word,
    })
}

/// What is compared: a register, or a cell in brackets.
fn subject_in(line: &[u8], part: Part) -> Result<Subject, Refusal>
    ensures { result ≡ spec.subject_in line.now part }
{
    match text_of(line, part) {
        [b'[', following @ ..] => bracketed_cell(line, part, bracket_in(following)),
        name => match register_of(name) {
            Some(register) => Ok(Subject::Register(register)),
            None => Err(refusal_at(Refused::NotComparison, part)),
        },
    }
}

/// The cell in brackets, of which the second has this place after the first and is the last byte.
fn bracketed_cell(line: &[u8], part: Part, end: Option<usize>) -> Result<Subject, Refusal>
    ensures { result ≡ spec.bracketed_cell line.now part end }
{
    match end {
        None => Err(refusal_at(Refused::NotComparison, part)),
        Some(end) => {
            let cell = cell_in(line, first_bytes(following_bytes(part, 1), end))?;
            Ok(Subject::Cell(cell))
        }
    }
}

/// The place of the bracket that is a text's last byte.
fn bracket_in(text: &[u8]) -> Option<usize>
    ensures { result ≡ spec.bracket_in text.now }
{
    match quote_place(text, b']') {
        Some(place) if text.len() - place == 1 => Some(place),
        _ => None,
    }
}

/// How a subject is compared.
fn sign_in(line: &[u8], part: Part) -> Result<Sign, Refusal>
    ensures { result ≡ spec.sign_in line.now part }
{
    if is_word(line, part, b"=") {
        Ok(Sign::Equal)
    } else if is_word(line, part, b"#") {
        Ok(Sign::Unequal)
    } else if is_word(line, part, b"<") {
        Ok(Sign::Less)
    } else if is_word(line, part, b">") {
        Ok(Sign::Greater)
    } else {
        Err(refusal_at(Refused::NotComparison, part))
    }
}

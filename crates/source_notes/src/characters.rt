//! The characters of data.

ghost use Rattle.std.specs.Prelude.{◌≡◌, ℕ, ◌+◌, ◌*◌, ◌/◌, ◌%◌, ◌<◌, ◌≤◌, ◌++◌, OnOk, length};
ghost use Rattle.word12.specs.declared.sizes.TheConstants.{CORE, FIELD};
ghost use Rattle.flow8.specs.Flow.{word_in};
ghost use Rattle.source_notes.specs.Characters.{are_alike, ascii_text, ascii_unit, characters, data_of, in_run, is_ascii, is_graphic, is_sixbit, is_text, packed_text, packed_unit, with_quotes, sixbit_graphic, sixbit_text, sixbit_unit, third, three_from, unit_at, words_of};
ghost use Rattle.source_notes.specs.Notes.{is_flagged};

use std::alloc::AllocError;
use word12::{Cell, FIELD, Word};

/// How words hold characters.
#[derive(Clone, Copy)]
pub(crate) enum Form {
    /// One of eight bits in a word.
    Ascii,
    /// Three of eight bits in two words, the first of them at an even address (OS/8 Software Support Manual).
    Packed,
    /// Two of six bits in a word.
    Sixbit,
}

/// Appends the characters of a datum, if it is text.
pub(crate) fn put_characters(
    text: &mut Vec<u8>,
    words: &[Option<Word>],
    code: &[bool],
    cell: Cell,
) -> Result<(), AllocError>
    requires words { length words.now ≡ CORE }
    requires code { length code.now ≡ CORE }
    ensures { OnOk result (text.new.items ≡ text.old.items
        ++ characters (data_of (word_in words.now) (is_flagged code.now)) cell) }
{
    let at = cell.index();
    if is_text(words, code, Form::Ascii, at) {
        return put_ascii(text, datum(words, code, at));
    }
    if at % 2 == 0 && is_text(words, code, Form::Packed, at) {
        return put_packed(text, datum(words, code, at), datum(words, code, at + 1));
    }
    if at % 2 == 1 && is_text(words, code, Form::Packed, at - 1) {
        return Ok(());
    }
    if is_text(words, code, Form::Sixbit, at) {
        return put_sixbit(text, datum(words, code, at));
    }
    Ok(())
}

/// Whether the unit that begins at a place is one of three in a run.
#[tactic(auto, unfolding(crate::specs::Characters::is_text))]
fn is_text(words: &[Option<Word>], code: &[bool], form: Form, at: usize) -> bool
    requires words { length words.now ≡ CORE }
    requires code { length code.now ≡ CORE }
    requires at { at < CORE }
    ensures { result ≡ is_text form (data_of (word_in words.now) (is_flagged code.now)) at }
{
    let size = words_of(form);
    let address = at % FIELD;
    is_first_of_three(words, code, form, at)
        || ((size <= address && is_first_of_three(words, code, form, at - size))
            || (2 * size <= address && is_first_of_three(words, code, form, at - 2 * size)))
}

/// Whether three units follow one another from a place on, in one field.
fn is_first_of_three(words: &[Option<Word>], code: &[bool], form: Form, at: usize) -> bool
    requires words { length words.now ≡ CORE }
    requires code { length code.now ≡ CORE }
    requires at { at < CORE }
    ensures { result ≡ three_from (unit_at form (data_of (word_in words.now) (is_flagged code.now)))
        (words_of form) at }
{
    let size = words_of(form);
    at % FIELD + 2 * size < FIELD
        && (is_unit(words, code, form, at)
            && (is_unit(words, code, form, at + size) && is_unit(words, code, form, at + 2 * size)))
}

/// The words of a unit.
fn words_of(form: Form) -> usize
    ensures value { result ≡ words_of form }
    ensures range { result ≤ 2 }
{
    match form {
        Form::Packed => 2,
        _ => 1,
    }
}

/// Whether the words from a place on are a unit of characters.
fn is_unit(words: &[Option<Word>], code: &[bool], form: Form, at: usize) -> bool
    requires words { length words.now ≡ CORE }
    requires code { length code.now ≡ CORE }
    requires at { at < CORE }
    ensures { result ≡ unit_at form (data_of (word_in words.now) (is_flagged code.now)) at }
{
    let word = datum(words, code, at);
    match form {
        Form::Ascii => is_ascii_unit(word),
        Form::Packed => is_packed_unit(word, datum(words, code, at + 1)),
        Form::Sixbit => is_sixbit_unit(word),
    }
}

/// The word at a place, if it is data: none beyond the last cell.
fn datum(words: &[Option<Word>], code: &[bool], at: usize) -> Option<Word>
    requires words { length words.now ≡ CORE }
    requires code { length code.now ≡ CORE }
    ensures { result ≡ data_of (word_in words.now) (is_flagged code.now) at }
{
    if at >= words.len() || code[at] {
        return None;
    }
    words[at]
}

fn is_ascii_unit(word: Option<Word>) -> bool
    ensures { result ≡ ascii_unit word }
{
    match word {
        Some(word) => is_ascii(word.get()),
        None => false,
    }
}

fn is_packed_unit(first: Option<Word>, second: Option<Word>) -> bool
    ensures { result ≡ packed_unit first second }
{
    let Some(first) = first else {
        return false;
    };
    let Some(second) = second else {
        return false;
    };
    are_alike(
        first.get() % 0o400,
        second.get() % 0o400,
        third(first, second),
    )
}

/// Whether three characters are graphic, and all have the top bit or none has it.
fn are_alike(first: u16, second: u16, third: u16) -> bool
    ensures { result ≡ are_alike first second third }
{
    (is_graphic(first) && (is_graphic(second) && is_graphic(third)))
        && (first / 0o200 == second / 0o200 && second / 0o200 == third / 0o200)
}

fn is_sixbit_unit(word: Option<Word>) -> bool
    ensures { result ≡ sixbit_unit word }
{
    match word {
        Some(word) => is_sixbit(word.get() / 0o100) && is_sixbit(word.get() % 0o100),
        None => false,
    }
}

/// Whether a character is graphic, with the top bit or without.
fn is_graphic(byte: u16) -> bool
    ensures { result ≡ is_graphic byte }
{
    0o40 <= byte % 0o200 && byte % 0o200 < 0o177
}

/// Whether a number is a graphic character of eight bits.
fn is_ascii(byte: u16) -> bool
    ensures { result ≡ is_ascii byte }
{
    byte < 0o400 && is_graphic(byte)
}

/// Whether a six-bit character is one that text has: a letter, a digit, a blank, or one of `,` `-` `.` `?` `!`.
fn is_sixbit(code: u16) -> bool
    ensures { result ≡ is_sixbit code }
{
    match code {
        0o01..=0o32 | 0o60..=0o71 | 0o40 | 0o54 | 0o55 | 0o56 | 0o77 | 0o41 => true,
        _ => false,
    }
}

/// The third character of a pair: four bits of each word (OS/8 Software Support Manual).
fn third(first: Word, second: Word) -> u16
    ensures { result ≡ third first second }
{
    0o20 * (first.get() / 0o400) + second.get() / 0o400
}

/// A six-bit character in ASCII.
fn sixbit_graphic(code: u16) -> u8
    requires { code < 0o100 }
    ensures { result ≡ sixbit_graphic code }
{
    if code < 0o40 {
        (code + 0o100) as u8
    } else {
        code as u8
    }
}

fn put_ascii(text: &mut Vec<u8>, word: Option<Word>) -> Result<(), AllocError>
    ensures { OnOk result (text.new.items ≡ text.old.items ++ ascii_text word) }
{
    if let Some(word) = word {
        put_quoted(text, &[(word.get() % 0o200) as u8])?;
    }
    Ok(())
}

fn put_packed(
    text: &mut Vec<u8>,
    first: Option<Word>,
    second: Option<Word>,
) -> Result<(), AllocError>
    ensures { OnOk result (text.new.items ≡ text.old.items ++ packed_text first second) }
{
    let Some(first) = first else {
        return Ok(());
    };
    let Some(second) = second else {
        return Ok(());
    };
    let characters = [
        (first.get() % 0o200) as u8,
        (second.get() % 0o200) as u8,
        (third(first, second) % 0o200) as u8,
    ];
    put_quoted(text, &characters)
}

fn put_sixbit(text: &mut Vec<u8>, word: Option<Word>) -> Result<(), AllocError>
    ensures { OnOk result (text.new.items ≡ text.old.items ++ sixbit_text word) }
{
    if let Some(word) = word {
        let first = sixbit_graphic(word.get() / 0o100);
        let second = sixbit_graphic(word.get() % 0o100);
        put_quoted(text, &[first, second])?;
    }
    Ok(())
}

/// Appends characters between quotes, after a blank.
fn put_quoted(text: &mut Vec<u8>, characters: &[u8]) -> Result<(), AllocError>
    ensures { OnOk result (text.new.items ≡ text.old.items ++ with_quotes characters.now) }
{
    text.extend_from_slice(b" '")?;
    text.extend_from_slice(characters)?;
    text.push(b'\'')?;
    Ok(())
}

//! The words of the command line. One that is no UTF-8 text can name no file, since the runtime opens a file by a path of text alone.
ghost use Rattle.std.specs.Prelude.{◌≡◌, ◌++◌, [], ◌∷◌, IfOk, OnOk, map};
ghost use Rattle.program.specs.Steps.{GetsWord, TakesWord};
ghost use Rattle.program.specs.GivenWords.{GetsWords, RefusesWord, ShowsWord, argument_line};

use hosts::Host;
use image_files::{tell_line, tell_note};
use outcome::{Ending, Note, PlainNote};
use std::alloc::{AllocError, Global};
use volume_index::put_quoted;

/// The words that the program was started with, its own name first. A note is printed of one that is no UTF-8 text, and the command ends then.
pub(crate) fn words_of<H: Host>(host: &mut H, alloc: Global) -> Result<Vec<String>, Ending>
    ensures { GetsWords (H.history host.old) result (H.history host.new) }
{
    let mut words: Vec<String> = Vec::new(alloc);
    while let Some(word) = next_word(host, alloc, words.len())? {
        add_word(&mut words, word)?;
    }
    Ok(words)
}

/// Adds a word after others.
fn add_word(words: &mut Vec<String>, word: String) -> Result<(), AllocError>
    ensures { OnOk result (words.new.items ≡ words.old.items ++ word ∷ []) }
{
    words.push(word)?;
    Ok(())
}

/// The word at a place, or none after the last one.
fn next_word<H: Host>(host: &mut H, alloc: Global, place: usize) -> Result<Option<String>, Ending>
    ensures { GetsWord place (H.history host.old) result (H.history host.new) }
{
    match host.word(alloc, place)? {
        Some(bytes) => take_word(host, alloc, place, &bytes),
        None => Ok(None),
    }
}

/// The text of a word that has these bytes. Where it is none that is printed.
fn take_word<H: Host>(
    host: &mut H,
    alloc: Global,
    place: usize,
    bytes: &[u8],
) -> Result<Option<String>, Ending>
    ensures { TakesWord place bytes.now (H.history host.old) result (H.history host.new) }
{
    match str::from_utf8(bytes) {
        Ok(text) => {
            let word = String::from_str(alloc, text)?;
            Ok(Some(word))
        }
        Err(_) => Err(refuse_word(host, alloc, place, bytes)),
    }
}

/// Prints that a word is no text, with its place and its bytes. How the command ends then.
fn refuse_word<H: Host>(host: &mut H, alloc: Global, place: usize, bytes: &[u8]) -> Ending
    ensures { RefusesWord place bytes.now (H.history host.old) result (H.history host.new) }
{
    match tell_note(host, alloc, Note::Plain(PlainNote::NoText)) {
        Ok(()) => show_word(host, alloc, place, bytes),
        Err(error) => Ending::from(error),
    }
}

/// Prints the place and the bytes of a word that is no text. How the command ends then.
fn show_word<H: Host>(host: &mut H, alloc: Global, place: usize, bytes: &[u8]) -> Ending
    ensures { ShowsWord place bytes.now (H.history host.old) result (H.history host.new) }
{
    match argument_line(alloc, place, bytes) {
        Ok(line) => {
            tell_line(host, &line);
            Ending::Misuse
        }
        Err(error) => Ending::from(error),
    }
}

/// The line with the place of an argument and its bytes, quoted as a shell reads them.
fn argument_line(alloc: Global, place: usize, argument: &[u8]) -> Result<Vec<u8>, AllocError>
    ensures { IfOk result (λ line. line.items ≡ argument_line place argument.now) }
{
    let number = format!(in alloc; "note: argument {place} is ")?;
    let mut line = Vec::new(alloc);
    line.extend_from_slice(number.as_bytes())?;
    put_quoted(&mut line, argument)?;
    line.extend_from_slice(b": a file is opened by a name of UTF-8 text alone\n")?;
    Ok(line)
}

/// The texts of these words.
pub(crate) fn texts_of(alloc: Global, words: &[String]) -> Result<Vec<&str>, AllocError>
    ensures { IfOk result (λ texts. map (λ text. text.now) texts.items ≡ map (λ word. word.bytes.items) words.now) }
{
    let mut texts: Vec<&str> = Vec::new(alloc);
    for word in words {
        texts.push(word.as_str())?;
    }
    Ok(texts)
}

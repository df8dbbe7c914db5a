//! Why words of a command line ask for nothing, as it is printed.

use clap::Error;
use command_line::task;
use command_refusals::{Refusal, TaskFault};
use shown_text::ShownText;
use std::alloc::{AllocError, Global};

/// Why these words ask for nothing, as it is printed. It is what is said of the words as they are shown, so no word that it repeats has
/// anything but graphic characters and blanks.
pub(crate) fn refused_text(
    alloc: Global,
    words: &[&str],
    fault: &TaskFault,
) -> Result<String, AllocError> {
    let shown = shown_words(alloc, words)?;
    let texts = texts_of(alloc, &shown)?;
    match task(alloc, &texts) {
        Ok(_) => line_of(alloc, fault),
        Err(again) => text_of(alloc, &again),
    }
}

/// Words as they are shown.
fn shown_words(alloc: Global, words: &[&str]) -> Result<Vec<String>, AllocError> {
    let mut shown: Vec<String> = Vec::new(alloc);
    for word in words {
        let text = shown_word(alloc, *word)?;
        shown.push(text)?;
    }
    Ok(shown)
}

/// A word as it is shown.
fn shown_word(alloc: Global, text: &str) -> Result<String, AllocError> {
    let word = ShownText { text };
    let text = format!(in alloc; "{word}")?;
    Ok(text)
}

/// The texts of words.
fn texts_of(alloc: Global, words: &[String]) -> Result<Vec<&str>, AllocError> {
    let mut texts: Vec<&str> = Vec::new(alloc);
    for word in words {
        texts.push(word.as_str())?;
    }
    Ok(texts)
}

/// What is said of a fault, as one line that is shown.
fn line_of(alloc: Global, fault: &TaskFault) -> Result<String, AllocError> {
    let said = text_of(alloc, fault)?;
    let line = ShownText {
        text: said.as_str(),
    };
    let text = format!(in alloc; "{line}\n")?;
    Ok(text)
}

/// What is said of a fault.
fn text_of(alloc: Global, fault: &TaskFault) -> Result<String, AllocError> {
    match fault {
        TaskFault::Memory => Err(AllocError),
        TaskFault::Words(error) => error_text(alloc, error),
        TaskFault::Refused(usage, refusal) => refusal_text(alloc, usage, refusal),
    }
}

/// The text of an error of `clap`.
fn error_text(alloc: Global, error: &Error) -> Result<String, AllocError> {
    let text = format!(in alloc; "{error}")?;
    Ok(text)
}

/// Why words that `clap` takes are refused, as it says it of those that it refuses itself.
fn refusal_text(alloc: Global, usage: &str, refusal: &Refusal) -> Result<String, AllocError> {
    let text = format!(in alloc;
        "error: {refusal}\n\n{usage}\n\nFor more information, try '--help'.\n"
    )?;
    Ok(text)
}

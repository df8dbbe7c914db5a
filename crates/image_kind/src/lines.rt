//! The lines that say what was done to an image file.
ghost use Rattle.std.specs.Prelude.{◌≡◌, ◌++◌, IfOk, OnOk};
ghost use Rattle.image_kind.specs.Lines as spec;

use crate::mending::{MendedFile, WideWord};
use shown_text::ShownText;
use std::alloc::{AllocError, Global};
use word12::Word;

/// Of so many words a line each is printed, and of more their count.
pub const MOST_LINES: usize = 16;

/// The lines that say what was done to the image file of this name. There is one for each of the first 16 words of which the top bits were
/// taken off, and one for the count of the others. Then come the bytes that were added or cut. Of a file without faults there is none.
/// The name is shown with escapes where it isn't graphic.
pub fn mended_text(alloc: Global, name: &str, it: &MendedFile) -> Result<String, AllocError>
    ensures { IfOk result (λ text. text.bytes.items ≡ spec.mended_lines name.now it.now) }
{
    let name = ShownText { text: name };
    let shown = format!(in alloc; "{name}")?;
    lines_by(alloc, shown.as_str(), it)
}

/// The lines, by the name as it is shown.
fn lines_by(alloc: Global, name: &str, it: &MendedFile) -> Result<String, AllocError>
    ensures { IfOk result (λ text. text.bytes.items ≡ spec.lines_by name.now it.now) }
{
    let mut text = String::new(alloc);
    let first = &it.wide[..it.wide.len().min(MOST_LINES)];
    put_words(alloc, &mut text, name, first)?;
    put_counts(alloc, &mut text, name, it)?;
    Ok(text)
}

/// Appends the lines of words.
fn put_words(
    alloc: Global,
    text: &mut String,
    name: &str,
    words: &[WideWord],
) -> Result<(), AllocError>
    ensures { OnOk result (text.new.bytes.items ≡ text.old.bytes.items ++ spec.word_lines name.now words.now) }
{
    let mut rest = words;
    while let [word, others @ ..] = rest {
        put_word(alloc, text, name, *word)?;
        rest = others;
    }
    Ok(())
}

/// Appends the line of a word.
fn put_word(alloc: Global, text: &mut String, name: &str, it: WideWord) -> Result<(), AllocError>
    ensures { OnOk result (text.new.bytes.items ≡ text.old.bytes.items ++ spec.word_line name.now it) }
{
    let line = word_line(alloc, name, it)?;
    text.push_str(line.as_str())
}

/// The line of a word.
fn word_line(alloc: Global, name: &str, it: WideWord) -> Result<String, AllocError>
    ensures { IfOk result (λ line. line.bytes.items ≡ spec.word_line name.now it) }
{
    let top = it.bits / 0o100000;
    let next = it.bits / 0o10000 % 8;
    let line = line_of(
        alloc,
        name,
        it.block,
        it.word,
        top,
        next,
        Word::low(it.bits),
    )?;
    Ok(line)
}

/// The line of a word by its place, its top bit, the three after that, and the others.
fn line_of(
    alloc: Global,
    name: &str,
    block: usize,
    word: usize,
    top: u16,
    next: u16,
    low: Word,
) -> Result<String, AllocError>
    ensures { IfOk result (λ line. line.bytes.items ≡ spec.line_of name.now block word top next low) }
{
    let mut line = place_text(alloc, name, block, word)?;
    let bits = bits_text(alloc, top, next, low)?;
    line.push_str(bits.as_str())?;
    Ok(line)
}

/// Where a word of the file of this name is.
fn place_text(alloc: Global, name: &str, block: usize, word: usize) -> Result<String, AllocError>
    ensures { IfOk result (λ text. text.bytes.items ≡ spec.place_text name.now block word) }
{
    let text = format!(in alloc; "note: {name}: block {block}, word {word} is ")?;
    Ok(text)
}

/// The bits of a word, and what is read in their place.
fn bits_text(alloc: Global, top: u16, next: u16, low: Word) -> Result<String, AllocError>
    ensures { IfOk result (λ text. text.bytes.items ≡ spec.bits_text top next low) }
{
    let text = format!(in alloc; "{top}{next}{low}, read as {low}\n")?;
    Ok(text)
}

/// Appends the counts of further words, and of bytes that were added or cut.
fn put_counts(
    alloc: Global,
    text: &mut String,
    name: &str,
    it: &MendedFile,
) -> Result<(), AllocError>
    ensures { OnOk result (text.new.bytes.items ≡ text.old.bytes.items ++ spec.count_lines name.now it.now) }
{
    let further = it.wide.len().saturating_sub(MOST_LINES);
    put_count(
        alloc,
        text,
        name,
        ": further words of more than 12 bits, read without the top ones: ",
        further,
    )?;
    put_count(
        alloc,
        text,
        name,
        ": bytes of zeros added at the end: ",
        it.zeros,
    )?;
    put_count(alloc, text, name, ": bytes cut from the end: ", it.cut)?;
    Ok(())
}

/// Appends a line with a number, unless it is 0.
fn put_count(
    alloc: Global,
    text: &mut String,
    name: &str,
    what: &str,
    number: usize,
) -> Result<(), AllocError>
    ensures { OnOk result (text.new.bytes.items ≡ text.old.bytes.items ++ spec.count_line name.now what.now number) }
{
    if number == 0 {
        return Ok(());
    }
    let line = format!(in alloc; "note: {name}{what}{number}\n")?;
    text.push_str(line.as_str())
}

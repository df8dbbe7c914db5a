//! Dates that a volume shows as those of other years.
ghost use Rattle.std.specs.Prelude.{◌≡◌, ◌≤◌, ◌++◌, codes, decimal, IfOk};
ghost use Rattle.os8_dates.specs.Spelling.{or_octal};
ghost use Rattle.os8_dates.specs.declared.years.TheConstants.{LAST_YEAR, LEAST_LAST};
ghost use Rattle.image_files.specs.Years as spec;
ghost use Rattle.image_files.specs.Years.{NotesFiles, NotesGiven, NotesYear, TellsDate, TellsFiles, TellsHint, TellsShown, TellsUnless};

use crate::answers::open_volume;
use crate::notes::tell_note;
use archive_many::NewFile;
use hosts::Host;
use os8_dates::{Date, LAST_YEAR, LEAST_LAST, date_of, last_year};
use outcome::{Ending, NameNote, Note};
use std::alloc::{AllocError, Global};
use word12::Word;

/// Prints how a date of a year that is given will be shown, where the volume in an image shows it as that of another. Where no date or no year is
/// given, the volume is not read.
pub fn note_year<H: Host>(
    host: &mut H,
    alloc: Global,
    image: &[u8],
    info: &[Word],
    year: Option<usize>,
) -> Result<(), Ending>
    ensures { NotesYear image.now info.now year (H.history host.old) result (H.history host.new) }
{
    match info {
        [] => Ok(()),
        [word, ..] => match year {
            None => Ok(()),
            Some(year) => note_given(host, alloc, image, *word, last_for(year)),
        },
    }
}

/// Prints how each date of these files will be shown that the volume in an image shows as one of another year.
pub fn note_files<H: Host>(
    host: &mut H,
    alloc: Global,
    image: &[u8],
    files: &[NewFile],
) -> Result<(), Ending>
    ensures { NotesFiles image.now files.now (H.history host.old) result (H.history host.new) }
{
    let volume = open_volume(host, alloc, image)?;
    tell_files(host, alloc, files, last_year(volume.last_word()))
}

/// Prints how each date of these files is shown that is of another year than those up to a last one.
fn tell_files<H: Host>(
    host: &mut H,
    alloc: Global,
    files: &[NewFile],
    last: u16,
) -> Result<(), Ending>
    requires least { LEAST_LAST ≤ last }
    requires most { last ≤ LAST_YEAR }
    ensures { TellsFiles last files.now (H.history host.old) result (H.history host.new) }
{
    let mut rest = files;
    while let [file, others @ ..] = rest {
        tell_date(host, alloc, file.date, file.year, last)?;
        rest = others;
    }
    Ok(())
}

/// Prints how a date is shown, if it is of another year than those up to a last one.
fn tell_date<H: Host>(
    host: &mut H,
    alloc: Global,
    date: Option<Word>,
    year: Option<u16>,
    last: u16,
) -> Result<(), Ending>
    requires least { LEAST_LAST ≤ last }
    requires most { last ≤ LAST_YEAR }
    ensures { TellsDate last date year (H.history host.old) result (H.history host.new) }
{
    match date {
        None => Ok(()),
        Some(word) => match year {
            None => Ok(()),
            Some(year) => tell_shown(host, alloc, word, last, last_for(usize::from(year))),
        },
    }
}

/// The last of eight years that have a year, as `--year` takes it.
fn last_for(year: usize) -> u16
    ensures last { result ≡ spec.last_for year }
    ensures least { LEAST_LAST ≤ result }
    ensures most { result ≤ LAST_YEAR }
{
    if usize::from(LEAST_LAST) <= year && year <= usize::from(LAST_YEAR) {
        return year as u16;
    }
    LEAST_LAST
}

/// Prints how the date of a word among the eight years up to this last one will be shown.
fn note_given<H: Host>(
    host: &mut H,
    alloc: Global,
    image: &[u8],
    word: Word,
    own: u16,
) -> Result<(), Ending>
    requires least { LEAST_LAST ≤ own }
    requires most { own ≤ LAST_YEAR }
    ensures { NotesGiven image.now word own (H.history host.old) result (H.history host.new) }
{
    let volume = open_volume(host, alloc, image)?;
    tell_shown(host, alloc, word, last_year(volume.last_word()), own)
}

/// Prints that a word among the eight years up to one shows another date than among those up to its own last one.
fn tell_shown<H: Host>(
    host: &mut H,
    alloc: Global,
    word: Word,
    last: u16,
    own: u16,
) -> Result<(), Ending>
    requires least { LEAST_LAST ≤ own }
    requires most { own ≤ LAST_YEAR }
    requires least_last { LEAST_LAST ≤ last }
    requires most_last { last ≤ LAST_YEAR }
    ensures { TellsShown word last own (H.history host.old) result (H.history host.new) }
{
    tell_unless(
        host,
        alloc,
        word,
        date_of(word, own),
        date_of(word, last),
        own,
    )
}

/// Prints how the date of a word is shown, unless it is of the year that is wanted.
fn tell_unless<H: Host>(
    host: &mut H,
    alloc: Global,
    word: Word,
    wanted: Option<Date>,
    shown: Option<Date>,
    own: u16,
) -> Result<(), Ending>
    ensures { TellsUnless (spec.is_same_year wanted shown) word wanted shown own (H.history host.old) result (H.history host.new) }
{
    if is_same_year(wanted, shown) {
        return Ok(());
    }
    tell_hint(host, alloc, word, wanted, shown, own)
}

/// Whether dates are of the same year.
fn is_same_year(one: Option<Date>, other: Option<Date>) -> bool
    ensures { result ≡ spec.is_same_year one other }
{
    match one {
        None => true,
        Some(date) => is_of_year(date.year, other),
    }
}

fn is_of_year(year: u16, date: Option<Date>) -> bool
    ensures { result ≡ spec.is_of_year year date }
{
    match date {
        None => false,
        Some(date) => date.year == year,
    }
}

/// Prints how the date of a word is shown, and which year shows it as it was given.
fn tell_hint<H: Host>(
    host: &mut H,
    alloc: Global,
    word: Word,
    wanted: Option<Date>,
    shown: Option<Date>,
    own: u16,
) -> Result<(), Ending>
    ensures { TellsHint word wanted shown own (H.history host.old) result (H.history host.new) }
{
    let given = date_text(alloc, wanted, word)?;
    let other = date_text(alloc, shown, word)?;
    let text = hint_text(alloc, given.as_str(), other.as_str(), own)?;
    tell_note(host, alloc, Note::OnName(NameNote::Hint, text.as_str()))?;
    Ok(())
}

fn hint_text(alloc: Global, given: &str, shown: &str, own: u16) -> Result<String, AllocError>
    ensures { IfOk result (λ text. text.bytes.items ≡ given.now ++ (codes " is shown as " ++ (shown.now ++ (codes ": --year " ++ (decimal own ++ codes " shows it so"))))) }
{
    let text = format!(in alloc; "{given} is shown as {shown}: --year {own} shows it so")?;
    Ok(text)
}

/// A date in digits, or where it is none the word in octal.
fn date_text(alloc: Global, date: Option<Date>, word: Word) -> Result<String, AllocError>
    ensures { IfOk result (λ text. text.bytes.items ≡ or_octal date word) }
{
    match date {
        None => format!(in alloc; "{word}"),
        Some(date) => format!(in alloc; "{date}"),
    }
}

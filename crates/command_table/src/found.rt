//! What `clap` found for an argument, by the kind of argument. A reader asks for the kind that the subcommand's table gives the argument.
ghost use Rattle.std.specs.Prelude.{◌≡◌, ◌≤◌, [], codes, true, map, option_and_then, option_map, slice_get, unwrap_or, IfOk, IfSome, Some};
ghost use Rattle.clap.specs.Words.{first_of, one_of};
ghost use Rattle.word12.specs.declared.sizes.TheConstants.{MOST_BLOCKS};
ghost use Rattle.command_table.specs.Found.{IsReadAs, number_of, place_of};
ghost use Rattle.command_table.specs.Values.{Has, IsFirst, IsText, has_text, kind_at, takes_block, takes_text, takes_texts, values_in, IsTaken};
ghost use Rattle.command_table.specs.Tables.{rows_for};
ghost use Rattle.command_table.specs.declared.table.Form.TheVariants as form;
ghost use Rattle.command_table.specs.declared.table.Kind.TheVariants as kind;
ghost use Rattle.command_table.specs.Found as spec;

use crate::numbers::{cell_in, date_in, number_in, span_in, time_in, word_in};
use crate::table::Verb;
use clap::ArgMatches;
use disk_layouts::Layout;
use os8_dates::parse_date;
use std::alloc::{AllocError, Global};
use word12::{Cell, MOST_BLOCKS, Word};

/// What is read, or want of the memory for it.
pub type Read<T> = Result<T, AllocError>;

/// The value of an argument, if it was given.
pub fn text_of<'a>(found: &ArgMatches<'a>, id: &str) -> Option<&'a str>
    ensures text { IsText result (first_of id.now (values_in found.now)) }
    ensures value { option_map (λ text. text.now) result ≡ first_of id.now (values_in found.now) }
{
    found.get_str(id)
}

/// Whether an argument has a value.
pub fn has(found: &ArgMatches<'_>, id: &str) -> bool
    ensures { result ≡ spec.has id.now (values_in found.now) }
{
    text_of(found, id).is_some()
}

/// Whether an option without a value was given.
pub fn is_set(found: &ArgMatches<'_>, id: &str) -> bool
    ensures { result ≡ spec.is_set id.now (values_in found.now) }
{
    match text_of(found, id) {
        Some(text) => text == "true",
        None => false,
    }
}

/// The values of an argument that may have several.
pub fn texts_in<'a: 'b, 'b>(found: &'b ArgMatches<'a>, id: &str) -> &'b [&'a str]
    ensures { map (λ text. text.now) result.now ≡ spec.values_of id.now (values_in found.now) }
{
    texts_or_none(found.get_strs(id))
}

/// Texts, or none.
fn texts_or_none<'a, 'b>(texts: Option<&'b [&'a str]>) -> &'b [&'a str]
    ensures { map (λ text. text.now) result.now
        ≡ unwrap_or (option_map (λ s. map (λ text. text.now) s.now) texts.entry) [] }
{
    match texts {
        Some(texts) => texts,
        None => &[],
    }
}

/// One of them, if there are as many.
pub fn word_at<'a>(found: &ArgMatches<'a>, id: &str, index: usize) -> Option<&'a str>
    ensures { option_map (λ text. text.now) result
        ≡ slice_get (spec.values_of id.now (values_in found.now)) index }
{
    nth(texts_in(found, id), index)
}

/// The text at a place, if there are as many.
fn nth<'a>(words: &[&'a str], index: usize) -> Option<&'a str>
    ensures { option_map (λ text. text.now) result ≡ slice_get (map (λ word. word.now) words.now) index }
{
    if index < words.len() {
        return Some(words[index]);
    }
    None
}

/// Whether an option of the subcommand, which takes no value, was given.
pub fn flag(found: &ArgMatches<'_>, _verb: Verb, id: &str) -> bool
    requires { kind_at id.now (rows_for _verb) ≡ Some kind.Flag }
    ensures { result ≡ spec.is_set id.now (values_in found.now) }
{
    is_set(found, id)
}

/// A copy of the text of an argument that was given.
pub fn value_of(alloc: Global, found: &ArgMatches<'_>, _verb: Verb, id: &str) -> Read<String>
    requires kind { has_text (kind_at id.now (rows_for _verb)) ≡ true }
    requires given { Has id.now (values_in found.now) }
    ensures { IfOk result (λ text. first_of id.now (values_in found.now) ≡ Some text.bytes.items) }
{
    let text = String::from_str(alloc, text_given(found, id))?;
    Ok(text)
}

/// A copy of the text of an argument, if it was given.
pub fn value_if_given(
    alloc: Global,
    found: &ArgMatches<'_>,
    _verb: Verb,
    id: &str,
) -> Read<Option<String>>
    requires { takes_text (kind_at id.now (rows_for _verb)) ≡ true }
    ensures { IfOk result (λ given. first_of id.now (values_in found.now)
        ≡ option_map (λ text. text.bytes.items) given) }
{
    match text_of(found, id) {
        Some(text) => {
            let text = String::from_str(alloc, text)?;
            Ok(Some(text))
        }
        None => Ok(None),
    }
}

/// The name that an argument gives which was given, in capital letters.
pub fn name_of(alloc: Global, found: &ArgMatches<'_>, _verb: Verb, id: &str) -> Read<String>
    requires kind { has_text (kind_at id.now (rows_for _verb)) ≡ true }
    requires given { Has id.now (values_in found.now) }
    ensures { IfOk result (λ text. spec.name_in id.now (values_in found.now) ≡ Some text.bytes.items) }
{
    let text = text_given(found, id).to_ascii_uppercase(alloc)?;
    Ok(text)
}

/// The name that an argument gives, in capital letters, if it was given.
pub fn name_if_given(
    alloc: Global,
    found: &ArgMatches<'_>,
    _verb: Verb,
    id: &str,
) -> Read<Option<String>>
    requires { takes_text (kind_at id.now (rows_for _verb)) ≡ true }
    ensures { IfOk result (λ given. spec.name_in id.now (values_in found.now)
        ≡ option_map (λ text. text.bytes.items) given) }
{
    match text_of(found, id) {
        Some(text) => {
            let text = text.to_ascii_uppercase(alloc)?;
            Ok(Some(text))
        }
        None => Ok(None),
    }
}

/// The names that an argument gives which may have several, in capital letters.
pub fn names_of(alloc: Global, found: &ArgMatches<'_>, _verb: Verb, id: &str) -> Read<Vec<String>>
    requires { takes_texts (kind_at id.now (rows_for _verb)) ≡ true }
    ensures { IfOk result (λ names. map (λ text. text.bytes.items) names.items
        ≡ spec.names_in id.now (values_in found.now)) }
{
    capital_copies(alloc, texts_in(found, id))
}

/// Copies of texts in capital letters.
fn capital_copies(alloc: Global, words: &[&str]) -> Read<Vec<String>>
    ensures { IfOk result (λ texts. map (λ text. text.bytes.items) texts.items
        ≡ map spec.capitals (map (λ word. word.now) words.now)) }
{
    let mut texts = Vec::new(alloc);
    for word in words {
        let text = word.to_ascii_uppercase(alloc)?;
        texts.push(text)?;
    }
    Ok(texts)
}

/// Copies of the texts of an argument that may have several.
pub fn values_of(alloc: Global, found: &ArgMatches<'_>, _verb: Verb, id: &str) -> Read<Vec<String>>
    requires { takes_texts (kind_at id.now (rows_for _verb)) ≡ true }
    ensures { IfOk result (λ texts. map (λ text. text.bytes.items) texts.items
        ≡ spec.values_of id.now (values_in found.now)) }
{
    copies(alloc, texts_in(found, id))
}

/// Copies of texts.
fn copies(alloc: Global, words: &[&str]) -> Read<Vec<String>>
    ensures { IfOk result (λ texts. map (λ text. text.bytes.items) texts.items
        ≡ map (λ word. word.now) words.now) }
{
    let mut texts = Vec::new(alloc);
    for word in words {
        let text = String::from_str(alloc, word)?;
        texts.push(text)?;
    }
    Ok(texts)
}

/// The number of an option, from 1 up, if it was given.
pub fn count_of(found: &ArgMatches<'_>, _verb: Verb, id: &str) -> Option<u64>
    requires kind { kind_at id.now (rows_for _verb) ≡ Some kind.Count }
    requires taken { IsTaken kind.Count id.now (values_in found.now) }
    ensures number { option_map number_of (one_of id.now (values_in found.now)) ≡ result }
    ensures range { IfSome result (λ steps. 1 ≤ steps) }
{
    found.get_one::<u64>(id)
}

/// The number of a new volume's blocks, if it was given.
pub fn size_of(found: &ArgMatches<'_>, _verb: Verb, id: &str) -> Option<usize>
    requires kind { kind_at id.now (rows_for _verb) ≡ Some kind.Size }
    requires taken { IsTaken kind.Size id.now (values_in found.now) }
    ensures number { option_map number_of (one_of id.now (values_in found.now)) ≡ result }
    ensures range { IfSome result (λ blocks. (8 ≤ blocks) × (blocks ≤ MOST_BLOCKS)) }
{
    found.get_one::<usize>(id)
}

/// The cell of an option, if it was given.
pub fn cell_of(found: &ArgMatches<'_>, _verb: Verb, id: &str) -> Option<Cell>
    requires { kind_at id.now (rows_for _verb) ≡ Some (kind.One form.Cell) }
    ensures { IsReadAs spec.cell_of (first_of id.now (values_in found.now)) result }
{
    cell_in(text_of(found, id)?.as_bytes())
}

/// The word of an option, if it was given.
pub fn octal_of(found: &ArgMatches<'_>, _verb: Verb, id: &str) -> Option<Word>
    requires { kind_at id.now (rows_for _verb) ≡ Some (kind.One form.Octal) }
    ensures { IsReadAs spec.word_of (first_of id.now (values_in found.now)) result }
{
    word_in(text_of(found, id)?.as_bytes())
}

/// The number of instructions that an option gives, or else this one.
pub fn time_of(found: &ArgMatches<'_>, _verb: Verb, id: &str, usual: u32) -> u32
    requires kind { kind_at id.now (rows_for _verb) ≡ Some (kind.One form.Time) }
    requires usual { usual ≤ 1000000 }
    ensures value { result ≡ spec.time_or usual id.now (values_in found.now) }
    ensures range { result ≤ 1000000 }
{
    match text_of(found, id) {
        Some(text) => time_in(text.as_bytes()).unwrap_or(usual),
        None => usual,
    }
}

/// Whether a drive is among those that an option gives.
pub fn names_drive(found: &ArgMatches<'_>, _verb: Verb, id: &str, drive: &str) -> bool
    requires { kind_at id.now (rows_for _verb) ≡ Some (kind.Many form.Drive) }
    ensures { result ≡ spec.is_among drive.now (spec.values_of id.now (values_in found.now)) }
{
    is_among(texts_in(found, id), drive)
}

/// Whether a text is one of these.
fn is_among(texts: &[&str], text: &str) -> bool
    ensures { result ≡ spec.is_among text.now (map (λ it. it.now) texts.now) }
{
    for other in texts {
        if *other == text {
            return true;
        }
    }
    false
}

/// The block of an option, the first, if it was given.
pub fn block_of(found: &ArgMatches<'_>, _verb: Verb, id: &str) -> Option<usize>
    requires kind { takes_block (kind_at id.now (rows_for _verb)) ≡ true }
    requires first { IsFirst form.Block id.now (values_in found.now) }
    ensures { option_map place_of (first_of id.now (values_in found.now))
        ≡ option_map (λ place. Some place) result }
{
    Some(number_in(text_of(found, id)?.as_bytes(), 0, MOST_BLOCKS).unwrap())
}

/// The blocks of an argument, the first and the last, if it was given.
pub fn span_of(found: &ArgMatches<'_>, _verb: Verb, id: &str) -> Option<(usize, usize)>
    requires { kind_at id.now (rows_for _verb) ≡ Some (kind.Value form.Span) }
    ensures { result ≡ option_and_then spec.span_of (first_of id.now (values_in found.now)) }
{
    span_in(text_of(found, id)?.as_bytes())
}

/// The last of eight years, if it was given.
pub fn year_of(found: &ArgMatches<'_>, _verb: Verb) -> Option<usize>
    requires { kind_at (codes "year") (rows_for _verb) ≡ Some (kind.One form.Year) }
    ensures { result ≡ spec.year_of (values_in found.now) }
{
    number_in(text_of(found, "year")?.as_bytes(), 1977, 9999)
}

/// The word of a date, if it was given.
pub fn date_of(found: &ArgMatches<'_>, _verb: Verb) -> Option<Word>
    requires kind { kind_at (codes "date") (rows_for _verb) ≡ Some (kind.One form.Date) }
    requires first { IsFirst form.Date (codes "date") (values_in found.now) }
    ensures { option_map spec.date_word (first_of (codes "date") (values_in found.now))
        ≡ option_map (λ word. Some word) result }
{
    Some(date_in(text_of(found, "date")?.as_bytes()).unwrap())
}

/// The year of a date, if it was given.
pub fn date_year(found: &ArgMatches<'_>, _verb: Verb) -> Option<usize>
    requires { kind_at (codes "date") (rows_for _verb) ≡ Some (kind.One form.Date) }
    ensures { result ≡ spec.date_year (values_in found.now) }
{
    let date = parse_date(text_of(found, "date")?.as_bytes())?;
    Some(usize::from(date.year))
}

/// The text of an argument that was given.
pub fn text_given<'a>(found: &ArgMatches<'a>, id: &str) -> &'a str
    requires { Has id.now (values_in found.now) }
    ensures { first_of id.now (values_in found.now) ≡ Some result.now }
{
    text_of(found, id).unwrap()
}

/// How many seconds are waited for a held image, none where it is not said.
pub fn wait_of(found: &ArgMatches<'_>, _verb: Verb) -> usize
    requires { kind_at (codes "wait") (rows_for _verb) ≡ Some (kind.One form.Seconds) }
    ensures value { result ≡ spec.wait_of (values_in found.now) }
    ensures range { result ≤ 3600 }
{
    match text_of(found, "wait") {
        Some(text) => number_in(text.as_bytes(), 0, 3600).unwrap_or(0),
        None => 0,
    }
}

/// Where a volume lies in its file, as two options say.
pub fn layout_of(found: &ArgMatches<'_>, _verb: Verb, volume: &str, dectape: &str) -> Option<Layout>
    requires volume { kind_at volume.now (rows_for _verb) ≡ Some (kind.One form.Volume) }
    requires dectape { kind_at dectape.now (rows_for _verb) ≡ Some kind.Flag }
    ensures { result ≡ spec.layout_of volume.now dectape.now (values_in found.now) }
{
    if is_set(found, dectape) {
        return Some(Layout::Dectape);
    }
    Some(volume_of(text_of(found, volume)?))
}

/// The volume of a disk with this number.
fn volume_of(text: &str) -> Layout
    ensures { result ≡ spec.volume_of text.now }
{
    if text == "1" {
        return Layout::First;
    }
    Layout::Second
}

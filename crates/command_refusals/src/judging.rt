//! What is wrong with the arguments of a subcommand, as `clap` takes them.
ghost use Rattle.std.specs.Prelude.{◌≡◌, map, option_map, IfErr, IfOk, None};
ghost use Rattle.command_table.specs.Found.{first_not, form_of, passes};
ghost use Rattle.command_refusals.specs.Refusals.{refusal_of};
ghost use Rattle.command_refusals.specs.Refusals as spec;
ghost use Rattle.command_table.specs.Tables.{rows_for, entry_of, pair_of, row_of};
ghost use Rattle.command_refusals.specs.Faults.{IsRefusedBy};
ghost use Rattle.command_table.specs.Values.{values_in};

use crate::TaskFault;
use crate::missing::{copies_pattern, input_count, missing_of, puts_input};
use crate::reasons::Refusal;
use clap::ArgMatches;
use command_table::{
    Argument, Entry, Form, Kind, Pair, Verb, arguments_of, bits_in, cell_in, date_in, has, is_set,
    number_in, pairs, span_in, text_of, texts_in, time_in, word_at, word_in,
};
use std::alloc::Global;
use word12::MOST_BLOCKS;

/// Refuses the arguments for the first of these, in this order. Two exclude each other, one is missing, standard input is named twice,
/// there is one too many, or a value is none of its argument's kind.
pub fn judge_arguments(
    alloc: Global,
    found: &ArgMatches<'_>,
    entry: &'static Entry,
) -> Result<(), TaskFault>
    ensures passed { IfOk result (λ _. refusal_of entry.now.verb (values_in found.now) ≡ None) }
    ensures refused { IfErr result (IsRefusedBy (entry_of entry.now) (values_in found.now)) }
{
    if let Some((one, other)) = both_given(found, entry.verb) {
        return Err(TaskFault::Refused(entry.usage, Refusal::Together(one, other)));
    }
    if let Some(what) = missing_of(found, entry.verb) {
        return Err(TaskFault::Refused(entry.usage, Refusal::Missing(what)));
    }
    if names_input_twice(found) {
        return Err(TaskFault::Refused(entry.usage, Refusal::InputTwice));
    }
    if let Some(text) = extra_argument(found) {
        let text = String::from_str(alloc, text)?;
        return Err(TaskFault::Refused(entry.usage, Refusal::Unexpected(text)));
    }
    if let Some((shown, why, text)) = bad_value(found, entry.verb) {
        let text = String::from_str(alloc, text)?;
        return Err(TaskFault::Refused(entry.usage, Refusal::Value(shown, why, text)));
    }
    if let Some((shown, why, text)) = bad_block(found) {
        let text = String::from_str(alloc, text)?;
        return Err(TaskFault::Refused(entry.usage, Refusal::Value(shown, why, text)));
    }
    Ok(())
}

/// The first two arguments of a subcommand that were given and exclude each other.
fn both_given(found: &ArgMatches<'_>, verb: Verb) -> Option<Pair>
    ensures { option_map pair_of result ≡ spec.both_given verb (values_in found.now) }
{
    match pair_given(found, verb) {
        Some(pair) => Some(pair),
        None => dated_input(found),
    }
}

/// The first pair of the table of which both were given.
fn pair_given(found: &ArgMatches<'_>, verb: Verb) -> Option<Pair>
    ensures { option_map pair_of result ≡ spec.pair_given verb (values_in found.now) }
{
    first_pair(found, pairs(), arguments_of(verb))
}

/// Standard input, which has no time of its own, and the option that dates files by theirs, if both were given.
fn dated_input(found: &ArgMatches<'_>) -> Option<Pair>
    ensures { option_map pair_of result ≡ spec.dated_input (values_in found.now) }
{
    if is_set(found, "dates") && puts_input(found) {
        return Some(("-", "--dates"));
    }
    None
}

/// The first of these pairs of which both were given.
fn first_pair(
    found: &ArgMatches<'_>,
    pairs: &'static [Pair],
    rows: &'static [Argument],
) -> Option<Pair>
    ensures { option_map pair_of result
        ≡ spec.first_pair (map pair_of pairs.now) (map row_of rows.now) (values_in found.now) }
{
    for pair in pairs {
        if let Some(both) = both_of(title_in(found, rows, pair.0), title_in(found, rows, pair.1)) {
            return Some(both);
        }
    }
    None
}

/// Both, if they are there.
fn both_of(one: Option<&'static str>, other: Option<&'static str>) -> Option<Pair>
    ensures { option_map pair_of result
        ≡ spec.both_of (option_map (λ text. text.now) one.entry) (option_map (λ text. text.now) other.entry) }
{
    Some((one?, other?))
}

/// What the argument of a name is called in refusals, if it was given.
fn title_in(found: &ArgMatches<'_>, rows: &'static [Argument], id: &str) -> Option<&'static str>
    ensures { option_map (λ text. text.now) result
        ≡ spec.title_in (map row_of rows.now) id.now (values_in found.now) }
{
    for row in rows {
        if row.id == id {
            return title_of(found, row);
        }
    }
    None
}

/// What an argument is called in refusals, if it was given.
fn title_of(found: &ArgMatches<'_>, row: &'static Argument) -> Option<&'static str>
    ensures { option_map (λ text. text.now) result ≡ spec.title_of (row_of row.now) (values_in found.now) }
{
    if is_given(found, row.id, row.kind) {
        return Some(row.title);
    }
    None
}

/// Whether an argument of a kind was given.
fn is_given(found: &ArgMatches<'_>, id: &str, kind: Kind) -> bool
    ensures { result ≡ spec.is_given id.now kind (values_in found.now) }
{
    match kind {
        Kind::Flag => is_set(found, id),
        Kind::Word
        | Kind::Value(_)
        | Kind::Words(_)
        | Kind::Size
        | Kind::One(_)
        | Kind::Many(_)
        | Kind::Count => has(found, id),
    }
}

/// A value that is none of its argument's kind: the argument, what is wrong with the value, and the value.
type Bad<'a> = (&'static str, &'static str, &'a str);

/// The first value of a subcommand that is none of its argument's kind.
fn bad_value<'a>(found: &ArgMatches<'a>, verb: Verb) -> Option<Bad<'a>>
    ensures { option_map (λ bad. (bad.0.now, bad.1.now, bad.2.now)) result
        ≡ spec.first_bad (rows_for verb) (values_in found.now) }
{
    first_bad(found, arguments_of(verb))
}

/// The first value of these arguments that is none of its kind.
fn first_bad<'a>(found: &ArgMatches<'a>, rows: &'static [Argument]) -> Option<Bad<'a>>
    ensures { option_map (λ bad. (bad.0.now, bad.1.now, bad.2.now)) result
        ≡ spec.first_bad (map row_of rows.now) (values_in found.now) }
{
    for row in rows {
        let form = form_of(row.kind);
        if let Some(text) = first_of(texts_in(found, row.id), form) {
            return Some((row.title, why(form), text));
        }
    }
    None
}

/// The first of texts that is none of a form.
fn first_of<'a>(texts: &[&'a str], form: Form) -> Option<&'a str>
    ensures { option_map (λ text. text.now) result ≡ first_not form (map (λ text. text.now) texts.now) }
{
    for text in texts {
        if !is_of(form, text) {
            return Some(*text);
        }
    }
    None
}

/// Whether a text is of a form.
fn is_of(form: Form, text: &str) -> bool
    ensures { result ≡ passes form text.now }
{
    match form {
        Form::Text => true,
        Form::Cell => cell_in(text.as_bytes()).is_some(),
        Form::Octal => word_in(text.as_bytes()).is_some(),
        Form::Volume => text == "1" || text == "2",
        Form::Cpu => text == "8i" || text == "8e",
        Form::Drive => text == "0" || (text == "1" || (text == "2" || text == "3")),
        Form::Time => time_in(text.as_bytes()).is_some(),
        Form::Block => number_in(text.as_bytes(), 0, MOST_BLOCKS).is_some(),
        Form::Seconds => number_in(text.as_bytes(), 0, 3600).is_some(),
        Form::Span => span_in(text.as_bytes()).is_some(),
        Form::Index => number_in(text.as_bytes(), 0, 0o377).is_some(),
        Form::Bits => bits_in(text.as_bytes()).is_some(),
        Form::Date => date_in(text.as_bytes()).is_some(),
        Form::Year => number_in(text.as_bytes(), 1977, 9999).is_some(),
    }
}

/// The form of an argument's values.
fn form_of(kind: Kind) -> Form
    ensures { result ≡ form_of kind }
{
    match kind {
        Kind::Value(form) => form,
        Kind::One(form) => form,
        Kind::Many(form) => form,
        Kind::Word | Kind::Words(_) | Kind::Size | Kind::Flag | Kind::Count => Form::Text,
    }
}

/// What is wrong with a value that is none of a form.
fn why(form: Form) -> &'static str
    ensures { result.now ≡ spec.why form }
{
    match form {
        Form::Text => "not a text",
        Form::Cell => "not a cell, 0 to 77777 in octal, or F:AAAA",
        Form::Octal => "not a word, 0 to 7777 in octal",
        Form::Volume => "not 1 or 2",
        Form::Cpu => "not 8i or 8e",
        Form::Drive => "not a drive, 0 to 3",
        Form::Time => "not a number of instructions, 0 to 1000000",
        Form::Block => "not a block, 0 to 4095",
        Form::Seconds => "not a number of seconds, 0 to 3600",
        Form::Span => "not a block, 0 to 4095, nor two with a hyphen between, the lower first",
        Form::Index => "not a number of a word, 0 to 255",
        Form::Bits => "not a word of an image, 0 to 177777 in octal",
        Form::Date => "not a date from 1970 on, as 1974-03-12",
        Form::Year => "not a year, 1977 to 9999",
    }
}

/// The number of the two of `get --blocks` that is none.
fn bad_block<'a>(found: &ArgMatches<'a>) -> Option<Bad<'a>>
    ensures { option_map (λ bad. (bad.0.now, bad.1.now, bad.2.now)) result
        ≡ spec.bad_block (values_in found.now) }
{
    if !is_set(found, "blocks") {
        return None;
    }
    let first = blocks_word(found, 0);
    if number_in(first.as_bytes(), 0, 4094).is_none() {
        return Some(("<FIRST>", "not a block, 0 to 4094", first));
    }
    let count = blocks_word(found, 1);
    if number_in(count.as_bytes(), 1, MOST_BLOCKS).is_none() {
        return Some(("<COUNT>", "not a number of blocks, 1 to 4095", count));
    }
    None
}

/// An argument after the image, an empty text where there is none.
pub fn blocks_word<'a>(found: &ArgMatches<'a>, index: usize) -> &'a str
    ensures { result.now ≡ spec.blocks_word index (values_in found.now) }
{
    match word_at(found, "NAME", index) {
        Some(text) => text,
        None => "",
    }
}

/// An argument too many. It is the third after an image whose blocks are got, the last where `--at` stands for a name, or the second file
/// where one is given a name. It is the fourth after an image of which one file is copied, and the third where a pattern says which files.
fn extra_argument<'a>(found: &ArgMatches<'a>) -> Option<&'a str>
    ensures { option_map (λ text. text.now) result ≡ spec.extra_argument (values_in found.now) }
{
    if is_set(found, "blocks") {
        return word_at(found, "NAME", 2);
    }
    if has(found, "at") {
        return text_of(found, "NEW");
    }
    if has(found, "as") {
        return word_at(found, "FILE", 1);
    }
    if has(found, "to") {
        return None;
    }
    if has(found, "TO") && copies_pattern(found) {
        return text_of(found, "NEW");
    }
    text_of(found, "MORE")
}

/// Whether standard input is named twice among files.
fn names_input_twice(found: &ArgMatches<'_>) -> bool
    ensures { result ≡ spec.names_input_twice (values_in found.now) }
{
    input_count(texts_in(found, "FILE")) > 1
}

//! What is asked of whole archives, and of volumes whose directories may be damaged.
ghost use Rattle.std.specs.Prelude.{◌≡◌, ◌≤◌, codes, option_and_then, IfOk, Some};
ghost use Rattle.clap.specs.Words.{first_of};
ghost use Rattle.command_table.specs.Found as spec;
ghost use Rattle.command_table.specs.Values.{Has, IsFirst, values_in};
ghost use Rattle.command_line.specs.Steps.{IsAskedBy, Needs};
ghost use Rattle.command_line.specs.Tasks as tasks;
ghost use Rattle.command_table.specs.declared.table.Form.TheVariants as form;
ghost use Rattle.command_table.specs.declared.table.Verb.TheVariants as verb;

use crate::volumes::{changed_image, image_of};
use clap::ArgMatches;
use command_table::{
    Read, Verb, bits_in, flag, layout_of, name_if_given, number_of, span_of, text_given,
    value_if_given, value_of, values_of, word_in, year_of,
};
use program_tasks::{BlockSpan, IndexForm, LineForm, PatchForm, RescueForm, ScanForm, Task};
use std::alloc::Global;
use word12::{MOST_BLOCKS, Word};

/// The blocks that are to be shown.
pub fn dump(alloc: Global, found: &ArgMatches<'_>) -> Read<Task>
    requires { Needs verb.Dump (values_in found.now) }
    ensures { IfOk result (IsAskedBy verb.Dump (values_in found.now)) }
{
    let image = image_of(alloc, found, Verb::Dump, "IMAGE")?;
    Ok(Task::Dump(BlockSpan {
        image,
        span: span_of(found, Verb::Dump, "BLOCK"),
        is_sixbit: flag(found, Verb::Dump, "sixbit"),
    }))
}

/// The word that is to be put in place of another.
pub fn patch(alloc: Global, found: &ArgMatches<'_>) -> Read<Task>
    requires { Needs verb.Patch (values_in found.now) }
    ensures { IfOk result (IsAskedBy verb.Patch (values_in found.now)) }
{
    let image = changed_image(alloc, found, Verb::Patch, "IMAGE")?;
    let form = PatchForm {
        image,
        block: block_given(found),
        number: number_given(found),
        old: old_given(found),
        new: new_given(found),
    };
    Ok(Task::Patch(form))
}

/// The images of which an index is to be made.
pub fn index(alloc: Global, found: &ArgMatches<'_>) -> Read<Task>
    requires { Needs verb.Index (values_in found.now) }
    ensures { IfOk result (IsAskedBy verb.Index (values_in found.now)) }
{
    let images = values_of(alloc, found, Verb::Index, "IMAGE")?;
    let find = name_if_given(alloc, found, Verb::Index, "find")?;
    let grep = value_if_given(alloc, found, Verb::Index, "grep")?;
    Ok(Task::Index(IndexForm {
        images,
        layout: layout_of(found, Verb::Index, "volume", "dectape"),
        is_plain: flag(found, Verb::Index, "plain"),
        year: year_of(found, Verb::Index),
        form: line_form(found),
        is_same: flag(found, Verb::Index, "same"),
        find,
        grep,
        is_lenient: flag(found, Verb::Index, "lenient"),
    }))
}

/// How the lines of an index are to be written.
fn line_form(found: &ArgMatches<'_>) -> LineForm
    ensures { result ≡ tasks.line_form (values_in found.now) }
{
    if flag(found, Verb::Index, "json") {
        return LineForm::Json;
    }
    LineForm::Columns
}

/// The volume whose files are to be rescued.
pub fn rescue(alloc: Global, found: &ArgMatches<'_>) -> Read<Task>
    requires { Needs verb.Rescue (values_in found.now) }
    ensures { IfOk result (IsAskedBy verb.Rescue (values_in found.now)) }
{
    let image = image_of(alloc, found, Verb::Rescue, "IMAGE")?;
    let new = value_of(alloc, found, Verb::Rescue, "NEW")?;
    Ok(Task::Rescue(RescueForm { image, new }))
}

/// The volume whose blocks are to be scanned.
pub fn scan(alloc: Global, found: &ArgMatches<'_>) -> Read<Task>
    requires { Needs verb.Scan (values_in found.now) }
    ensures { IfOk result (IsAskedBy verb.Scan (values_in found.now)) }
{
    let image = image_of(alloc, found, Verb::Scan, "IMAGE")?;
    let into = value_if_given(alloc, found, Verb::Scan, "into")?;
    Ok(Task::Scan(ScanForm { image, into }))
}

/// The block of the word.
fn block_given(found: &ArgMatches<'_>) -> usize
    requires given { Has (codes "BLOCK") (values_in found.now) }
    requires first { IsFirst form.Block (codes "BLOCK") (values_in found.now) }
    ensures { option_and_then spec.place_of (first_of (codes "BLOCK") (values_in found.now)) ≡ Some result }
{
    number_of(text_given(found, "BLOCK").as_bytes(), 0, MOST_BLOCKS)
}

/// The number of the word in its block.
fn number_given(found: &ArgMatches<'_>) -> usize
    requires given { Has (codes "WORD") (values_in found.now) }
    requires first { IsFirst form.Index (codes "WORD") (values_in found.now) }
    ensures value { option_and_then (spec.number_in 0 0o377) (first_of (codes "WORD") (values_in found.now)) ≡ Some result }
    ensures range { result ≤ 0o377 }
{
    number_of(text_given(found, "WORD").as_bytes(), 0, 0o377)
}

/// The word that stands there.
fn old_given(found: &ArgMatches<'_>) -> u16
    requires given { Has (codes "OLD") (values_in found.now) }
    requires first { IsFirst form.Bits (codes "OLD") (values_in found.now) }
    ensures { option_and_then spec.bits_of (first_of (codes "OLD") (values_in found.now)) ≡ Some result }
{
    bits_in(text_given(found, "OLD").as_bytes()).unwrap()
}

/// The word that is put there.
fn new_given(found: &ArgMatches<'_>) -> Word
    requires given { Has (codes "NEW") (values_in found.now) }
    requires first { IsFirst form.Octal (codes "NEW") (values_in found.now) }
    ensures { option_and_then spec.word_of (first_of (codes "NEW") (values_in found.now)) ≡ Some result }
{
    word_in(text_given(found, "NEW").as_bytes()).unwrap()
}

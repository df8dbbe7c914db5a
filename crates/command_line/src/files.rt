//! What is asked of the files of volumes.
ghost use Rattle.std.specs.Prelude.{◌≡◌, ◌≤◌, ◌∷◌, ◌++◌, [], codes, false, true, if◌then◌else◌, is_some, map, option_map, IfOk, OnOk, Some};
ghost use Rattle.command_table.specs.Found.{capitals, has, is_set, number_in};
ghost use Rattle.command_table.specs.Values.{Has, IsFirst, has_text, kind_at, takes_block, takes_texts, values_in};
ghost use Rattle.command_line.specs.Steps.{IsAskedBy, Needs};
ghost use Rattle.command_refusals.specs.Refusals.{copies_pattern};
ghost use Rattle.command_refusals.specs.Refusals as refusals;
ghost use Rattle.command_table.specs.Tables.{rows_for};
ghost use Rattle.command_line.specs.Tasks.{AreTexts, IsFile, IsSeen, IsTarget, name_or_none};
ghost use Rattle.command_line.specs.Tasks as spec;
ghost use Rattle.command_table.specs.declared.table.Form.TheVariants as form;
ghost use Rattle.command_table.specs.declared.table.Kind.TheVariants as kind;
ghost use Rattle.command_table.specs.declared.table.Verb.TheVariants as verb;

use crate::volumes::{changed_image, image_of, read_image, target_of};
use archive_files::{Asked, GetForm};
use clap::ArgMatches;
use command_refusals::{blocks_word, copies_pattern, prints_texts};
use command_table::{
    Read, Verb, block_of, blocks_of, date_year, flag, has, info_of, name_if_given, name_of,
    names_of, number_of, text_of, texts_in, value_of, values_of, year_of,
};
use program_tasks::{
    BlocksForm, CopyChoice, CopyForm, DeleteForm, GetManyForm, GetTextsForm, ImageForm,
    PutFilesForm, Task, TextsForm,
};
use std::alloc::Global;
use word12::MOST_BLOCKS;

/// The files that are to be got, and how.
pub fn get(alloc: Global, found: &ArgMatches<'_>) -> Read<Task>
    requires { Needs verb.Get (values_in found.now) }
    ensures { IfOk result (IsAskedBy verb.Get (values_in found.now)) }
{
    if flag(found, Verb::Get, "blocks") {
        return get_blocks(alloc, found);
    }
    if has(found, "into") {
        return get_many(alloc, found);
    }
    if prints_texts(found) {
        return get_texts(alloc, found);
    }
    get_one(alloc, found)
}

/// The blocks that are to be got.
#[tactic(auto, using(crate::proofs::RefusalLemmas::blocks_read))]
fn get_blocks(alloc: Global, found: &ArgMatches<'_>) -> Read<Task>
    requires needs { Needs verb.Get (values_in found.now) }
    requires blocks { is_set (codes "blocks") (values_in found.now) ≡ true }
    ensures { IfOk result (IsAskedBy verb.Get (values_in found.now)) }
{
    let image = read_image(alloc, found, Verb::Get)?;
    let first = block_number(found, 0, 0, 4094);
    let count = block_number(found, 1, 1, MOST_BLOCKS);
    Ok(Task::GetBlocks(BlocksForm {
        image,
        first,
        count,
        form: get_form(found),
    }))
}

/// An argument after the image, which is a number within these limits.
fn block_number(found: &ArgMatches<'_>, index: usize, least: usize, most: usize) -> usize
    requires { is_some (number_in least most (refusals.blocks_word index (values_in found.now))) ≡ true }
    ensures value { number_in least most (refusals.blocks_word index (values_in found.now)) ≡ Some result }
    ensures range { (least ≤ result) × (result ≤ most) }
{
    number_of(blocks_word(found, index).as_bytes(), least, most)
}

/// The files that are to be got to a folder.
fn get_many(alloc: Global, found: &ArgMatches<'_>) -> Read<Task>
    requires needs { Needs verb.Get (values_in found.now) }
    requires no_blocks { is_set (codes "blocks") (values_in found.now) ≡ false }
    requires many { has (codes "into") (values_in found.now) ≡ true }
    ensures { IfOk result (IsAskedBy verb.Get (values_in found.now)) }
{
    let image = read_image(alloc, found, Verb::Get)?;
    let names = names_of(alloc, found, Verb::Get, "NAME")?;
    let places = blocks_of(alloc, found, Verb::Get, "at")?;
    let folder = value_of(alloc, found, Verb::Get, "into")?;
    let texts = texts_of(alloc, found, Verb::Get)?;
    Ok(Task::GetMany(GetManyForm {
        image,
        names,
        places,
        is_all: flag(found, Verb::Get, "all"),
        folder,
        texts,
        is_forced: flag(found, Verb::Get, "force"),
        year: year_of(found, Verb::Get),
    }))
}

/// The texts that are to be printed.
fn get_texts(alloc: Global, found: &ArgMatches<'_>) -> Read<Task>
    requires needs { Needs verb.Get (values_in found.now) }
    requires no_blocks { is_set (codes "blocks") (values_in found.now) ≡ false }
    requires texts { refusals.prints_texts (values_in found.now) ≡ true }
    ensures { IfOk result (IsAskedBy verb.Get (values_in found.now)) }
{
    let image = read_image(alloc, found, Verb::Get)?;
    let names = names_of(alloc, found, Verb::Get, "NAME")?;
    let places = blocks_of(alloc, found, Verb::Get, "at")?;
    Ok(Task::GetTexts(GetTextsForm {
        image,
        names,
        places,
        is_all: flag(found, Verb::Get, "all"),
    }))
}

/// The file that is to be got, and how.
#[tactic(auto, using(crate::proofs::RefusalLemmas::one_named))]
fn get_one(alloc: Global, found: &ArgMatches<'_>) -> Read<Task>
    requires needs { Needs verb.Get (values_in found.now) }
    requires no_blocks { is_set (codes "blocks") (values_in found.now) ≡ false }
    requires one { has (codes "into") (values_in found.now) ≡ false }
    requires no_texts { refusals.prints_texts (values_in found.now) ≡ false }
    ensures { IfOk result (IsAskedBy verb.Get (values_in found.now)) }
{
    let image = read_image(alloc, found, Verb::Get)?;
    let file = file_of(alloc, found, Verb::Get)?;
    if flag(found, Verb::Get, "bin") {
        return Ok(Task::GetBin(image, file));
    }
    Ok(Task::Get(image, file, get_form(found)))
}

/// What is asked of a file.
fn get_form(found: &ArgMatches<'_>) -> GetForm
    ensures { result ≡ spec.get_form (values_in found.now) }
{
    if flag(found, Verb::Get, "tape") {
        return GetForm::Tape;
    }
    if flag(found, Verb::Get, "text") {
        return GetForm::Text;
    }
    GetForm::Frames
}

/// Which files are texts.
fn texts_of(alloc: Global, found: &ArgMatches<'_>, verb: Verb) -> Read<TextsForm>
    requires extensions { takes_texts (kind_at (codes "text-of") (rows_for verb)) ≡ true }
    requires usual { kind_at (codes "text") (rows_for verb) ≡ Some kind.Flag }
    ensures { IfOk result (AreTexts (values_in found.now)) }
{
    let extensions = names_of(alloc, found, verb, "text-of")?;
    let is_usual = flag(found, verb, "text");
    Ok(TextsForm {
        is_usual,
        extensions,
    })
}

/// The files of this system that are to be put, and how.
pub fn put(alloc: Global, found: &ArgMatches<'_>) -> Read<Task>
    requires { Needs verb.Put (values_in found.now) }
    ensures { IfOk result (IsAskedBy verb.Put (values_in found.now)) }
{
    let image = changed_image(alloc, found, Verb::Put, "IMAGE")?;
    let files = values_of(alloc, found, Verb::Put, "FILE")?;
    let name = name_if_given(alloc, found, Verb::Put, "as")?;
    let texts = texts_of(alloc, found, Verb::Put)?;
    let info = info_of(alloc, found, Verb::Put)?;
    Ok(Task::Put(PutFilesForm {
        image,
        files,
        name,
        texts,
        info,
        year: date_year(found, Verb::Put),
        is_dated: flag(found, Verb::Put, "dates"),
        may_empty: flag(found, Verb::Put, "empty"),
    }))
}

/// The files that are to be taken out.
pub fn delete(alloc: Global, found: &ArgMatches<'_>) -> Read<Task>
    requires { Needs verb.Delete (values_in found.now) }
    ensures { IfOk result (IsAskedBy verb.Delete (values_in found.now)) }
{
    let image = changed_image(alloc, found, Verb::Delete, "IMAGE")?;
    let names = names_of(alloc, found, Verb::Delete, "NAME")?;
    let places = blocks_of(alloc, found, Verb::Delete, "at")?;
    Ok(Task::Delete(DeleteForm {
        image,
        names,
        places,
    }))
}

/// The file that is to get another name.
pub fn rename(alloc: Global, found: &ArgMatches<'_>) -> Read<Task>
    requires { Needs verb.Rename (values_in found.now) }
    ensures { IfOk result (IsAskedBy verb.Rename (values_in found.now)) }
{
    let image = changed_image(alloc, found, Verb::Rename, "IMAGE")?;
    let file = file_of(alloc, found, Verb::Rename)?;
    let new = name_of(alloc, found, Verb::Rename, after(found, "NAME", "NEW"))?;
    Ok(Task::Rename(image, file, new))
}

/// The files that are to be copied.
pub fn copy(alloc: Global, found: &ArgMatches<'_>) -> Read<Task>
    requires { Needs verb.Copy (values_in found.now) }
    ensures { IfOk result (IsAskedBy verb.Copy (values_in found.now)) }
{
    if has(found, "to") {
        return copy_many(alloc, found);
    }
    if has(found, "TO") && copies_pattern(found) {
        return copy_fitting(alloc, found);
    }
    copy_one(alloc, found)
}

/// The files that are to be copied at once, which a pattern fits.
fn copy_fitting(alloc: Global, found: &ArgMatches<'_>) -> Read<Task>
    requires needs { Needs verb.Copy (values_in found.now) }
    requires to { has (codes "TO") (values_in found.now) ≡ true }
    requires pattern { copies_pattern (values_in found.now) ≡ true }
    ensures { IfOk result (IsAskedBy verb.Copy (values_in found.now)) }
{
    let image = image_of(alloc, found, Verb::Copy, "IMAGE")?;
    let mut names = Vec::new(alloc);
    add_name(alloc, text_of(found, "NAME"), &mut names)?;
    let to = target_of(alloc, found, "TO")?;
    Ok(several(found, image, names, to))
}

/// The files that are to be copied at once, to the volume that an option gives.
fn copy_many(alloc: Global, found: &ArgMatches<'_>) -> Read<Task>
    requires needs { Needs verb.Copy (values_in found.now) }
    requires many { has (codes "to") (values_in found.now) ≡ true }
    ensures { IfOk result (IsAskedBy verb.Copy (values_in found.now)) }
{
    let image = image_of(alloc, found, Verb::Copy, "IMAGE")?;
    let names = names_given(alloc, found)?;
    let to = target_of(alloc, found, "to")?;
    Ok(several(found, image, names, to))
}

/// Files of these names that are to be copied at once, to this volume.
fn several(found: &ArgMatches<'_>, image: ImageForm, names: Vec<String>, to: ImageForm) -> Task
    requires image { IsSeen (values_in found.now) image }
    requires names { spec.copied_names (values_in found.now) ≡ map (λ name. name.bytes.items) names.items }
    requires to { IsTarget (spec.target_id (values_in found.now)) (values_in found.now) to }
    ensures { IsAskedBy verb.Copy (values_in found.now) result }
{
    let is_forced = flag(found, Verb::Copy, "force");
    Task::Copy(CopyForm {
        image,
        files: CopyChoice::Like(names, is_forced),
        to,
    })
}

/// The names of files that are copied at once.
fn names_given(alloc: Global, found: &ArgMatches<'_>) -> Read<Vec<String>>
    ensures { IfOk result (λ names. map (λ name. name.bytes.items) names.items ≡ spec.names_given (values_in found.now)) }
{
    let mut names = Vec::new(alloc);
    add_name(alloc, text_of(found, "NAME"), &mut names)?;
    add_name(alloc, text_of(found, "TO"), &mut names)?;
    add_name(alloc, text_of(found, "NEW"), &mut names)?;
    add_names(alloc, texts_in(found, "MORE"), &mut names)?;
    Ok(names)
}

/// Appends a name in capital letters, if it was given.
fn add_name(alloc: Global, given: Option<&str>, names: &mut Vec<String>) -> Read<()>
    ensures { OnOk result (map (λ name. name.bytes.items) names.new.items
        ≡ map (λ name. name.bytes.items) names.old.items ++ name_or_none (option_map capitals (option_map (λ text. text.now) given.entry))) }
{
    match given {
        Some(text) => add_capitals(alloc, text, names),
        None => Ok(()),
    }
}

fn add_capitals(alloc: Global, text: &str, names: &mut Vec<String>) -> Read<()>
    ensures { OnOk result (map (λ name. name.bytes.items) names.new.items
        ≡ map (λ name. name.bytes.items) names.old.items ++ capitals text.now ∷ []) }
{
    let name = text.to_ascii_uppercase(alloc)?;
    names.push(name)?;
    Ok(())
}

/// Appends names in capital letters.
fn add_names(alloc: Global, given: &[&str], names: &mut Vec<String>) -> Read<()>
    ensures { OnOk result (map (λ name. name.bytes.items) names.new.items
        ≡ map (λ name. name.bytes.items) names.old.items ++ map capitals (map (λ text. text.now) given.now)) }
{
    for text in given {
        add_capitals(alloc, text, names)?;
    }
    Ok(())
}

/// The file that is to be copied.
fn copy_one(alloc: Global, found: &ArgMatches<'_>) -> Read<Task>
    requires needs { Needs verb.Copy (values_in found.now) }
    requires one { has (codes "to") (values_in found.now) ≡ false }
    requires named { copies_pattern (values_in found.now) ≡ false }
    ensures { IfOk result (IsAskedBy verb.Copy (values_in found.now)) }
{
    let image = image_of(alloc, found, Verb::Copy, "IMAGE")?;
    let file = file_of(alloc, found, Verb::Copy)?;
    let to = target_of(alloc, found, after(found, "NAME", "TO"))?;
    let new = name_if_given(alloc, found, Verb::Copy, after(found, "TO", "NEW"))?;
    Ok(Task::Copy(CopyForm {
        image,
        files: CopyChoice::One(file, new),
        to,
    }))
}

/// The file whose first block `--at` gives, or else that of the name.
#[tactic(auto, using(crate::proofs::RefusalLemmas::not_placed))]
fn file_of(alloc: Global, found: &ArgMatches<'_>, verb: Verb) -> Read<Asked>
    requires at { takes_block (kind_at (codes "at") (rows_for verb)) ≡ true }
    requires name { has_text (kind_at (codes "NAME") (rows_for verb)) ≡ true }
    requires first { IsFirst form.Block (codes "at") (values_in found.now) }
    requires given { has (codes "at") (values_in found.now) ≡ false
        → Has (codes "NAME") (values_in found.now) }
    ensures { IfOk result (IsFile (values_in found.now)) }
{
    match block_of(found, verb, "at") {
        Some(place) => Ok(Asked::At(place)),
        None => {
            let name = name_of(alloc, found, verb, "NAME")?;
            Ok(Asked::Name(name))
        }
    }
}

/// The argument after a file, which stands in the place of the name where `--at` gives the file.
fn after<'a>(found: &ArgMatches<'_>, moved: &'a str, own: &'a str) -> &'a str
    ensures { result.now ≡ (if has (codes "at") (values_in found.now)
        then moved.entry.now else own.entry.now) }
{
    if has(found, "at") { moved } else { own }
}

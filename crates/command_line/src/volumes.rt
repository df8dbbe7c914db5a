//! What is asked of volumes as a whole.
ghost use Rattle.std.specs.Prelude.{◌≡◌, codes, true, IfOk, Some};
ghost use Rattle.command_table.specs.Found.{has, wait_of};
ghost use Rattle.command_table.specs.Values.{Has, has_text, kind_at, values_in};
ghost use Rattle.command_line.specs.Steps.{IsAskedBy, Needs};
ghost use Rattle.command_table.specs.Tables.{rows_for};
ghost use Rattle.command_line.specs.Tasks.{IsImage, IsMade, IsRead, IsTarget, IsVolume};
ghost use Rattle.command_line.specs.Tasks as spec;
ghost use Rattle.command_table.specs.declared.table.Form.TheVariants as form;
ghost use Rattle.command_table.specs.declared.table.Kind.TheVariants as kind;
ghost use Rattle.command_table.specs.declared.table.Verb.TheVariants as verb;

use clap::ArgMatches;
use command_table::{
    Read, Verb, flag, has, layout_of, names_of, size_of, text_given, value_of, values_of, wait_of,
    year_of,
};
use disk_layouts::Layout;
use program_tasks::{
    CheckForm, CreateForm, ImageForm, ListForm, RunForm, Saving, Task, volume_named,
};
use std::alloc::Global;

/// The volume that an argument names, which is not waited for.
pub fn image_of(alloc: Global, found: &ArgMatches<'_>, verb: Verb, id: &str) -> Read<ImageForm>
    requires image { has_text (kind_at id.now (rows_for verb)) ≡ true }
    requires volume { kind_at (codes "volume") (rows_for verb) ≡ Some (kind.One form.Volume) }
    requires dectape { kind_at (codes "dectape") (rows_for verb) ≡ Some kind.Flag }
    requires plain { kind_at (codes "plain") (rows_for verb) ≡ Some kind.Flag }
    requires given { Has id.now (values_in found.now) }
    ensures { IfOk result (IsImage id.now 0 (values_in found.now)) }
{
    let given = layout_of(found, verb, "volume", "dectape");
    let is_plain = flag(found, verb, "plain");
    volume_at(alloc, found, id, given, is_plain, 0, false)
}

/// The volume that a subcommand only reads, and where `--lenient` says so, its faults are mended as it is read.
pub fn read_image(alloc: Global, found: &ArgMatches<'_>, verb: Verb) -> Read<ImageForm>
    requires image { has_text (kind_at (codes "IMAGE") (rows_for verb)) ≡ true }
    requires volume { kind_at (codes "volume") (rows_for verb) ≡ Some (kind.One form.Volume) }
    requires dectape { kind_at (codes "dectape") (rows_for verb) ≡ Some kind.Flag }
    requires plain { kind_at (codes "plain") (rows_for verb) ≡ Some kind.Flag }
    requires lenient { kind_at (codes "lenient") (rows_for verb) ≡ Some kind.Flag }
    requires given { Has (codes "IMAGE") (values_in found.now) }
    ensures { IfOk result (IsRead (values_in found.now)) }
{
    let given = layout_of(found, verb, "volume", "dectape");
    let is_lenient = flag(found, verb, "lenient");
    let is_plain = flag(found, verb, "plain");
    volume_at(alloc, found, "IMAGE", given, is_plain, 0, is_lenient)
}

/// The volume that an argument names, which a subcommand may change.
pub fn changed_image(alloc: Global, found: &ArgMatches<'_>, verb: Verb, id: &str) -> Read<ImageForm>
    requires image { has_text (kind_at id.now (rows_for verb)) ≡ true }
    requires volume { kind_at (codes "volume") (rows_for verb) ≡ Some (kind.One form.Volume) }
    requires dectape { kind_at (codes "dectape") (rows_for verb) ≡ Some kind.Flag }
    requires plain { kind_at (codes "plain") (rows_for verb) ≡ Some kind.Flag }
    requires wait { kind_at (codes "wait") (rows_for verb) ≡ Some (kind.One form.Seconds) }
    requires given { Has id.now (values_in found.now) }
    ensures { IfOk result (IsImage id.now (wait_of (values_in found.now)) (values_in found.now)) }
{
    let given = layout_of(found, verb, "volume", "dectape");
    let is_plain = flag(found, verb, "plain");
    let wait = wait_of(found, verb);
    volume_at(alloc, found, id, given, is_plain, wait, false)
}

/// The volume that an argument names, which files are copied to.
pub fn target_of(alloc: Global, found: &ArgMatches<'_>, id: &str) -> Read<ImageForm>
    requires kind { has_text (kind_at id.now (rows_for verb.Copy)) ≡ true }
    requires given { Has id.now (values_in found.now) }
    ensures { IfOk result (IsTarget id.now (values_in found.now)) }
{
    let given = layout_of(found, Verb::Copy, "to-volume", "to-dectape");
    let is_plain = flag(found, Verb::Copy, "to-plain");
    let wait = wait_of(found, Verb::Copy);
    volume_at(alloc, found, id, given, is_plain, wait, false)
}

/// The volume that an argument names, where options say in which layout, or else its name does.
fn volume_at(
    alloc: Global,
    found: &ArgMatches<'_>,
    id: &str,
    given: Option<Layout>,
    is_plain: bool,
    wait: usize,
    is_lenient: bool,
) -> Read<ImageForm>
    requires { Has id.now (values_in found.now) }
    ensures { IfOk result (IsVolume given is_plain id.now wait is_lenient (values_in found.now)) }
{
    let (name, layout) = volume_named(given, text_given(found, id));
    let file = String::from_str(alloc, name)?;
    Ok(ImageForm {
        file,
        layout,
        is_plain,
        wait,
        is_lenient,
    })
}

/// The run of a script.
pub fn run(alloc: Global, found: &ArgMatches<'_>) -> Read<Task>
    requires { Needs verb.Run (values_in found.now) }
    ensures { IfOk result (IsAskedBy verb.Run (values_in found.now)) }
{
    let image = changed_image(alloc, found, Verb::Run, "IMAGE")?;
    let form = RunForm {
        saving: saving(found),
        is_strict: flag(found, Verb::Run, "strict"),
    };
    Ok(Task::Run(image, form))
}

/// When the image is written.
fn saving(found: &ArgMatches<'_>) -> Saving
    ensures { result ≡ spec.saving_of (values_in found.now) }
{
    if flag(found, Verb::Run, "look") {
        return Saving::Never;
    }
    if flag(found, Verb::Run, "keep") {
        return Saving::Always;
    }
    Saving::AtEnd
}

/// The new volume that is asked for.
pub fn create(alloc: Global, found: &ArgMatches<'_>) -> Read<Task>
    requires { Needs verb.Create (values_in found.now) }
    ensures { IfOk result (IsAskedBy verb.Create (values_in found.now)) }
{
    let form = CreateForm {
        file: value_of(alloc, found, Verb::Create, "IMAGE")?,
        is_new: flag(found, Verb::Create, "new"),
        wait: wait_of(found, Verb::Create),
    };
    if flag(found, Verb::Create, "dectape") {
        return Ok(Task::CreateTape(form));
    }
    if flag(found, Verb::Create, "rk05") {
        return Ok(Task::CreateDisk(form));
    }
    match size_of(found, Verb::Create, "BLOCKS") {
        Some(blocks) => Ok(Task::Create(form, blocks)),
        None => {
            let image = made_volume(alloc, found)?;
            Ok(Task::CreateVolume(image))
        }
    }
}

/// The volume of a disk that is to be made anew.
fn made_volume(alloc: Global, found: &ArgMatches<'_>) -> Read<ImageForm>
    requires { Has (codes "IMAGE") (values_in found.now) }
    ensures { IfOk result (IsMade (values_in found.now)) }
{
    let given = layout_of(found, Verb::Create, "volume", "dectape");
    let wait = wait_of(found, Verb::Create);
    volume_at(alloc, found, "IMAGE", given, false, wait, false)
}

/// The volume whose files are to be listed.
pub fn list(alloc: Global, found: &ArgMatches<'_>) -> Read<Task>
    requires { Needs verb.List (values_in found.now) }
    ensures { IfOk result (IsAskedBy verb.List (values_in found.now)) }
{
    let image = read_image(alloc, found, Verb::List)?;
    if has(found, "NAME") {
        return list_some(alloc, found, image);
    }
    if flag(found, Verb::List, "long") {
        return Ok(Task::ListLong(image, year_of(found, Verb::List)));
    }
    Ok(Task::List(image))
}

/// The files of a volume that are to be listed.
fn list_some(alloc: Global, found: &ArgMatches<'_>, image: ImageForm) -> Read<Task>
    requires given { has (codes "NAME") (values_in found.now) ≡ true }
    requires image { IsRead (values_in found.now) image }
    ensures { IfOk result (IsAskedBy verb.List (values_in found.now)) }
{
    let names = names_of(alloc, found, Verb::List, "NAME")?;
    Ok(Task::ListSome(ListForm {
        image,
        names,
        is_long: flag(found, Verb::List, "long"),
        year: year_of(found, Verb::List),
    }))
}

/// The volumes that are to be checked.
pub fn check(alloc: Global, found: &ArgMatches<'_>) -> Read<Task>
    requires { Needs verb.Check (values_in found.now) }
    ensures { IfOk result (IsAskedBy verb.Check (values_in found.now)) }
{
    let images = values_of(alloc, found, Verb::Check, "IMAGE")?;
    Ok(Task::Check(CheckForm {
        images,
        layout: layout_of(found, Verb::Check, "volume", "dectape"),
        is_plain: flag(found, Verb::Check, "plain"),
        is_all: flag(found, Verb::Check, "all"),
        is_lenient: flag(found, Verb::Check, "lenient"),
    }))
}

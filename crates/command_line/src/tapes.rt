//! What is asked of tapes and of sources.
ghost use Rattle.std.specs.Prelude.{◌≡◌, ◌≤◌, codes, map, true, IfOk, IfSome, Some};
ghost use Rattle.command_line.specs.Tasks.{AreFitTimes, IsTape, IsTapeOrInput, IsTraceForm};
ghost use Rattle.command_table.specs.Values.{Has, has_text, kind_at, values_in};
ghost use Rattle.command_line.specs.Steps.{IsAskedBy, Needs};
ghost use Rattle.command_table.specs.Found.{is_set};
ghost use Rattle.command_table.specs.Tables.{rows_for};
ghost use Rattle.command_table.specs.declared.table.Form.TheVariants as form;
ghost use Rattle.command_table.specs.declared.table.Kind.TheVariants as kind;
ghost use Rattle.command_line.specs.Tasks as spec;
ghost use Rattle.command_table.specs.declared.table.Verb.TheVariants as verb;

use crate::boots::{console_of, disk_of};
use crate::devices::devices_of;
use crate::volumes::{changed_image, image_of};
use clap::ArgMatches;
use command_table::{
    Read, Verb, cell_of, cells_of, count_of, flag, has, name_if_given, name_of, names_of, octal_of,
    text_of, value_if_given, value_of, values_of,
};
use program_tasks::{
    AssembleForm, Cpu, ImageForm, RimForm, SourceForm, TapeForm, Task, TeletypeForm, TraceForm,
};
use std::alloc::Global;

/// What is to be listed.
pub fn tape(alloc: Global, found: &ArgMatches<'_>) -> Read<Task>
    requires { Needs verb.Tape (values_in found.now) }
    ensures { IfOk result (IsAskedBy verb.Tape (values_in found.now)) }
{
    Ok(Task::Tape(tape_if_given(alloc, found, Verb::Tape)?))
}

/// What is to be written of a RIM tape.
pub fn rim(alloc: Global, found: &ArgMatches<'_>) -> Read<Task>
    requires { Needs verb.Rim (values_in found.now) }
    ensures { IfOk result (IsAskedBy verb.Rim (values_in found.now)) }
{
    let tape = tape_if_given(alloc, found, Verb::Rim)?;
    Ok(Task::Rim(tape, rim_form(found)))
}

/// In which form a RIM tape is to be written.
fn rim_form(found: &ArgMatches<'_>) -> RimForm
    ensures { result ≡ spec.rim_form (values_in found.now) }
{
    if flag(found, Verb::Rim, "bin") {
        return RimForm::Bin;
    }
    RimForm::Lines
}

/// The tape that is named, if one is.
fn tape_if_given(alloc: Global, found: &ArgMatches<'_>, verb: Verb) -> Read<Option<TapeForm>>
    requires tape { has_text (kind_at (codes "TAPE") (rows_for verb)) ≡ true }
    requires name { has_text (kind_at (codes "NAME") (rows_for verb)) ≡ true }
    requires volume { kind_at (codes "volume") (rows_for verb) ≡ Some (kind.One form.Volume) }
    requires dectape { kind_at (codes "dectape") (rows_for verb) ≡ Some kind.Flag }
    requires plain { kind_at (codes "plain") (rows_for verb) ≡ Some kind.Flag }
    ensures { IfOk result (IsTapeOrInput (values_in found.now)) }
{
    if has(found, "TAPE") {
        let tape = tape_of(alloc, found, verb)?;
        return Ok(Some(tape));
    }
    Ok(None)
}

/// The tape that is named.
fn tape_of(alloc: Global, found: &ArgMatches<'_>, verb: Verb) -> Read<TapeForm>
    requires tape { has_text (kind_at (codes "TAPE") (rows_for verb)) ≡ true }
    requires name { has_text (kind_at (codes "NAME") (rows_for verb)) ≡ true }
    requires volume { kind_at (codes "volume") (rows_for verb) ≡ Some (kind.One form.Volume) }
    requires dectape { kind_at (codes "dectape") (rows_for verb) ≡ Some kind.Flag }
    requires plain { kind_at (codes "plain") (rows_for verb) ≡ Some kind.Flag }
    requires given { Has (codes "TAPE") (values_in found.now) }
    ensures { IfOk result (IsTape (values_in found.now)) }
{
    if has(found, "NAME") {
        let name = name_of(alloc, found, verb, "NAME")?;
        let image = image_of(alloc, found, verb, "TAPE")?;
        return Ok(TapeForm::Member(image, name));
    }
    Ok(TapeForm::File(value_of(alloc, found, verb, "TAPE")?))
}

/// The source that is to be written.
pub fn source(alloc: Global, found: &ArgMatches<'_>) -> Read<Task>
    requires { Needs verb.Source (values_in found.now) }
    ensures { IfOk result (IsAskedBy verb.Source (values_in found.now)) }
{
    Ok(Task::Source(SourceForm {
        tape: tape_if_given(alloc, found, Verb::Source)?,
        starts: cells_of(alloc, found, Verb::Source, "start")?,
        names: value_if_given(alloc, found, Verb::Source, "names")?,
        is_pal8: flag(found, Verb::Source, "pal8"),
    }))
}

/// The assembly that is asked for.
pub fn assemble(alloc: Global, found: &ArgMatches<'_>) -> Read<Task>
    requires { Needs verb.Assemble (values_in found.now) }
    ensures { IfOk result (IsAskedBy verb.Assemble (values_in found.now)) }
{
    let sources = sources_of(alloc, found)?;
    let from = volume_of_sources(alloc, found)?;
    let onto = name_if_given(alloc, found, Verb::Assemble, "onto")?;
    let output = value_if_given(alloc, found, Verb::Assemble, "output")?;
    let list = value_if_given(alloc, found, Verb::Assemble, "list")?;
    let Pal8Flags {
        is_without_links,
        is_without_zero,
        is_without_origin,
        has_stays,
    } = pal8_flags(found);
    Ok(Task::Assemble(AssembleForm {
        sources,
        from,
        onto,
        output,
        list,
        is_cross: flag(found, Verb::Assemble, "cross"),
        is_pal8: flag(found, Verb::Assemble, "pal8"),
        is_without_links,
        is_without_zero,
        is_without_origin,
        has_stays,
        has_notes: flag(found, Verb::Assemble, "notes"),
    }))
}

/// Which options say how PAL8 is read.
struct Pal8Flags {
    is_without_links: bool,
    is_without_zero: bool,
    is_without_origin: bool,
    has_stays: bool,
}

/// Those that are given.
fn pal8_flags(found: &ArgMatches<'_>) -> Pal8Flags
    ensures { result ≡ record {
      is_without_links = is_set (codes "no-links") (values_in found.now);
      is_without_zero = is_set (codes "text-without-zero") (values_in found.now);
      is_without_origin = is_set (codes "no-origin") (values_in found.now);
      has_stays = is_set (codes "stay") (values_in found.now);
    } }
{
    Pal8Flags {
        is_without_links: flag(found, Verb::Assemble, "no-links"),
        is_without_zero: flag(found, Verb::Assemble, "text-without-zero"),
        is_without_origin: flag(found, Verb::Assemble, "no-origin"),
        has_stays: flag(found, Verb::Assemble, "stay"),
    }
}

/// The sources: files of the volume that is named, or else of the host.
fn sources_of(alloc: Global, found: &ArgMatches<'_>) -> Read<Vec<String>>
    ensures { IfOk result (λ texts. spec.source_names (values_in found.now)
        ≡ map (λ text. text.bytes.items) texts.items) }
{
    if has(found, "from") {
        return names_of(alloc, found, Verb::Assemble, "FILE");
    }
    values_of(alloc, found, Verb::Assemble, "FILE")
}

/// The volume that has the sources, if one is named.
fn volume_of_sources(alloc: Global, found: &ArgMatches<'_>) -> Read<Option<ImageForm>>
    ensures { IfOk result (spec.IsFrom (values_in found.now)) }
{
    if !has(found, "from") {
        return Ok(None);
    }
    let image = changed_image(alloc, found, Verb::Assemble, "from")?;
    Ok(Some(image))
}

/// The run with the terminal as the Teletype.
pub fn teletype(alloc: Global, found: &ArgMatches<'_>) -> Read<Task>
    requires { Needs verb.Teletype (values_in found.now) }
    ensures { IfOk result (IsAskedBy verb.Teletype (values_in found.now)) }
{
    let tape = tape_of(alloc, found, Verb::Teletype)?;
    let console = console_of(alloc, found, Verb::Teletype, "rk0")?;
    Ok(Task::Teletype(TeletypeForm {
        tape,
        cpu: cpu_of(found, Verb::Teletype),
        start: cell_of(found, Verb::Teletype, "start"),
        console,
    }))
}

/// How a tape is to be traced or profiled.
pub fn trace_form(alloc: Global, found: &ArgMatches<'_>) -> Read<TraceForm>
    requires { Needs verb.Trace (values_in found.now) }
    ensures form { IfOk result (IsTraceForm (values_in found.now)) }
    ensures limit { IfOk result (λ form. IfSome form.steps (λ steps. 1 ≤ steps)) }
    ensures times { IfOk result (λ form. AreFitTimes form.disk) }
{
    let tape = tape_of(alloc, found, Verb::Trace)?;
    let disk = disk_of(alloc, found, Verb::Trace, "rk0")?;
    let devices = devices_of(alloc, found, Verb::Trace)?;
    let keys = value_if_given(alloc, found, Verb::Trace, "keys")?;
    Ok(TraceForm {
        tape,
        cpu: cpu_of(found, Verb::Trace),
        disk,
        devices,
        start: cell_of(found, Verb::Trace, "start"),
        switches: octal_of(found, Verb::Trace, "switches"),
        steps: count_of(found, Verb::Trace, "steps"),
        keys,
    })
}

/// The machine that is to run, an 8/I where none is named.
fn cpu_of(found: &ArgMatches<'_>, _verb: Verb) -> Cpu
    requires { kind_at (codes "cpu") (rows_for _verb) ≡ Some (kind.One form.Cpu) }
    ensures { result ≡ spec.cpu_of (values_in found.now) }
{
    match text_of(found, "cpu") {
        Some(text) => machine_named(text),
        None => Cpu::EightI,
    }
}

/// The machine of a name, 8i or 8e.
fn machine_named(name: &str) -> Cpu
    ensures { result ≡ spec.machine_named name.now }
{
    if name == "8e" {
        return Cpu::EightE;
    }
    Cpu::EightI
}

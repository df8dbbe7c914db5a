//! The files of the host that get a tape and a listing: none of them is one that was read, and they are two.
ghost use Rattle.std.specs.Prelude.{◌≡◌, map};
ghost use Rattle.image_files.specs.Places.{IsApart};
ghost use Rattle.assemble_commands.specs.Places as spec;
ghost use Rattle.assemble_commands.specs.Places.{AreApart, IsApartFromInputs, IsApartFromListing, KeepsInputs, KeepsListing, KeepsTape};

use crate::clashes::{STANDARD, tape_place};
use hosts::Host;
use image_files::keep_apart;
use outcome::{Content, Ending};
use program_tasks::AssembleForm;
use std::alloc::Global;

/// Ends the command where the listing or the tape would be written over what was read, or over each other, whatever their names are.
pub(crate) fn keep_inputs<H: Host>(
    host: &mut H,
    alloc: Global,
    form: &AssembleForm,
) -> Result<(), Ending>
    ensures { KeepsInputs form.now (H.history host.old) result (H.history host.new) }
{
    keep_listing(host, alloc, form)?;
    keep_tape(host, alloc, form)
}

/// The same of the listing, if there is one.
fn keep_listing<H: Host>(host: &mut H, alloc: Global, form: &AssembleForm) -> Result<(), Ending>
    ensures { KeepsListing form.now form.now.list (H.history host.old) result (H.history host.new) }
{
    match &form.list {
        None => Ok(()),
        Some(name) => keep_sources(
            host,
            alloc,
            Content::Listing,
            output_place(name.as_str()),
            form,
        ),
    }
}

/// The same of the tape, where it is to be no file of the volume.
fn keep_tape<H: Host>(host: &mut H, alloc: Global, form: &AssembleForm) -> Result<(), Ending>
    ensures { KeepsTape form.now (spec.tape_of form.now.onto form.now.output) (H.history host.old) result (H.history host.new) }
{
    match &form.onto {
        Some(_) => Ok(()),
        None => keep_tape_at(host, alloc, form, output_place(tape_place(form))),
    }
}

/// The same of a tape that goes to this place.
fn keep_tape_at<H: Host>(
    host: &mut H,
    alloc: Global,
    form: &AssembleForm,
    place: &str,
) -> Result<(), Ending>
    ensures { spec.KeepsTapeAt form.now place.now (H.history host.old) result (H.history host.new) }
{
    keep_sources(host, alloc, Content::Tape, place, form)?;
    keep_from_listing(host, alloc, place, &form.list)
}

/// Ends the command where the tape would be written over the listing.
fn keep_from_listing<H: Host>(
    host: &mut H,
    alloc: Global,
    place: &str,
    list: &Option<String>,
) -> Result<(), Ending>
    ensures { IsApartFromListing place.now list.now (H.history host.old) result (H.history host.new) }
{
    match list {
        None => Ok(()),
        Some(name) => keep_apart(
            host,
            alloc,
            Content::Tape,
            place,
            output_place(name.as_str()),
        ),
    }
}

/// Ends the command where this would be written over the image that has the sources, or over a source.
fn keep_sources<H: Host>(
    host: &mut H,
    alloc: Global,
    content: Content,
    place: &str,
    form: &AssembleForm,
) -> Result<(), Ending>
    ensures { IsApartFromInputs content place.now form.now form.now.from (H.history host.old) result (H.history host.new) }
{
    match &form.from {
        Some(image) => keep_apart(host, alloc, content, place, image.file.as_str()),
        None => keep_each(host, alloc, content, place, &form.sources),
    }
}

/// Ends the command where this would be written over one of these sources.
fn keep_each<H: Host>(
    host: &mut H,
    alloc: Global,
    content: Content,
    place: &str,
    sources: &[String],
) -> Result<(), Ending>
    ensures { AreApart content place.now (map (λ name. name.bytes.items) sources.now) (H.history host.old) result (H.history host.new) }
{
    let mut rest = sources;
    while let [source, others @ ..] = rest {
        keep_source(host, alloc, content, place, source.as_str())?;
        rest = others;
    }
    Ok(())
}

/// Ends the command where this would be written over a source.
fn keep_source<H: Host>(
    host: &mut H,
    alloc: Global,
    content: Content,
    place: &str,
    source: &str,
) -> Result<(), Ending>
    ensures { IsApart content place.now (spec.input_place source.now) (H.history host.old) result (H.history host.new) }
{
    keep_apart(host, alloc, content, place, input_place(source))
}

/// The name of what is read: `-` is standard input, which may be a file.
fn input_place(name: &str) -> &str
    ensures { result.now ≡ spec.input_place name.now }
{
    if name == STANDARD {
        return "/dev/stdin";
    }
    name
}

/// The name of what is written: `-` is standard output, which may be a file.
fn output_place(name: &str) -> &str
    ensures { result.now ≡ spec.output_place name.now }
{
    if name == STANDARD {
        return "/dev/stdout";
    }
    name
}

//! The command that assembles sources.
ghost use Rattle.std.specs.Prelude.{◌≡◌, true, map, option_copied};
ghost use Rattle.assemble_commands.specs.Assembling.{Assembles, AssemblesFrom, AssemblesTo, ListsTape, Makes, MakesIf, MakesNoted, NotesIf, TellsNotes, MakesPal3, MakesPal8, PrintsFaults, RefusesPal8, RefusesSources, TellsAny};
ghost use Rattle.assemble_commands.specs.Assembling as spec;

use crate::clashes::refuse_clash;
use crate::faults::{faults_text, pal8_faults_text};
use crate::outputs::{put_tape, write_listing, write_tape};
use crate::places::keep_inputs;
use crate::sources::{names_of, read_sources, slices_of};
use host_sources::{SourceFault, assemble_sources};
use hosts::Host;
use image_files::{Image, look_at, tell_line};
use outcome::Ending;
use pal8_listing::notes_text;
use pal8_places::Options;
use pal8_tape::{SourceFault as Pal8Fault, tape_of};
use program_tasks::{AssembleForm, ImageForm};
use refusals::SessionFault;
use source_listing::{ListingForm, list_sources};
use std::alloc::Global;

/// What sources are assembled to.
#[derive(Drop)]
pub struct Assembled {
    /// The frames of their BIN tape.
    pub tape: Vec<u8>,

    /// Their listing, if it is asked for.
    pub listing: Option<Vec<u8>>,
}

/// Assembles the sources in files, of the host or of a volume, to a tape, and lists them if that is asked for. Nothing is written where they
/// have a fault; the listing is written before the tape.
pub fn assemble_files<H: Host>(
    host: &mut H,
    alloc: Global,
    form: &AssembleForm,
) -> Result<(), Ending>
    ensures { Assembles form.now (H.history host.old) result (H.history host.new) }
{
    refuse_clash(host, alloc, form)?;
    match &form.from {
        None => assemble_to(host, alloc, form, None),
        Some(image) => assemble_from(host, alloc, form, image),
    }
}

/// Assembles the sources on the volume in an image file, which is held where it gets the tape.
fn assemble_from<H: Host>(
    host: &mut H,
    alloc: Global,
    form: &AssembleForm,
    image: &ImageForm,
) -> Result<(), Ending>
    ensures { AssemblesFrom form.now image.now form.now.onto (H.history host.old) result (H.history host.new) }
{
    match &form.onto {
        None => assemble_seen(host, alloc, form, image),
        Some(name) => assemble_onto(host, alloc, form, image, name.as_str()),
    }
}

/// Assembles the sources on the volume in an image file, which is only looked at.
fn assemble_seen<H: Host>(
    host: &mut H,
    alloc: Global,
    form: &AssembleForm,
    image: &ImageForm,
) -> Result<(), Ending>
    ensures { spec.AssemblesSeen form.now image.now (H.history host.old) result (H.history host.new) }
{
    let bytes = look_at(host, alloc, image)?;
    assemble_to(host, alloc, form, Some(bytes.as_slice()))
}

/// Assembles the sources on the volume in an image file, and puts the tape there.
fn assemble_onto<H: Host>(
    host: &mut H,
    alloc: Global,
    form: &AssembleForm,
    image: &ImageForm,
    name: &str,
) -> Result<(), Ending>
    ensures { spec.AssemblesOnto form.now image.now name.now (H.history host.old) result (H.history host.new) }
{
    let image = Image::open(host, alloc, image)?;
    let tape = list_tape(host, alloc, form, Some(image.bytes.as_slice()))?;
    put_tape(host, alloc, image, name, &tape)
}

/// Assembles sources, and writes the tape to a file of the host, or to standard output.
fn assemble_to<H: Host>(
    host: &mut H,
    alloc: Global,
    form: &AssembleForm,
    volume: Option<&[u8]>,
) -> Result<(), Ending>
    ensures { AssemblesTo (option_copied volume.entry) form.now (H.history host.old) result (H.history host.new) }
{
    let tape = list_tape(host, alloc, form, volume)?;
    write_tape(host, alloc, &form.output, &tape)
}

/// The tape of sources, which are read; their listing is written, if it is asked for. Nothing is written over what was read.
fn list_tape<H: Host>(
    host: &mut H,
    alloc: Global,
    form: &AssembleForm,
    volume: Option<&[u8]>,
) -> Result<Vec<u8>, Ending>
    ensures { ListsTape (option_copied volume.entry) form.now (H.history host.old) result (H.history host.new) }
{
    let texts = read_sources(host, alloc, volume, &form.sources)?;
    let made = assembled_texts(host, alloc, form, &texts)?;
    keep_inputs(host, alloc, form)?;
    write_listing(host, alloc, &form.list, &made.listing)?;
    Ok(made.tape)
}

/// What the texts of sources are assembled to.
fn assembled_texts<H: Host>(
    host: &mut H,
    alloc: Global,
    form: &AssembleForm,
    texts: &[Vec<u8>],
) -> Result<Assembled, Ending>
    ensures { Makes form.now (map (λ text. text.items) texts.now) (H.history host.old) result (H.history host.new) }
{
    let sources = slices_of(alloc, texts)?;
    let names = names_of(alloc, &form.sources)?;
    assembled_sources(host, alloc, form, &sources, &names)
}

fn assembled_sources<H: Host>(
    host: &mut H,
    alloc: Global,
    form: &AssembleForm,
    sources: &[&[u8]],
    names: &[&str],
) -> Result<Assembled, Ending>
    ensures { MakesIf form.now.is_pal8 form.now sources.now names.now (H.history host.old) result (H.history host.new) }
{
    if form.is_pal8 {
        return noted_pal8(host, alloc, form, sources, names);
    }
    if form.list.is_some() {
        return listed_sources(host, alloc, form.is_cross, sources, names);
    }
    match assemble_sources(alloc, sources) {
        Ok(tape) => Ok(Assembled {
            tape,
            listing: None,
        }),
        Err(fault) => Err(refuse_sources(host, alloc, sources, names, fault)),
    }
}

/// What PAL III sources are assembled to, with their listing.
fn listed_sources<H: Host>(
    host: &mut H,
    alloc: Global,
    is_cross: bool,
    sources: &[&[u8]],
    names: &[&str],
) -> Result<Assembled, Ending>
    ensures { MakesPal3 true is_cross sources.now names.now (H.history host.old) result (H.history host.new) }
{
    match list_sources(alloc, sources, listing_form(is_cross)) {
        Ok(listing) => Ok(Assembled {
            tape: listing.tape,
            listing: Some(listing.text),
        }),
        Err(fault) => Err(refuse_sources(host, alloc, sources, names, fault)),
    }
}

fn listing_form(is_cross: bool) -> ListingForm
    ensures { result ≡ spec.listing_form is_cross }
{
    if is_cross {
        return ListingForm::Cross;
    }
    ListingForm::Symbols
}

/// How the command ends where PAL III sources have this fault, which is printed with the further ones.
fn refuse_sources<H: Host>(
    host: &mut H,
    alloc: Global,
    sources: &[&[u8]],
    names: &[&str],
    fault: SourceFault,
) -> Ending
    ensures { RefusesSources sources.now names.now fault (H.history host.old) result (H.history host.new) }
{
    match fault {
        SourceFault::Memory => Ending::Fault(SessionFault::Memory),
        SourceFault::At(first) => match faults_text(alloc, sources, names, first) {
            Ok(text) => print_faults(host, &text),
            Err(ending) => ending,
        },
    }
}

/// How the command ends after the faults of its sources are printed.
fn print_faults<H: Host>(host: &mut H, text: &[u8]) -> Ending
    ensures { PrintsFaults text.now (H.history host.old) result (H.history host.new) }
{
    tell_line(host, text);
    Ending::Failure
}

/// How PAL8 is read.
fn options_of(form: &AssembleForm) -> Options
    ensures { result ≡ spec.options_of form.now }
{
    Options {
        is_without_links: form.is_without_links,
        is_without_zero: form.is_without_zero,
        is_without_origin: form.is_without_origin,
        has_stays: form.has_stays,
    }
}

/// What PAL8 sources are assembled to. The notes on them are printed, if they are asked for.
fn noted_pal8<H: Host>(
    host: &mut H,
    alloc: Global,
    form: &AssembleForm,
    sources: &[&[u8]],
    names: &[&str],
) -> Result<Assembled, Ending>
    ensures { MakesNoted form.now sources.now names.now (H.history host.old) result (H.history host.new) }
{
    let made = pal8_assembled(
        host,
        alloc,
        options_of(form),
        form.list.is_some(),
        form.is_cross,
        sources,
        names,
    )?;
    note_if(
        host,
        alloc,
        form.has_notes,
        options_of(form),
        sources,
        names,
    )?;
    Ok(made)
}

/// Prints the notes on PAL8 sources, if they are asked for.
fn note_if<H: Host>(
    host: &mut H,
    alloc: Global,
    is_so: bool,
    options: Options,
    sources: &[&[u8]],
    names: &[&str],
) -> Result<(), Ending>
    ensures { NotesIf is_so options sources.now names.now (H.history host.old) result (H.history host.new) }
{
    if !is_so {
        return Ok(());
    }
    tell_notes(host, alloc, options, sources, names)
}

/// Prints the notes on PAL8 sources, if there are any.
fn tell_notes<H: Host>(
    host: &mut H,
    alloc: Global,
    options: Options,
    sources: &[&[u8]],
    names: &[&str],
) -> Result<(), Ending>
    ensures { TellsNotes options sources.now names.now (H.history host.old) result (H.history host.new) }
{
    let text = notes_text(alloc, options, sources, names)?;
    tell_any(host, &text);
    Ok(())
}

/// Prints lines on standard error, if there are any.
fn tell_any<H: Host>(host: &mut H, lines: &[u8])
    ensures { TellsAny lines.now (H.history host.old) (H.history host.new) }
{
    match lines {
        [] => {}
        [_, ..] => tell_line(host, lines),
    }
}

/// What PAL8 sources are assembled to, with their listing if it is asked for.
fn pal8_assembled<H: Host>(
    host: &mut H,
    alloc: Global,
    options: Options,
    is_listed: bool,
    is_cross: bool,
    sources: &[&[u8]],
    names: &[&str],
) -> Result<Assembled, Ending>
    ensures { MakesPal8 is_listed is_cross options sources.now names.now (H.history host.old) result (H.history host.new) }
{
    if is_listed {
        return listed_pal8(host, alloc, options, is_cross, sources, names);
    }
    match tape_of(alloc, options, sources) {
        Ok(tape) => Ok(Assembled {
            tape,
            listing: None,
        }),
        Err(fault) => Err(refuse_pal8(host, alloc, options, sources, names, fault)),
    }
}

/// What PAL8 sources are assembled to, with their listing.
fn listed_pal8<H: Host>(
    host: &mut H,
    alloc: Global,
    options: Options,
    is_cross: bool,
    sources: &[&[u8]],
    names: &[&str],
) -> Result<Assembled, Ending>
    ensures { MakesPal8 true is_cross options sources.now names.now (H.history host.old) result (H.history host.new) }
{
    match pal8_listing::list_sources(alloc, options, sources, listing_form(is_cross)) {
        Ok(listing) => Ok(Assembled {
            tape: listing.tape,
            listing: Some(listing.text),
        }),
        Err(fault) => Err(refuse_pal8(host, alloc, options, sources, names, fault)),
    }
}

/// How the command ends where PAL8 sources have this fault, which is printed with the further ones.
fn refuse_pal8<H: Host>(
    host: &mut H,
    alloc: Global,
    options: Options,
    sources: &[&[u8]],
    names: &[&str],
    fault: Pal8Fault,
) -> Ending
    ensures { RefusesPal8 options sources.now names.now fault (H.history host.old) result (H.history host.new) }
{
    match fault {
        Pal8Fault::Memory => Ending::Fault(SessionFault::Memory),
        Pal8Fault::At(first) => match pal8_faults_text(alloc, options, sources, names, first) {
            Ok(text) => print_faults(host, &text),
            Err(ending) => ending,
        },
    }
}

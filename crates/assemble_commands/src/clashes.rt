//! Words by which two things would be written to one place, or one over a source.
ghost use Rattle.std.specs.Prelude.{◌≡◌, option_copied};
ghost use Rattle.assemble_commands.specs.Clashes as spec;
ghost use Rattle.assemble_commands.specs.Clashes.{RefusesClash};

use hosts::Host;
use image_files::tell_note;
use outcome::{Ending, NameNote, Note};
use program_tasks::{AssembleForm, ImageForm};
use std::alloc::Global;

/// The name of a standard stream where a file's may stand.
pub(crate) const STANDARD: &str = "-";

/// Refuses words that clash, with a note.
pub(crate) fn refuse_clash<H: Host>(
    host: &mut H,
    alloc: Global,
    form: &AssembleForm,
) -> Result<(), Ending>
    ensures { RefusesClash form.now (H.history host.old) result (H.history host.new) }
{
    if is_one_place(form) {
        return Err(refuse_name(host, alloc, NameNote::OnePlace, tape_place(form)));
    }
    match lost_source(form) {
        None => Ok(()),
        Some(name) => Err(refuse_name(host, alloc, NameNote::OverSource, name)),
    }
}

/// How the command ends whose words clash at a name, of which a note is printed.
fn refuse_name<H: Host>(host: &mut H, alloc: Global, note: NameNote, name: &str) -> Ending
    ensures { spec.IsRefusedAt note name.now (H.history host.old) result (H.history host.new) }
{
    match tell_note(host, alloc, Note::OnName(note, name)) {
        Ok(()) => Ending::Misuse,
        Err(error) => Ending::from(error),
    }
}

/// Where a tape goes that no volume gets.
pub(crate) fn tape_place(form: &AssembleForm) -> &str
    ensures { result.now ≡ spec.tape_place form.now.output }
{
    match &form.output {
        Some(name) => name.as_str(),
        None => STANDARD,
    }
}

/// Whether the tape and the listing would be written to one place.
fn is_one_place(form: &AssembleForm) -> bool
    ensures { result ≡ spec.is_one_place form.now }
{
    !form.onto.is_some() && is_listed_at(&form.list, tape_place(form))
}

fn is_listed_at(list: &Option<String>, place: &str) -> bool
    ensures { result ≡ spec.is_listed_at list.now place.now }
{
    match list {
        Some(name) => name.as_str() == place,
        None => false,
    }
}

/// The name of the source, or of the image that has them, that would be written over, if one would.
fn lost_source(form: &AssembleForm) -> Option<&str>
    ensures { option_copied result ≡ spec.lost_source form.now form.now.from }
{
    match &form.from {
        None => lost_file(form),
        Some(image) => lost_member(form, image),
    }
}

fn lost_file(form: &AssembleForm) -> Option<&str>
    ensures { option_copied result ≡ spec.lost_file form.now }
{
    if is_over_source(&form.output, &form.sources) {
        return given_text(&form.output);
    }
    if is_over_source(&form.list, &form.sources) {
        return given_text(&form.list);
    }
    None
}

fn lost_member<'a>(form: &'a AssembleForm, image: &ImageForm) -> Option<&'a str>
    ensures { option_copied result ≡ spec.lost_member form.now image.now }
{
    if is_over_source(&form.onto, &form.sources) {
        return given_text(&form.onto);
    }
    if is_over_image(&form.output, image) {
        return given_text(&form.output);
    }
    if is_over_image(&form.list, image) {
        return given_text(&form.list);
    }
    None
}

fn given_text(name: &Option<String>) -> Option<&str>
    ensures { option_copied result ≡ spec.name_given name.now }
{
    match name {
        Some(name) => Some(name.as_str()),
        None => None,
    }
}

/// Whether what is written to a name, if one is given, would be written over one of these sources.
fn is_over_source(name: &Option<String>, sources: &[String]) -> bool
    ensures { result ≡ spec.is_over_source name.now sources.now }
{
    match name {
        Some(name) => name.as_str() != STANDARD && is_among(name.as_str(), sources),
        None => false,
    }
}

/// Whether one of these words is a name.
fn is_among(name: &str, words: &[String]) -> bool
    ensures { result ≡ spec.is_among name.now words.now }
{
    let mut rest = words;
    while let [word, others @ ..] = rest {
        if word.as_str() == name {
            return true;
        }
        rest = others;
    }
    false
}

/// Whether what is written to a name, if one is given, would be written over the image that has the sources.
fn is_over_image(name: &Option<String>, image: &ImageForm) -> bool
    ensures { result ≡ spec.is_over_image name.now image.now }
{
    match name {
        Some(name) => image.file.as_str() == name.as_str(),
        None => false,
    }
}

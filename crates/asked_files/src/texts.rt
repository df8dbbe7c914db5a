//! Which of several files are texts.
ghost use Rattle.std.specs.Prelude.{◌≡◌, map, slice_get, OnOk, OnErr};
ghost use Rattle.asked_files.specs.Texts as spec;
ghost use Rattle.asked_files.specs.Texts.{TakesLists, TellsBadList, TellsFrames};
ghost use Rattle.outcome.specs.declared.notes.NameNote.TheVariants.{PutAsFrames};

use archive_files::{GetForm, PutForm};
use archive_many::{VolumeFile, bad_extensions, is_named, is_text};
use hosts::Host;
use image_files::tell_note;
use os8_dir::Name;
use outcome::{Ending, NameNote, Note};
use program_tasks::{GetManyForm, TextsForm};
use std::alloc::{AllocError, Global};

/// Refuses words that are no lists of extensions, and prints the first of them.
pub fn take_lists<H: Host>(host: &mut H, alloc: Global, texts: &TextsForm) -> Result<(), Ending>
    ensures { TakesLists texts.now (H.history host.old) result (H.history host.new) }
{
    match bad_extensions(&texts.extensions) {
        None => Ok(()),
        Some(place) => match tell_bad_list(host, alloc, &texts.extensions, place) {
            Ok(()) => Err(Ending::Misuse),
            Err(error) => Err(Ending::from(error)),
        },
    }
}

/// Prints which of some words is no list of extensions, by its place, counted from 0.
fn tell_bad_list<H: Host>(
    host: &mut H,
    alloc: Global,
    lists: &[String],
    place: usize,
) -> Result<(), AllocError>
    ensures told { OnOk result (TellsBadList (slice_get (map (λ list. list.bytes.items) lists.now) place) (H.history host.old) (H.history host.new)) }
    ensures wanted { OnErr result (H.history host.new ≡ H.history host.old) }
{
    match lists.get(place) {
        None => Ok(()),
        Some(list) => tell_note(
            host,
            alloc,
            Note::OnName(NameNote::BadExtensions, list.as_str()),
        ),
    }
}

/// Whether some files are asked for as texts.
fn are_asked(texts: &TextsForm) -> bool
    ensures { result ≡ spec.are_asked texts.now }
{
    texts.is_usual || !texts.extensions.is_empty()
}

/// Whether a file of the host with this name on the volume is put as a text. Each is named.
fn is_put_text(texts: &TextsForm, name: Name) -> bool
    ensures { result ≡ spec.is_put_text texts.now name }
{
    texts.is_usual || is_text(name, false, &texts.extensions)
}

/// What a file of the host is put as.
pub fn put_form(texts: &TextsForm, name: Name) -> PutForm
    ensures { result ≡ spec.put_form texts.now name }
{
    if is_put_text(texts, name) {
        return PutForm::Text;
    }
    PutForm::Frames
}

/// Prints the path of a file of the host that is put as frames, where others are put as texts.
pub fn note_put<H: Host>(
    host: &mut H,
    alloc: Global,
    texts: &TextsForm,
    path: &str,
    name: Name,
) -> Result<(), AllocError>
    ensures told { OnOk result (TellsFrames PutAsFrames (spec.is_put_noted texts.now name) path.now (H.history host.old) (H.history host.new)) }
    ensures wanted { OnErr result (H.history host.new ≡ H.history host.old) }
{
    if !are_asked(texts) || is_put_text(texts, name) {
        return Ok(());
    }
    tell_note(host, alloc, Note::OnName(NameNote::PutAsFrames, path))
}

/// Whether a file of the volume is got as a text.
fn is_got_text(form: &GetManyForm, file: &VolumeFile) -> bool
    ensures { result ≡ spec.is_got_text form.now file.now }
{
    is_text(file.name, form.texts.is_usual, &form.texts.extensions)
        || (form.texts.is_usual && is_named(file, &form.names, &form.places))
}

/// What is given of a file of the volume.
pub fn get_form(form: &GetManyForm, file: &VolumeFile) -> GetForm
    ensures { result ≡ spec.get_form form.now file.now }
{
    if is_got_text(form, file) {
        return GetForm::Text;
    }
    GetForm::Frames
}

/// Whether a file of the volume is got as frames, where others are got as texts.
pub fn is_got_noted(form: &GetManyForm, file: &VolumeFile) -> bool
    ensures { result ≡ spec.is_got_noted form.now file.now }
{
    are_asked(&form.texts) && !is_got_text(form, file)
}

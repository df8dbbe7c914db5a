//! The command that puts files of the host on the volume in an image file, which is written once, and only once the whole new image stands in
//! memory.
ghost use Rattle.std.specs.Prelude.{◌≡◌, ◌++◌, false, true, map, option_copied, slice_get, OnOk, OnErr};
ghost use Rattle.outcome.specs.declared.endings.Ending.TheVariants.{Fault};
ghost use Rattle.archive_many.specs.Putting.{given_count, info_words, larger_of, most_wanted, words_wanted};
ghost use Rattle.image_files.specs.Answers.{AreLines};
ghost use Rattle.image_files.specs.Stored as put_spec;
ghost use Rattle.image_files.specs.Stored.{TellsBad};
ghost use Rattle.put_commands.specs.Putting as spec;
ghost use Rattle.put_commands.specs.Putting.{FindsFiles, JudgesInfo, JudgesPut, KeepsIf, KeepsWords, MakesMany, NotesDates, Puts, PutsFiles, RefusesLoss, TellsEmpty, TellsPath, TellsText, loss_from, paths_of, told_paths};
ghost use Rattle.put_commands.specs.PutSteps.{IsFileRefused, IsNotPut, IsTextRefused};

use crate::host_files::read_files;
use archive_files::bad_text_at;
use archive_many::{ManyFault, ManyImage, NewFile, VolumeFile, empties, open, put_all};
use asked_files::take_lists;
use hosts::Host;
use image_files::{
    Image, note_files, note_year, put_stored, refuse_image, store, take_words, tell_note,
};
use os8_dir::FileFault;
use outcome::{Ending, NameNote, Note};
use program_tasks::PutFilesForm;
use refusals::SessionFault;
use std::alloc::{AllocError, Global};
use word12::Word;

/// Makes files of the host files of the volume in an image file, all or none, and reports each.
pub fn put_files<H: Host>(host: &mut H, alloc: Global, form: &PutFilesForm) -> Result<(), Ending>
    ensures { Puts form.now (H.history host.old) result (H.history host.new) }
{
    take_lists(host, alloc, &form.texts)?;
    let image = Image::open(host, alloc, &form.image)?;
    let files = read_files(host, alloc, form)?;
    put_into(host, alloc, form, image, &files)
}

/// Puts these files on the volume in an image.
fn put_into<H: Host>(
    host: &mut H,
    alloc: Global,
    form: &PutFilesForm,
    image: Image,
    files: &[NewFile],
) -> Result<(), Ending>
    ensures { PutsFiles form.now image files.now (H.history host.old) result (H.history host.new) }
{
    judge_put(host, alloc, form, files, &image.bytes)?;
    let new = image_with(host, alloc, form, files, &image.bytes)?;
    let lines = stored_lines(alloc, files, &new.blocks)?;
    store(host, alloc, image, &new.bytes, &lines)
}

/// Refuses what would lose words of older files, or information words that are given. Then it prints how a date will be shown that is shown otherwise.
fn judge_put<H: Host>(
    host: &mut H,
    alloc: Global,
    form: &PutFilesForm,
    files: &[NewFile],
    image: &[u8],
) -> Result<(), Ending>
    ensures { JudgesPut form.now files.now image.now (H.history host.old) result (H.history host.new) }
{
    keep_words(host, alloc, form, files, image)?;
    judge_info(host, alloc, form, files, image)
}

/// Refuses information words for which there is no room, and prints how a date will be shown that is shown otherwise.
fn judge_info<H: Host>(
    host: &mut H,
    alloc: Global,
    form: &PutFilesForm,
    files: &[NewFile],
    image: &[u8],
) -> Result<(), Ending>
    ensures { JudgesInfo form.now files.now image.now (H.history host.old) result (H.history host.new) }
{
    take_words(host, alloc, image, most_wanted(form, files))?;
    note_dates(host, alloc, form, files, image)
}

/// Prints how dates of the files, where these are asked for, or else a date that is given will be shown that are shown otherwise.
fn note_dates<H: Host>(
    host: &mut H,
    alloc: Global,
    form: &PutFilesForm,
    files: &[NewFile],
    image: &[u8],
) -> Result<(), Ending>
    ensures { NotesDates form.now.is_dated form.now files.now image.now (H.history host.old) result (H.history host.new) }
{
    if form.is_dated {
        return note_files(host, alloc, image, files);
    }
    note_year(host, alloc, image, info_of(&form.info), form.year)
}

/// Refuses files of no byte that would replace files of the volume in an image, unless that is asked for.
fn keep_words<H: Host>(
    host: &mut H,
    alloc: Global,
    form: &PutFilesForm,
    files: &[NewFile],
    image: &[u8],
) -> Result<(), Ending>
    ensures { KeepsWords form.now files.now image.now (H.history host.old) result (H.history host.new) }
{
    if form.may_empty || !has_empty(files) {
        return Ok(());
    }
    keep_all(host, alloc, form, files, image)
}

/// Refuses files of no byte that would replace files of the volume in an image, which is read for them once.
fn keep_all<H: Host>(
    host: &mut H,
    alloc: Global,
    form: &PutFilesForm,
    files: &[NewFile],
    image: &[u8],
) -> Result<(), Ending>
    ensures { KeepsIf false (paths_of form.now) files.now image.now (H.history host.old) result (H.history host.new) }
{
    let older = files_on(host, alloc, image)?;
    let loss = loss_in(&older, files);
    refuse_loss(host, alloc, &form.files, loss)
}

/// Whether one of these files has no byte.
fn has_empty(files: &[NewFile]) -> bool
    ensures { result ≡ spec.has_empty files.now }
{
    let mut rest = files;
    while let [file, others @ ..] = rest {
        if file.bytes.is_empty() {
            return true;
        }
        rest = others;
    }
    false
}

/// The files of the volume in an image.
fn files_on<H: Host>(host: &mut H, alloc: Global, image: &[u8]) -> Result<Vec<VolumeFile>, Ending>
    ensures { FindsFiles image.now (H.history host.old) result (H.history host.new) }
{
    match open(alloc, image) {
        Ok(volume) => {
            let files = volume.files(alloc)?;
            Ok(files)
        }
        Err(fault) => Err(refuse_image(host, image.len(), fault)),
    }
}

/// The place of the first file of no byte that would replace one of these, counted from 0.
fn loss_in(older: &[VolumeFile], files: &[NewFile]) -> Option<usize>
    ensures { result ≡ loss_from older.now 0 files.now }
{
    let mut place: usize = 0;
    let mut rest = files;
    while let [file, others @ ..] = rest {
        if empties(older, file.name, &file.bytes) {
            return Some(place);
        }
        place += 1;
        rest = others;
    }
    None
}

/// Refuses the file of no byte at this place, if there is one, and prints its path.
fn refuse_loss<H: Host>(
    host: &mut H,
    alloc: Global,
    paths: &[String],
    loss: Option<usize>,
) -> Result<(), Ending>
    ensures { RefusesLoss (map (λ path. path.bytes.items) paths.now) loss (H.history host.old) result (H.history host.new) }
{
    match loss {
        None => Ok(()),
        Some(place) => match tell_empty(host, alloc, paths, place) {
            Ok(()) => Err(Ending::Fault(SessionFault::File(FileFault::NothingWritten))),
            Err(error) => Err(Ending::from(error)),
        },
    }
}

/// Prints the path at a place as that of a file of no byte.
fn tell_empty<H: Host>(
    host: &mut H,
    alloc: Global,
    paths: &[String],
    place: usize,
) -> Result<(), AllocError>
    ensures told { OnOk result (TellsEmpty (slice_get (map (λ path. path.bytes.items) paths.now) place) (H.history host.old) (H.history host.new)) }
    ensures wanted { OnErr result (H.history host.new ≡ H.history host.old) }
{
    match paths.get(place) {
        None => Ok(()),
        Some(path) => tell_note(host, alloc, Note::OnName(NameNote::Empty, path.as_str())),
    }
}

/// The image with these files.
fn image_with<H: Host>(
    host: &mut H,
    alloc: Global,
    form: &PutFilesForm,
    files: &[NewFile],
    image: &[u8],
) -> Result<ManyImage, Ending>
    ensures { MakesMany form.now files.now image.now (H.history host.old) result (H.history host.new) }
{
    match put_all(alloc, image, files, given_words(&form.info)) {
        Ok(new) => Ok(new),
        Err(fault) => Err(refuse_many(host, alloc, paths_told(form), files, image.len(), fault)),
    }
}

/// The paths that are printed where a file is not put: none where a name is given, which gets the only file.
fn paths_told(form: &PutFilesForm) -> &[String]
    ensures { map (λ path. path.bytes.items) result.now ≡ told_paths form.now }
{
    match &form.name {
        Some(_) => &[],
        None => form.files.as_slice(),
    }
}

/// How the command ends if a file of it is refused, or its image of so many bytes. What may help is printed.
fn refuse_many<H: Host>(
    host: &mut H,
    alloc: Global,
    paths: &[String],
    files: &[NewFile],
    size: usize,
    fault: ManyFault,
) -> Ending
    ensures { IsNotPut (map (λ path. path.bytes.items) paths.now) files.now fault size (H.history host.old) result (H.history host.new) }
{
    match fault {
        ManyFault::Archive(fault) => refuse_image(host, size, fault),
        ManyFault::File(place, fault) => refuse_file(host, alloc, paths, files, place, fault),
    }
}

/// How it ends where the file at a place is refused.
fn refuse_file<H: Host>(
    host: &mut H,
    alloc: Global,
    paths: &[String],
    files: &[NewFile],
    place: usize,
    fault: SessionFault,
) -> Ending
    ensures { IsFileRefused (map (λ path. path.bytes.items) paths.now) files.now place fault (H.history host.old) result (H.history host.new) }
{
    match tell_path(host, alloc, paths, place) {
        Ok(()) => refuse_text(host, alloc, files, place, fault),
        Err(error) => Ending::from(error),
    }
}

/// Prints the path at a place as that of a file that is not put.
fn tell_path<H: Host>(
    host: &mut H,
    alloc: Global,
    paths: &[String],
    place: usize,
) -> Result<(), AllocError>
    ensures told { OnOk result (TellsPath (slice_get (map (λ path. path.bytes.items) paths.now) place) (H.history host.old) (H.history host.new)) }
    ensures wanted { OnErr result (H.history host.new ≡ H.history host.old) }
{
    match paths.get(place) {
        None => Ok(()),
        Some(path) => tell_note(host, alloc, Note::OnName(NameNote::NotPut, path.as_str())),
    }
}

/// How it ends where the file at a place is refused for this. Of a text it is printed where it has a byte that may not stand in one.
fn refuse_text<H: Host>(
    host: &mut H,
    alloc: Global,
    files: &[NewFile],
    place: usize,
    fault: SessionFault,
) -> Ending
    ensures { IsTextRefused files.now place fault (H.history host.old) result (H.history host.new) }
{
    if !is_bad(&fault) {
        return Ending::Fault(fault);
    }
    match tell_text(host, alloc, files, place) {
        Ok(()) => Ending::Fault(fault),
        Err(error) => Ending::from(error),
    }
}

/// Whether a text is refused.
fn is_bad(fault: &SessionFault) -> bool
    ensures { result ≡ put_spec.is_bad fault.now }
{
    match fault {
        SessionFault::BadText => true,
        _ => false,
    }
}

/// Prints where the text at a place has the first byte that may not stand in one.
fn tell_text<H: Host>(
    host: &mut H,
    alloc: Global,
    files: &[NewFile],
    place: usize,
) -> Result<(), AllocError>
    ensures told { OnOk result (TellsText true (slice_get files.now place) (H.history host.old) (H.history host.new)) }
    ensures wanted { OnErr result (H.history host.new ≡ H.history host.old) }
{
    match files.get(place) {
        None => Ok(()),
        Some(file) => tell_bad_text(host, alloc, &file.bytes),
    }
}

fn tell_bad_text<H: Host>(host: &mut H, alloc: Global, text: &[u8]) -> Result<(), AllocError>
    ensures told { OnOk result (TellsBad text.now (H.history host.old) (H.history host.new)) }
    ensures wanted { OnErr result (H.history host.new ≡ H.history host.old) }
{
    match bad_text_at(text) {
        Some(place) => tell_note(host, alloc, Note::OnText(place)),
        None => Ok(()),
    }
}

/// The lines of files that were put, which have so many blocks.
fn stored_lines(alloc: Global, files: &[NewFile], blocks: &[usize]) -> Result<Vec<u8>, Ending>
    ensures { AreLines (spec.stored_lines files.now blocks.now) result }
{
    let mut lines = Vec::new(alloc);
    put_lines(files, blocks, &mut lines)?;
    Ok(lines)
}

/// Appends the lines of files that were put.
fn put_lines(files: &[NewFile], blocks: &[usize], lines: &mut Vec<u8>) -> Result<(), AllocError>
    ensures { OnOk result (lines.new.items ≡ lines.old.items ++ spec.stored_lines files.now blocks.now) }
{
    let mut rest = files;
    let mut counts = blocks;
    while let [file, others @ ..] = rest {
        let [count, later @ ..] = counts else {
            return Ok(());
        };
        put_stored(file.name, *count, lines)?;
        rest = others;
        counts = later;
    }
    Ok(())
}

/// The most information words that one of the files is to have.
fn most_wanted(form: &PutFilesForm, files: &[NewFile]) -> usize
    ensures { result ≡ most_wanted 0 (given_count (put_spec.words_of form.now.info)) files.now }
{
    let given = given_count(&form.info);
    let mut most: usize = 0;
    let mut rest = files;
    while let [file, others @ ..] = rest {
        most = larger_of(most, words_wanted(given, file.date));
        rest = others;
    }
    most
}

fn larger_of(one: usize, other: usize) -> usize
    ensures { result ≡ larger_of one other }
{
    if one < other {
        return other;
    }
    one
}

/// How many information words a file is to have: its date alone, or as many as are given.
fn words_wanted(given: usize, date: Option<Word>) -> usize
    ensures { result ≡ words_wanted given date }
{
    match date {
        Some(_) => 1,
        None => given,
    }
}

/// How many information words are given.
fn given_count(info: &Option<Vec<Word>>) -> usize
    ensures { result ≡ given_count (put_spec.words_of info.now) }
{
    match info {
        Some(words) => words.len(),
        None => 0,
    }
}

/// The information words that are given.
fn info_of(info: &Option<Vec<Word>>) -> &[Word]
    ensures { result.now ≡ info_words (put_spec.words_of info.now) }
{
    match info {
        Some(words) => words.as_slice(),
        None => &[],
    }
}

/// The information words that are given, if any are.
fn given_words(info: &Option<Vec<Word>>) -> Option<&[Word]>
    ensures { option_copied result ≡ put_spec.words_of info.now }
{
    match info {
        Some(words) => Some(words.as_slice()),
        None => None,
    }
}

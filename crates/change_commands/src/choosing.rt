//! Which files of the volume in an image are taken out: those of names and of first blocks, or where a pattern is among the words, those that
//! they choose.
ghost use Rattle.std.specs.Prelude.{◌≡◌, ◌++◌, false, IfOk, OnOk, OnErr, Some, map, slice_get};
ghost use Rattle.archive_files.specs.Asking.{AtBlock, OfName, target_of};
ghost use Rattle.os8_dir.specs.declared.file_faults.FileFault.TheVariants.{NotFound};
ghost use Rattle.archive_many.specs.Wishing.{by_place, file_of, found_files, is_file};
ghost use Rattle.change_commands.specs.Choosing.{AreWished, Chooses, FindsAll, MeansFiles, TellsRefused, word_at};
ghost use Rattle.change_commands.specs.ChoiceSteps.{IsRefused, IsToldOf};

use archive_files::Asked;
use archive_many::{OpenVolume, Wish, first_unfound, wishes_of};
use asked_files::{add_place, files_named};
use hosts::Host;
use image_files::{open_volume, tell_note};
use name_spelling::has_pattern;
use os8_files::FileFault;
use outcome::{Ending, NameNote, Note};
use program_tasks::DeleteForm;
use refusals::SessionFault;
use std::alloc::{AllocError, Global};

/// The files of the volume in an image that are meant.
pub(crate) fn files_meant<H: Host>(
    host: &mut H,
    alloc: Global,
    form: &DeleteForm,
    image: &[u8],
) -> Result<Vec<Asked>, Ending>
    ensures { MeansFiles form.now image.now (H.history host.old) result (H.history host.new) }
{
    if has_pattern(&form.names) {
        return files_chosen(host, alloc, form, image);
    }
    files_named(alloc, form)
}

/// The files that the words choose of the volume in an image.
fn files_chosen<H: Host>(
    host: &mut H,
    alloc: Global,
    form: &DeleteForm,
    image: &[u8],
) -> Result<Vec<Asked>, Ending>
    ensures { Chooses form.now image.now (H.history host.old) result (H.history host.new) }
{
    let volume = open_volume(host, alloc, image)?;
    let wishes = wishes_on(alloc, form, &volume)?;
    files_found(host, alloc, form, &wishes)
}

/// What the words and the blocks ask for of a volume.
fn wishes_on(alloc: Global, form: &DeleteForm, volume: &OpenVolume) -> Result<Vec<Wish>, Ending>
    ensures { AreWished form.now volume.now result }
{
    let files = volume.files(alloc)?;
    let wishes = wishes_of(alloc, &files, false, &form.names, &form.places)?;
    Ok(wishes)
}

/// The files that are asked for, unless one is not found.
fn files_found<H: Host>(
    host: &mut H,
    alloc: Global,
    form: &DeleteForm,
    wishes: &[Wish],
) -> Result<Vec<Asked>, Ending>
    ensures { FindsAll form.now wishes.now (H.history host.old) result (H.history host.new) }
{
    match first_unfound(wishes) {
        Some(wish) => Err(refuse_wish(host, alloc, form, wish)),
        None => {
            let files = files_of(alloc, wishes)?;
            Ok(files)
        }
    }
}

/// The files that are asked for.
fn files_of(alloc: Global, wishes: &[Wish]) -> Result<Vec<Asked>, AllocError>
    ensures { IfOk result (λ files. map target_of files.items ≡ map by_place (found_files wishes.now)) }
{
    let mut files = Vec::new(alloc);
    let mut rest = wishes;
    while let [wish, others @ ..] = rest {
        add_wish(wish, &mut files)?;
        rest = others;
    }
    Ok(files)
}

/// Appends the file that is asked for, if one is.
fn add_wish(wish: &Wish, files: &mut Vec<Asked>) -> Result<(), AllocError>
    ensures { OnOk result (map target_of files.new.items ≡ map target_of files.old.items ++ map by_place (file_of wish.now)) }
{
    match wish {
        Wish::File(file) => add_place(file.place, files),
        Wish::BadWord(_) | Wish::NotFound(_) | Wish::Block(_) => Ok(()),
    }
}

/// How the command ends where a word, or a block, asks for no file. It is printed.
fn refuse_wish<H: Host>(host: &mut H, alloc: Global, form: &DeleteForm, wish: Wish) -> Ending
    requires { is_file wish ≡ false }
    ensures { IsRefused form.now wish (H.history host.old) result (H.history host.new) }
{
    match wish {
        Wish::File(_) => unreachable!(),
        Wish::BadWord(place) => refuse_word(host, alloc, form, place, FileFault::BadName),
        Wish::NotFound(place) => refuse_word(host, alloc, form, place, FileFault::NotFound),
        Wish::Block(block) => refuse_block(host, alloc, block),
    }
}

/// How the command ends where the word of a place asks for no file.
fn refuse_word<H: Host>(
    host: &mut H,
    alloc: Global,
    form: &DeleteForm,
    place: usize,
    why: FileFault,
) -> Ending
    ensures { IsToldOf (word_at form.now place) why (H.history host.old) result (H.history host.new) }
{
    match tell_word(host, alloc, &form.names, place) {
        Ok(()) => Ending::Fault(SessionFault::File(why)),
        Err(error) => Ending::from(error),
    }
}

/// How the command ends where no file begins at a block.
fn refuse_block<H: Host>(host: &mut H, alloc: Global, block: usize) -> Ending
    ensures { IsToldOf (Some (AtBlock block)) NotFound (H.history host.old) result (H.history host.new) }
{
    match tell_note(host, alloc, Note::OnBlock(block)) {
        Ok(()) => Ending::Fault(SessionFault::File(FileFault::NotFound)),
        Err(error) => Ending::from(error),
    }
}

/// Prints that the word of a place is refused.
fn tell_word<H: Host>(
    host: &mut H,
    alloc: Global,
    words: &[String],
    place: usize,
) -> Result<(), AllocError>
    ensures told { OnOk result (TellsRefused (slice_get (map (λ word. OfName word.bytes.items) words.now) place) (H.history host.old) (H.history host.new)) }
    ensures wanted { OnErr result (H.history host.new ≡ H.history host.old) }
{
    match words.get(place) {
        None => Ok(()),
        Some(word) => tell_note(
            host,
            alloc,
            Note::OnName(NameNote::NotDeleted, word.as_str()),
        ),
    }
}

/// Prints that a file is refused.
pub(crate) fn tell_file<H: Host>(
    host: &mut H,
    alloc: Global,
    file: &Asked,
) -> Result<(), AllocError>
    ensures told { OnOk result (TellsRefused (Some (target_of file.now)) (H.history host.old) (H.history host.new)) }
    ensures wanted { OnErr result (H.history host.new ≡ H.history host.old) }
{
    match file {
        Asked::Name(name) => tell_note(
            host,
            alloc,
            Note::OnName(NameNote::NotDeleted, name.as_str()),
        ),
        Asked::At(block) => tell_note(host, alloc, Note::OnBlock(*block)),
    }
}

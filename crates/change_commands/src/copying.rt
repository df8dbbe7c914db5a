//! The command that copies files of the volume in an image file to the volume in another, or one under a new name in the same one, all or none.
ghost use Rattle.std.specs.Prelude.{◌≡◌, ◌++◌, ◌∷◌, [], false, IfOk, OnOk, length, map, option_copied};
ghost use Rattle.archive_files.specs.Asking.{target_of};
ghost use Rattle.archive_many.specs.Cutting.{CutsFiles};
ghost use Rattle.image_files.specs.Answers.{Answers, AreLines};
ghost use Rattle.image_files.specs.Pairs as one;
ghost use Rattle.change_commands.specs.Copying as spec;
ghost use Rattle.change_commands.specs.Copying.{Copies, CopiesFrom, CopiesInto, FindsAll, FindsChosen, FindsFiles, FindsLike, FindsOne, OpensFrom, PutsFiles, TellsCopies, copy_lines};

use crate::refusing::{refuse_copies, refuse_wish};
use archive_files::{ArchiveFault, Asked};
use archive_many::{
    OpenVolume, VolumeFile, Wish, copy_all, copy_name, cut_files, file_asked, first_unfound, open,
};
use asked_files::{files_of, wishes_on};
use hosts::Host;
use image_files::{Image, answer_of, is_one_image, look_at, put_stored, refuse_one, store};
use outcome::Ending;
use program_tasks::{CopyChoice, CopyForm, ImageForm};
use refusals::SessionFault;
use std::alloc::{AllocError, Global};
use volume_salvage::put_cut;

/// Copies those files of the volume in an image file that are chosen to the volume in another, or in the same one, all or none, and reports each.
pub fn copy_files<H: Host>(host: &mut H, alloc: Global, form: &CopyForm) -> Result<(), Ending>
    ensures { Copies form.now (H.history host.old) result (H.history host.new) }
{
    let image = Image::open(host, alloc, &form.to)?;
    copy_to(host, alloc, form, image)
}

/// Copies them to the volume in an image.
fn copy_to<H: Host>(
    host: &mut H,
    alloc: Global,
    form: &CopyForm,
    image: Image,
) -> Result<(), Ending>
    ensures { CopiesFrom (one.is_one_image form.now.image form.now.to) form.now image (H.history host.old) result (H.history host.new) }
{
    if is_one_image(&form.image, &form.to) {
        return copy_within(host, alloc, form, image);
    }
    copy_between(host, alloc, form, image)
}

/// Copies them within one image.
fn copy_within<H: Host>(
    host: &mut H,
    alloc: Global,
    form: &CopyForm,
    image: Image,
) -> Result<(), Ending>
    ensures { CopiesInto form.now image image.bytes.items (H.history host.old) result (H.history host.new) }
{
    let files = find_files(host, alloc, form, &image.bytes)?;
    let new = image_with(host, alloc, form, &image.bytes, &files, &image)?;
    let lines = copied_lines(host, alloc, form, &image.bytes, &files, &image)?;
    store(host, alloc, image, &new, &lines)
}

/// Copies them from another image file, which is read.
fn copy_between<H: Host>(
    host: &mut H,
    alloc: Global,
    form: &CopyForm,
    image: Image,
) -> Result<(), Ending>
    ensures { CopiesFrom false form.now image (H.history host.old) result (H.history host.new) }
{
    let from = look_at(host, alloc, &form.image)?;
    let files = find_files(host, alloc, form, &from)?;
    let new = image_with(host, alloc, form, &from, &files, &image)?;
    let lines = copied_lines(host, alloc, form, &from, &files, &image)?;
    store(host, alloc, image, &new, &lines)
}

/// The files of an image that are chosen.
fn find_files<H: Host>(
    host: &mut H,
    alloc: Global,
    form: &CopyForm,
    from: &[u8],
) -> Result<Vec<VolumeFile>, Ending>
    ensures { FindsFiles form.now from.now (H.history host.old) result (H.history host.new) }
{
    let volume = open_from(host, alloc, form, from)?;
    find_chosen(host, alloc, form, from.len(), &volume)
}

/// The volume in the image that has the files. Where it is refused, that is printed.
fn open_from<H: Host>(
    host: &mut H,
    alloc: Global,
    form: &CopyForm,
    from: &[u8],
) -> Result<OpenVolume, Ending>
    ensures { OpensFrom form.now from.now (H.history host.old) result (H.history host.new) }
{
    match open(alloc, from) {
        Ok(volume) => Ok(volume),
        Err(fault) => Err(refuse_one(host, alloc, form.image.file.as_str(), from.len(), fault)),
    }
}

/// The files of a volume, in an image of so many bytes, that are chosen.
fn find_chosen<H: Host>(
    host: &mut H,
    alloc: Global,
    form: &CopyForm,
    size: usize,
    volume: &OpenVolume,
) -> Result<Vec<VolumeFile>, Ending>
    ensures { FindsChosen form.now.image form.now.files size volume.now (H.history host.old) result (H.history host.new) }
{
    match &form.files {
        CopyChoice::One(file, _) => find_one(host, alloc, &form.image, size, file, volume),
        CopyChoice::Like(words, _) => find_like(host, alloc, words, volume),
    }
}

/// The one file that is asked for. Where there is none, which image refuses is printed.
fn find_one<H: Host>(
    host: &mut H,
    alloc: Global,
    image: &ImageForm,
    size: usize,
    asked: &Asked,
    volume: &OpenVolume,
) -> Result<Vec<VolumeFile>, Ending>
    ensures { FindsOne image.now size (target_of asked.now) volume.now (H.history host.old) result (H.history host.new) }
{
    let files = volume.files(alloc)?;
    match file_asked(asked, &files) {
        Ok(file) => {
            let found = one_alone(alloc, file)?;
            Ok(found)
        }
        Err(why) => {
            let fault = ArchiveFault::Refused(SessionFault::File(why));
            Err(refuse_one(host, alloc, image.file.as_str(), size, fault))
        }
    }
}

fn one_alone(alloc: Global, file: VolumeFile) -> Result<Vec<VolumeFile>, AllocError>
    ensures { IfOk result (λ files. files.items ≡ file ∷ []) }
{
    let mut files = Vec::new(alloc);
    files.push(file)?;
    Ok(files)
}

/// The files that the words choose.
fn find_like<H: Host>(
    host: &mut H,
    alloc: Global,
    words: &[String],
    volume: &OpenVolume,
) -> Result<Vec<VolumeFile>, Ending>
    ensures { FindsLike (map (λ word. word.bytes.items) words.now) volume.now (H.history host.old) result (H.history host.new) }
{
    let wishes = wishes_on(alloc, words, volume)?;
    find_all(host, alloc, words, &wishes)
}

/// The files that are asked for, unless a word asks for none.
fn find_all<H: Host>(
    host: &mut H,
    alloc: Global,
    words: &[String],
    wishes: &[Wish],
) -> Result<Vec<VolumeFile>, Ending>
    ensures { FindsAll (map (λ word. word.bytes.items) words.now) wishes.now (H.history host.old) result (H.history host.new) }
{
    match first_unfound(wishes) {
        Some(wish) => Err(refuse_wish(host, alloc, words, wish)),
        None => {
            let files = files_of(alloc, wishes)?;
            Ok(files)
        }
    }
}

/// The image with the files of another. Where they can't be put there, what is refused is printed.
fn image_with<H: Host>(
    host: &mut H,
    alloc: Global,
    form: &CopyForm,
    from: &[u8],
    files: &[VolumeFile],
    image: &Image,
) -> Result<Vec<u8>, Ending>
    ensures { PutsFiles form.now from.now files.now image.now.bytes.items (H.history host.old) result (H.history host.new) }
{
    let name = new_name(&form.files);
    let is_forced = may_replace(&form.files);
    match copy_all(alloc, from, files, name, &image.bytes, is_forced) {
        Ok(new) => Ok(new),
        Err(fault) => Err(refuse_copies(host, alloc, form, from.len(), image.bytes.len(), fault)),
    }
}

/// The name that the copy gets, if it is another one.
fn new_name(files: &CopyChoice) -> Option<&[u8]>
    ensures { option_copied result ≡ spec.new_name files.now }
{
    match files {
        CopyChoice::One(_, Some(name)) => Some(name.as_bytes()),
        CopyChoice::One(_, None) | CopyChoice::Like(..) => None,
    }
}

/// Whether older files may go.
fn may_replace(files: &CopyChoice) -> bool
    ensures { result ≡ spec.may_replace files.now }
{
    match files {
        CopyChoice::One(..) => true,
        CopyChoice::Like(_, is_forced) => *is_forced,
    }
}

/// The lines of files that are copied. After that of a copy stands that of its file, where the copy lacks information words of it.
fn copied_lines<H: Host>(
    host: &mut H,
    alloc: Global,
    form: &CopyForm,
    from: &[u8],
    files: &[VolumeFile],
    image: &Image,
) -> Result<Vec<u8>, Ending>
    ensures { TellsCopies form.now from.now files.now image.now.bytes.items (H.history host.old) result (H.history host.new) }
{
    let cuts = find_cuts(host, alloc, from, files, &image.bytes)?;
    lines_of(alloc, new_name(&form.files), files, &cuts)
}

/// Whether the copies of files lack information words of them.
fn find_cuts<H: Host>(
    host: &mut H,
    alloc: Global,
    from: &[u8],
    files: &[VolumeFile],
    to: &[u8],
) -> Result<Vec<bool>, Ending>
    ensures { Answers (CutsFiles from.now to.now files.now) (length from.now) (H.history host.old) result (H.history host.new) }
{
    let answer = cut_files(alloc, from, files, to);
    answer_of(host, from.len(), answer)
}

/// The lines of files that were copied.
fn lines_of(
    alloc: Global,
    name: Option<&[u8]>,
    files: &[VolumeFile],
    cuts: &[bool],
) -> Result<Vec<u8>, Ending>
    ensures { AreLines (spec.stored_lines (option_copied name.entry) files.now cuts.now) result }
{
    let mut lines = Vec::new(alloc);
    put_lines(name, files, cuts, &mut lines)?;
    Ok(lines)
}

/// Appends the lines of files that were copied.
fn put_lines(
    name: Option<&[u8]>,
    files: &[VolumeFile],
    cuts: &[bool],
    lines: &mut Vec<u8>,
) -> Result<(), AllocError>
    ensures { OnOk result (lines.new.items ≡ lines.old.items ++ spec.stored_lines (option_copied name.entry) files.now cuts.now) }
{
    let mut rest = files;
    let mut left = cuts;
    while let [file, others @ ..] = rest {
        let [is_cut, later @ ..] = left else {
            return Ok(());
        };
        put_copy(name, file, *is_cut, lines)?;
        rest = others;
        left = later;
    }
    Ok(())
}

/// Appends the line of a copy, and that of its file if it is cut.
fn put_copy(
    name: Option<&[u8]>,
    file: &VolumeFile,
    is_cut: bool,
    lines: &mut Vec<u8>,
) -> Result<(), AllocError>
    ensures { OnOk result (lines.new.items ≡ lines.old.items ++ copy_lines (option_copied name.entry) file.now is_cut) }
{
    put_stored(copy_name(file, name), file.blocks, lines)?;
    if is_cut {
        put_cut(file.name, file.place, file.blocks, lines)?;
    }
    Ok(())
}

//! The command that writes several files of the volume in an image file to a folder of the host, each whole or not at all.
ghost use Rattle.std.specs.Prelude.{◌≡◌, ◌<◌, ◌&&◌, ◌++◌, codes, decimal, false, length, map, slice_get, true, IfOk};
ghost use Rattle.refusals.specs.Faults.{fault_line};
ghost use Rattle.os8_dir.specs.declared.file_faults.FileFault.TheVariants.{NotFound};
ghost use Rattle.refusals.specs.declared.faults.SessionFault.TheVariants as session;
ghost use Rattle.image_files.specs.Answers.{named_lines};
ghost use Rattle.image_files.specs.Work.{Then};
ghost use Rattle.host_progress.specs.Progressing.{TellsProgress, WithProgress};
ghost use Rattle.get_commands.specs.GettingMany as spec;
ghost use Rattle.get_commands.specs.Wishing.{AreWishes};
ghost use Rattle.get_commands.specs.GettingMany.{AreFilesOn, GetsMany, GivesAsked, GivesEach, GivesNoted, GivesWish, MakesFolder, ending_of_folder, PrintsAnswer, RefusesWord};

use crate::giving::{give_noted, refuse};
use archive_many::{OpenVolume, VolumeFile, Wish, wishes_of};
use asked_files::take_lists;
use host_progress::Progress;
use hosts::{FaultClass, Host, HostFault};
use image_files::{end_sound, look_at, open_volume, part_after, tell_fault};
use os8_dir::FileFault;
use outcome::Ending;
use program_reports::ProgramLine;
use program_tasks::GetManyForm;
use refusals::SessionFault;
use std::alloc::{AllocError, Global};

/// Writes files of the volume in an image file to a folder, and reports each. The image file doesn't change.
pub fn get_files<H: Host>(host: &mut H, alloc: Global, form: &GetManyForm) -> Result<(), Ending>
    ensures { GetsMany form.now (H.history host.old) result (H.history host.new) }
{
    take_lists(host, alloc, &form.texts)?;
    let image = look_at(host, alloc, &form.image)?;
    let volume = open_volume(host, alloc, &image)?;
    give_asked(host, alloc, form, &volume)
}

/// Gives the files of a volume that are asked for.
fn give_asked<H: Host>(
    host: &mut H,
    alloc: Global,
    form: &GetManyForm,
    volume: &OpenVolume,
) -> Result<(), Ending>
    ensures { GivesAsked form.now volume.now (H.history host.old) result (H.history host.new) }
{
    let files = files_on(alloc, volume)?;
    let wishes = wishes_in(alloc, form, &files)?;
    make_folder(host, alloc, form.folder.as_str())?;
    let are_there = give_all(host, alloc, form, volume, files.len(), &wishes)?;
    end_sound(are_there)
}

fn files_on(alloc: Global, volume: &OpenVolume) -> Result<Vec<VolumeFile>, Ending>
    ensures { AreFilesOn volume.now result }
{
    let files = volume.files(alloc)?;
    Ok(files)
}

/// What the words of the command ask for of these files.
fn wishes_in(alloc: Global, form: &GetManyForm, files: &[VolumeFile]) -> Result<Vec<Wish>, Ending>
    ensures { AreWishes form.now files.now result }
{
    let wishes = wishes_of(alloc, files, form.is_all, &form.names, &form.places)?;
    Ok(wishes)
}

/// Makes a folder, unless there is one of its name.
fn make_folder<H: Host>(host: &mut H, alloc: Global, folder: &str) -> Result<(), Ending>
    ensures { MakesFolder folder.now (H.history host.old) result (H.history host.new) }
{
    match host.make_folder(folder) {
        Ok(()) => Ok(()),
        Err(fault) => {
            tell_fault(host, alloc, folder, fault);
            Err(ending_of_folder(fault))
        }
    }
}

/// How the command ends if its folder is not made (this project's profile).
fn ending_of_folder(fault: HostFault) -> Ending
    ensures { result ≡ ending_of_folder fault }
{
    match fault.class() {
        FaultClass::Memory => Ending::Fault(SessionFault::Memory),
        FaultClass::Busy | FaultClass::Other => Ending::Line(ProgramLine::HostWrite),
    }
}

/// Gives what is asked for, with what is printed of the progress, and answers whether all is there.
fn give_all<H: Host>(
    host: &mut H,
    alloc: Global,
    form: &GetManyForm,
    volume: &OpenVolume,
    all: usize,
    wishes: &[Wish],
) -> Result<bool, Ending>
    ensures { WithProgress (λ is_told. GivesEach form.now volume.now is_told all 0 true wishes.now) (H.history host.old) result (H.history host.new) }
{
    let mut progress = Progress::begin(host, all);
    let are_there = give_each(host, alloc, form, volume, wishes, &mut progress);
    progress.end(host);
    are_there
}

/// Gives what is asked for in its order, and answers whether all is there.
fn give_each<H: Host>(
    host: &mut H,
    alloc: Global,
    form: &GetManyForm,
    volume: &OpenVolume,
    wishes: &[Wish],
    progress: &mut Progress,
) -> Result<bool, Ending>
    ensures gives { GivesEach form.now volume.now progress.old.is_told progress.old.all 0 true wishes.now (H.history host.old) result (H.history host.new) }
    ensures told { progress.new.is_told ≡ progress.old.is_told }
{
    let mut done: usize = 0;
    let mut are_there = true;
    let mut rest = wishes;
    while let [wish, others @ ..] = rest {
        let given = give_wish(host, alloc, form, volume, wish, progress, done);
        let is_there = part_after(are_there, given)?;
        are_there = both(are_there, is_there);
        done = count_after(wish, done);
        rest = others;
    }
    Ok(are_there)
}

fn both(one: bool, other: bool) -> bool
    ensures { result ≡ (one && other) }
{
    one && other
}

/// How many files are done with this.
fn count_after(wish: &Wish, done: usize) -> usize
    requires { done < 0xffff_ffff_ffff_ffff }
    ensures { result ≡ spec.count_after wish.now done }
{
    match wish {
        Wish::File(_) => done + 1,
        Wish::BadWord(_) => done,
        Wish::NotFound(_) => done,
        Wish::Block(_) => done,
    }
}

/// Gives what is asked for, where so many files are done, and answers whether it is there.
fn give_wish<H: Host>(
    host: &mut H,
    alloc: Global,
    form: &GetManyForm,
    volume: &OpenVolume,
    wish: &Wish,
    progress: &mut Progress,
    done: usize,
) -> Result<bool, Ending>
    requires { done < 0xffff_ffff_ffff_ffff }
    ensures gives { GivesWish form.now volume.now progress.old.is_told progress.old.all done wish.now (H.history host.old) result (H.history host.new) }
    ensures told { progress.new.is_told ≡ progress.old.is_told }
    ensures all { progress.new.all ≡ progress.old.all }
{
    match wish {
        Wish::File(file) => give_next(host, alloc, form, volume, file, progress, done + 1),
        Wish::BadWord(place) => refuse_word(host, alloc, &form.names, *place, FileFault::BadName),
        Wish::NotFound(place) => refuse_word(host, alloc, &form.names, *place, FileFault::NotFound),
        Wish::Block(block) => refuse_block(host, alloc, *block),
    }
}

/// Gives a file, and prints before that which of all it is.
fn give_next<H: Host>(
    host: &mut H,
    alloc: Global,
    form: &GetManyForm,
    volume: &OpenVolume,
    file: &VolumeFile,
    progress: &mut Progress,
    done: usize,
) -> Result<bool, Ending>
    ensures gives { Then (TellsProgress progress.old.is_told done progress.old.all) (λ it. GivesNoted form.now volume.now file.now) (H.history host.old) result (H.history host.new) }
    ensures told { progress.new.is_told ≡ progress.old.is_told }
    ensures all { progress.new.all ≡ progress.old.all }
{
    progress.tell(host, done);
    give_noted(host, alloc, form, volume, file)
}

/// Prints that the word at a place is refused.
fn refuse_word<H: Host>(
    host: &mut H,
    alloc: Global,
    words: &[String],
    place: usize,
    why: FileFault,
) -> Result<bool, Ending>
    ensures { RefusesWord (slice_get (map (λ word. word.bytes.items) words.now) place) why (H.history host.old) result (H.history host.new) }
{
    match words.get(place) {
        None => Ok(false),
        Some(word) => refuse(host, alloc, word.as_str(), why),
    }
}

/// The option that asks for a file by its first block.
fn block_word(alloc: Global, block: usize) -> Result<String, AllocError>
    ensures { IfOk result (λ word. word.bytes.items ≡ codes "--at " ++ decimal block) }
{
    format!(in alloc; "--at {block}")
}

/// Prints that no file begins at a block.
fn refuse_block<H: Host>(host: &mut H, alloc: Global, block: usize) -> Result<bool, Ending>
    ensures { PrintsAnswer false (named_lines (codes "--at " ++ decimal block) (fault_line (session.File NotFound))) (H.history host.old) result (H.history host.new) }
{
    let word = block_word(alloc, block)?;
    refuse(host, alloc, word.as_str(), FileFault::NotFound)
}

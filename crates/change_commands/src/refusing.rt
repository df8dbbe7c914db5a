//! Why files are not copied, and what is printed of it.
ghost use Rattle.std.specs.Prelude.{◌≡◌, false, map, slice_get, OnErr, OnOk};
ghost use Rattle.archive_many.specs.Wishing.{is_file};
ghost use Rattle.archive_many.specs.declared.faults.CopyAllFault.TheVariants as copying;
ghost use Rattle.change_commands.specs.Refusing.{RefusesCopies, TellsFile, TellsWord};
ghost use Rattle.change_commands.specs.RefusalSteps.{IsOlder, IsRefused, IsToldOf};

use archive_files::CopyFault;
use archive_many::{CopyAllFault, VolumeFile, Wish, host_name};
use hosts::Host;
use image_files::{refuse_one, tell_note};
use os8_files::FileFault;
use outcome::{Ending, NameNote, Note};
use program_reports::ProgramLine;
use program_tasks::{CopyChoice, CopyForm};
use refusals::SessionFault;
use std::alloc::{AllocError, Global};

/// How the command ends where a word asks for no file. It is printed.
pub fn refuse_wish<H: Host>(host: &mut H, alloc: Global, words: &[String], wish: Wish) -> Ending
    requires { is_file wish ≡ false }
    ensures { IsRefused (map (λ word. word.bytes.items) words.now) wish (H.history host.old) result (H.history host.new) }
{
    match wish {
        Wish::File(_) => unreachable!(),
        Wish::BadWord(place) => refuse_word(host, alloc, words, place, FileFault::BadName),
        Wish::NotFound(place) => refuse_word(host, alloc, words, place, FileFault::NotFound),
        Wish::Block(_) => Ending::Fault(SessionFault::File(FileFault::NotFound)),
    }
}

/// How the command ends where the word of a place asks for no file.
fn refuse_word<H: Host>(
    host: &mut H,
    alloc: Global,
    words: &[String],
    place: usize,
    why: FileFault,
) -> Ending
    ensures { IsToldOf (slice_get (map (λ word. word.bytes.items) words.now) place) why (H.history host.old) result (H.history host.new) }
{
    match tell_word(host, alloc, words, place) {
        Ok(()) => Ending::Fault(SessionFault::File(why)),
        Err(error) => Ending::from(error),
    }
}

/// Prints that the word of a place is refused.
fn tell_word<H: Host>(
    host: &mut H,
    alloc: Global,
    words: &[String],
    place: usize,
) -> Result<(), AllocError>
    ensures told { OnOk result (TellsWord (slice_get (map (λ word. word.bytes.items) words.now) place) (H.history host.old) (H.history host.new)) }
    ensures wanted { OnErr result (H.history host.new ≡ H.history host.old) }
{
    match words.get(place) {
        None => Ok(()),
        Some(word) => tell_note(
            host,
            alloc,
            Note::OnName(NameNote::NotCopied, word.as_str()),
        ),
    }
}

/// How the command ends where files can't be put into an image of so many bytes, from one of so many. What is refused is printed.
pub fn refuse_copies<H: Host>(
    host: &mut H,
    alloc: Global,
    form: &CopyForm,
    from: usize,
    to: usize,
    fault: CopyAllFault,
) -> Ending
    ensures { RefusesCopies form.now fault from to (H.history host.old) result (H.history host.new) }
{
    match fault {
        CopyAllFault::To(fault) => refuse_one(host, alloc, form.to.file.as_str(), to, fault),
        CopyAllFault::Exists(file) => refuse_older(host, alloc, &form.files, &file),
        CopyAllFault::File(file, fault) => refuse_file(host, alloc, form, from, to, &file, fault),
        CopyAllFault::Memory => Ending::Fault(SessionFault::Memory),
    }
}

/// How the command ends where a file of the name of this one is there. It is printed.
fn refuse_older<H: Host>(
    host: &mut H,
    alloc: Global,
    files: &CopyChoice,
    file: &VolumeFile,
) -> Ending
    ensures { IsOlder files.now file.now (H.history host.old) result (H.history host.new) }
{
    match tell_file(host, alloc, files, file) {
        Ok(()) => Ending::Line(ProgramLine::CopyExists),
        Err(error) => Ending::from(error),
    }
}

/// How the command ends where a file can't be put into an image of so many bytes, from one of so many. It is printed, and which image refuses.
fn refuse_file<H: Host>(
    host: &mut H,
    alloc: Global,
    form: &CopyForm,
    from: usize,
    to: usize,
    file: &VolumeFile,
    fault: CopyFault,
) -> Ending
    ensures { RefusesCopies form.now (copying.File file.now fault) from to (H.history host.old) result (H.history host.new) }
{
    match fault {
        CopyFault::From(fault) => refuse_one(host, alloc, form.image.file.as_str(), from, fault),
        CopyFault::To(fault) => match tell_file(host, alloc, &form.files, file) {
            Ok(()) => refuse_one(host, alloc, form.to.file.as_str(), to, fault),
            Err(error) => Ending::from(error),
        },
    }
}

/// Prints that a file is refused, where words choose files.
fn tell_file<H: Host>(
    host: &mut H,
    alloc: Global,
    files: &CopyChoice,
    file: &VolumeFile,
) -> Result<(), AllocError>
    ensures told { OnOk result (TellsFile files.now file.now (H.history host.old) (H.history host.new)) }
    ensures wanted { OnErr result (H.history host.new ≡ H.history host.old) }
{
    match files {
        CopyChoice::One(..) => Ok(()),
        CopyChoice::Like(..) => {
            let name = host_name(alloc, file)?;
            tell_note(
                host,
                alloc,
                Note::OnName(NameNote::NotCopied, name.as_str()),
            )
        }
    }
}

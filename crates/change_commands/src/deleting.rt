//! The command that takes files out of the volume in an image file.
ghost use Rattle.std.specs.Prelude.{◌≡◌, ◌++◌, map, OnOk, OnErr};
ghost use Rattle.archive_files.specs.Asking.{target_of};
ghost use Rattle.program_reports.specs.Program.{program_line};
ghost use Rattle.program_reports.specs.declared.programs.ProgramLine.TheVariants.{Deleted};
ghost use Rattle.outcome.specs.declared.endings.Ending.TheVariants.{Fault};
ghost use Rattle.image_files.specs.Answers.{AreLines};
ghost use Rattle.change_commands.specs.Deleting as spec;
ghost use Rattle.change_commands.specs.Choosing.{TellsRefused, one_of_several};
ghost use Rattle.change_commands.specs.Deleting.{Deletes, TakesMeant, TakesOut};
ghost use Rattle.change_commands.specs.DeleteSteps.{IsNotTaken};

use crate::choosing::{files_meant, tell_file};
use archive_files::{Asked, DeleteFault, DeletedImage, delete};
use hosts::Host;
use image_files::{Image, refuse_image, store};
use os8_dir::Name;
use outcome::Ending;
use program_reports::{ProgramLine, put_program};
use program_tasks::DeleteForm;
use refusals::SessionFault;
use std::alloc::{AllocError, Global};

/// Takes files out of the volume in an image file, all or none, and reports each.
pub fn delete_files<H: Host>(host: &mut H, alloc: Global, form: &DeleteForm) -> Result<(), Ending>
    ensures { Deletes form.now (H.history host.old) result (H.history host.new) }
{
    let image = Image::open(host, alloc, &form.image)?;
    let new = image_without_meant(host, alloc, form, &image.bytes)?;
    let lines = deleted_lines(alloc, &new.names)?;
    store(host, alloc, image, &new.bytes, &lines)
}

/// The image without the files that are meant.
fn image_without_meant<H: Host>(
    host: &mut H,
    alloc: Global,
    form: &DeleteForm,
    image: &[u8],
) -> Result<DeletedImage, Ending>
    ensures { TakesMeant form.now image.now (H.history host.old) result (H.history host.new) }
{
    let files = files_meant(host, alloc, form, image)?;
    image_without(host, alloc, image, &files)
}

/// The image without these files.
fn image_without<H: Host>(
    host: &mut H,
    alloc: Global,
    image: &[u8],
    files: &[Asked],
) -> Result<DeletedImage, Ending>
    ensures { TakesOut (map target_of files.now) image.now (H.history host.old) result (H.history host.new) }
{
    match delete(alloc, image, files) {
        Ok(new) => Ok(new),
        Err(fault) => Err(refuse_file(host, alloc, files, image.len(), fault)),
    }
}

/// How the command ends if a file of it is refused, or its image of so many bytes. What may help is printed.
fn refuse_file<H: Host>(
    host: &mut H,
    alloc: Global,
    files: &[Asked],
    size: usize,
    fault: DeleteFault,
) -> Ending
    ensures { IsNotTaken (map target_of files.now) fault size (H.history host.old) result (H.history host.new) }
{
    match fault {
        DeleteFault::Archive(fault) => refuse_image(host, size, fault),
        DeleteFault::Name(place, fault) => match tell_refused(host, alloc, files, place) {
            Ok(()) => Ending::Fault(SessionFault::File(fault)),
            Err(error) => Ending::from(error),
        },
    }
}

/// Prints which of several files is refused, by its place among them, counted from 0.
fn tell_refused<H: Host>(
    host: &mut H,
    alloc: Global,
    files: &[Asked],
    place: usize,
) -> Result<(), AllocError>
    ensures told { OnOk result (TellsRefused (one_of_several (map target_of files.now) place) (H.history host.old) (H.history host.new)) }
    ensures wanted { OnErr result (H.history host.new ≡ H.history host.old) }
{
    if files.len() < 2 {
        return Ok(());
    }
    match files.get(place) {
        Some(file) => tell_file(host, alloc, file),
        None => Ok(()),
    }
}

/// The lines of files that were taken out.
fn deleted_lines(alloc: Global, names: &[Name]) -> Result<Vec<u8>, Ending>
    ensures { AreLines (spec.deleted_lines names.now) result }
{
    let mut lines = Vec::new(alloc);
    put_lines(names, &mut lines)?;
    Ok(lines)
}

/// Appends the lines of files that were taken out.
fn put_lines(names: &[Name], lines: &mut Vec<u8>) -> Result<(), AllocError>
    ensures { OnOk result (lines.new.items ≡ lines.old.items ++ spec.deleted_lines names.now) }
{
    let mut rest = names;
    while let [name, others @ ..] = rest {
        put_deleted(*name, lines)?;
        rest = others;
    }
    Ok(())
}

/// Appends the line of a file that was taken out.
fn put_deleted(name: Name, lines: &mut Vec<u8>) -> Result<(), AllocError>
    ensures { OnOk result (lines.new.items ≡ lines.old.items ++ program_line (Deleted name)) }
{
    put_program(&ProgramLine::Deleted(name), lines)
}

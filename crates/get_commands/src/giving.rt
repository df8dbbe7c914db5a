//! A file of a volume that is laid into a folder of the host, and what is printed of it.
ghost use Rattle.std.specs.Prelude.{◌≡◌, false, true};
ghost use Rattle.program_reports.specs.Program.{program_line};
ghost use Rattle.program_reports.specs.declared.programs.ProgramLine.TheVariants.{Got};
ghost use Rattle.refusals.specs.Faults.{fault_line};
ghost use Rattle.refusals.specs.declared.faults.SessionFault.TheVariants.{File};
ghost use Rattle.image_files.specs.Answers.{AreLines, named_lines};
ghost use Rattle.get_commands.specs.GettingMany as spec;
ghost use Rattle.get_commands.specs.GettingMany.{GivesFile, IsPath, LaysAndTells, LaysApart, LaysFile, PrintsAnswer, RefusesOver, TakesFile, IsHostName, TellsLaid, GivesNoted, NotesGot, TellsGot};
ghost use Rattle.asked_files.specs.Texts.{is_got_noted};

use archive_files::GetForm;
use archive_many::{OpenVolume, VolumeFile, host_name};
use asked_files::{get_form, is_got_noted};
use hosts::{FaultClass, Host, HostFault, lay};
use image_files::{named_lines, part_after, print, program_line, tell_first, tell_note, tell_pair};
use os8_dates::{NO_DATE, time_of_word};
use os8_dir::FileFault;
use outcome::{Ending, NameNote, Note};
use program_reports::ProgramLine;
use program_tasks::GetManyForm;
use refusals::{SessionFault, put_fault};
use std::alloc::Global;
use volume_index::last_of;

/// Gives a file, and prints before that where it goes as frames, and others as texts.
pub(crate) fn give_noted<H: Host>(
    host: &mut H,
    alloc: Global,
    form: &GetManyForm,
    volume: &OpenVolume,
    file: &VolumeFile,
) -> Result<bool, Ending>
    ensures { GivesNoted form.now volume.now file.now (H.history host.old) result (H.history host.new) }
{
    note_got(host, alloc, form, file)?;
    give_file(host, alloc, form, volume, file)
}

/// Prints that a file goes as frames, where others go as texts.
fn note_got<H: Host>(
    host: &mut H,
    alloc: Global,
    form: &GetManyForm,
    file: &VolumeFile,
) -> Result<(), Ending>
    ensures { NotesGot (is_got_noted form.now file.now) file.now (H.history host.old) result (H.history host.new) }
{
    if !is_got_noted(form, file) {
        return Ok(());
    }
    name_got(host, alloc, file)
}

/// Prints the name of a file that goes as frames.
fn name_got<H: Host>(host: &mut H, alloc: Global, file: &VolumeFile) -> Result<(), Ending>
    ensures { NotesGot true file.now (H.history host.old) result (H.history host.new) }
{
    let name = name_of(alloc, file)?;
    tell_got(host, alloc, name.as_str())
}

fn tell_got<H: Host>(host: &mut H, alloc: Global, name: &str) -> Result<(), Ending>
    ensures { TellsGot name.now (H.history host.old) result (H.history host.new) }
{
    tell_note(host, alloc, Note::OnName(NameNote::GotAsFrames, name))?;
    Ok(())
}

/// Writes a file of a volume to the folder and reports it, and answers whether it is there.
fn give_file<H: Host>(
    host: &mut H,
    alloc: Global,
    form: &GetManyForm,
    volume: &OpenVolume,
    file: &VolumeFile,
) -> Result<bool, Ending>
    ensures { GivesFile form.now volume.now file.now (H.history host.old) result (H.history host.new) }
{
    let bytes = take_file(alloc, volume, file, get_form(form, file))?;
    let name = name_of(alloc, file)?;
    let path = path_in(alloc, form.folder.as_str(), name.as_str())?;
    let seconds = time_of_file(form.year, volume, file);
    lay_apart(
        host,
        alloc,
        form,
        file,
        name.as_str(),
        path.as_str(),
        &bytes,
        seconds,
    )
}

/// What a file has on the volume.
fn take_file(
    alloc: Global,
    volume: &OpenVolume,
    file: &VolumeFile,
    how: GetForm,
) -> Result<Vec<u8>, Ending>
    ensures { TakesFile volume.now file.now how result }
{
    match volume.get(alloc, file, how) {
        Ok(bytes) => Ok(bytes),
        Err(fault) => Err(Ending::Fault(fault)),
    }
}

/// The time for the file of the host: that of the date which the first information word means, as a long list shows it. Where it means none, that
/// is the begin of 1970.
fn time_of_file(year: Option<usize>, volume: &OpenVolume, file: &VolumeFile) -> Option<u64>
    ensures { result ≡ spec.time_of_file year volume.now file.now }
{
    let last = last_of(year, volume.last_word());
    match volume.first_word(file.name) {
        Some(word) => time_or_none(time_of_word(word, last)),
        None => Some(NO_DATE),
    }
}

/// The time of a date, or that of a file with none.
fn time_or_none(time: Option<u64>) -> Option<u64>
    ensures { result ≡ spec.time_or_none time }
{
    match time {
        Some(seconds) => Some(seconds),
        None => Some(NO_DATE),
    }
}

/// The name that it has on the host.
fn name_of(alloc: Global, file: &VolumeFile) -> Result<String, Ending>
    ensures { IsHostName file.now result }
{
    let name = host_name(alloc, file)?;
    Ok(name)
}

/// The path of a file of this name in a folder.
fn path_in(alloc: Global, folder: &str, name: &str) -> Result<String, Ending>
    ensures { IsPath folder.now name.now result }
{
    let slash = slash_after(folder);
    let path = format!(in alloc; "{folder}{slash}{name}")?;
    Ok(path)
}

/// The slash that is needed after a folder.
fn slash_after(folder: &str) -> &'static str
    ensures { result.now ≡ spec.slash_after folder.now }
{
    if needs_slash(folder.as_bytes()) {
        return "/";
    }
    ""
}

/// Whether these characters end with another one than a slash.
fn needs_slash(folder: &[u8]) -> bool
    ensures { result ≡ spec.needs_slash_after false folder.now }
{
    let mut needs = false;
    let mut rest = folder;
    while let [character, others @ ..] = rest {
        needs = *character != b'/';
        rest = others;
    }
    needs
}

/// Lays a file of these bytes, unless its path leads to the image, whatever their names are: then it is refused.
fn lay_apart<H: Host>(
    host: &mut H,
    alloc: Global,
    form: &GetManyForm,
    file: &VolumeFile,
    name: &str,
    path: &str,
    bytes: &[u8],
    seconds: Option<u64>,
) -> Result<bool, Ending>
    ensures { LaysApart form.now file.now name.now path.now bytes.now seconds (H.history host.old) result (H.history host.new) }
{
    let image = form.image.file.as_str();
    match host.leads_to_same(alloc, path, image) {
        Ok(is_one) => {
            if is_one {
                return refuse_over(host, alloc, name, path, image);
            }
            lay_and_tell(host, alloc, form, file, name, path, bytes, seconds)
        }
        Err(fault) => tell_laid(host, alloc, file, name, path, Err(fault)),
    }
}

/// Prints that a file would be laid over the image, and how both are named.
fn refuse_over<H: Host>(
    host: &mut H,
    alloc: Global,
    name: &str,
    path: &str,
    image: &str,
) -> Result<bool, Ending>
    ensures { RefusesOver name.now path.now image.now (H.history host.old) result (H.history host.new) }
{
    tell_pair(host, alloc, path, image)?;
    print_line_of(host, alloc, name, &ProgramLine::OneFile)
}

/// Lays a file of these bytes, and only then prints its line, or why it is not there.
fn lay_and_tell<H: Host>(
    host: &mut H,
    alloc: Global,
    form: &GetManyForm,
    file: &VolumeFile,
    name: &str,
    path: &str,
    bytes: &[u8],
    seconds: Option<u64>,
) -> Result<bool, Ending>
    ensures { LaysAndTells form.now file.now name.now path.now bytes.now seconds (H.history host.old) result (H.history host.new) }
{
    let done = lay_file(host, alloc, path, bytes, seconds, form.is_forced);
    tell_laid(host, alloc, file, name, path, done)
}

/// Has the file of a path hold these bytes, and have this time.
fn lay_file<H: Host>(
    host: &mut H,
    alloc: Global,
    path: &str,
    bytes: &[u8],
    seconds: Option<u64>,
    is_forced: bool,
) -> Result<(), HostFault>
    ensures { LaysFile path.now bytes.now seconds is_forced (H.history host.old) result (H.history host.new) }
{
    match lay(host, alloc, path, bytes, seconds, is_forced) {
        Ok(()) => Ok(()),
        Err(fault) => Err(fault),
    }
}

/// Prints the line of a file that is laid. Of one that is not it prints why, with its path, and then the line with its name.
fn tell_laid<H: Host>(
    host: &mut H,
    alloc: Global,
    file: &VolumeFile,
    name: &str,
    path: &str,
    done: Result<(), HostFault>,
) -> Result<bool, Ending>
    ensures { TellsLaid file.now name.now path.now done (H.history host.old) result (H.history host.new) }
{
    match done {
        Ok(()) => print_got(host, alloc, file),
        Err(fault) => match line_of_laid(fault) {
            None => Err(Ending::Fault(SessionFault::Memory)),
            Some(line) => {
                tell_first(host, alloc, path, fault);
                print_line_of(host, alloc, name, &line)
            }
        },
    }
}

/// The line of a file that is not laid by this fault; want of memory ends the command.
fn line_of_laid(fault: HostFault) -> Option<ProgramLine>
    ensures { result ≡ spec.line_of_laid fault }
{
    match fault.class() {
        FaultClass::Busy => Some(ProgramLine::HostExists),
        FaultClass::Memory => None,
        FaultClass::Other => Some(ProgramLine::HostWrite),
    }
}

/// Prints the line of a file that is there.
fn print_got<H: Host>(host: &mut H, alloc: Global, file: &VolumeFile) -> Result<bool, Ending>
    ensures { PrintsAnswer true (program_line (Got file.now.name file.now.blocks)) (H.history host.old) result (H.history host.new) }
{
    let text = program_line(alloc, &ProgramLine::Got(file.name, file.blocks))?;
    print(host, &text)?;
    Ok(true)
}

/// Prints a line after the name of a file that is not there.
fn print_line_of<H: Host>(
    host: &mut H,
    alloc: Global,
    name: &str,
    line: &ProgramLine,
) -> Result<bool, Ending>
    ensures { PrintsAnswer false (named_lines name.now (program_line line.now)) (H.history host.old) result (H.history host.new) }
{
    let text = program_line(alloc, line)?;
    print_refused(host, alloc, name, &text)
}

/// Prints that a word is refused.
pub(crate) fn refuse<H: Host>(
    host: &mut H,
    alloc: Global,
    word: &str,
    why: FileFault,
) -> Result<bool, Ending>
    ensures { PrintsAnswer false (named_lines word.now (fault_line (File why))) (H.history host.old) result (H.history host.new) }
{
    let text = fault_text(alloc, why)?;
    print_refused(host, alloc, word, &text)
}

fn fault_text(alloc: Global, why: FileFault) -> Result<Vec<u8>, Ending>
    ensures { AreLines (fault_line (File why)) result }
{
    let mut text = Vec::new(alloc);
    put_fault(SessionFault::File(why), &mut text)?;
    Ok(text)
}

/// Prints lines of what is not there after what it is about.
fn print_refused<H: Host>(
    host: &mut H,
    alloc: Global,
    name: &str,
    text: &[u8],
) -> Result<bool, Ending>
    ensures { PrintsAnswer false (named_lines name.now text.now) (H.history host.old) result (H.history host.new) }
{
    let lines = named_lines(alloc, name, text)?;
    part_after(false, print(host, &lines))?;
    Ok(false)
}

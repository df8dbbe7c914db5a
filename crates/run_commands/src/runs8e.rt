//! A run of an 8/E with disks at the console, and what the files of its disks and papers get.
ghost use Rattle.std.specs.Prelude.{◌≡◌, true};
ghost use Rattle.byte_reader.specs.Readings.{reading};
ghost use Rattle.drive_files.specs.Consoles.{console_acts};
ghost use Rattle.drive_files.specs.Mounting.{places_of, with_papers};
ghost use Rattle.run_commands.specs.Runs8e as spec;
ghost use Rattle.run_commands.specs.Runs8e.{RunsConsole, RunsDisks, RunsOn8e, SavesAll, SavesRest};

use crate::console_files::{ConsoleFiles, equipped_console, open_files};
use crate::core_programs::CoreProgram;
use crate::drives8e::machine_of;
use crate::machines8e::{run_plain, stand_of};
use crate::printing::end_run;
use byte_reader::ByteReader;
use drive_files::{Console, Places, Ran, Unsaved, earlier, run_rounds, save_drives, save_papers};
use hosts::Host;
use outcome::Ending;
use program_tasks::{ConsoleForm, DeviceForm, DiskForm, TeletypeForm};
use std::alloc::Global;

/// Runs a program at the Teletype of an 8/E, and prints the line of its end. One with a disk or another device, or whose keys are struck as
/// capitals, runs as one does that a disk boots.
pub(crate) fn run_8e<H: Host, I: ByteReader>(
    host: H,
    alloc: Global,
    keys: &mut I,
    form: &TeletypeForm,
    program: CoreProgram,
) -> (H, Result<(), Ending>)
    ensures { RunsOn8e (spec.needs_console form.now.console) form.now program (reading I.remaining I.has_failed keys.old keys.new)
        (H.history host) result.1 (H.history result.0) }
{
    if needs_console(&form.console) {
        return run_disks(host, alloc, keys, &form.console, program);
    }
    run_plain(host, alloc, keys, form, program)
}

/// Opens the files of a machine, and runs a program on it.
fn run_disks<H: Host, I: ByteReader>(
    host: H,
    alloc: Global,
    keys: &mut I,
    form: &ConsoleForm,
    program: CoreProgram,
) -> (H, Result<(), Ending>)
    ensures { RunsDisks form.now program (reading I.remaining I.has_failed keys.old keys.new) (H.history host) result.1 (H.history result.0) }
{
    let mut host = host;
    match open_files(&mut host, alloc, form) {
        Ok(files) => {
            let (console, places) = loaded_console(form, files, program);
            run_console(host, alloc, keys, form, console, places)
        }
        Err(ending) => (host, Err(ending)),
    }
}

/// The machine of a program, with these files, and where they are held.
fn loaded_console(
    form: &ConsoleForm,
    files: ConsoleFiles,
    program: CoreProgram,
) -> (Console, Places)
    ensures console { result.0 ≡ spec.loaded_console form.now files program }
    ensures places { result.1 ≡ with_papers files.equipment.devices (places_of files.drives) }
{
    let ConsoleFiles { drives, equipment } = files;
    let (machine, places) = machine_of(&form.disk, drives, program);
    equipped_console(form, machine, places, equipment)
}

/// Whether a program runs as one that a disk boots.
fn needs_console(form: &ConsoleForm) -> bool
    ensures { result ≡ spec.needs_console form.now }
{
    form.has_capitals || (has_disk(&form.disk) || has_device(&form.devices))
}

/// Whether one of the drives has a disk.
fn has_disk(form: &DiskForm) -> bool
    ensures { result ≡ spec.has_disk form.now }
{
    let (first, second) = (form.drive0.image.is_some(), form.drive1.image.is_some());
    let (third, fourth) = (form.drive2.image.is_some(), form.drive3.image.is_some());
    first || (second || (third || fourth))
}

/// Whether there is a reader with a tape, a punch or a line printer with a file, a file for transfers, or a clock.
fn has_device(form: &DeviceForm) -> bool
    ensures { result ≡ spec.has_device form.now }
{
    let (reader, punch) = (form.reader.is_some(), form.punch.is_some());
    let (printer, transfers) = (form.printer.is_some(), form.transfers.is_some());
    reader || (punch || (printer || (transfers || form.clock.is_some())))
}

/// Runs a machine at the console, whose keys a reader gives and whose paper is standard output. At the end of the run each file whose disk was
/// written gets what is on the disk, whole or not at all. The files of the papers get what was put there. So they do in the run, while a key
/// is waited for. The line of the end is printed on standard error.
pub(crate) fn run_console<H: Host, I: ByteReader>(
    host: H,
    alloc: Global,
    keys: &mut I,
    form: &ConsoleForm,
    console: Console,
    places: Places,
) -> (H, Result<(), Ending>)
    requires { console_acts.is_running console ≡ true }
    ensures { RunsConsole form.now console places (reading I.remaining I.has_failed keys.old keys.new) (H.history host) result.1 (H.history result.0) }
{
    let mut console = console;
    let mut places = places;
    let (host, ran) = run_rounds(host, alloc, keys, form, &mut console, &mut places);
    let Ran {
        fault,
        absences,
        answer,
        save,
    } = ran;
    let mut host = host;
    let stand = stand_of(console.machine.processor());
    let saved = save_rest(&mut host, alloc, &mut console, &mut places, save);
    let ended = end_run(&mut host, alloc, stand, &absences, fault, answer);
    (host, earlier(saved, ended))
}

/// Saves the disks and the papers at the end of a run, but for what could not be saved in it.
fn save_rest<H: Host>(
    host: &mut H,
    alloc: Global,
    console: &mut Console,
    places: &mut Places,
    save: Result<(), Unsaved>,
) -> Result<(), Ending>
    ensures { SavesRest console.old places.old places.new save (H.history host.old) result (H.history host.new) }
{
    match save {
        Ok(()) => save_all(host, alloc, console, places),
        Err(unsaved) => match unsaved {
            Unsaved::Disk(ending) => {
                let filed = save_papers(host, alloc, &console.papers, &places.papers);
                earlier(Err(ending), filed)
            }
            Unsaved::Paper(ending) => {
                let saved = save_drives(host, alloc, &mut console.machine, places);
                earlier(saved, Err(ending))
            }
        },
    }
}

/// Saves the disks, and then the papers, whatever became of the disks.
fn save_all<H: Host>(
    host: &mut H,
    alloc: Global,
    console: &mut Console,
    places: &mut Places,
) -> Result<(), Ending>
    ensures { SavesAll console.old places.old places.new (H.history host.old) result (H.history host.new) }
{
    let saved = save_drives(host, alloc, &mut console.machine, places);
    let filed = save_papers(host, alloc, &console.papers, &places.papers);
    earlier(saved, filed)
}

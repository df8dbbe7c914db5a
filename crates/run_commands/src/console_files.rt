//! The files of a run at the console of an 8/E, which are opened before it.
ghost use Rattle.std.specs.Prelude.{◌≡◌};
ghost use Rattle.drive_files.specs.Mounting.{places_of, with_papers};
ghost use Rattle.run_commands.specs.ConsoleFiles as spec;
ghost use Rattle.run_commands.specs.ConsoleFiles.{OpensFiles};

use drive_files::{
    Console, OpenDevices, OpenDrives, Places, console_with, open_devices, open_drives, put_devices,
    take_papers,
};
use hosts::Host;
use outcome::Ending;
use pdp8e::{Machine, Papers};
use program_tasks::ConsoleForm;
use std::alloc::Global;

/// What a machine at the console has beside its disks.
#[derive(Drop)]
pub(crate) struct Equipment {
    pub(crate) devices: OpenDevices,
    pub(crate) papers: Papers,
}

/// The disks of a machine at the console, and what else it has.
#[derive(Drop)]
pub(crate) struct ConsoleFiles {
    pub(crate) drives: OpenDrives,
    pub(crate) equipment: Equipment,
}

/// Takes the memory of papers, opens the disks, and then the files of the devices.
pub(crate) fn open_files<H: Host>(
    host: &mut H,
    alloc: Global,
    form: &ConsoleForm,
) -> Result<ConsoleFiles, Ending>
    ensures { OpensFiles form.now (H.history host.old) result (H.history host.new) }
{
    let papers = take_papers(alloc, &form.devices)?;
    let drives = open_drives(host, alloc, &form.disk)?;
    let devices = open_devices(host, alloc, &form.devices)?;
    Ok(ConsoleFiles {
        drives,
        equipment: Equipment { devices, papers },
    })
}

/// A machine with its disks at the console, with all else that it has, and where all files are held.
pub(crate) fn equipped_console(
    form: &ConsoleForm,
    machine: Machine,
    places: Places,
    equipment: Equipment,
) -> (Console, Places)
    ensures console { result.0 ≡ spec.equipped_console form.now machine equipment }
    ensures places { result.1 ≡ with_papers equipment.devices places }
{
    let Equipment { devices, papers } = equipment;
    let mut machine = machine;
    let mut places = places;
    places.papers = put_devices(&mut machine, &form.devices, devices);
    (console_with(form, machine, papers), places)
}

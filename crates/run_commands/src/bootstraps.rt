//! The machine that boots, and what is had before.
ghost use Rattle.std.specs.Prelude.{◌≡◌};
ghost use Rattle.drive_files.specs.Mounting.{places_of, with_papers};
ghost use Rattle.run_commands.specs.Bootstraps as spec;
ghost use Rattle.run_commands.specs.Bootstraps.{GetsReady};

use crate::console_files::{ConsoleFiles, equipped_console, open_files};
use core_load::Core;
use drive_files::{Console, Places, disk_of};
use hosts::Host;
use outcome::Ending;
use pdp8e::Machine;
use program_tasks::ConsoleForm;
use std::alloc::Global;

/// What a machine has before it boots.
#[derive(Drop)]
pub(crate) struct Ready {
    pub(crate) core: Core,
    pub(crate) files: ConsoleFiles,
}

/// Opens the disks of the drives, and the files of the devices. Their memory and that of core is taken. No file changes but those of the
/// papers, which are made or emptied.
pub(crate) fn get_ready<H: Host>(
    host: &mut H,
    alloc: Global,
    form: &ConsoleForm,
) -> Result<Ready, Ending>
    ensures { GetsReady form.now (H.history host.old) result (H.history host.new) }
{
    let files = open_files(host, alloc, form)?;
    let core = Core::new(alloc)?;
    Ok(Ready { core, files })
}

/// The machine that is to boot, and where its files are held.
pub(crate) fn booted_console(form: &ConsoleForm, ready: Ready) -> (Console, Places)
    ensures console { result.0 ≡ spec.booted_console form.now ready }
    ensures places { result.1 ≡ with_papers ready.files.equipment.devices (places_of ready.files.drives) }
{
    let Ready { core, files } = ready;
    let ConsoleFiles { drives, equipment } = files;
    let (disk, places) = disk_of(&form.disk, drives);
    let mut machine = Machine::boot(core, disk);
    if let Some(word) = form.switches {
        machine.switches(word);
    }
    equipped_console(form, machine, places, equipment)
}

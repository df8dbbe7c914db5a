//! The command that boots a disk.
ghost use Rattle.std.specs.Prelude.{};
ghost use Rattle.byte_reader.specs.Readings.{reading};
ghost use Rattle.run_commands.specs.Boots.{BootsDisk};

use crate::bootstraps::{booted_console, get_ready};
use crate::runs8e::run_console;
use byte_reader::ByteReader;
use hosts::Host;
use outcome::Ending;
use program_tasks::ConsoleForm;
use std::alloc::Global;

/// Boots the disk in drive 0 of a PDP-8/E, whose keys a reader gives and whose paper is standard output. At the end of the run each file whose
/// disk was written gets what is on the disk, whole or not at all. The files of the papers get what was put there. So they do in
/// the run, while a key is waited for. The line of the end is printed on standard error. Where only a look is asked for, and on locked
/// drives, no file of a disk is written. The host is given back.
pub fn boot_disk<H: Host, I: ByteReader>(
    host: H,
    alloc: Global,
    keys: &mut I,
    form: &ConsoleForm,
) -> (H, Result<(), Ending>)
    ensures { BootsDisk form.now (reading I.remaining I.has_failed keys.old keys.new) (H.history host) result.1 (H.history result.0) }
{
    let mut host = host;
    match get_ready(&mut host, alloc, form) {
        Ok(ready) => {
            let (console, places) = booted_console(form, ready);
            run_console(host, alloc, keys, form, console, places)
        }
        Err(ending) => (host, Err(ending)),
    }
}

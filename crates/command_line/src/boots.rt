//! What is asked of a machine with disks, and of its run at the console.
ghost use Rattle.std.specs.Prelude.{◌≡◌, codes, IfOk, Some, true};
ghost use Rattle.command_table.specs.Values.{IsTaken, kind_at, takes_text, values_in};
ghost use Rattle.command_table.specs.Tables.{rows_for};
ghost use Rattle.command_table.specs.declared.table.Form.TheVariants as form;
ghost use Rattle.command_table.specs.declared.table.Kind.TheVariants as kind;
ghost use Rattle.command_table.specs.declared.table.Verb.TheVariants as verb;
ghost use Rattle.command_line.specs.Steps.{IsAskedBy, Needs};
ghost use Rattle.command_line.specs.Tasks.{AreFitLimits, AreFitTimes, IsConsole, IsDisk, IsDrive};

use crate::devices::devices_of;
use clap::ArgMatches;
use command_table::{
    Read, Verb, count_of, flag, names_drive, octal_of, time_of, value_if_given, wait_of,
};
use program_tasks::{ConsoleForm, DiskForm, DriveForm, Task};
use std::alloc::Global;

/// The instructions of a transfer, or of a seek by a cylinder, where nothing else is said.
const USUAL_TIME: u32 = 10;

/// The instructions from a save to the next, where nothing else is said.
const USUAL_EVERY: u32 = 1_000_000;

/// The disks that a machine is to have, and how it boots and runs.
pub fn boot(alloc: Global, found: &ArgMatches<'_>) -> Read<Task>
    requires { Needs verb.Boot (values_in found.now) }
    ensures { IfOk result (IsAskedBy verb.Boot (values_in found.now)) }
{
    let console = console_of(alloc, found, Verb::Boot, "IMAGE")?;
    Ok(Task::Boot(console))
}

/// How a machine is to run at the console, with the disk of drive 0 that this argument gives.
pub fn console_of(alloc: Global, found: &ArgMatches<'_>, verb: Verb, id: &str) -> Read<ConsoleForm>
    requires drive0 { takes_text (kind_at id.now (rows_for verb)) ≡ true }
    requires drive1 { takes_text (kind_at (codes "rk1") (rows_for verb)) ≡ true }
    requires drive2 { takes_text (kind_at (codes "rk2") (rows_for verb)) ≡ true }
    requires drive3 { takes_text (kind_at (codes "rk3") (rows_for verb)) ≡ true }
    requires lock { kind_at (codes "lock") (rows_for verb) ≡ Some (kind.Many form.Drive) }
    requires look { kind_at (codes "look") (rows_for verb) ≡ Some kind.Flag }
    requires wait { kind_at (codes "wait") (rows_for verb) ≡ Some (kind.One form.Seconds) }
    requires disk_time { kind_at (codes "disk-time") (rows_for verb) ≡ Some (kind.One form.Time) }
    requires seek_time { kind_at (codes "seek-time") (rows_for verb) ≡ Some (kind.One form.Time) }
    requires switches { kind_at (codes "switches") (rows_for verb) ≡ Some (kind.One form.Octal) }
    requires steps { kind_at (codes "steps") (rows_for verb) ≡ Some kind.Count }
    requires taken { IsTaken kind.Count (codes "steps") (values_in found.now) }
    requires every { kind_at (codes "every") (rows_for verb) ≡ Some (kind.One form.Time) }
    requires ends_with { takes_text (kind_at (codes "ends-with") (rows_for verb)) ≡ true }
    requires capitals { kind_at (codes "capitals") (rows_for verb) ≡ Some kind.Flag }
    requires raw { kind_at (codes "raw") (rows_for verb) ≡ Some kind.Flag }
    requires live { kind_at (codes "live") (rows_for verb) ≡ Some kind.Flag }
    requires reader { takes_text (kind_at (codes "reader") (rows_for verb)) ≡ true }
    requires punch { takes_text (kind_at (codes "punch") (rows_for verb)) ≡ true }
    requires printer { takes_text (kind_at (codes "printer") (rows_for verb)) ≡ true }
    requires transfers { takes_text (kind_at (codes "transfers") (rows_for verb)) ≡ true }
    requires clock { kind_at (codes "clock") (rows_for verb) ≡ Some kind.Count }
    requires ticks { IsTaken kind.Count (codes "clock") (values_in found.now) }
    ensures console { IfOk result (IsConsole id.now (values_in found.now)) }
    ensures limits { IfOk result AreFitLimits }
{
    let disk = disk_of(alloc, found, verb, id)?;
    let devices = devices_of(alloc, found, verb)?;
    let ends_with = value_if_given(alloc, found, verb, "ends-with")?;
    Ok(ConsoleForm {
        disk,
        devices,
        switches: octal_of(found, verb, "switches"),
        steps: count_of(found, verb, "steps"),
        every: time_of(found, verb, "every", USUAL_EVERY),
        ends_with,
        has_capitals: flag(found, verb, "capitals"),
        is_raw: flag(found, verb, "raw"),
        is_live: flag(found, verb, "live"),
    })
}

/// The disks that a machine is to have, that of drive 0 by this argument.
pub fn disk_of(alloc: Global, found: &ArgMatches<'_>, verb: Verb, id: &str) -> Read<DiskForm>
    requires drive0 { takes_text (kind_at id.now (rows_for verb)) ≡ true }
    requires drive1 { takes_text (kind_at (codes "rk1") (rows_for verb)) ≡ true }
    requires drive2 { takes_text (kind_at (codes "rk2") (rows_for verb)) ≡ true }
    requires drive3 { takes_text (kind_at (codes "rk3") (rows_for verb)) ≡ true }
    requires lock { kind_at (codes "lock") (rows_for verb) ≡ Some (kind.Many form.Drive) }
    requires look { kind_at (codes "look") (rows_for verb) ≡ Some kind.Flag }
    requires wait { kind_at (codes "wait") (rows_for verb) ≡ Some (kind.One form.Seconds) }
    requires disk_time { kind_at (codes "disk-time") (rows_for verb) ≡ Some (kind.One form.Time) }
    requires seek_time { kind_at (codes "seek-time") (rows_for verb) ≡ Some (kind.One form.Time) }
    ensures disk { IfOk result (IsDisk id.now (values_in found.now)) }
    ensures times { IfOk result AreFitTimes }
{
    let drive0 = drive_of(alloc, found, verb, id, "0")?;
    let drive1 = drive_of(alloc, found, verb, "rk1", "1")?;
    let drive2 = drive_of(alloc, found, verb, "rk2", "2")?;
    let drive3 = drive_of(alloc, found, verb, "rk3", "3")?;
    Ok(DiskForm {
        drive0,
        drive1,
        drive2,
        drive3,
        is_look: flag(found, verb, "look"),
        wait: wait_of(found, verb),
        disk_time: time_of(found, verb, "disk-time", USUAL_TIME),
        seek_time: time_of(found, verb, "seek-time", USUAL_TIME),
    })
}

/// The file that an argument gives for a drive, and whether the drive of this number is locked.
fn drive_of(
    alloc: Global,
    found: &ArgMatches<'_>,
    verb: Verb,
    id: &str,
    number: &str,
) -> Read<DriveForm>
    requires text { takes_text (kind_at id.now (rows_for verb)) ≡ true }
    requires lock { kind_at (codes "lock") (rows_for verb) ≡ Some (kind.Many form.Drive) }
    ensures { IfOk result (IsDrive id.now number.now (values_in found.now)) }
{
    let image = value_if_given(alloc, found, verb, id)?;
    Ok(DriveForm {
        image,
        is_locked: names_drive(found, verb, "lock", number),
    })
}

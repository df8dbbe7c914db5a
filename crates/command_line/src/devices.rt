//! What is asked of the reader, punch, line printer and clock of an 8/E, and of the lines of its transfers.
ghost use Rattle.std.specs.Prelude.{◌≡◌, codes, IfOk, Some, true};
ghost use Rattle.command_table.specs.Values.{IsTaken, kind_at, takes_text, values_in};
ghost use Rattle.command_table.specs.Tables.{rows_for};
ghost use Rattle.command_table.specs.declared.table.Kind.TheVariants as kind;
ghost use Rattle.command_line.specs.Tasks.{AreDevices};

use clap::ArgMatches;
use command_table::{Read, Verb, count_of, value_if_given};
use program_tasks::DeviceForm;
use std::alloc::Global;

/// The tape in the reader, the files of punch, line printer and transfers, and the clock.
pub fn devices_of(alloc: Global, found: &ArgMatches<'_>, verb: Verb) -> Read<DeviceForm>
    requires reader { takes_text (kind_at (codes "reader") (rows_for verb)) ≡ true }
    requires punch { takes_text (kind_at (codes "punch") (rows_for verb)) ≡ true }
    requires printer { takes_text (kind_at (codes "printer") (rows_for verb)) ≡ true }
    requires transfers { takes_text (kind_at (codes "transfers") (rows_for verb)) ≡ true }
    requires clock { kind_at (codes "clock") (rows_for verb) ≡ Some kind.Count }
    requires taken { IsTaken kind.Count (codes "clock") (values_in found.now) }
    ensures { IfOk result (AreDevices (values_in found.now)) }
{
    let reader = value_if_given(alloc, found, verb, "reader")?;
    let punch = value_if_given(alloc, found, verb, "punch")?;
    let printer = value_if_given(alloc, found, verb, "printer")?;
    let transfers = value_if_given(alloc, found, verb, "transfers")?;
    Ok(DeviceForm {
        reader,
        punch,
        printer,
        transfers,
        clock: count_of(found, verb, "clock"),
    })
}

//! What the commands on machines leave as it was.
ghost use Rattle.std.specs.Prelude.{◌≡◌, false};
ghost use Rattle.byte_reader.specs.Readings.{reading};
ghost use Rattle.program_tasks.specs.declared.boots.ConsoleForm.{ConsoleForm};
ghost use Rattle.program_tasks.specs.declared.tasks.TeletypeForm.{TeletypeForm};
ghost use Rattle.program_tasks.specs.declared.tasks.TraceForm.{TraceForm};
ghost use Rattle.image_files.specs.Laws.{KeepsFiles};
ghost use Rattle.drive_files.specs.Opening.{are_saved};
ghost use Rattle.run_commands.specs.Boots.{BootsDisk};
ghost use Rattle.run_commands.specs.Bootstraps.{GetsReady};
ghost use Rattle.drive_files.specs.Devices.{has_papers};
ghost use Rattle.run_commands.specs.Profiles.{ProfilesTape};
ghost use Rattle.run_commands.specs.Teletypes.{RunsTeletype};
ghost use Rattle.run_commands.specs.Traces.{TracesTape};

use byte_reader::ByteReader;
use drive_files::laws::unchanged_files as unchanged_drives;
use host_output::laws::prints_alone;
use image_files::laws::kept_files;
use tape_commands::laws::unchanged_files as unchanged_programs;

/// A law: none of these commands changes a file of the host or makes a folder, in whichever way it ends. Files of drives that are to be saved are excepted, and
/// those of papers. Nor does what comes before a boot, but for the latter.
pub fn unchanged_files<I: ByteReader>()
    ensures profile { (form : TraceForm) → are_saved form.disk ≡ false → has_papers form.devices ≡ false → KeepsFiles (ProfilesTape form) }
    ensures trace { (form : TraceForm) → are_saved form.disk ≡ false → has_papers form.devices ≡ false → KeepsFiles (TracesTape form) }
    ensures teletype { (form : TeletypeForm) (before after : I) → are_saved form.console.disk ≡ false → has_papers form.console.devices ≡ false
        → KeepsFiles (RunsTeletype form (reading I.remaining I.has_failed before after)) }
    ensures boot { (form : ConsoleForm) (before after : I) → are_saved form.disk ≡ false → has_papers form.devices ≡ false
        → KeepsFiles (BootsDisk form (reading I.remaining I.has_failed before after)) }
    ensures refused { (form : ConsoleForm) → has_papers form.devices ≡ false → KeepsFiles (GetsReady form) }
{
    kept_files();
    unchanged_programs();
    unchanged_drives();
    prints_alone();
}

//! What it means that a run or a trace reports a full output, or keys that can't be read, as laws.
ghost use Rattle.std.specs.Prelude.{ℕ, Err, List, false};
ghost use Rattle.byte_reader.specs.Readings.{reading};
ghost use Rattle.hosts.specs.Event.{Event};
ghost use Rattle.outcome.specs.declared.endings.Ending.TheVariants.{Fault, FullOutput};
ghost use Rattle.program_tasks.specs.declared.boots.DiskForm.{DiskForm as Disks};
ghost use Rattle.program_tasks.specs.declared.devices.DeviceForm.{DeviceForm as Devices};
ghost use Rattle.program_tasks.specs.declared.tasks.Cpu.TheVariants.{EightI};
ghost use Rattle.program_tasks.specs.declared.tasks.TeletypeForm.{TeletypeForm as Form};
ghost use Rattle.refusals.specs.declared.faults.SessionFault.TheVariants.{Reader};
ghost use Rattle.run_commands.specs.Runs8e.{RunsOn8e};
ghost use Rattle.run_commands.specs.Teletypes.{RunsOn};
ghost use Rattle.run_commands.specs.Traces.{TracesOn};
ghost use Rattle.program_laws.specs.Ends.{HasLostLine};

use byte_reader::ByteReader;

/// A run at the Teletype without disks, and a trace of an 8/I, report a full output only after a print that failed.
pub fn full_outputs<I: ByteReader>()
    ensures plain { (form : Form) (program : _) (before after : I) (old new : List Event)
        → RunsOn EightI form program (reading I.remaining I.has_failed before after) old (Err FullOutput) new → HasLostLine old new }
    ensures others { (form : Form) (program : _) (before after : I) (old new : List Event)
        → RunsOn8e false form program (reading I.remaining I.has_failed before after) old (Err FullOutput) new → HasLostLine old new }
    ensures traces { (disks : Disks) (devices : Devices) (most : ℕ) (run : _) (old new : List Event) → TracesOn EightI disks devices most run old (Err FullOutput) new
        → HasLostLine old new }
{}

/// A run at the Teletype without disks calls its keys unread only where a call of the reader failed.
pub fn unread_keys<I: ByteReader>()
    ensures plain { (form : Form) (program : _) (before after : I) (old new : List Event)
        → RunsOn EightI form program (reading I.remaining I.has_failed before after) old (Err (Fault Reader)) new → I.has_failed after }
    ensures others { (form : Form) (program : _) (before after : I) (old new : List Event)
        → RunsOn8e false form program (reading I.remaining I.has_failed before after) old (Err (Fault Reader)) new → I.has_failed after }
{}

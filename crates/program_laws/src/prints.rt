//! What is printed after standard output did not take something, as laws.
ghost use Rattle.std.specs.Prelude.{ℕ, Bool, List, String};
ghost use Rattle.std.specs.Global.{Global as Heap};
ghost use Rattle.byte_reader.specs.Readings.{reading};
ghost use Rattle.hosts.specs.Event.{Event};
ghost use Rattle.archive_files.specs.declared.asking.Asked.{Asked as Meant};
ghost use Rattle.archive_files.specs.declared.forms.GetForm.{GetForm as How};
ghost use Rattle.program_tasks.specs.declared.archives.PatchForm.{PatchForm as Patch};
ghost use Rattle.program_tasks.specs.declared.archives.RescueForm.{RescueForm as Rescue};
ghost use Rattle.program_tasks.specs.declared.forms.CopyForm.{CopyForm as Copy};
ghost use Rattle.program_tasks.specs.declared.forms.CreateForm.{CreateForm as Create};
ghost use Rattle.program_tasks.specs.declared.forms.DeleteForm.{DeleteForm as Delete};
ghost use Rattle.program_tasks.specs.declared.forms.GetManyForm.{GetManyForm as GetMany};
ghost use Rattle.program_tasks.specs.declared.forms.ImageForm.{ImageForm as Kept};
ghost use Rattle.program_tasks.specs.declared.forms.PutFilesForm.{PutFilesForm as Put};
ghost use Rattle.program_tasks.specs.declared.archives.BlockSpan.{BlockSpan as Dump};
ghost use Rattle.program_tasks.specs.declared.archives.ScanForm.{ScanForm as Scan};
ghost use Rattle.program_tasks.specs.declared.tasks.Task.TheVariants as asked;
ghost use Rattle.program.specs.Tasks.{RunsTask};
ghost use Rattle.program_laws.specs.Ends.{StopsPrinting};

use byte_reader::ByteReader;
use keeper_laws::laws::{ended_changes, ended_creations, ended_rescues, ended_words};

/// After a print that standard output did not take, a command that changes an image or makes one prints no byte there.
pub fn last_changes<I: ByteReader>()
    ensures puts { (form : Put) (is_typed : Bool) (before after : I) (old new : List Event) (status : ℕ)
        → RunsTask (asked.Put form) is_typed (reading I.remaining I.has_failed before after) old new status → StopsPrinting old new }
    ensures copies { (form : Copy) (is_typed : Bool) (before after : I) (old new : List Event) (status : ℕ)
        → RunsTask (asked.Copy form) is_typed (reading I.remaining I.has_failed before after) old new status → StopsPrinting old new }
    ensures squeezes { (form : Kept) (is_typed : Bool) (before after : I) (old new : List Event) (status : ℕ)
        → RunsTask (asked.Squeeze form) is_typed (reading I.remaining I.has_failed before after) old new status → StopsPrinting old new }
    ensures renames { (form : Kept) (file : Meant) (name : String Heap) (is_typed : Bool) (before after : I) (old new : List Event) (status : ℕ)
        → RunsTask (asked.Rename form file name) is_typed (reading I.remaining I.has_failed before after) old new status → StopsPrinting old new }
    ensures deletes { (form : Delete) (is_typed : Bool) (before after : I) (old new : List Event) (status : ℕ)
        → RunsTask (asked.Delete form) is_typed (reading I.remaining I.has_failed before after) old new status → StopsPrinting old new }
    ensures patches { (form : Patch) (is_typed : Bool) (before after : I) (old new : List Event) (status : ℕ)
        → RunsTask (asked.Patch form) is_typed (reading I.remaining I.has_failed before after) old new status → StopsPrinting old new }
    ensures empties { (form : Kept) (is_typed : Bool) (before after : I) (old new : List Event) (status : ℕ)
        → RunsTask (asked.CreateVolume form) is_typed (reading I.remaining I.has_failed before after) old new status → StopsPrinting old new }
    ensures volumes { (form : Create) (blocks : ℕ) (is_typed : Bool) (before after : I) (old new : List Event) (status : ℕ)
        → RunsTask (asked.Create form blocks) is_typed (reading I.remaining I.has_failed before after) old new status → StopsPrinting old new }
    ensures tapes { (form : Create) (is_typed : Bool) (before after : I) (old new : List Event) (status : ℕ)
        → RunsTask (asked.CreateTape form) is_typed (reading I.remaining I.has_failed before after) old new status → StopsPrinting old new }
    ensures disks { (form : Create) (is_typed : Bool) (before after : I) (old new : List Event) (status : ℕ)
        → RunsTask (asked.CreateDisk form) is_typed (reading I.remaining I.has_failed before after) old new status → StopsPrinting old new }
    ensures rescues { (form : Rescue) (is_typed : Bool) (before after : I) (old new : List Event) (status : ℕ)
        → RunsTask (asked.Rescue form) is_typed (reading I.remaining I.has_failed before after) old new status → StopsPrinting old new }
{
    ended_changes();
    ended_creations();
    ended_rescues();
    ended_words();
}

/// So it is of `get` of one file, or of several to a folder, of `dump`, and of `scan`, which may write pieces to a folder. Each file has its line.
pub fn last_reads<I: ByteReader>()
    ensures gets { (form : Kept) (file : Meant) (how : How) (is_typed : Bool) (before after : I) (old new : List Event) (status : ℕ)
        → RunsTask (asked.Get form file how) is_typed (reading I.remaining I.has_failed before after) old new status → StopsPrinting old new }
    ensures many { (form : GetMany) (is_typed : Bool) (before after : I) (old new : List Event) (status : ℕ)
        → RunsTask (asked.GetMany form) is_typed (reading I.remaining I.has_failed before after) old new status → StopsPrinting old new }
    ensures dumps { (form : Dump) (is_typed : Bool) (before after : I) (old new : List Event) (status : ℕ)
        → RunsTask (asked.Dump form) is_typed (reading I.remaining I.has_failed before after) old new status → StopsPrinting old new }
    ensures scans { (form : Scan) (is_typed : Bool) (before after : I) (old new : List Event) (status : ℕ)
        → RunsTask (asked.Scan form) is_typed (reading I.remaining I.has_failed before after) old new status → StopsPrinting old new }
{}

//! What `assemble` leaves in the files that are named for its tape and its listing, and what `get` and `scan` leave in a folder, as laws.
ghost use Rattle.std.specs.Prelude.{◌≡◌, Bool, None, Some, Ok, List, Result, String};
ghost use Rattle.std.specs.Global.{Global as Heap};
ghost use Rattle.byte_reader.specs.Readings.{reading};
ghost use Rattle.hosts.specs.Event.{Event};
ghost use Rattle.outcome.specs.declared.endings.Ending.{Ending as End};
ghost use Rattle.program_tasks.specs.declared.archives.ScanForm.{ScanForm as Scan};
ghost use Rattle.program_tasks.specs.declared.forms.GetManyForm.{GetManyForm as GetMany};
ghost use Rattle.program_tasks.specs.declared.forms.ImageForm.{ImageForm as Kept};
ghost use Rattle.program_tasks.specs.declared.tasks.AssembleForm.{AssembleForm as Assembly};
ghost use Rattle.program_tasks.specs.declared.tasks.Task.TheVariants as asked;
ghost use Rattle.assemble_commands.specs.Assembling.{Assembles};
ghost use Rattle.assemble_commands.specs.Clashes.{tape_place};
ghost use Rattle.keeper_laws.specs.Ended.{TouchesOne};
ghost use Rattle.keeper_laws.specs.Laid.{HasGotten, HasWrittenOut};
ghost use Rattle.program.specs.Tasks.{RunsTask};
ghost use Rattle.program_laws.specs.Outputs.{HasLeft, HasOutputs, TouchesAt, TouchesOutputs};

use byte_reader::ByteReader;
use keeper_laws::folders::{laid_files, laid_pieces};

/// What `assemble` leaves where it ends well and no volume gets the tape. The file that is named for the tape of the sources has it, or standard output
/// took it. So it is of the listing, if that is asked for. No other path is changed. With the status 0 it has ended so, where the sources are files of
/// the host.
pub fn written_outputs<I: ByteReader>()
    ensures ends { (form : Assembly) (old new : List Event) → form.onto ≡ None → Assembles form old (Ok tt) new → HasOutputs form old new }
    ensures zero { (form : Assembly) (is_typed : Bool) (before after : I) (old new : List Event) → form.from ≡ None → form.onto ≡ None
        → RunsTask (asked.Assemble form) is_typed (reading I.remaining I.has_failed before after) old new 0 → HasLeft (HasOutputs form) old new }
{}

/// Which files `assemble` makes, changes or takes away, in whichever way it ends. One path at most is for the listing, if
/// a file is named for it. Then one is for the tape, if a file is named for that or a volume gets it. None is left beside them, unless that could not
/// be taken away.
pub fn touched_outputs()
    ensures outputs { (form : Assembly) (old : List Event) (result : Result (Unit {0}) End) (new : List Event) → form.onto ≡ None → Assembles form old result new
        → TouchesOutputs form (TouchesAt (Some (tape_place form.output))) old new }
    ensures onto { (form : Assembly) (named : Kept) (name : String Heap) (old : List Event) (result : Result (Unit {0}) End) (new : List Event)
        → form.from ≡ Some named → form.onto ≡ Some name → Assembles form old result new → TouchesOutputs form TouchesOne old new }
{}

/// With the status 0 `get --into` has each file that was asked for in the folder, and `scan --into` each piece. What follows changes no file.
pub fn laid_statuses<I: ByteReader>()
    ensures gets { (form : GetMany) (is_typed : Bool) (before after : I) (old new : List Event)
        → RunsTask (asked.GetMany form) is_typed (reading I.remaining I.has_failed before after) old new 0 → HasLeft (HasGotten form) old new }
    ensures scans { (form : Scan) (folder : String Heap) (is_typed : Bool) (before after : I) (old new : List Event) → form.into ≡ Some folder
        → RunsTask (asked.Scan form) is_typed (reading I.remaining I.has_failed before after) old new 0 → HasLeft (HasWrittenOut folder.bytes.items form.image) old new }
{
    laid_files();
    laid_pieces();
}

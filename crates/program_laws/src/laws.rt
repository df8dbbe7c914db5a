//! What the tasks leave as it was, and what an exit status means, as laws.
ghost use Rattle.std.specs.Prelude.{◌≡◌, ◌<◌, ℕ, Bool, false, List, None, Result, Some, String, All};
ghost use Rattle.std.specs.Global.{Global as Heap};
ghost use Rattle.byte_reader.specs.Readings.{reading};
ghost use Rattle.archive_files.specs.declared.forms.GetForm.TheVariants as get_as;
ghost use Rattle.archive_files.specs.Laws.{whole_blocks};
ghost use Rattle.hosts.specs.Event.{Event};
ghost use Rattle.program_tasks.specs.declared.forms.CopyForm.{CopyForm as Copy};
ghost use Rattle.program_tasks.specs.declared.forms.CreateForm.{CreateForm as Create};
ghost use Rattle.program_tasks.specs.declared.forms.DeleteForm.{DeleteForm as Delete};
ghost use Rattle.archive_files.specs.declared.asking.Asked.{Asked as Meant};
ghost use Rattle.program_tasks.specs.declared.forms.ImageForm.{ImageForm as Kept};
ghost use Rattle.program_tasks.specs.declared.forms.PutFilesForm.{PutFilesForm as Put};
ghost use Rattle.outcome.specs.declared.endings.Ending.{Ending as End};
ghost use Rattle.program_tasks.specs.declared.archives.PatchForm.{PatchForm as Patch};
ghost use Rattle.program_tasks.specs.declared.archives.RescueForm.{RescueForm as Rescue};
ghost use Rattle.program_tasks.specs.declared.tasks.AssembleForm.{AssembleForm as Assembly};
ghost use Rattle.program_tasks.specs.declared.tasks.Task.{Task as Asked};
ghost use Rattle.program_tasks.specs.declared.tasks.Task.TheVariants as asked;
ghost use Rattle.image_files.specs.Laws.{KeepsFiles, ChangesNothing};
ghost use Rattle.assemble_commands.specs.Assembling.{Assembles};
ghost use Rattle.program.specs.Tasks.{DoesTask, RunsTask, word_patch};
ghost use Rattle.change_commands.specs.Creating.{IsBlankDisk, IsBlankImage, IsBlankTapeFile};
ghost use Rattle.change_commands.specs.declared.creating.TheConstants.{DISK_BLOCKS, TAPE_BLOCKS};
ghost use Rattle.program_laws.specs.Assembled.{HasAssembled, IsMapOf};
ghost use Rattle.program_laws.specs.Quiet.{may_change};
ghost use Rattle.program_laws.specs.Statuses.{Means, MeansMade, MeansPatch, MeansRescued};
ghost use Rattle.keeper_laws.specs.Changes.{HasDeleted, HasEmptied, HasPatched, HasRenamed, HasSqueezed};
ghost use Rattle.keeper_laws.specs.Copied.{HasCopied};
ghost use Rattle.keeper_laws.specs.Ended.{EndsAs};
ghost use Rattle.keeper_laws.specs.Made.{HasCreated};
ghost use Rattle.keeper_laws.specs.Stored.{HasStored};
ghost use Rattle.keeper_laws.specs.GettingBack.{IsPrinted};
ghost use Rattle.archive_files.specs.Asking.{target_of};

use archive_files::laws::put_is_got;
use assemble_commands::laws::unchanged_files as unchanged_sources;
use bin_tape::laws::written_tape;
use byte_reader::ByteReader;
use get_commands::laws::shown_files;
use image_files::laws::found_again;
use index_commands::laws::unchanged_files as unchanged_indexes;
use keeper_laws::laws::{ended_changes, ended_creations, ended_rescues, ended_words};
use keeper_laws::verb_laws::unchanged_files as unchanged_choices;
use pal_asm::laws::has_words as pal3_words;
use pal8_tape::laws::has_words as pal8_words;
use run_commands::laws::unchanged_files as unchanged_machines;
use script_commands::laws::unchanged_files as unchanged_scripts;
use show_commands::laws::shown_images;
use tape_commands::laws::unchanged_files as unchanged_programs;

/// A task that isn't to change a file changes none and makes no folder, in whichever way it ends.
pub fn quiet_tasks<I: ByteReader>()
    ensures does { (it : Asked) (is_typed : Bool) (before after : I) → may_change it ≡ false
        → KeepsFiles (DoesTask it is_typed (reading I.remaining I.has_failed before after)) }
    ensures runs { (it : Asked) (is_typed : Bool) (before after : I) (old new : List Event) (status : ℕ) → may_change it ≡ false
        → RunsTask it is_typed (reading I.remaining I.has_failed before after) old new status → ChangesNothing old new }
{
    shown_files();
    shown_images();
    unchanged_choices();
    unchanged_indexes();
    unchanged_programs();
    unchanged_machines::<I>();
    unchanged_scripts::<I>();
    unchanged_sources();
}

/// What each ending of `assemble --onto` means, where no listing is named. The volume that has the sources gets their tape where the command
/// ends well, and where only its line can't be printed. Where it is refused, also by a fault of the sources, nothing is changed.
pub fn ended_assemblies()
    ensures { (form : Assembly) (named : Kept) (name : String Heap) (old : List Event) (result : Result (Unit {0}) End) (new : List Event)
        → form.from ≡ Some named → form.onto ≡ Some name → form.list ≡ None → Assembles form old result new
        → EndsAs named (HasAssembled form named name.bytes.items) result old new }
{
    found_again();
}

/// What each exit status of a change means for the files of who runs it. With 0 it is made, and its line was printed. With another one, where
/// standard output took all that was printed, each file is as it was, or a note said that the image may hold a part.
pub fn change_statuses<I: ByteReader>()
    ensures puts { (form : Put) (is_typed : Bool) (before after : I) (old new : List Event) (status : ℕ)
        → RunsTask (asked.Put form) is_typed (reading I.remaining I.has_failed before after) old new status → Means form.image (HasStored form) status old new }
    ensures copies { (form : Copy) (is_typed : Bool) (before after : I) (old new : List Event) (status : ℕ)
        → RunsTask (asked.Copy form) is_typed (reading I.remaining I.has_failed before after) old new status → Means form.to (HasCopied form) status old new }
    ensures squeezes { (form : Kept) (is_typed : Bool) (before after : I) (old new : List Event) (status : ℕ)
        → RunsTask (asked.Squeeze form) is_typed (reading I.remaining I.has_failed before after) old new status → Means form (HasSqueezed form) status old new }
    ensures renames { (form : Kept) (file : Meant) (name : String Heap) (is_typed : Bool) (before after : I) (old new : List Event) (status : ℕ)
        → RunsTask (asked.Rename form file name) is_typed (reading I.remaining I.has_failed before after) old new status
        → Means form (HasRenamed (target_of file) name.bytes.items form) status old new }
    ensures deletes { (form : Delete) (is_typed : Bool) (before after : I) (old new : List Event) (status : ℕ)
        → RunsTask (asked.Delete form) is_typed (reading I.remaining I.has_failed before after) old new status → Means form.image (HasDeleted form) status old new }
{
    ended_changes();
}

/// The same of `patch`, of `create` where it makes one volume of a disk empty, and of `assemble --onto` where no listing is named. Where `patch`
/// is refused by what stands there, its own line says so. A person may be asked before a volume is made empty.
pub fn word_statuses<I: ByteReader>()
    ensures patches { (form : Patch) (is_typed : Bool) (before after : I) (old new : List Event) (status : ℕ)
        → RunsTask (asked.Patch form) is_typed (reading I.remaining I.has_failed before after) old new status
        → MeansPatch form.image (HasPatched (word_patch form) form.image) status old new }
    ensures empties { (form : Kept) (is_typed : Bool) (before after : I) (old new : List Event) (status : ℕ)
        → RunsTask (asked.CreateVolume form) is_typed (reading I.remaining I.has_failed before after) old new status → Means form (HasEmptied form) status old new }
    ensures assembles { (form : Assembly) (named : Kept) (name : String Heap) (is_typed : Bool) (before after : I) (old new : List Event) (status : ℕ)
        → form.from ≡ Some named → form.onto ≡ Some name → form.list ≡ None
        → RunsTask (asked.Assemble form) is_typed (reading I.remaining I.has_failed before after) old new status
        → Means named (HasAssembled form named name.bytes.items) status old new }
{
    ended_words();
    ended_assemblies();
}

/// What each exit status of `create` and `rescue` means. With 0 the new file is made, whole, and its line was printed; none of its files is lost.
/// With another one, where standard output took all that was printed, none is made. Or lines of `rescue` report a loss, or a note said that the
/// file that `create` was to replace may hold a part.
pub fn creation_statuses<I: ByteReader>()
    ensures volumes { (form : Create) (blocks : ℕ) (is_typed : Bool) (before after : I) (old new : List Event) (status : ℕ)
        → RunsTask (asked.Create form blocks) is_typed (reading I.remaining I.has_failed before after) old new status
        → MeansMade (HasCreated (IsBlankImage blocks) form blocks) status old new }
    ensures tapes { (form : Create) (is_typed : Bool) (before after : I) (old new : List Event) (status : ℕ)
        → RunsTask (asked.CreateTape form) is_typed (reading I.remaining I.has_failed before after) old new status
        → MeansMade (HasCreated IsBlankTapeFile form TAPE_BLOCKS) status old new }
    ensures disks { (form : Create) (is_typed : Bool) (before after : I) (old new : List Event) (status : ℕ)
        → RunsTask (asked.CreateDisk form) is_typed (reading I.remaining I.has_failed before after) old new status
        → MeansMade (HasCreated IsBlankDisk form DISK_BLOCKS) status old new }
    ensures rescues { (form : Rescue) (is_typed : Bool) (before after : I) (old new : List Event) (status : ℕ)
        → RunsTask (asked.Rescue form) is_typed (reading I.remaining I.has_failed before after) old new status
        → MeansRescued form.new.bytes.items form.image status old new }
{
    ended_creations();
    ended_rescues();
}

/// What `assemble --onto` stored, `get` gives of the image file as it was left: the tape of its sources, with zeros to the end of its last block.
/// That is a tape of the words that the sources make, each in its cell, if these are words and cells of the machine.
pub fn assembly_comes_back()
    ensures frames { (form : Assembly) (named : Kept) (name : List ℕ) (ok : Bool) (old new : List Event) (stored : HasAssembled form named name ok old new)
        → All (λ byte. byte < 256) stored.tape.items
        → IsPrinted named stored.has.file name get_as.Frames (whole_blocks stored.tape.items) }
    ensures map { (form : Assembly) (named : Kept) (name : List ℕ) (ok : Bool) (old new : List Event) (stored : HasAssembled form named name ok old new)
        → IsMapOf form stored.sources (whole_blocks stored.tape.items) }
{
    put_is_got();
    written_tape();
    pal3_words();
    pal8_words();
}

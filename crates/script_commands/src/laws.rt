//! What a run of a script leaves as it was, what it prints last, and what a crash may leave, as laws.
ghost use Rattle.std.specs.Prelude.{◌≡◌, ◌⊎◌, ◌∷◌, ◌++◌, ℕ, Bool, List, None, Option, Result, true};
ghost use Rattle.byte_reader.specs.Readings.{reading};
ghost use Rattle.hosts.specs.Event.{Event};
ghost use Rattle.hosts.specs.declared.faults.PrintFault.{PrintFault};
ghost use Rattle.hosts.specs.Place.{Place, Leaves, about, ever};
ghost use Rattle.program_tasks.specs.declared.forms.ImageForm.{ImageForm};
ghost use Rattle.program_tasks.specs.declared.tasks.RunForm.{RunForm};
ghost use Rattle.program_tasks.specs.declared.tasks.Saving.TheVariants.{Never};
ghost use Rattle.script8.specs.declared.entries.Entry.{Entry};
ghost use Rattle.refusals.specs.declared.faults.SessionFault.{SessionFault};
ghost use Rattle.script8.specs.declared.replies.Reply.{Reply};
ghost use Rattle.image_files.specs.Laws.{KeepsFiles};
ghost use Rattle.image_files.specs.declared.images.Image.{Image};
ghost use Rattle.script_commands.specs.Laws.{IsInPlace, IsKeptBefore, IsOneOf, PrintNothing};
ghost use Rattle.script_commands.specs.Scripts.{RunsScript};
ghost use Rattle.script_commands.specs.Steps.{Step, Refuses, Replies, AreDone, AreKept, changes, save_ending};

use byte_reader::ByteReader;
use image_files::laws::kept_files;

/// Where the image is never to be saved, a run changes no file of the host and makes no folder, in whichever way it ends.
pub fn unchanged_files<I: ByteReader>()
    ensures { (named : ImageForm) (form : RunForm) (is_typed : Bool) (before after : I) → form.saving ≡ Never
        → KeepsFiles (RunsScript named form is_typed (reading I.remaining I.has_failed before after)) }
{
    kept_files();
}

/// Where each change is to be kept, the file has the image of the volume right after an answer before the answer's lines are printed.
/// It is so for each answer after which the image may be another one.
pub fn kept_changes()
    ensures { (is_typed : Bool) (start : Image) (later earlier : List Step) (entry : Option Entry) (answer : Result Reply SessionFault) (blocks : List (List ℕ)) (old new : List Event)
        → AreDone is_typed start (later ++ Replies entry answer blocks ∷ earlier) old new → AreKept start (later ++ Replies entry answer blocks ∷ earlier)
        → changes answer ≡ true → IsKeptBefore is_typed start earlier blocks old }
{}

/// After lines that standard output did not take, a run prints none.
pub fn last_prints()
    ensures { (is_typed : Bool) (start : Image) (later earlier : List Step) (fault : PrintFault) (bytes : List ℕ) (old new : List Event)
        → AreDone is_typed start (later ++ Refuses fault bytes ∷ earlier) old new → PrintNothing later }
{}

/// A crash at any moment of the steps leaves what it might have left before, or one of the files that they wrote, whole. A file that is
/// written in its place is not promised so.
pub fn crashes()
    ensures { (is_typed : Bool) (start : Image) (steps : List Step) (old new : List Event) → AreDone is_typed start steps old new → save_ending steps ≡ None
        → (place : Place) (found : Option (List ℕ)) → Leaves (ever place (about start.place.path.bytes.items new)) found
        → Leaves (ever place (about start.place.path.bytes.items old)) found ⊎ (IsOneOf found steps ⊎ IsInPlace is_typed start steps old) }
{}

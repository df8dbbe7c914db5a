//! What a run of a script means for its image, its answers and its end, as laws.
ghost use Rattle.std.specs.Prelude.{◌≡◌, ◌≢◌, Bool, true, false, Err, List, Ok, Option, Result};
ghost use Rattle.byte_reader.specs.Readings.{reading};
ghost use Rattle.hosts.specs.Event.{Event};
ghost use Rattle.hosts.specs.Place.{Place};
ghost use Rattle.hosts.specs.declared.faults.PrintFault.{PrintFault};
ghost use Rattle.outcome.specs.declared.endings.Ending.{Ending as End};
ghost use Rattle.program_tasks.specs.declared.forms.ImageForm.{ImageForm as Kept};
ghost use Rattle.program_tasks.specs.declared.tasks.RunForm.{RunForm};
ghost use Rattle.program_tasks.specs.declared.tasks.Saving.{Saving};
ghost use Rattle.program_tasks.specs.declared.tasks.Saving.TheVariants.{Never};
ghost use Rattle.program_tasks.specs.declared.tasks.Task.TheVariants as asked;
ghost use Rattle.refusals.specs.declared.faults.SessionFault.{SessionFault as Fault};
ghost use Rattle.refusals.specs.declared.faults.SessionFault.TheVariants.{Reader};
ghost use Rattle.refusals.specs.declared.faults.TheConstants.{MOST};
ghost use Rattle.script8.specs.Reading.{MayReadNoMore};
ghost use Rattle.system_session.specs.Session.{SessionView as Session};
ghost use Rattle.image_files.specs.declared.images.Image.{Image};
ghost use Rattle.script_commands.specs.Laws.{image_file};
ghost use Rattle.script_commands.specs.Scripts.{EndsRun, RunsSession};
ghost use Rattle.script_commands.specs.Steps.{has_refusal, reply_text};
ghost use Rattle.keeper_laws.specs.Seen.{IsSeen};
ghost use Rattle.program.specs.Tasks.{RunsImage, RunsTask};
ghost use Rattle.program_laws.specs.Runs.{HasRun, HoldsVolume, PrintsBeginning, TouchesRun};

use byte_reader::ByteReader;

/// A run of a script that ends well, and is not only to look, leaves the volume of its end in the image file. That must have had what was read of it.
pub fn ended_runs<I: ByteReader>()
    ensures { (form : RunForm) (is_typed : Bool) (image : Image) (session : Session) (before after : I) (old new : List Event) (start : Place)
        (r : RunsSession form is_typed image session (reading I.remaining I.has_failed before after) old (Ok tt) new) → form.saving ≢ Never
        → IsSeen start image.place.path.bytes.items old (image_file image) → HoldsVolume start image.place.path.bytes.items r.end.volume.blocks new }
{}

/// What a run printed is a beginning of the lines of its answers. It is all of them where no print failed.
pub fn printed_answers<I: ByteReader>()
    ensures { (form : RunForm) (is_typed : Bool) (image : Image) (session : Session) (before after : I) (old : List Event) (result : Result (Unit {0}) End)
        (new : List Event) (r : RunsSession form is_typed image session (reading I.remaining I.has_failed before after) old result new)
        → PrintsBeginning (reply_text r.steps) old new }
{}

/// With `--strict` a run ends well only if no answer of it was a refusal. Without it a run ends as if there was none.
pub fn strict_runs<I: ByteReader>()
    ensures strict { (form : RunForm) (is_typed : Bool) (image : Image) (session : Session) (before after : I) (old new : List Event)
        (r : RunsSession form is_typed image session (reading I.remaining I.has_failed before after) old (Ok tt) new) → form.is_strict ≡ true
        → has_refusal r.steps ≡ false }
    ensures others { (saving : Saving) (is_refused : Bool) (why : Option End) (fault : Option PrintFault) (answer : Result (Unit {0}) Fault)
        (result : Result (Unit {0}) End) → EndsRun saving false is_refused why fault answer result → EndsRun saving false false why fault answer result }
{}

/// A run calls its script unread only where a call of the reader failed, or where the script has more bytes than are read.
pub fn unread_scripts<I: ByteReader>()
    ensures { (form : RunForm) (is_typed : Bool) (image : Image) (session : Session) (before after : I) (old : List Event) (result : Result (Unit {0}) End)
        (new : List Event) (r : RunsSession form is_typed image session (reading I.remaining I.has_failed before after) old result new)
        → r.answer ≡ Err Reader → MayReadNoMore MOST (I.has_failed after) (I.remaining before) (I.remaining after) }
{}

/// With the status 0 a run has ended well. Its image was opened, and the script ran over it. The image file holds the volume of the end, unless it was
/// only to be looked at.
pub fn run_statuses<I: ByteReader>()
    ensures { (named : Kept) (form : RunForm) (is_typed : Bool) (before after : I) (old new : List Event)
        → RunsTask (asked.Run named form) is_typed (reading I.remaining I.has_failed before after) old new 0
        → HasRun named form is_typed (reading I.remaining I.has_failed before after) new }
{}

/// Which file a run makes, changes or takes away that may save its image, in whichever way it ends. That is none, or the image file alone, which it held
/// before, and the one beside that. None is left beside it, unless that could not be taken away.
pub fn touched_images<I: ByteReader>()
    ensures { (named : Kept) (form : RunForm) (is_typed : Bool) (before after : I) (old : List Event) (result : Result (Unit {0}) End) (new : List Event)
        → form.saving ≢ Never → RunsImage named form is_typed (reading I.remaining I.has_failed before after) old result new → TouchesRun named old new }
{}

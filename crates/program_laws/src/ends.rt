//! What the end of a command means for who reads its exit status and its lines, as laws.
ghost use Rattle.std.specs.Prelude.{◌≡◌, ℕ, Bool, false, Err, List, Option, Result, Some};
ghost use Rattle.hosts.specs.Event.{Event};
ghost use Rattle.outcome.specs.Notes.{name_text};
ghost use Rattle.outcome.specs.Outcomes.{outcome_of};
ghost use Rattle.outcome.specs.declared.contents.Content.{Content};
ghost use Rattle.outcome.specs.declared.notes.NameNote.TheVariants.{AsItWas, HasChange};
ghost use Rattle.outcome.specs.declared.endings.Ending.{Ending as End};
ghost use Rattle.outcome.specs.declared.endings.Ending.TheVariants.{FullOutput, NoReader, Unreported};
ghost use Rattle.image_files.specs.Ending.{EndsSo, status_unread};
ghost use Rattle.image_files.specs.Saving.{Writes};
ghost use Rattle.image_files.specs.States.{AreNotesOn, state_refused};
ghost use Rattle.image_files.specs.Work.{ending_after};
ghost use Rattle.image_files.specs.declared.states.ChangeState.TheVariants as state;
ghost use Rattle.image_files.specs.declared.states.ImageNotes.{ImageNotes as Notes};
ghost use Rattle.program_laws.specs.Ends.{EndsWith, HasReason, HasTold, PrintsOnce, status_of};

/// The exit status is that of the ending: 0 where the work went well, 2 after words that are refused, 141 where nobody reads what is printed, and
/// else 1. Where standard output doesn't take the last line it may be 1, or 141 in place of 0; where nobody reads it, it is 141 in place of 0 alone. That
/// line is the one of the ending, and nothing follows it. Work of several parts has 141 only where no part before was refused.
pub fn ended_statuses()
    ensures statuses { (is_data : Bool) (notes : Option Notes) (work : Result (Unit {0}) End) (old new : List Event) (status : ℕ)
        → EndsSo is_data notes work old new status → EndsWith work status old new }
    ensures lines { (is_data : Bool) (notes : Option Notes) (work : Result (Unit {0}) End) (old new : List Event) (status : ℕ)
        → EndsSo is_data notes work old new status → PrintsOnce (outcome_of is_data work).output old new }
    ensures unread { (is_data : Bool) (notes : Option Notes) (work : Result (Unit {0}) End) (old new : List Event) (status : ℕ)
        (e : EndsSo is_data notes work old new status) → e.printed ≡ Err NoReader → status ≡ status_unread (status_of work) }
    ensures parts { (ending : End) → ending_after false ending ≡ NoReader → ⊥ }
{}

/// Where a full standard output takes no line of a command that may change an image, standard error says whether the image has the change. It has it
/// where that line was to report it. It is as it was where the line was a refusal, and where the command only printed.
pub fn unprinted_changes()
    ensures made { (is_data : Bool) (name : List ℕ) (notes : Notes) (old new : List Event) (status : ℕ) → AreNotesOn name notes
        → EndsSo is_data (Some notes) (Err Unreported) old new status → HasTold (name_text HasChange name) old new }
    ensures printed { (is_data : Bool) (name : List ℕ) (notes : Notes) (old new : List Event) (status : ℕ) → AreNotesOn name notes
        → EndsSo is_data (Some notes) (Err FullOutput) old new status → HasTold (name_text AsItWas name) old new }
    ensures refused { (is_data : Bool) (name : List ℕ) (notes : Notes) (work : Result (Unit {0}) End) (old new : List Event) (status : ℕ) → AreNotesOn name notes
        → state_refused work ≡ Some state.AsItWas → (e : EndsSo is_data (Some notes) work old new status) → e.printed ≡ Err FullOutput
        → HasTold (name_text AsItWas name) old new }
{}

/// Where an image, a tape or a listing can't be written, a call of the host has failed, and standard error has the reason of that call.
pub fn unwritten_reasons()
    ensures { (content : Content) (path name file : List ℕ) (old : List Event) (why : End) (new : List Event) → Writes content path name file old (Err why) new
        → HasReason name old new }
{}

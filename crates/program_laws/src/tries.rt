//! How often a command is tried whose image another program holds, and what is asked of the host first, as laws.
ghost use Rattle.std.specs.Prelude.{◌≡◌, ◌*◌, ℕ, true, List, Ok, Result};
ghost use Rattle.hosts.specs.Event.{Event};
ghost use Rattle.outcome.specs.declared.endings.Ending.{Ending as End};
ghost use Rattle.program_tasks.specs.declared.forms.ImageForm.{ImageForm as Kept};
ghost use Rattle.program_tasks.specs.declared.tasks.Saving.{Saving};
ghost use Rattle.image_files.specs.Laws.{ChangesNothing};
ghost use Rattle.image_files.specs.Reading.{Holds};
ghost use Rattle.image_files.specs.declared.images.Image.{Image};
ghost use Rattle.image_files.specs.declared.reading.ImagePlace.{ImagePlace as Held};
ghost use Rattle.show_commands.specs.Checking.{DropsBeside};
ghost use Rattle.script_commands.specs.Scripts.{OpensFor};
ghost use Rattle.image_files.specs.Waiting.{Within};
ghost use Rattle.program.specs.Changes.{DoesChange};
ghost use Rattle.program.specs.declared.changes.Change.{Change};
ghost use Rattle.program_laws.specs.Tries.{CountsLeft, HasHeld, TriesSo};

/// While another program holds its image a command is tried again, twenty times for each second that is asked for at most. It gives up only after all of
/// these. Where no second is asked for, it is tried once.
pub fn busy_tries()
    ensures changes { (seconds : ℕ) (name : List ℕ) (change : Change) (old : List Event) (result : Result (Unit {0}) End) (new : List Event)
        (within : Within seconds name (DoesChange change) old result new) → TriesSo (20 * seconds) within.tries result }
    ensures runs { (seconds : ℕ) (name : List ℕ) (saving : Saving) (form : Kept) (old : List Event) (result : Result Image End) (new : List Event)
        (within : Within seconds name (OpensFor saving form) old result new) → TriesSo (20 * seconds) within.tries result }
    ensures boots { (seconds : ℕ) (name : List ℕ) (old : List Event) (result : Result Held End) (new : List Event)
        (within : Within seconds name (Holds name) old result new) → TriesSo (20 * seconds) within.tries result }
    ensures once { (name : List ℕ) (change : Change) (old : List Event) (result : Result (Unit {0}) End) (new : List Event)
        (within : Within 0 name (DoesChange change) old result new) → DoesChange change old result within.after }
{}

/// Who holds an image file has the host take away further names of it that ended writers left. No law on files counts that as a change of one.
pub fn held_calls()
    ensures calls { (name : List ℕ) (place : Held) (old new : List Event) → Holds name old (Ok place) new → place.is_held ≡ true
        → HasHeld name place.path.bytes.items old new }
    ensures files { (name : List ℕ) (place : Held) (old new : List Event) → Holds name old (Ok place) new → ChangesNothing old new }
{}

/// The note of `check` on files that ended writers left beside an image has the number that the host took away.
pub fn counted_leftovers()
    ensures { (name : List ℕ) (old new : List Event) → DropsBeside name old (Ok tt) new → CountsLeft name old new }
{}

//! What a keeper of images asks of a change, as laws in a keeper's words.
ghost use Rattle.std.specs.Prelude.{◌≡◌, ◌⊎◌, ◌<◌, ◌∷◌, ℕ, true, false, List, [], Ok, Err, Result, String, All, codes};
ghost use Rattle.std.specs.Global.{Global};
ghost use Rattle.std.specs.Str.{bytes_eq};
ghost use Rattle.hosts.specs.Event.{Event};
ghost use Rattle.archive_files.specs.Asking.{Target};
ghost use Rattle.archive_files.specs.declared.forms.GetForm.TheVariants as get_as;
ghost use Rattle.outcome.specs.declared.endings.Ending.{Ending as End};
ghost use Rattle.program_tasks.specs.declared.forms.CopyForm.{CopyForm as Copy};
ghost use Rattle.program_tasks.specs.declared.forms.DeleteForm.{DeleteForm as Delete};
ghost use Rattle.program_tasks.specs.declared.forms.ImageForm.{ImageForm as Kept};
ghost use Rattle.program_tasks.specs.declared.forms.PutFilesForm.{PutFilesForm as Put};
ghost use Rattle.change_commands.specs.Changing.{Renames, Squeezes};
ghost use Rattle.change_commands.specs.Copying.{Copies};
ghost use Rattle.change_commands.specs.Creating.{CreatesVolume};
ghost use Rattle.change_commands.specs.Deleting.{Deletes};
ghost use Rattle.change_commands.specs.Patching.{PatchesWord};
ghost use Rattle.change_commands.specs.declared.patches.WordPatch.{WordPatch as Patch};
ghost use Rattle.put_commands.specs.Putting.{Puts};
ghost use Rattle.keeper_laws.specs.Questions.{AlwaysHad, AreUntouched, IsGotAs, IsLeftAlone, IsOldOrNew, IsRefusal, IsTouchedAlone, to_block_end, with_lf};

use crate::laws::{ended_changes, put_comes_back, touched_files};
use crate::verb_laws::refused_changes;
use image_files::laws::found_again;

/// What is lost if the plug is pulled in `put`. At each moment a crash leaves what it might have left before, or one new file, whole. That is the one
/// which the path has where `put` ends well. Of a file that could only be written in its place nothing is promised. Where `put` ends well a note says so,
/// and so does one where it isn't known whether the disk has the new file. No other path is touched.
pub fn plug_pulled()
    ensures { (form : Put) (old : List Event) (result : Result (Unit {0}) End) (new : List Event) → Puts form old result new
        → ((path : List ℕ) → IsLeftAlone path old new) ⊎ IsOldOrNew result old new }
{}

/// Whether `get` gives what `put` took of one file of the host: its bytes, by its name, of the image file as it was left. They are frames with zeros
/// up to the end of a block, or a text with LF alone at the end of each line. So it is where nothing changes the image in between.
pub fn got_as_put()
    ensures frames { (form : Put) (old new : List Event) (source : String Global) (bytes : List ℕ) → Puts form old (Ok tt) new → form.files.items ≡ source ∷ []
        → bytes_eq source.bytes.items (codes "-") ≡ false → AlwaysHad source.bytes.items bytes new → form.texts.is_usual ≡ false → form.texts.extensions.items ≡ []
        → All (λ byte. byte < 256) bytes → IsGotAs form.image form.name source.bytes.items get_as.Frames (to_block_end bytes) old new }
    ensures text { (form : Put) (old new : List Event) (source : String Global) (bytes : List ℕ) → Puts form old (Ok tt) new → form.files.items ≡ source ∷ []
        → bytes_eq source.bytes.items (codes "-") ≡ false → AlwaysHad source.bytes.items bytes new → form.texts.is_usual ≡ true
        → IsGotAs form.image form.name source.bytes.items get_as.Text (with_lf bytes) old new }
{
    ended_changes();
    put_comes_back();
    found_again();
}

/// Whether a refused change is sure. Where the words or what it reads have it refused, no file is touched, and no folder was to be made.
pub fn refused_alone()
    ensures deletes { (form : Delete) (old : List Event) (ending : End) (new : List Event) → Deletes form old (Err ending) new → IsRefusal ending → AreUntouched old new }
    ensures puts { (form : Put) (old : List Event) (ending : End) (new : List Event) → Puts form old (Err ending) new → IsRefusal ending → AreUntouched old new }
    ensures copies { (form : Copy) (old : List Event) (ending : End) (new : List Event) → Copies form old (Err ending) new → IsRefusal ending → AreUntouched old new }
    ensures renames { (wanted : Target) (other : List ℕ) (form : Kept) (old : List Event) (ending : End) (new : List Event)
        → Renames wanted other form old (Err ending) new → IsRefusal ending → AreUntouched old new }
    ensures squeezes { (form : Kept) (old : List Event) (ending : End) (new : List Event) → Squeezes form old (Err ending) new → IsRefusal ending → AreUntouched old new }
{
    refused_changes();
}

/// Which files a change touches: none, or the image file that it holds, and the one beside that. None is left beside it, unless it could not be taken
/// away, or was there before. No folder is made.
pub fn touched_alone()
    ensures puts { (form : Put) (old : List Event) (result : Result (Unit {0}) End) (new : List Event) → Puts form old result new
        → AreUntouched old new ⊎ IsTouchedAlone form.image old new }
    ensures copies { (form : Copy) (old : List Event) (result : Result (Unit {0}) End) (new : List Event) → Copies form old result new
        → AreUntouched old new ⊎ IsTouchedAlone form.to old new }
    ensures squeezes { (form : Kept) (old : List Event) (result : Result (Unit {0}) End) (new : List Event) → Squeezes form old result new
        → AreUntouched old new ⊎ IsTouchedAlone form old new }
    ensures renames { (wanted : Target) (other : List ℕ) (form : Kept) (old : List Event) (result : Result (Unit {0}) End) (new : List Event)
        → Renames wanted other form old result new → AreUntouched old new ⊎ IsTouchedAlone form old new }
    ensures deletes { (form : Delete) (old : List Event) (result : Result (Unit {0}) End) (new : List Event) → Deletes form old result new
        → AreUntouched old new ⊎ IsTouchedAlone form.image old new }
    ensures patches { (word : Patch) (form : Kept) (old : List Event) (result : Result (Unit {0}) End) (new : List Event) → PatchesWord word form old result new
        → AreUntouched old new ⊎ IsTouchedAlone form old new }
    ensures empties { (form : Kept) (old : List Event) (result : Result (Unit {0}) End) (new : List Event) → CreatesVolume form old result new
        → AreUntouched old new ⊎ IsTouchedAlone form old new }
{
    touched_files();
}

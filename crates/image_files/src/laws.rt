//! What the steps of the commands mean for who keeps images, as laws.
ghost use Rattle.std.specs.Prelude.{◌≡◌, ℕ, List, Option, Some, Result, Ok, true, false};
ghost use Rattle.std.specs.Global.{Vec};
ghost use Rattle.std.specs.Str.{bytes_eq};
ghost use Rattle.hosts.specs.Event.{Event};
ghost use Rattle.hosts.specs.Place.{Place, Leaves, may_leave, about, replay};
ghost use Rattle.hosts.specs.Streams.{may_replace, changes_at};
ghost use Rattle.hosts.specs.declared.faults.Durability.TheVariants.{Certain};
ghost use Rattle.hosts.specs.declared.faults.HostFault.{HostFault};
ghost use Rattle.archive_files.specs.declared.faults.ArchiveFault.{ArchiveFault};
ghost use Rattle.outcome.specs.declared.contents.Content.{Content};
ghost use Rattle.outcome.specs.declared.endings.Ending.{Ending};
ghost use Rattle.program_tasks.specs.declared.forms.ImageForm.{ImageForm};
ghost use Rattle.image_files.specs.Again.{IsFoundAgain, LooksAndFinds};
ghost use Rattle.image_files.specs.Answers.{Refuses};
ghost use Rattle.image_files.specs.Laws.{HasKeptKind, KeepsFiles};
ghost use Rattle.image_files.specs.Inputs.{TakesInput};
ghost use Rattle.image_files.specs.Reading.{JudgesOpened, Looks, LooksAt, LooksImage, Opens};
ghost use Rattle.image_files.specs.Saving.{HasSaved, IsFileWith, IsUnsaved, Prints, Saves};
ghost use Rattle.image_files.specs.declared.images.Image.{Image as Opened};
ghost use Rattle.image_files.specs.declared.mending.ImageReading.{ImageReading as How};
ghost use Rattle.image_files.specs.declared.reading.ImagePlace.{ImagePlace as Held};
ghost use Rattle.image_kind.specs.Keeping.{keeps_kind};

use disk_layouts::laws::laid_volume;
use hosts::laws;

/// Once an image file is saved whose place a new file may take, a crash leaves the new file and nothing else, unless a note says that this
/// isn't known. So it is for a tape and a listing. The line of a change is printed after that.
pub fn saved_images()
    ensures { (content : Content) (path file : List ℕ) (old new : List Event) (saved : HasSaved content path file old new)
        → saved.durability ≡ Certain → may_replace new ≡ true
        → (start : Place) (found : Option (List ℕ)) → Leaves (may_leave (replay start (about path new))) found → found ≡ Some file }
{
    laws::saved_files();
}

/// Such a file that could not be written, and is reported to be as it was, is after a crash what it might have been before.
pub fn unsaved_images()
    ensures { (content : Content) (path file : List ℕ) (fault : HostFault) (old new : List Event) → IsUnsaved content path file fault old new
        → (start : Place) (found : Option (List ℕ)) → Leaves (may_leave (replay start (about path new))) found
        → Leaves (may_leave (replay start (about path old))) found }
{}

/// What only reads or prints changes no file of the host, in whichever way it ends.
pub fn kept_files()
    ensures looks { (name shown : List ℕ) → KeepsFiles (Looks name shown) }
    ensures looks_image { (reading : How) (name : List ℕ) → KeepsFiles (LooksImage reading name) }
    ensures looks_at { (form : ImageForm) → KeepsFiles (LooksAt form) }
    ensures opens { (form : ImageForm) → KeepsFiles (Opens form) }
    ensures input { KeepsFiles TakesInput }
    ensures prints { (bytes : List ℕ) → KeepsFiles (Prints bytes) }
    ensures refuses { (fault : ArchiveFault) (size : ℕ) (old : List Event) (ending : Ending) (new : List Event) → Refuses fault size old ending new
        → (path : List ℕ) → changes_at path new ≡ changes_at path old }
{}

/// What a change saves is judged as what was read: the same volumes are meant, in the same place, and the file may be read in no other way.
pub fn kept_kind()
    ensures { (image : Opened) (bytes : List ℕ) (old new : List Event) → bytes_eq image.bytes.items bytes ≡ false
        → Saves image bytes old (Ok tt) new → HasKeptKind image bytes old new }
{}

/// What a change saves is what the next command reads. Whoever opens the file by such a form of an image, or looks at it, gets the bytes that
/// were saved, or memory is wanted. It is refused by nobody. So it is of a file that had these bytes before, of which nothing is saved. To look
/// at an image file is to look at the file, and then at the volume in its bytes.
pub fn found_again()
    ensures saved { (form : ImageForm) (place : Held) (file bytes saved : List ℕ) (image : Opened) (old new : List Event)
        → JudgesOpened place form file old (Ok image) new → IsFileWith image bytes saved → keeps_kind image.judgment saved ≡ true
        → IsFoundAgain form saved bytes }
    ensures unsaved { (form : ImageForm) (place : Held) (file : List ℕ) (image : Opened) (old new : List Event)
        → JudgesOpened place form file old (Ok image) new → IsFoundAgain form file image.bytes.items }
    ensures looks { (form : ImageForm) (old new : List Event) (result : Result (Vec ℕ) Ending) → form.is_lenient ≡ false
        → LooksAt form old result new → LooksAndFinds form old result new }
{
    laid_volume();
}

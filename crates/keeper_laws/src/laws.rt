//! What a command that ended means for who keeps images.
ghost use Rattle.std.specs.Prelude.{◌≡◌, ◌≢◌, ◌⊎◌, ◌<◌, ◌∷◌, ◌++◌, ℕ, Bool, true, false, List, [], None, Option, Some, Ok, Result, String, All, map};
ghost use Rattle.std.specs.Global.{Global, Vec};
ghost use Rattle.hosts.specs.Event.{Event};
ghost use Rattle.hosts.specs.Holding.{IsLawful, turns};
ghost use Rattle.hosts.specs.Place.{Place, about};
ghost use Rattle.archive_files.specs.declared.forms.GetForm.{GetForm as How};
ghost use Rattle.archive_files.specs.declared.forms.GetForm.TheVariants as get_as;
ghost use Rattle.archive_files.specs.declared.forms.PutForm.TheVariants as put_as;
ghost use Rattle.name_spelling.specs.Patterns.{has_pattern, is_like_one};
ghost use Rattle.name_spelling.specs.Reading.{typed_name};
ghost use Rattle.archive_files.specs.declared.faults.ArchiveFault.{ArchiveFault as Fault};
ghost use Rattle.archive_files.specs.Checking.{Checks};
ghost use Rattle.archive_files.specs.Asking.{OfName, Target, target_of};
ghost use Rattle.archive_files.specs.declared.asking.Asked.{Asked};
ghost use Rattle.archive_files.specs.Getting.{Gets, IsTapeOf, line_feeds};
ghost use Rattle.archive_files.specs.Laws.{whole_blocks};
ghost use Rattle.archive_many.specs.Laws.{IsNoneOf};
ghost use Rattle.archive_many.specs.declared.putting.NewFile.{NewFile};
ghost use Rattle.outcome.specs.declared.endings.Ending.{Ending as End};
ghost use Rattle.program_tasks.specs.declared.forms.CopyForm.{CopyForm as Copy};
ghost use Rattle.program_tasks.specs.declared.forms.CopyChoice.TheVariants.{One, Like};
ghost use Rattle.program_tasks.specs.declared.forms.CreateForm.{CreateForm as Create};
ghost use Rattle.program_tasks.specs.declared.forms.DeleteForm.{DeleteForm as Delete};
ghost use Rattle.program_tasks.specs.declared.forms.ImageForm.{ImageForm as Kept};
ghost use Rattle.program_tasks.specs.declared.forms.PutFilesForm.{PutFilesForm as Put};
ghost use Rattle.image_files.specs.Again.{AreAlike};
ghost use Rattle.image_files.specs.Reading.{Opens, OpensForScript};
ghost use Rattle.image_files.specs.declared.images.Image.{Image as Opened};
ghost use Rattle.change_commands.specs.Patching.{PatchesWord};
ghost use Rattle.change_commands.specs.declared.patches.WordPatch.{WordPatch as Patch};
ghost use Rattle.salvage_commands.specs.Rescuing.{RescuesImage};
ghost use Rattle.change_commands.specs.Changing.{Renames, Squeezes};
ghost use Rattle.change_commands.specs.Copying.{Copies, new_name};
ghost use Rattle.change_commands.specs.Creating.{CreatesFile, CreatesVolume, IsBlankDisk, IsBlankImage, IsBlankTapeFile};
ghost use Rattle.change_commands.specs.declared.creating.TheConstants.{TAPE_BLOCKS, DISK_BLOCKS};
ghost use Rattle.change_commands.specs.Choosing.{words_in};
ghost use Rattle.change_commands.specs.Deleting.{Deletes};
ghost use Rattle.get_commands.specs.Showing.{Shows};
ghost use Rattle.keeper_laws.specs.GettingBack.{IsPrinted};
ghost use Rattle.put_commands.specs.Putting.{Puts, given_name};
ghost use Rattle.keeper_laws.specs.Changed.{GetsVolume};
ghost use Rattle.keeper_laws.specs.Changes.{HasDeleted, HasEmptied, HasPatched, HasRenamed, HasSqueezed, IsWithout};
ghost use Rattle.keeper_laws.specs.Copied.{HasCopied, copied_name};
ghost use Rattle.keeper_laws.specs.Ended.{EndsAs, ReadsHeld, RefusesAloud, TouchesItAlone, TouchesOne};
ghost use Rattle.keeper_laws.specs.Held.{GoesOnStill, IsHeldSince, calls_of};
ghost use Rattle.keeper_laws.specs.Made.{EndsMade, EndsRescued, HasCreated, HasRescued};
ghost use Rattle.keeper_laws.specs.Seen.{GivesWhatIsSeen, IsSeen, LooksAndPrints};
ghost use Rattle.keeper_laws.specs.Sound.{IsSoundWith, kept_names};
ghost use Rattle.keeper_laws.specs.Stored.{HasStored};

use crate::verb_laws::refused_changes;
use archive_files::laws::{copied_file, put_is_got};
use archive_many::laws::{chosen_are_copied, chosen_are_gone, put_many_is_got};
use bin_tape::laws::{longer_tape, no_fault};
use char_pack::laws::packed_bytes;
use hosts::laws::lost_updates;
use image_files::laws::found_again;
use os8_dir::laws::sound_directory;
use volume_image::image_round_trip;
use volume_salvage::laws::salvaged_files;

/// What each ending of `put`, `copy`, `squeeze`, `rename` and `delete` means for the files of who runs them. The change is made where the command
/// ends well, and where only its lines can't be printed. Of several files all are stored, or none is. Where it is refused, nothing is changed.
/// Where its image can't be written, that is as it was, or the ending says that it may hold a part.
pub fn ended_changes()
    ensures puts { (form : Put) (old : List Event) (result : Result (Unit {0}) End) (new : List Event) → Puts form old result new
        → EndsAs form.image (HasStored form) result old new }
    ensures copies { (form : Copy) (old : List Event) (result : Result (Unit {0}) End) (new : List Event) → Copies form old result new
        → EndsAs form.to (HasCopied form) result old new }
    ensures squeezes { (form : Kept) (old : List Event) (result : Result (Unit {0}) End) (new : List Event) → Squeezes form old result new
        → EndsAs form (HasSqueezed form) result old new }
    ensures renames { (wanted : Target) (other : List ℕ) (form : Kept) (old : List Event) (result : Result (Unit {0}) End) (new : List Event)
        → Renames wanted other form old result new → EndsAs form (HasRenamed wanted other form) result old new }
    ensures deletes { (form : Delete) (old : List Event) (result : Result (Unit {0}) End) (new : List Event) → Deletes form old result new
        → EndsAs form.image (HasDeleted form) result old new }
{
    refused_changes();
    found_again();
}

/// The same of `patch`, and of `create` where it makes one volume of a disk empty. A refused `patch` prints its own line, and changes no file.
pub fn ended_words()
    ensures patches { (word : Patch) (form : Kept) (old : List Event) (result : Result (Unit {0}) End) (new : List Event) → PatchesWord word form old result new
        → EndsAs form (HasPatched word form) result old new ⊎ RefusesAloud result old new }
    ensures empties { (form : Kept) (old : List Event) (result : Result (Unit {0}) End) (new : List Event) → CreatesVolume form old result new
        → EndsAs form (HasEmptied form) result old new }
{
    found_again();
}

/// What each ending of `rescue` means. The new file is made, whole, where the command ends well, where it reports a loss, and where only its lines
/// can't be printed. Else none is made, and the image file is never changed.
pub fn ended_rescues()
    ensures { (name : List ℕ) (form : Kept) (old : List Event) (result : Result (Unit {0}) End) (new : List Event) → RescuesImage name form old result new
        → EndsRescued name form result old new }
{}

/// What each ending of `create` means: of a volume alone, of a DECtape, of a disk. The file is made, whole, or one that is there becomes it.
/// Where the command is refused none is made.
pub fn ended_creations()
    ensures volumes { (form : Create) (blocks : ℕ) (old : List Event) (result : Result (Unit {0}) End) (new : List Event)
        → CreatesFile (IsBlankImage blocks) form blocks old result new → EndsMade (HasCreated (IsBlankImage blocks) form blocks) result old new }
    ensures tapes { (form : Create) (old : List Event) (result : Result (Unit {0}) End) (new : List Event)
        → CreatesFile IsBlankTapeFile form TAPE_BLOCKS old result new → EndsMade (HasCreated IsBlankTapeFile form TAPE_BLOCKS) result old new }
    ensures disks { (form : Create) (old : List Event) (result : Result (Unit {0}) End) (new : List Event)
        → CreatesFile IsBlankDisk form DISK_BLOCKS old result new → EndsMade (HasCreated IsBlankDisk form DISK_BLOCKS) result old new }
{}

/// Which file a command that changes an image makes, changes or takes away, in whichever way it ends. That is none, or the image file alone,
/// which it held before, and the one beside that. None is left beside it, unless that could not be taken away.
pub fn touched_files()
    ensures puts { (form : Put) (old : List Event) (result : Result (Unit {0}) End) (new : List Event) → Puts form old result new
        → TouchesItAlone form.image old new }
    ensures copies { (form : Copy) (old : List Event) (result : Result (Unit {0}) End) (new : List Event) → Copies form old result new
        → TouchesItAlone form.to old new }
    ensures squeezes { (form : Kept) (old : List Event) (result : Result (Unit {0}) End) (new : List Event) → Squeezes form old result new
        → TouchesItAlone form old new }
    ensures renames { (wanted : Target) (other : List ℕ) (form : Kept) (old : List Event) (result : Result (Unit {0}) End) (new : List Event)
        → Renames wanted other form old result new → TouchesItAlone form old new }
    ensures deletes { (form : Delete) (old : List Event) (result : Result (Unit {0}) End) (new : List Event) → Deletes form old result new
        → TouchesItAlone form.image old new }
    ensures patches { (word : Patch) (form : Kept) (old : List Event) (result : Result (Unit {0}) End) (new : List Event) → PatchesWord word form old result new
        → TouchesItAlone form old new }
    ensures empties { (form : Kept) (old : List Event) (result : Result (Unit {0}) End) (new : List Event) → CreatesVolume form old result new
        → TouchesItAlone form old new }
{
    ended_changes();
    ended_words();
}

/// Which file `create` and `rescue` make, change or take away, in whichever way they end: the one of one path at most, and the one beside that.
/// None is left beside it, unless that could not be taken away.
pub fn touched_places()
    ensures volumes { (form : Create) (blocks : ℕ) (old : List Event) (result : Result (Unit {0}) End) (new : List Event)
        → CreatesFile (IsBlankImage blocks) form blocks old result new → TouchesOne old new }
    ensures tapes { (form : Create) (old : List Event) (result : Result (Unit {0}) End) (new : List Event)
        → CreatesFile IsBlankTapeFile form TAPE_BLOCKS old result new → TouchesOne old new }
    ensures disks { (form : Create) (old : List Event) (result : Result (Unit {0}) End) (new : List Event)
        → CreatesFile IsBlankDisk form DISK_BLOCKS old result new → TouchesOne old new }
    ensures rescues { (name : List ℕ) (form : Kept) (old : List Event) (result : Result (Unit {0}) End) (new : List Event)
        → RescuesImage name form old result new → TouchesOne old new }
{
    ended_creations();
    ended_rescues();
}

/// What a command that changes an image does first, and a run that may save one. The image file is held, if it may be written, and then it is read.
/// So no other program that holds what it changes comes in between.
pub fn held_before_read()
    ensures changes { (form : Kept) (image : Opened) (old new : List Event) → Opens form old (Ok image) new → ReadsHeld form image old new }
    ensures runs { (form : Kept) (image : Opened) (old new : List Event) → OpensForScript form old (Ok image) new → ReadsHeld form image old new }
{}

/// Of two programs that change one image none loses the other's change. Once a command has read an image file that it holds, each change of that
/// file is its own, until it has ended. So what it read is what it changes. That rests on the host: it lets one program alone hold a file, and a
/// program changes no file that it doesn't hold.
pub fn held_images()
    ensures { (form : Kept) (image : Opened) (old new : List Event) (who : Bool) (later joint : List (Bool × Option Event)) → Opens form old (Ok image) new
        → image.place.is_held ≡ true → calls_of who joint ≡ new → IsLawful (turns image.place.path.bytes.items (later ++ joint)) → GoesOnStill who (later ++ joint)
        → IsHeldSince who image.place.path.bytes.items (later ++ joint) }
{
    lost_updates();
}

/// After `put` with status 0 the image file has its volume with the files that were read, and each byte beside the volume as it was. So it is
/// after a crash, unless a note says otherwise. A crash before that left this, whole, or what it might have left before. Whoever reads the
/// image again finds that volume. No other file is changed, and STORED was printed.
pub fn done_put()
    ensures { (form : Put) (old new : List Event) → Puts form old (Ok tt) new → HasStored form true old new }
{
    ended_changes();
}

/// What `put` took, `get` gives, where the image file is as it was left. So it is of each file put as frames whose name no later one has: its bytes
/// have zeros to the end of their last block. Of a file that is put alone a tape is the one that it begins with, and a text has LF alone at the
/// end of each line. It has the name that was given for it. Another file is got as before, in each form.
pub fn put_comes_back()
    ensures named { (form : Put) (ok : Bool) (old new : List Event) (stored : HasStored form ok old new) (file : NewFile) (text : List ℕ)
        → stored.files ≡ file ∷ [] → given_name form ≡ Some text → typed_name text ≡ Some file.name }
    ensures frames { (form : Put) (ok : Bool) (old new : List Event) (stored : HasStored form ok old new) (before following : List NewFile) (file : NewFile)
        (name : List ℕ) → stored.files ≡ before ++ file ∷ following → IsNoneOf file.name following → typed_name name ≡ Some file.name → file.form ≡ put_as.Frames
        → All (λ byte. byte < 256) file.bytes.items → IsPrinted form.image stored.has.file name get_as.Frames (whole_blocks file.bytes.items) }
    ensures tape { (form : Put) (ok : Bool) (old new : List Event) (stored : HasStored form ok old new) (file : NewFile) (name tape : List ℕ)
        → stored.files ≡ file ∷ [] → typed_name name ≡ Some file.name → file.form ≡ put_as.Frames → All (λ byte. byte < 256) file.bytes.items
        → IsTapeOf file.bytes.items tape → IsPrinted form.image stored.has.file name get_as.Tape tape }
    ensures text { (form : Put) (ok : Bool) (old new : List Event) (stored : HasStored form ok old new) (file : NewFile) (name : List ℕ)
        → stored.files ≡ file ∷ [] → typed_name name ≡ Some file.name → file.form ≡ put_as.Text
        → IsPrinted form.image stored.has.file name get_as.Text (line_feeds file.bytes.items) }
    ensures others { (form : Put) (ok : Bool) (old new : List Event) (stored : HasStored form ok old new) (name : List ℕ) (number : ℕ) (how : How)
        (before : Vec ℕ) → typed_name name ≡ Some number → IsNoneOf number stored.files → Gets stored.image.bytes.items (OfName name) how (Ok before)
        → IsPrinted form.image stored.has.file name how before.items }
{
    image_round_trip();
    longer_tape();
    no_fault();
    packed_bytes();
    put_is_got();
    put_many_is_got();
}

/// What `put` took, `get` prints, if both are run one after the other: the bytes that `put_comes_back` says, of the image file as the host has it then.
/// In between nothing changes that file. The host gives what is seen of it, and so it was when `put` read it.
pub fn put_then_got()
    ensures { (form : Put) (ok : Bool) (old mid : List Event) (stored : HasStored form ok old mid) (name : List ℕ) (how : How) (bytes : List ℕ) (start : Place) (again : Kept)
        (between : List Event) (result : Result (Unit {0}) End) (new : List Event) → IsPrinted form.image stored.has.file name how bytes → IsSeen start stored.path old stored.was
        → about stored.path between ≡ about stored.path mid → AreAlike form.image again → again.is_lenient ≡ false
        → GivesWhatIsSeen start again.file.bytes.items stored.path new → Shows (λ image. Gets image (OfName name) how) again between result new
        → LooksAndPrints again bytes between result new }
{
    found_again();
}

/// The same of each change of an image, as of `copy` and of `assemble --onto`. What is got of the image file as it was left, `get` prints, if it is run
/// after the change.
pub fn change_then_got()
    ensures { (form : Kept) (image : Opened) (path was saved : List ℕ) (old mid : List Event) (has : GetsVolume form image path was saved old mid) (name : List ℕ) (how : How)
        (bytes : List ℕ) (start : Place) (again : Kept) (between : List Event) (result : Result (Unit {0}) End) (new : List Event) → IsPrinted form has.file name how bytes
        → IsSeen start path old was → about path between ≡ about path mid → AreAlike form again → again.is_lenient ≡ false
        → GivesWhatIsSeen start again.file.bytes.items path new → Shows (λ image. Gets image (OfName name) how) again between result new
        → LooksAndPrints again bytes between result new }
{
    found_again();
}

/// What `delete` took out by words, of which one is a pattern: just the files whose names are like a word. Each other file stays, with its words and
/// its information words.
pub fn deleted_by_words()
    ensures { (form : Delete) (ok : Bool) (old new : List Event) (deleted : HasDeleted form ok old new) → form.places.items ≡ [] → has_pattern (words_in form) ≡ true
        → IsWithout (words_in form) deleted.image.bytes.items deleted.made.bytes.items }
{
    chosen_are_gone();
}

/// What `copy` copied of one file, `get` gives of the image file as it was left, in each form: the bytes that it gave of the file that was copied.
/// The copy has the name that was typed for it, or else the one by which its file was asked for. Each other file is got as before.
pub fn copy_comes_back()
    ensures copies { (form : Copy) (file : Asked) (other : Option (String Global)) (ok : Bool) (old new : List Event) (copied : HasCopied form ok old new)
        (name : List ℕ) (how : How) (before : Vec ℕ) → form.files ≡ One file other → typed_name name ≡ Some (copied_name (new_name form.files) copied.files)
        → Gets copied.from (target_of file) how (Ok before) → IsPrinted form.to copied.has.file name how before.items }
    ensures typed { (form : Copy) (file : Asked) (other : Option (String Global)) (ok : Bool) (old new : List Event) (copied : HasCopied form ok old new)
        (name : List ℕ) → form.files ≡ One file other → new_name form.files ≡ Some name
        → typed_name name ≡ Some (copied_name (new_name form.files) copied.files) }
    ensures kept { (form : Copy) (file : Asked) (other : Option (String Global)) (ok : Bool) (old new : List Event) (copied : HasCopied form ok old new)
        (name : List ℕ) → form.files ≡ One file other → new_name form.files ≡ None → target_of file ≡ OfName name
        → typed_name name ≡ Some (copied_name (new_name form.files) copied.files) }
    ensures others { (form : Copy) (file : Asked) (other : Option (String Global)) (ok : Bool) (old new : List Event) (copied : HasCopied form ok old new)
        (name : List ℕ) (how : How) (before : Vec ℕ) → form.files ≡ One file other → typed_name name ≢ Some (copied_name (new_name form.files) copied.files)
        → Gets copied.image.bytes.items (OfName name) how (Ok before) → IsPrinted form.to copied.has.file name how before.items }
{
    image_round_trip();
    longer_tape();
    no_fault();
    sound_directory();
    copied_file();
}

/// What `copy` copied of files that words choose, `get` gives of the image file as it was left. In each form these are the bytes that it gave of the
/// file that a word chose. A file whose name is like no word is got as before.
pub fn copies_come_back()
    ensures copies { (form : Copy) (words : Vec (String Global)) (is_forced ok : Bool) (old new : List Event) (copied : HasCopied form ok old new)
        (name : List ℕ) (number : ℕ) (how : How) (before : Vec ℕ) → form.files ≡ Like words is_forced → typed_name name ≡ Some number
        → is_like_one (map (λ word. word.bytes.items) words.items) number ≡ true → Gets copied.from (OfName name) how (Ok before)
        → IsPrinted form.to copied.has.file name how before.items }
    ensures others { (form : Copy) (words : Vec (String Global)) (is_forced ok : Bool) (old new : List Event) (copied : HasCopied form ok old new)
        (name : List ℕ) (number : ℕ) (how : How) (before : Vec ℕ) → form.files ≡ Like words is_forced → typed_name name ≡ Some number
        → is_like_one (map (λ word. word.bytes.items) words.items) number ≡ false → Gets copied.image.bytes.items (OfName name) how (Ok before)
        → IsPrinted form.to copied.has.file name how before.items }
{
    image_round_trip();
    longer_tape();
    no_fault();
    copied_file();
    chosen_are_copied();
}

/// What `rescue` wrote, where it kept a file at least, a check finds sound, with just the files that it kept. A check that doesn't find so lacks
/// memory. The files are those that `check --all` finds sound, but for those that a line says are left out.
pub fn rescued_is_sound()
    ensures { (name : List ℕ) (form : Kept) (is_whole ok : Bool) (old new : List Event) (rescued : HasRescued name form is_whole ok old new)
        (answer : Result (Vec ℕ) Fault) → kept_names rescued.from.items rescued.salvage rescued.salvages ≢ [] → Checks rescued.salvage.image.items answer
        → IsSoundWith rescued.salvage.image.items (kept_names rescued.from.items rescued.salvage rescued.salvages) answer }
{
    image_round_trip();
    salvaged_files();
}

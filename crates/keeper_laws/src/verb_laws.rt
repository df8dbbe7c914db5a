//! What commands of several verbs leave as it was, and what they get back, as laws.
ghost use Rattle.std.specs.Prelude.{◌≡◌, Bool, ℕ, false, List, Ok, Result};
ghost use Rattle.hosts.specs.Event.{Event};
ghost use Rattle.archive_files.specs.Asking.{Target, target_of};
ghost use Rattle.archive_files.specs.Getting.{Gets};
ghost use Rattle.archive_many.specs.declared.putting.NewFile.{NewFile};
ghost use Rattle.archive_files.specs.declared.forms.GetForm.{GetForm as How};
ghost use Rattle.outcome.specs.declared.endings.Ending.{Ending};
ghost use Rattle.program_tasks.specs.declared.forms.CopyForm.{CopyForm as Copy};
ghost use Rattle.program_tasks.specs.declared.forms.DeleteForm.{DeleteForm as Delete};
ghost use Rattle.archive_files.specs.declared.asking.Asked.{Asked as File};
ghost use Rattle.program_tasks.specs.declared.forms.ImageForm.{ImageForm as Seen};
ghost use Rattle.program_tasks.specs.declared.forms.ListForm.{ListForm as Listed};
ghost use Rattle.program_tasks.specs.declared.forms.PutFilesForm.{PutFilesForm as Put};
ghost use Rattle.image_files.specs.Laws.{KeepsFiles, LeavesFiles};
ghost use Rattle.image_files.specs.Reading.{JudgesOpened};
ghost use Rattle.image_files.specs.declared.images.Image.{Image as Opened};
ghost use Rattle.image_files.specs.declared.reading.ImagePlace.{ImagePlace as Held};
ghost use Rattle.change_commands.specs.Changing.{Squeezes, Renames};
ghost use Rattle.change_commands.specs.Copying.{Copies};
ghost use Rattle.change_commands.specs.Deleting.{Deletes};
ghost use Rattle.get_commands.specs.Showing.{Shows};
ghost use Rattle.get_commands.specs.Texts.{ShowsTexts};
ghost use Rattle.put_commands.specs.Putting.{Puts, PutsFiles};
ghost use Rattle.show_commands.specs.Listing.{ListsSome};
ghost use Rattle.keeper_laws.specs.GettingBack.{IsGotBack, LooksAndShows};

use archive_files::laws::put_is_got;
use archive_many::laws::put_many_is_got;
use bin_tape::laws::{longer_tape, no_fault};
use char_pack::laws::packed_bytes;
use image_files::laws::{found_again, kept_files, kept_kind};
use put_commands::laws::refused_puts;
use volume_image::image_round_trip;

/// A command that is to change an image, and is refused, has changed no file: none is copied or deleted of several.
pub fn refused_changes()
    ensures puts { (form : Put) → LeavesFiles (Puts form) }
    ensures deletes { (form : Delete) → LeavesFiles (Deletes form) }
    ensures copies { (form : Copy) → LeavesFiles (Copies form) }
    ensures renames { (wanted : Target) (other : List ℕ) (form : Seen) → LeavesFiles (Renames wanted other form) }
    ensures squeezes { (form : Seen) → LeavesFiles (Squeezes form) }
{
    refused_puts();
}

/// Files that were put are got back, whatever kind of file their image is in. After a `put` that ended well, `get` of an image file with what the
/// change left there prints the bytes that were put, or memory is wanted. Frames have zeros to the end of their last block, where no later file
/// has their name. Of a file that is put alone a tape is the one that it begins with, and a text has LF alone at the end of each line. What `get`
/// does is to look at the image file, and then at its bytes.
pub fn file_comes_back()
    ensures puts { (form : Put) (place : Held) (file : List ℕ) (files : List NewFile) (image : Opened) (opening opened old new : List Event)
        → JudgesOpened place form.image file opening (Ok image) opened → PutsFiles form image files old (Ok tt) new
        → IsGotBack form.image image file files old new }
    ensures gets { (file : File) (how : How) (form : Seen) (old new : List Event) (result : Result (Unit {0}) Ending) → form.is_lenient ≡ false
        → Shows (λ bytes. Gets bytes (target_of file) how) form old result new
        → LooksAndShows (λ bytes. Gets bytes (target_of file) how) form old result new }
{
    image_round_trip();
    longer_tape();
    no_fault();
    packed_bytes();
    put_is_got();
    put_many_is_got();
    found_again();
    kept_kind();
}

/// A list of some files, or the texts of some, change no file of the host and make no folder, in whichever way they end.
pub fn unchanged_files()
    ensures lists { (form : Listed) → KeepsFiles (ListsSome form) }
    ensures texts { (image : Seen) (is_all : Bool) (words : List (List ℕ)) (places : List ℕ) → KeepsFiles (ShowsTexts image is_all words places) }
{
    kept_files();
}

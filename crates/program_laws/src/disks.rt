//! When the disks and papers of a run are saved, and what is printed where a disk is refused or not saved, as laws.
ghost use Rattle.std.specs.Prelude.{◌≡◌, ℕ, true, false, Bool, Ok, Err, List, Option, Result, String};
ghost use Rattle.std.specs.Global.{Global as Heap};
ghost use Rattle.byte_reader.specs.Readings.{reading};
ghost use Rattle.rk8e.specs.Packs.{PackState as Pack};
ghost use Rattle.hosts.specs.Event.{Event};
ghost use Rattle.outcome.specs.declared.endings.Ending.{Ending as End};
ghost use Rattle.program_tasks.specs.declared.boots.ConsoleForm.{ConsoleForm as Form};
ghost use Rattle.image_files.specs.Laws.{ChangesNothing};
ghost use Rattle.image_files.specs.declared.reading.ImagePlace.{ImagePlace as Held};
ghost use Rattle.drive_files.specs.Opening.{OpensNamed};
ghost use Rattle.drive_files.specs.Rounds.{DoesBetween, SavedPlaces, is_due, is_grown};
ghost use Rattle.drive_files.specs.Saving.{SavesDrive};
ghost use Rattle.drive_files.specs.declared.consoles.Console.{Console};
ghost use Rattle.drive_files.specs.declared.mounting.Places.{Places};
ghost use Rattle.drive_files.specs.declared.rounds.Unsaved.{Unsaved};
ghost use Rattle.run_commands.specs.Runs8e.{RunsConsole};
ghost use Rattle.program_laws.specs.Disks.{FilesAtEnd, FilesBetween, IsDue, IsGrown, NamesDrive, NoDiskFailed, NoPaperFailed, SavesAtEnd, SavesBetween};

use byte_reader::ByteReader;

/// Between two parts of a run its disks are saved where that is due, and no file is changed where it is not and no paper has grown. It is due only while
/// the program waits for a key, after a transfer. At the end of the run they are saved too, unless a save of them has failed.
pub fn saved_disks<I: ByteReader>()
    ensures when { (form : Form) (steps : ℕ) (s : Console) (kept : SavedPlaces) → is_due form steps s kept.1 ≡ true → IsDue form steps s kept }
    ensures due { (form : Form) (steps : ℕ) (s : Console) (kept after : SavedPlaces) (old : List Event) (result : Result Bool Unsaved) (new : List Event)
        → DoesBetween form steps s kept after old result new → is_due form steps s kept.1 ≡ true → SavesBetween form s kept after old result new }
    ensures idle { (form : Form) (steps : ℕ) (s : Console) (kept after : SavedPlaces) (old : List Event) (result : Result Bool Unsaved) (new : List Event)
        → DoesBetween form steps s kept after old result new → is_due form steps s kept.1 ≡ false → is_grown s kept.1 ≡ false → ChangesNothing old new }
    ensures end { (form : Form) (first : Console) (places : Places) (before after : I) (old : List Event) (result : Result (Unit {0}) End) (new : List Event)
        (r : RunsConsole form first places (reading I.remaining I.has_failed before after) old result new) → NoDiskFailed r.ran.save
        → SavesAtEnd r.after r.mid r.left r.between r.kept }
{}

/// Between two parts of a run the papers of punch, line printer and transfers are saved where they have grown, unless a disk could not be saved. That is only while the
/// program waits for a key. At the end of the run they are saved too, unless a save of them has failed.
pub fn saved_papers<I: ByteReader>()
    ensures when { (s : Console) (kept : SavedPlaces) → is_grown s kept.1 ≡ true → IsGrown s kept }
    ensures grown { (form : Form) (steps : ℕ) (s : Console) (kept after : SavedPlaces) (old : List Event) (is_asked : Bool) (new : List Event)
        → DoesBetween form steps s kept after old (Ok is_asked) new → is_grown s kept.1 ≡ true
        → FilesBetween form s kept.0 after.0 old is_asked new }
    ensures end { (form : Form) (first : Console) (places : Places) (before after : I) (old : List Event) (result : Result (Unit {0}) End) (new : List Event)
        (r : RunsConsole form first places (reading I.remaining I.has_failed before after) old result new) → NoPaperFailed r.ran.save
        → FilesAtEnd r.after r.mid r.left r.between r.kept }
{}

/// The line of a drive's disk that is refused, or not saved, has the drive after the refusal, unless that is drive 0 or memory is wanted.
pub fn named_drives()
    ensures opened { (drive : ℕ) (is_kept : Bool) (seconds : ℕ) (name : Option (String Heap)) (old : List Event) (ending : End) (new : List Event)
        → OpensNamed drive is_kept seconds name old (Err ending) new → NamesDrive drive ending }
    ensures saved { (drive : ℕ) (pack : Option Pack) (place : Option Held) (saved after : List ℕ) (old : List Event) (ending : End) (new : List Event)
        → SavesDrive drive pack place saved after old (Err ending) new → NamesDrive drive ending }
{}

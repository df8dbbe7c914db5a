//! What the drives leave as it was, and what a save means for who keeps a disk, as laws.
ghost use Rattle.std.specs.Prelude.{◌≡◌, ◌⊎◌, ℕ, Ok, false, true, List, Result};
ghost use Rattle.hosts.specs.Event.{Event};
ghost use Rattle.hosts.specs.Streams.{output_text};
ghost use Rattle.rk8e.specs.Packs.{PackState};
ghost use Rattle.rk8e.specs.State.{DiskState};
ghost use Rattle.program_tasks.specs.declared.boots.DiskForm.{DiskForm};
ghost use Rattle.outcome.specs.declared.endings.Ending.{Ending};
ghost use Rattle.image_files.specs.Laws.{ChangesNothing, KeepsFiles};
ghost use Rattle.image_files.specs.declared.reading.ImagePlace.{ImagePlace};
ghost use Rattle.drive_files.specs.Laws.{IsSavedOrKept};
ghost use Rattle.drive_files.specs.Mounting.{places_of};
ghost use Rattle.drive_files.specs.Opening.{OpensDrives, are_saved};
ghost use Rattle.drive_files.specs.Saving.{SavesDrives, SavesPack};
ghost use Rattle.drive_files.specs.declared.mounting.Places.{Places};
ghost use Rattle.drive_files.specs.declared.opening.OpenDrives.{OpenDrives};

/// A law: to open the drives changes no file of the host. Where none of their files is to be saved, a save asks nothing of the host.
pub fn unchanged_files()
    ensures opened { (form : DiskForm) → KeepsFiles (OpensDrives form) }
    ensures unsaved { (form : DiskForm) (drives : OpenDrives) (before between : List Event) → are_saved form ≡ false
        → OpensDrives form before (Ok drives) between
        → (disk : DiskState) (places : Places) (old : List Event) (result : Result (Unit {0}) Ending) (new : List Event)
        → SavesDrives disk (places_of drives) places old result new → new ≡ old }
{}

/// A law: at each moment of a save the file of a disk is the one of before, or has all sectors of the disk.
pub fn disk_is_saved_or_kept()
    ensures { (pack : PackState) (place : ImagePlace) (saved after : List ℕ) (old : List Event) (result : Result (Unit {0}) Ending) (new : List Event)
        → SavesPack true pack place saved after old result new → ChangesNothing old new ⊎ IsSavedOrKept pack place.path.bytes.items old new }
{}

/// A law: a save prints nothing on standard output.
pub fn saves_print_nothing()
    ensures { (disk : DiskState) (places after : Places) (old : List Event) (result : Result (Unit {0}) Ending) (new : List Event)
        → SavesDrives disk places after old result new → output_text new ≡ output_text old }
{}

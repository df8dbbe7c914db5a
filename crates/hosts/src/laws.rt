//! What follows from the definitions of a file system, as laws.
ghost use Rattle.std.specs.Prelude.{◌≡◌, ℕ, Bool, true, false, List, [], ◌∷◌, ◌++◌, Option, Some};
ghost use Rattle.std.specs.Str.{bytes_eq};
ghost use Rattle.hosts.specs.Event.{Event, Change, Rename, WriteBeside, SyncFolder};
ghost use Rattle.hosts.specs.Place.{Place, Step, Remainder, Anything, Leaves, may_leave, about, after, replay, with_moment, ever};
ghost use Rattle.hosts.specs.Saving.{IsSaved};
ghost use Rattle.hosts.specs.Laws.{IsSound};
ghost use Rattle.hosts.specs.Holding.{holder, turns, IsLawful, GoesOn, AllOwn};

/// What a crash may leave at a moment is among what `ever` gives at it and at each later one.
pub fn moments()
    ensures { (start : Place) (later earlier : List Step) (file : Option (List ℕ))
        → Leaves (may_leave (replay start earlier)) file → Leaves (ever start (later ++ earlier)) file }
{}

/// A change leaves no more than what a crash may leave in its midst, whether it succeeds or fails.
pub fn changes()
    ensures { (change : Change) (ok : Bool) (number : ℕ) (bytes : List ℕ) (p : Place) (file : Option (List ℕ))
        → Leaves (may_leave (after change ok number bytes p)) file → Leaves (with_moment change p (may_leave p)) file }
{}

/// What the disk is known to have is what a read gives, and stays so.
pub fn disks()
    ensures { (change : Change) (ok : Bool) (number : ℕ) (bytes : List ℕ) (p : Place)
        → IsSound p → IsSound (after change ok number bytes p) }
{}

/// Bytes that are written and not synced are not on the disk. A file of them that takes a path may be torn by a crash, and the sync of its
/// folder doesn't change that.
pub fn unsynced_bytes()
    ensures written { (ok : Bool) (bytes : List ℕ) (p : Place) → (after WriteBeside ok 0 bytes p).beside_on_disk ≡ Anything }
    ensures torn { (p : Place) (file : Option (List ℕ)) → p.beside_on_disk ≡ Anything
        → Leaves (may_leave (after SyncFolder true 0 [] (after Rename true 0 [] p))) file }
{}

/// A call about one path changes nothing of another.
pub fn other_paths()
    ensures { (e : Event) (other : List ℕ) (old : List Event) → bytes_eq e.name other ≡ false
        → about other (e ∷ old) ≡ about other old }
{}

/// A path that has its bytes for certain has these alone after a crash.
pub fn saved_files()
    ensures { (bytes : List ℕ) (p : Place) (file : Option (List ℕ)) → IsSaved bytes p → Leaves (may_leave p) file → file ≡ Some bytes }
{}

/// Of two programs that hold a file before they read it and while they change it, none loses the other's change. From where one holds it
/// until it ends, each change is its own, so what it read is what it changes.
pub fn lost_updates()
    ensures { (path : List ℕ) (who : Bool) (later earlier : List (Bool × Option Event)) → IsLawful (turns path (later ++ earlier))
        → holder (turns path earlier) ≡ Some who → GoesOn who (turns path later) → AllOwn who (turns path later) }
{}

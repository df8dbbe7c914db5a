//! Laws of snapshots.

ghost use Rattle.std.specs.Prelude.{◌≡◌, []};
ghost use Rattle.cpu8.specs.State.{State, with_core};
ghost use Rattle.debug8.specs.Snapshot.{snapshot};
ghost use Rattle.debug8.specs.Laws.{HasRegisters};

/// Two machines whose snapshots have the same text have the same registers and flags, and differ in core at most.
pub fn snapshot_tells_all()
    ensures { (a b : State) → HasRegisters a → HasRegisters b → snapshot a ≡ snapshot b
        → with_core a [] ≡ with_core b [] }
{}

//! What holds of every call of the file service. Each function does nothing: its contract is the law.
ghost use Rattle.std.specs.Prelude.{◌≡◌, ◌≢◌, ◌⊎◌, ◌+◌, ◌*◌, ◌<◌, ◌≤◌, ℕ, nat_lt, false, List, [], ◌∷◌, length, take, drop, None, Some, Ok, Result};
ghost use Rattle.word12.specs.declared.sizes.TheConstants.{BLOCK, MOST_BLOCKS};
ghost use Rattle.std.specs.FinMap.{get};
ghost use Rattle.std.specs.Global.{Vec};
ghost use Rattle.volume_image.specs.Volume.{IsVolume};
ghost use Rattle.os8_dir.specs.Entries.{contains};
ghost use Rattle.os8_dir.specs.Files.{FileData, files_of, above_of};
ghost use Rattle.os8_files.specs.Service.{blocks_in, count_of};
ghost use Rattle.os8_files.specs.Mounted.{MountState};
ghost use Rattle.os8_files.specs.Calls.{ReadsBlock, ListsFiles, HoldsFile, DeletesFile, Enters, WritesBlock, ClosesFile, Squeezes, WithoutNewFile, HasMissed};
ghost use Rattle.os8_files.specs.Puts.{PutsFile, PutsFileWith};
ghost use Rattle.os8_files.specs.Renames.{RenamesFile};
ghost use Rattle.os8_files.specs.Holds.{with_hold, without_hold, times};
ghost use Rattle.os8_files.specs.Failed.{KeepsDirectory, Survives};
ghost use Rattle.os8_files.specs.Laws.{KeepsHeld, KeepsHolds, IsHeldThrough, KeepsPlaces, KeepsOtherPlaces, MovesOne, ReadsOne, ReadsLowest, IsStopped, extent_on};
ghost use Rattle.os8_dir.specs.declared.file_faults.FileFault.{FileFault};
ghost use Rattle.os8_files.specs.declared.tokens.Squeezed.{Squeezed};

use os8_dir::laws::{
    directory_numbers, entry_counts, files_found, files_inside, files_made, sound_directory,
    unsound_volumes,
};

/// A file that is held keeps its words through every call, whatever is answered, until a write fails.
pub fn held_files()
    ensures read_block { (old new : MountState) (name k : ℕ) (before after : List ℕ)
        (result : Result (Unit {0}) FileFault) → ReadsBlock old name k before result new after
        → KeepsHeld old new }
    ensures hold { (old new : MountState) (name : ℕ) (result : Result ℕ FileFault)
        → HoldsFile old name result new
        → KeepsHeld old new }
    ensures enter { (old new : MountState) (name wish : ℕ) (result : Result ℕ FileFault)
        → Enters old name wish result new → KeepsHeld old new }
    ensures write { (old new : MountState) (words : List ℕ) (result : Result (Unit {0}) FileFault)
        → WritesBlock old words result new → KeepsHeld old new }
    ensures close { (old new : MountState) (name : ℕ) (info : List ℕ) (result : Result (Unit {0}) FileFault)
        → ClosesFile old name info result new → KeepsHeld old new }
    ensures put { (old new : MountState) (name : ℕ) (words : List ℕ) (result : Result (Unit {0}) FileFault)
        → PutsFile old name words result new → KeepsHeld old new }
    ensures delete { (old new : MountState) (name : ℕ) (result : Result (Unit {0}) FileFault)
        → DeletesFile old name result new → KeepsHeld old new }
    ensures squeeze_turn { (old new : MountState) (result : Result Squeezed FileFault) → Squeezes old result new
        → KeepsHeld old new }
    ensures release { (old : MountState) (hold : ℕ)
        → KeepsHeld old (record old { holds = without_hold hold old.holds }) }
    ensures give_up { (old : MountState) → KeepsHeld old (WithoutNewFile old) }
{}

/// Block k of a file that stays held is block k of the same words at each later call, wherever the file lies by then.
pub fn held_blocks()
    ensures { (name k : ℕ) (first last new : MountState) (others : List MountState) (before after : List ℕ)
        (file : FileData) → IsHeldThrough name first others last
        → get (files_of first.blocks) name ≡ Some file → ReadsBlock last name k before (Ok tt) new after
        → after ≡ take BLOCK (drop (BLOCK * k) file.1) }
{}

/// Calls that aren't about holds take and release none, and after them files that are held have their words. It is the
/// same after two such calls. None of them, and no hold that is taken, lets a service go on that has stopped.
pub fn kept_holds()
    ensures read_block { (old new : MountState) (name k : ℕ) (before after : List ℕ)
        (result : Result (Unit {0}) FileFault) → ReadsBlock old name k before result new after
        → KeepsHolds old new }
    ensures hold { (old new : MountState) (name : ℕ) (result : Result ℕ FileFault)
        → HoldsFile old name result new
        → new.stopped ≡ old.stopped }
    ensures enter { (old new : MountState) (name wish : ℕ) (result : Result ℕ FileFault)
        → Enters old name wish result new → KeepsHolds old new }
    ensures write { (old new : MountState) (words : List ℕ) (result : Result (Unit {0}) FileFault)
        → WritesBlock old words result new → KeepsHolds old new }
    ensures close { (old new : MountState) (name : ℕ) (info : List ℕ) (result : Result (Unit {0}) FileFault)
        → ClosesFile old name info result new → KeepsHolds old new }
    ensures put { (old new : MountState) (name : ℕ) (words : List ℕ) (result : Result (Unit {0}) FileFault)
        → PutsFile old name words result new → KeepsHolds old new }
    ensures give_up { (old : MountState) → KeepsHolds old (WithoutNewFile old) }
    ensures delete { (old new : MountState) (name : ℕ) (result : Result (Unit {0}) FileFault)
        → DeletesFile old name result new → KeepsHolds old new }
    ensures squeeze_turn { (old new : MountState) (result : Result Squeezed FileFault) → Squeezes old result new
        → KeepsHolds old new }
    ensures both { (old mid new : MountState) → KeepsHolds old mid → KeepsHolds mid new → KeepsHolds old new }
{}

/// A hold that is taken and released leaves the holds as they were.
pub fn released_hold()
    ensures { (name : ℕ) (holds : List ℕ) → without_hold name (with_hold name holds) ≡ holds }
{}

/// How often a name is held: a hold that is taken adds one to its name alone, and one that is released takes one away from
/// it. The order in which two are taken makes no difference. A name is held where it stands among the holds at least once.
pub fn counted_holds()
    ensures taken { (name hold : ℕ) (holds : List ℕ) → times name (with_hold hold holds)
        ≡ times name (hold ∷ []) + times name holds }
    ensures released { (name hold : ℕ) (holds : List ℕ) → 1 ≤ times hold holds
        → times name (hold ∷ []) + times name (without_hold hold holds) ≡ times name holds }
    ensures order { (one two : ℕ) (holds : List ℕ) → with_hold one (with_hold two holds)
        ≡ with_hold two (with_hold one holds) }
    ensures held { (name : ℕ) (holds : List ℕ) → contains holds name ≡ nat_lt 0 (times name holds) }
{}

/// Of all calls only a turn of squeezing changes the place of a file that it neither writes nor deletes. It does so of one
/// file at most, the one that it answers.
pub fn file_places()
    ensures read_block { (old new : MountState) (name k : ℕ) (before after : List ℕ)
        (result : Result (Unit {0}) FileFault) → ReadsBlock old name k before result new after
        → KeepsPlaces old new }
    ensures hold { (old new : MountState) (name : ℕ) (result : Result ℕ FileFault)
        → HoldsFile old name result new
        → KeepsPlaces old new }
    ensures release { (old : MountState) (hold : ℕ)
        → KeepsPlaces old (record old { holds = without_hold hold old.holds }) }
    ensures enter { (old new : MountState) (name wish : ℕ) (result : Result ℕ FileFault)
        → Enters old name wish result new → KeepsPlaces old new }
    ensures write { (old new : MountState) (words : List ℕ) (result : Result (Unit {0}) FileFault)
        → WritesBlock old words result new → KeepsPlaces old new }
    ensures close { (old new : MountState) (name : ℕ) (info : List ℕ) (result : Result (Unit {0}) FileFault)
        → ClosesFile old name info result new → KeepsOtherPlaces name old new }
    ensures put { (old new : MountState) (name : ℕ) (words : List ℕ) (result : Result (Unit {0}) FileFault)
        → PutsFile old name words result new → KeepsOtherPlaces name old new }
    ensures give_up { (old : MountState) → KeepsPlaces old (WithoutNewFile old) }
    ensures delete { (old new : MountState) (name : ℕ) (result : Result (Unit {0}) FileFault)
        → DeletesFile old name result new → KeepsOtherPlaces name old new }
    ensures squeeze_turn { (old new : MountState) (result : Result Squeezed FileFault) → Squeezes old result new
        → MovesOne old result new }
{}

/// Which calls of a mounted volume read: `read_block` one block at most, and `squeeze_turn` each block of the file that it is to
/// move at most once. The others read none.
pub fn block_reads()
    ensures read_block { (old new : MountState) (name k : ℕ) (before after : List ℕ)
        (result : Result (Unit {0}) FileFault) → ReadsBlock old name k before result new after
        → ReadsOne old new }
    ensures hold { (old new : MountState) (name : ℕ) (result : Result ℕ FileFault)
        → HoldsFile old name result new
        → new.reads ≡ old.reads }
    ensures enter { (old new : MountState) (name wish : ℕ) (result : Result ℕ FileFault)
        → Enters old name wish result new → new.reads ≡ old.reads }
    ensures write { (old new : MountState) (words : List ℕ) (result : Result (Unit {0}) FileFault)
        → WritesBlock old words result new → new.reads ≡ old.reads }
    ensures close { (old new : MountState) (name : ℕ) (info : List ℕ) (result : Result (Unit {0}) FileFault)
        → ClosesFile old name info result new → new.reads ≡ old.reads }
    ensures put { (old new : MountState) (name : ℕ) (words : List ℕ) (result : Result (Unit {0}) FileFault)
        → PutsFile old name words result new → new.reads ≡ old.reads }
    ensures delete { (old new : MountState) (name : ℕ) (result : Result (Unit {0}) FileFault)
        → DeletesFile old name result new → new.reads ≡ old.reads }
    ensures squeeze_turn { (old new : MountState) (result : Result Squeezed FileFault) → Squeezes old result new
        → (new.reads ≡ old.reads) ⊎ ReadsLowest old new }
{}

/// A file has 256 words for each of its blocks, and 1 to 4095 blocks.
pub fn whole_files()
    ensures whole { (blocks : List (List ℕ)) (name : ℕ) (file : FileData) → IsVolume blocks
        → get (files_of blocks) name ≡ Some file → BLOCK * blocks_in file ≡ length file.1 }
    ensures some { (blocks : List (List ℕ)) (name : ℕ) (file : FileData) → IsVolume blocks
        → get (files_of blocks) name ≡ Some file → 0 < blocks_in file }
    ensures most { (blocks : List (List ℕ)) (name : ℕ) (file : FileData) → IsVolume blocks
        → get (files_of blocks) name ≡ Some file → blocks_in file ≤ MOST_BLOCKS }
{
    files_found();
    sound_directory();
    files_inside();
    unsound_volumes();
}

/// No more files have a free block below them than there are files.
pub fn files_above()
    ensures { (blocks : List (List ℕ)) → above_of blocks ≤ count_of (files_of blocks) }
{
    directory_numbers();
    sound_directory();
    files_made();
    entry_counts();
    unsound_volumes();
}

/// What a read that fails leaves: nothing is changed but the two counts of reads.
pub fn failed_reads()
    ensures read_block { (old new : MountState) (name k : ℕ) (before after : List ℕ)
        (result : Result (Unit {0}) FileFault) → ReadsBlock old name k before result new after
        → old.failed_reads < new.failed_reads → HasMissed old new × (after ≡ before) }
    ensures squeeze_turn { (old new : MountState) (result : Result Squeezed FileFault) → Squeezes old result new
        → old.failed_reads < new.failed_reads → HasMissed old new }
{}

/// What a write that fails leaves of the files. Either blocks 1 to 6 are as before, and mounting the store again finds every
/// file with its words. An exception may be the file that was being moved, where it is longer than the empty below it. Or each
/// file's words stand in full in its old blocks, and those of a moved file in its new ones. The same is left of the volume as it
/// was before earlier writes that kept blocks 1 to 6 and all files.
pub fn failed_writes()
    ensures write { (old new : MountState) (words : List ℕ) (result : Result (Unit {0}) FileFault)
        → WritesBlock old words result new → old.failed_writes < new.failed_writes
        → Survives old.blocks new.blocks }
    ensures close { (old new : MountState) (name : ℕ) (info : List ℕ) (result : Result (Unit {0}) FileFault)
        → ClosesFile old name info result new → old.failed_writes < new.failed_writes
        → Survives old.blocks new.blocks }
    ensures put { (old new : MountState) (name : ℕ) (words : List ℕ) (result : Result (Unit {0}) FileFault)
        → PutsFile old name words result new → old.failed_writes < new.failed_writes
        → Survives old.blocks new.blocks }
    ensures delete { (old new : MountState) (name : ℕ) (result : Result (Unit {0}) FileFault)
        → DeletesFile old name result new → old.failed_writes < new.failed_writes
        → Survives old.blocks new.blocks }
    ensures squeeze_turn { (old new : MountState) (result : Result Squeezed FileFault) → Squeezes old result new
        → old.failed_writes < new.failed_writes → Survives old.blocks new.blocks }
    ensures later { (old mid new : List (List ℕ)) → KeepsDirectory old mid → files_of mid ≡ files_of old
        → Survives mid new → Survives old new }
{}

/// Each call that can answer a `FileFault` answers `Stopped` just where a write has failed before.
pub fn stopped_calls()
    ensures read_block { (old new : MountState) (name k : ℕ) (before after : List ℕ)
        (result : Result (Unit {0}) FileFault) → ReadsBlock old name k before result new after
        → IsStopped old result }
    ensures listing { (old : MountState) (result : Result (Vec (ℕ × ℕ)) FileFault) → ListsFiles old result
        → IsStopped old result }
    ensures hold { (old new : MountState) (name : ℕ) (result : Result ℕ FileFault)
        → HoldsFile old name result new
        → IsStopped old result }
    ensures enter { (old new : MountState) (name wish : ℕ) (result : Result ℕ FileFault)
        → Enters old name wish result new → IsStopped old result }
    ensures write { (old new : MountState) (words : List ℕ) (result : Result (Unit {0}) FileFault)
        → WritesBlock old words result new → IsStopped old result }
    ensures close { (old new : MountState) (name : ℕ) (info : List ℕ) (result : Result (Unit {0}) FileFault)
        → ClosesFile old name info result new → IsStopped old result }
    ensures put { (old new : MountState) (name : ℕ) (words : List ℕ) (result : Result (Unit {0}) FileFault)
        → PutsFile old name words result new → IsStopped old result }
    ensures delete { (old new : MountState) (name : ℕ) (result : Result (Unit {0}) FileFault)
        → DeletesFile old name result new → IsStopped old result }
    ensures squeeze_turn { (old new : MountState) (result : Result Squeezed FileFault) → Squeezes old result new
        → IsStopped old result }
{}

/// What giving a file another name leaves, as the laws above say of the other calls. This is said of the holds, the files that
/// are held, the places of the other files and the count of reads. After a write that fails it is said of the files. It answers
/// `Stopped` just where a write has failed before.
pub fn renamed_files()
    ensures holds { (old new : MountState) (name other : ℕ) (result : Result (Unit {0}) FileFault)
        → RenamesFile old name other result new → KeepsHolds old new }
    ensures places { (old new : MountState) (name other third : ℕ) (result : Result (Unit {0}) FileFault)
        → RenamesFile old name other result new → name ≢ third → other ≢ third → new.stopped ≡ false
        → extent_on new third ≡ extent_on old third }
    ensures reads { (old new : MountState) (name other : ℕ) (result : Result (Unit {0}) FileFault)
        → RenamesFile old name other result new → new.reads ≡ old.reads }
    ensures failed_writes { (old new : MountState) (name other : ℕ) (result : Result (Unit {0}) FileFault)
        → RenamesFile old name other result new → old.failed_writes < new.failed_writes
        → Survives old.blocks new.blocks }
    ensures stopped { (old new : MountState) (name other : ℕ) (result : Result (Unit {0}) FileFault)
        → RenamesFile old name other result new → IsStopped old result }
{}

/// What putting a file with information words leaves, as the laws above say of putting one without.
pub fn informed_files()
    ensures holds { (old new : MountState) (name : ℕ) (given words : List ℕ)
        (result : Result (Unit {0}) FileFault) → PutsFileWith old name given words result new
        → KeepsHolds old new }
    ensures places { (old new : MountState) (name : ℕ) (given words : List ℕ)
        (result : Result (Unit {0}) FileFault) → PutsFileWith old name given words result new
        → KeepsOtherPlaces name old new }
    ensures reads { (old new : MountState) (name : ℕ) (given words : List ℕ)
        (result : Result (Unit {0}) FileFault) → PutsFileWith old name given words result new
        → new.reads ≡ old.reads }
    ensures failed_writes { (old new : MountState) (name : ℕ) (given words : List ℕ)
        (result : Result (Unit {0}) FileFault) → PutsFileWith old name given words result new
        → old.failed_writes < new.failed_writes → Survives old.blocks new.blocks }
    ensures stopped { (old new : MountState) (name : ℕ) (given words : List ℕ)
        (result : Result (Unit {0}) FileFault) → PutsFileWith old name given words result new
        → IsStopped old result }
{}

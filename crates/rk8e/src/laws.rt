//! Laws of the disk, above its tables.

ghost use Rattle.std.specs.Prelude.{◌≡◌, ◌≢◌, ℕ, ◌-◌, ◌%◌, ◌<◌, zero, suc, Bool, true, false, ◌&&◌, nat_eq, List, length, slice_index, Option, Some, None, Ok};
ghost use Rattle.rk8e.specs.declared.sizes.TheConstants.{PACK, SECTOR, SECTORS};
ghost use Rattle.rk8e.specs.Packs.{PackState, sector_word, file_word, IsFileOf, ReadsPack};
ghost use Rattle.rk8e.specs.State.{DiskState, new_disk, drive_of, with_drive, with_lock, with_pack, after_clear};
ghost use Rattle.rk8e.specs.Command.{sector_of, words_moved, is_requesting};
ghost use Rattle.rk8e.specs.Go.{go};
ghost use Rattle.rk8e.specs.Instructions.{instruction_row};
ghost use Rattle.rk8e.specs.Time.{disk_after};
ghost use Rattle.rk8e.specs.Transfer.{after_end, after_ends, cell_of, is_reached, word_written};
ghost use Rattle.rk8e.specs.Laws.{map_word, ends_write, ends_read, AreGuarded, is_writing, IsSettled, refuses};

/// No word of a sector changes, but by the end of a function that writes, on its drive, and of the one sector that DA and the command
/// name. Instructions, time and clearing leave each pack as it is.
pub fn sector_kept()
    ensures instructions { (d : DiskState) (pulses ac n : ℕ) → (drive_of (instruction_row d pulses ac) n).pack
        ≡ (drive_of d n).pack }
    ensures time { (d : DiskState) (count n : ℕ) → (drive_of (disk_after d count) n).pack ≡ (drive_of d n).pack }
    ensures clearing { (d : DiskState) (n : ℕ) → (drive_of (after_clear d) n).pack ≡ (drive_of d n).pack }
    ensures ends { (d : DiskState) (core : List ℕ) (n sector k : ℕ) → k < SECTOR
        → (ends_write (drive_of d n) ≡ true → sector ≢ sector_of d.control)
        → map_word (after_ends d core).disk n sector k ≡ map_word d n sector k }
{}

/// At the end of a function that writes, the words of the sector are those of the cells, and zeros where half a sector is moved.
pub fn sector_written()
    ensures { (d : DiskState) (core : List ℕ) (n k : ℕ) (pack : PackState) → ends_write (drive_of d n) ≡ true
        → (drive_of d n).pack ≡ Some pack → length pack.words ≡ PACK → sector_of d.control < SECTORS → k < SECTOR
        → map_word (after_end d n core).disk n (sector_of d.control) k ≡ word_written d.control core k }
{}

/// At the end of a function that reads, the cells from MA on, as many as are moved, have the sector's first words. All other cells
/// are as before, and at the end of every other function all are.
pub fn cells_read()
    ensures words { (d : DiskState) (core : List ℕ) (n k : ℕ) (pack : PackState) → ends_read (drive_of d n) ≡ true
        → (drive_of d n).pack ≡ Some pack → d.control.memory_address < 0o10000 → cell_of d.control k < length core
        → k < words_moved d.control
        → slice_index (after_end d n core).core (cell_of d.control k) ≡ sector_word pack.words (sector_of d.control) k }
    ensures others { (d : DiskState) (core : List ℕ) (n cell : ℕ) → cell < length core
        → is_reached d.control (words_moved d.control) cell ≡ false
        → slice_index (after_end d n core).core cell ≡ slice_index core cell }
    ensures kept { (d : DiskState) (core : List ℕ) (n : ℕ) → ends_read (drive_of d n) ≡ false → (after_end d n core).core ≡ core }
{}

/// No lock ends, and no word of a locked drive changes. For on a locked drive no write is under way: not on a new disk, and
/// instructions, time, clearing and ends keep it so.
pub fn locked_drive_is_kept()
    ensures locks { (d : DiskState) (pulses ac n : ℕ) → (drive_of d n).locked ≡ true
        → (drive_of (instruction_row d pulses ac) n).locked ≡ true }
    ensures locks_in_time { (d : DiskState) (count n : ℕ) → (drive_of (disk_after d count) n).locked ≡ (drive_of d n).locked }
    ensures locks_cleared { (d : DiskState) (n : ℕ) → (drive_of (after_clear d) n).locked ≡ (drive_of d n).locked }
    ensures locks_at_ends { (d : DiskState) (core : List ℕ) (n : ℕ) → (drive_of (after_ends d core).disk n).locked
        ≡ (drive_of d n).locked }
    ensures words { (d : DiskState) (core : List ℕ) (n sector k : ℕ) → AreGuarded d → (drive_of d n).locked ≡ true → k < SECTOR
        → map_word (after_ends d core).disk n sector k ≡ map_word d n sector k }
    ensures new { (seek_time disk_time : ℕ) → AreGuarded (new_disk seek_time disk_time) }
    ensures instructions { (d : DiskState) (pulses ac : ℕ) → AreGuarded d → AreGuarded (instruction_row d pulses ac) }
    ensures time { (d : DiskState) (count : ℕ) → AreGuarded d → AreGuarded (disk_after d count) }
    ensures clearing { (d : DiskState) → AreGuarded (after_clear d) }
    ensures ends { (d : DiskState) (core : List ℕ) → AreGuarded d → AreGuarded (after_ends d core).disk }
{}

/// At most one transfer is under way, that of the command's drive and of a sector that the pack has, and the control is busy then. So
/// it is on a new disk, and instructions, time, clearing and ends keep it so.
pub fn one_transfer()
    ensures new { (seek_time disk_time : ℕ) → IsSettled (new_disk seek_time disk_time) }
    ensures instructions { (d : DiskState) (pulses ac : ℕ) → IsSettled d → IsSettled (instruction_row d pulses ac) }
    ensures time { (d : DiskState) (count : ℕ) → IsSettled d → IsSettled (disk_after d count) }
    ensures clearing { (d : DiskState) → IsSettled (after_clear d) }
    ensures ends { (d : DiskState) (core : List ℕ) → IsSettled d → IsSettled (after_ends d core).disk }
{}

/// The operator keeps both: by each pack that is put into a drive or taken out of it. By a lock too, if no write is under way on the drive.
pub fn operator_keeps()
    ensures pack_settles { (d : DiskState) (n : ℕ) (pack : Option PackState) → IsSettled d
        → IsSettled (with_drive d n (with_pack (drive_of d n) pack)) }
    ensures pack_guards { (d : DiskState) (n : ℕ) (pack : Option PackState) → AreGuarded d
        → AreGuarded (with_drive d n (with_pack (drive_of d n) pack)) }
    ensures lock_settles { (d : DiskState) (n : ℕ) → IsSettled d → IsSettled (with_drive d n (with_lock (drive_of d n))) }
    ensures lock_guards { (d : DiskState) (n : ℕ) → AreGuarded d → is_writing (drive_of d n) ≡ false
        → AreGuarded (with_drive d n (with_lock (drive_of d n))) }
{}

/// What a step's beginning does where a transfer ends then, whichever drives end beside it. A sector that is written has the words of
/// the cells as they were. The cells that are read have the words of the sector, and all others are as before.
pub fn transfer_in_step()
    ensures written { (d : DiskState) (core : List ℕ) (n k : ℕ) (pack : PackState) → IsSettled d → n < 4
        → ends_write (drive_of d n) ≡ true → (drive_of d n).pack ≡ Some pack → length pack.words ≡ PACK → k < SECTOR
        → map_word (after_ends d core).disk n (sector_of d.control) k ≡ word_written d.control core k }
    ensures read { (d : DiskState) (core : List ℕ) (n k : ℕ) (pack : PackState) → IsSettled d → n < 4
        → ends_read (drive_of d n) ≡ true → (drive_of d n).pack ≡ Some pack → d.control.memory_address < 0o10000
        → cell_of d.control k < length core → k < words_moved d.control
        → slice_index (after_ends d core).core (cell_of d.control k) ≡ sector_word pack.words (sector_of d.control) k }
    ensures others { (d : DiskState) (core : List ℕ) (cell : ℕ) → IsSettled d → cell < length core
        → is_reached d.control (words_moved d.control) cell ≡ false
        → slice_index (after_ends d core).core cell ≡ slice_index core cell }
{}

/// A function that is refused changes no drive, and no transfer is under way by it: so it moves no word.
pub fn refused_moves_nothing()
    ensures drives { (d : DiskState) (function cylinder n : ℕ) → refuses d function cylinder ≡ true
        → drive_of (go d function cylinder) n ≡ drive_of d n }
    ensures busy { (d : DiskState) (function cylinder : ℕ) → refuses d function cylinder ≡ true
        → (go d function cylinder).control.busy ≡ d.control.busy }
{}

/// A time left is less by as many instructions as pass. No instruction changes it but DCLR with AC bits 10 and 11 1. What has a time
/// left of 0 ends, and a drive with another stays as it is.
pub fn time_is_counted()
    ensures passes { (d : DiskState) (count n time : ℕ) → (drive_of d n).time_left ≡ Some time
        → (drive_of (disk_after d count) n).time_left ≡ Some (time - count) }
    ensures instructions { (d : DiskState) (pulses ac n time : ℕ) → (drive_of d n).time_left ≡ Some time
        → (nat_eq pulses 2 && nat_eq (ac % 4) 1) ≡ false
        → (drive_of (instruction_row d pulses ac) n).time_left ≡ Some time }
    ensures ends { (d : DiskState) (core : List ℕ) (n : ℕ) → (drive_of d n).time_left ≡ Some 0
        → (drive_of (after_ends d core).disk n).time_left ≡ None }
    ensures stays { (d : DiskState) (core : List ℕ) (n time : ℕ) → (drive_of d n).time_left ≡ Some (suc time)
        → drive_of (after_ends d core).disk n ≡ drive_of d n }
{}

/// The disk's request is a function of status and command alone.
pub fn request_is_level()
    ensures { (a b : DiskState) → a.control.status ≡ b.control.status → a.control.command ≡ b.control.command
        → is_requesting a ≡ is_requesting b }
{}

/// The words of a pack that is read are the file's, and zeros past its end.
pub fn read_is_file()
    ensures { (bytes : List ℕ) (pack : PackState) → ReadsPack bytes (Ok pack)
        → (k : ℕ) → slice_index pack.words k ≡ file_word bytes k }
{}

/// A saved file, read again, is a pack of the same words.
pub fn saved_is_map()
    ensures { (bytes : List ℕ) (pack again : PackState) → IsFileOf bytes pack → ReadsPack bytes (Ok again)
        → (k : ℕ) → slice_index again.words k ≡ slice_index pack.words k }
{}

//! Laws of the whole 8/E.

ghost use Rattle.std.specs.Prelude.{◌≡◌, ◌≢◌, ◌⊎◌, ℕ, ◌<◌, ◌≤◌, suc, true, false, List, length, slice_index, Option, Some, None};
ghost use Rattle.word12.specs.declared.sizes.TheConstants.{CORE};
ghost use Rattle.rk8e.specs.declared.sizes.TheConstants.{PACK, SECTOR};
ghost use Rattle.rk8e.specs.Packs.{PackState, sector_word};
ghost use Rattle.rk8e.specs.State.{DiskState, drive_of};
ghost use Rattle.rk8e.specs.Command.{sector_of, words_moved};
ghost use Rattle.rk8e.specs.Time.{disk_after};
ghost use Rattle.rk8e.specs.Transfer.{cell_of, is_reached, word_written};
ghost use Rattle.rk8e.specs.Laws.{map_word, ends_write, ends_read, AreGuarded, IsSettled};
ghost use Rattle.cpu8e.specs.State.{grants_interrupt};
ghost use Rattle.cpu8e.specs.Step as Cpu;
ghost use Rattle.cpu8e.specs.Runs as CpuRuns;
ghost use Rattle.pdp8e.specs.State.{Pdp8e, IsJoined, is_quiet, with_processor};
ghost use Rattle.pdp8e.specs.Step.{at_beginning, after_beginning, rest_of_step, is_for_devices, step};
ghost use Rattle.pdp8e.specs.Runs.{after_keys};
ghost use Rattle.pdp8e.specs.Boot.{after_boot};
ghost use Rattle.terminal8e.specs.Laws.{IsInLoop};
ghost use Rattle.pdp8e.specs.Asks.{waits_for_key};
ghost use Rattle.pdp8e.specs.Laws.{MeetsNoDevice, stops_drives};

use cpu8e::laws::request_stays;
use rk8e::laws as disk;

/// A step is its beginning, and then its rest.
pub fn step_has_parts()
    ensures { (m : Pdp8e) → step m ≡ rest_of_step (after_beginning m) }
{}

/// A program that meets no instruction for disk and devices runs as on the processor alone, while nothing is under way there and there is
/// no clock. The same keys are struck before the same steps.
pub fn without_disk()
    ensures step { (m : Pdp8e) → IsJoined m → is_quiet m.disk m.devices ≡ true → is_for_devices (Cpu.next_word m.processor) ≡ false
        → (step m).0 ≡ with_processor m (Cpu.step m.processor).0 }
    ensures answer { (m : Pdp8e) → IsJoined m → is_quiet m.disk m.devices ≡ true → is_for_devices (Cpu.next_word m.processor) ≡ false
        → (step m).1 ≡ (Cpu.step m.processor).1 }
    ensures run { (keys : ℕ → Option ℕ) (k : ℕ) (m : Pdp8e) → IsJoined m → is_quiet m.disk m.devices ≡ true
        → MeetsNoDevice keys k m.processor → after_keys keys k m ≡ with_processor m (CpuRuns.after_keys keys k m.processor) }
{
    request_stays();
}

/// No word of a sector changes by a step, but where a function that writes ends on its drive in the beginning of the step. Then only
/// the sector changes that DA and the command name. A locked drive keeps all its words, and its lock.
pub fn sector_kept()
    ensures words { (m : Pdp8e) (n sector k : ℕ) → k < SECTOR
        → (m.processor.base.running ≡ true → ends_write (drive_of m.disk n) ≡ true → sector ≢ sector_of m.disk.control)
        → map_word (step m).0.disk n sector k ≡ map_word m.disk n sector k }
    ensures locked { (m : Pdp8e) (n sector k : ℕ) → AreGuarded m.disk → (drive_of m.disk n).locked ≡ true → k < SECTOR
        → map_word (step m).0.disk n sector k ≡ map_word m.disk n sector k }
    ensures lock { (m : Pdp8e) (n : ℕ) → (drive_of m.disk n).locked ≡ true → (drive_of (step m).0.disk n).locked ≡ true }
{
    disk::sector_kept();
    disk::locked_drive_is_kept();
}

/// Each step leaves at most one transfer under way, and no write on a locked drive.
pub fn disk_is_settled()
    ensures settled { (m : Pdp8e) → IsSettled m.disk → IsSettled (step m).0.disk }
    ensures guarded { (m : Pdp8e) → AreGuarded m.disk → AreGuarded (step m).0.disk }
{
    disk::one_transfer();
    disk::locked_drive_is_kept();
}

/// A function that writes ends in the beginning of a step. After the step its sector has the words of the cells as they were before
/// it, and zeros where half a sector is moved.
pub fn sector_written()
    ensures { (m : Pdp8e) (n k : ℕ) (pack : PackState) → m.processor.base.running ≡ true → IsSettled m.disk → n < 4
        → ends_write (drive_of m.disk n) ≡ true → (drive_of m.disk n).pack ≡ Some pack → length pack.words ≡ PACK → k < SECTOR
        → map_word (step m).0.disk n (sector_of m.disk.control) k ≡ word_written m.disk.control m.processor.base.core k }
{
    disk::sector_kept();
    disk::transfer_in_step();
}

/// A function that reads ends in the beginning of a step. The cells have the words of the sector then, as many as are moved, and all
/// others are as before. So the next word, if it is one of them, is the sector's.
pub fn cells_read()
    ensures words { (m : Pdp8e) (n k : ℕ) (pack : PackState) → IsSettled m.disk → n < 4 → ends_read (drive_of m.disk n) ≡ true
        → (drive_of m.disk n).pack ≡ Some pack → m.disk.control.memory_address < 0o10000
        → cell_of m.disk.control k < length m.processor.base.core → k < words_moved m.disk.control
        → slice_index (at_beginning m).processor.base.core (cell_of m.disk.control k)
        ≡ sector_word pack.words (sector_of m.disk.control) k }
    ensures others { (m : Pdp8e) (cell : ℕ) → IsSettled m.disk → cell < length m.processor.base.core
        → is_reached m.disk.control (words_moved m.disk.control) cell ≡ false
        → slice_index (at_beginning m).processor.base.core cell ≡ slice_index m.processor.base.core cell }
{
    disk::transfer_in_step();
}

/// In user mode no step changes the disk, but by the functions that end in its beginning, and by time.
pub fn user_mode_leaves_disk()
    ensures { (m : Pdp8e) → m.processor.user_flag ≡ true
        → ((step m).0.disk ≡ m.disk) ⊎ (((step m).0.disk ≡ (at_beginning m).disk)
        ⊎ ((step m).0.disk ≡ disk_after (at_beginning m).disk 1)) }
{}

/// A time left is less by one after each instruction but DCLR 1 and CAF, and an interrupt takes none.
pub fn time_is_counted()
    ensures instruction { (m : Pdp8e) (n time : ℕ) → m.processor.base.running ≡ true
        → grants_interrupt (at_beginning m).processor ≡ false → stops_drives (at_beginning m) ≡ false
        → (drive_of m.disk n).time_left ≡ Some (suc time) → (drive_of (step m).0.disk n).time_left ≡ Some time }
    ensures interrupt { (m : Pdp8e) (n time : ℕ) → m.processor.base.running ≡ true
        → grants_interrupt (at_beginning m).processor ≡ true → (drive_of m.disk n).time_left ≡ Some (suc time)
        → (drive_of (step m).0.disk n).time_left ≡ Some (suc time) }
{
    disk::time_is_counted();
}

/// A boot reads sector 0. When as many instructions are done as the disk time says, and the DLAG, the transfer has ended in the
/// beginning of the next step. Then PC is 0031, the cells 00000 to 00377 have the words of sector 0, and all others are as before.
pub fn boot_is_sector_0()
    ensures pc { (core : List ℕ) (d : DiskState) (pack : PackState) → length core ≡ CORE → d.drive0.pack ≡ Some pack
        → (after_boot core d).processor.base.pc ≡ 0o31 }
    ensures words { (core : List ℕ) (d : DiskState) (pack : PackState) (k : ℕ) → length core ≡ CORE
        → d.drive0.pack ≡ Some pack → k < SECTOR
        → slice_index (after_boot core d).processor.base.core k ≡ sector_word pack.words 0 k }
    ensures others { (core : List ℕ) (d : DiskState) (pack : PackState) (cell : ℕ) → length core ≡ CORE
        → d.drive0.pack ≡ Some pack → SECTOR ≤ cell → cell < CORE
        → slice_index (after_boot core d).processor.base.core cell ≡ slice_index core cell }
{
    disk::transfer_in_step();
}

/// A machine that waits for a key, while nothing is under way and there is no clock, does so for ever where none comes. After any number
/// of steps it stands at its KSF or at the JMP after it, and its processor is else as before.
pub fn waiting()
    ensures { (m : Pdp8e) (k : ℕ) → IsJoined m → is_quiet m.disk m.devices ≡ true → waits_for_key m ≡ true
        → IsInLoop m.processor (after_keys (λ _. None) k m).processor }
{
    request_stays();
    terminal8e::laws::waiting();
}

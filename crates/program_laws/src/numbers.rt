//! The numbers that definitions cite by name alone, as laws.
ghost use Rattle.std.specs.Prelude.{◌≡◌, ◌&&◌, ◌+◌, ◌*◌, ◌/◌, ◌%◌, ◌==◌, ℕ, nat_le, nat_lt, min, true, false, if◌then◌else◌, List, take};
ghost use Rattle.std.specs.Borrow.{Bor};
ghost use Rattle.image_kind.specs.Directories.{byte_of, entry_words, is_sound, next_word};
ghost use Rattle.image_kind.specs.Kinds.{are_blocks, is_disk_volume, is_form_at};
ghost use Rattle.image_kind.specs.declared.directories.Blocks.{Blocks};
ghost use Rattle.image_kind.specs.declared.kinds.Form.TheVariants.{Dectape as AsTape};
ghost use Rattle.pal8_tape.specs.Joins.{bytes_in};
ghost use Rattle.pal8_places.specs.Places.{next_stay};
ghost use Rattle.pal8_places.specs.declared.options.Options.{Options as Chosen};
ghost use Rattle.pal8_tape.specs.Further.{ended_texts, faults_after, further_faults, is_passed};
ghost use Rattle.word12.specs.declared.sizes.TheConstants.{BLOCK, CORE, FIELD, FIRST_FILE_BLOCK, MOST_BLOCKS, MOST_SOURCES, PAGE};
ghost use Rattle.char_pack.specs.declared.packing.TheConstants.{BLOCK_FRAMES};
ghost use Rattle.disk_layouts.specs.declared.sizes.TheConstants.{DISK, DISK_VOLUME, TAPE, TAPE_VOLUME};
ghost use Rattle.rk8e.specs.declared.sizes.TheConstants.{PACK, SECTOR, SECTORS};
ghost use Rattle.shown_text.specs.Showing.{shown_text, text_from, with_quotes};
ghost use Rattle.change_commands.specs.declared.creating.TheConstants.{DISK_BLOCKS, TAPE_BLOCKS};
ghost use Rattle.outcome.specs.declared.hints.TheConstants.{IMAGE};
ghost use Rattle.refusals.specs.declared.faults.TheConstants.{MOST};
ghost use Rattle.pal_asm.specs.declared.spots.TheConstants.{FIRST_PLACE as FIRST_OF_PAL3};
ghost use Rattle.pal8_places.specs.declared.places.TheConstants.{FIRST_PLACE as FIRST_OF_PAL8};
ghost use Rattle.assemble_commands.specs.declared.faults.TheConstants.{MOST_FURTHER};
ghost use Rattle.os8_dates.specs.declared.days.TheConstants.{NO_DATE};
ghost use Rattle.os8_dates.specs.declared.years.TheConstants.{FIRST_YEAR, LAST_YEAR, LEAST_LAST};
ghost use Rattle.image_kind.specs.declared.lines.TheConstants.{MOST_LINES};
ghost use Rattle.volume_salvage.specs.declared.scan_lines.TheConstants.{MOST_SHOWN};
ghost use Rattle.command_table.specs.declared.table.TheConstants.{MOST_IMAGES};
ghost use Rattle.image_files.specs.declared.waiting.TheConstants.{TRIES};

/// How large words' places, volumes and packs are, and where sources begin. How many lines, faults, images and tries there are at most, and which
/// years dates have.
pub fn known_numbers()
    ensures memory { (CORE ≡ 0o100000) × (FIELD ≡ 0o10000) × (PAGE ≡ 0o200) }
    ensures blocks { (BLOCK ≡ 256) × (BLOCK_FRAMES ≡ 384) × (FIRST_FILE_BLOCK ≡ 7) × (MOST_BLOCKS ≡ 0o7777) }
    ensures volumes { (TAPE_BLOCKS ≡ 737) × (DISK_BLOCKS ≡ 3248) }
    ensures files { (TAPE_VOLUME ≡ 377344) × (TAPE ≡ 380292) × (DISK_VOLUME ≡ 1662976) × (DISK ≡ 3325952) × (IMAGE ≡ 2096640) × (MOST ≡ 16777216) }
    ensures packs { (SECTOR ≡ 256) × (SECTORS ≡ 6496) × (PACK ≡ 1662976) }
    ensures sources { (MOST_SOURCES ≡ 8) × (FIRST_OF_PAL3 ≡ 0o200) × (FIRST_OF_PAL8 ≡ 0o200) × (MOST_FURTHER ≡ 20) }
    ensures dates { (NO_DATE ≡ 0) × (FIRST_YEAR ≡ 1970) × (LEAST_LAST ≡ 1977) × (LAST_YEAR ≡ 9999) }
    ensures lines { (MOST_LINES ≡ 16) × (MOST_SHOWN ≡ 40) × (MOST_IMAGES ≡ 1000000) }
    ensures tries { TRIES ≡ 20 }
{}

/// Those that no other crate can name, by what the definitions that cite them come to. The last stay that is counted, and how many statements are
/// made harmless at most. How large a volume is, where words lie, and how many blocks the volumes of disks and tapes have. The first byte that
/// stands as it is in a line, and in a column.
pub fn inner_numbers()
    ensures stays { (stay : ℕ) → next_stay stay ≡ (if nat_lt stay 4294967295 then stay + 1 else stay) }
    ensures harmless { (options : Chosen) (sources : List (Bor (List ℕ))) (most : ℕ) → further_faults options sources most
        ≡ take most (faults_after options (is_passed options (ended_texts (bytes_in sources))) sources 100 (ended_texts (bytes_in sources))) }
    ensures sizes { (size : ℕ) → are_blocks size ≡ (size % 512 == 0 && (nat_le (8 * 512) size && nat_le size 2096640)) }
    ensures words { (bytes : List ℕ) (blocks : Blocks) (info n k : ℕ) → next_word bytes blocks info n k ≡ min (k + entry_words bytes blocks info n k) 0o400 }
    ensures places { (blocks : Blocks) (n k : ℕ) → byte_of blocks n k
        ≡ (if blocks.is_tape then blocks.start + 258 * (2 * n + k / 0o200) + 2 * (k % 0o200) else blocks.start + 512 * n + 2 * k) }
    ensures disks { (bytes : List ℕ) (start : ℕ) → is_disk_volume bytes start ≡ is_sound bytes (record { is_tape = false; start = start; count = 3248 }) }
    ensures shown { (bytes : List ℕ) → (shown_text bytes ≡ text_from 0o40 bytes) × (with_quotes bytes ≡ text_from 0o41 bytes) }
    ensures tapes { (bytes : List ℕ) (start : ℕ) → is_form_at bytes AsTape start ≡ is_sound bytes (record { is_tape = true; start = start; count = 737 }) }
{}

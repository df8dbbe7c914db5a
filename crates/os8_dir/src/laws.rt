//! What holds of every volume and its directory. Each function does nothing: its contract is the law.
ghost use Rattle.std.specs.Prelude.{◌≡◌, ◌≢◌, ◌+◌, ◌-◌, ◌*◌, ◌<◌, ◌≤◌, ◌↔◌, ℕ, ◌⊎◌, List, [], length, take, Option, Some, None, Ok};
ghost use Rattle.word12.specs.declared.sizes.TheConstants.{FIRST_FILE_BLOCK, MOST_BLOCKS};
ghost use Rattle.std.specs.FinMap.{get, from_entries};
ghost use Rattle.volume_image.specs.Image.{IsNewVolume};
ghost use Rattle.os8_dir.specs.Names.{name_of, with_end_zeros, IsFourWords, IsBefore};
ghost use Rattle.os8_dir.specs.Entries.{DirectoryState, capacity, total, IsTidy, IsNamed};
ghost use Rattle.os8_dir.specs.Reading.{Sound, HasFault, IsOfWords, block, directory_of};
ghost use Rattle.os8_dir.specs.Found.{FilePlace, IsDirectory, files_at, find, rooms_at, largest, size_or_zero, free_blocks, count_files, count_empties, limit, above, IsTight};
ghost use Rattle.os8_dir.specs.Files.{files_of, data_if_there, capacity_of, limit_of, above_of, data_of_files};
ghost use Rattle.os8_dir.specs.Chosen.{IsFirstLargest, IsFirstSmallest, IsLowestAbove, IsCountAbove};
ghost use Rattle.os8_dir.specs.Segments.{HoldsSegments};
ghost use Rattle.os8_dir.specs.Changes.{without_file, with_new_file, moved_down, directory_with, new_file, file_lower, fitting, lowest_above, gap_below, LieIn, IsRoom};
ghost use Rattle.os8_dir.specs.Renaming.{with_new_name, with_name};
ghost use Rattle.os8_dir.specs.declared.faults.DirFault.{DirFault};
ghost use Rattle.os8_dir.specs.declared.entries.DirEntry.{DirEntry};

/// A volume is sound or has a first fault, and never both.
pub fn sound_or_fault()
    ensures either { (blocks : List (List ℕ)) → Sound blocks ⊎ ((fault : DirFault) × HasFault blocks fault) }
    ensures not_both { (blocks : List (List ℕ)) (fault : DirFault) → Sound blocks → HasFault blocks fault
        → ⊥ }
{}

/// A volume's first fault is one of its words, not one of the device or of memory.
pub fn faults_of_words()
    ensures { (blocks : List (List ℕ)) (fault : DirFault) → HasFault blocks fault → IsOfWords fault }
{}

/// What a sound volume is read as is a directory: no two files have one name, each file lies inside the volume, and
/// files do not overlap. No entry has length 0, no empties touch, and its entries can be written.
pub fn sound_directory()
    ensures { (blocks : List (List ℕ)) (d : DirectoryState) → directory_of blocks ≡ Ok d
        → IsDirectory (length blocks) d }
{}

/// A volume whose blocks 1, 2 and so on hold the segments of a directory is read as that directory, where six segments
/// take its entries.
pub fn read_back()
    ensures { (blocks : List (List ℕ)) (d : DirectoryState) → IsDirectory (length blocks) d
        → length blocks ≤ MOST_BLOCKS → length d.entries ≤ limit d → HoldsSegments blocks d
        → directory_of blocks ≡ Ok d }
{}

/// A volume is read as a directory by its number of blocks and blocks 1 to 6 alone.
pub fn directory_blocks()
    ensures { (old new : List (List ℕ)) → length new ≡ length old
        → ((k : ℕ) → k < FIRST_FILE_BLOCK → block new k ≡ block old k) → directory_of new ≡ directory_of old }
{}

/// The map of a sound volume's files has, for each name, what the blocks hold of the file that is found under it.
pub fn files_found()
    ensures { (blocks : List (List ℕ)) (d : DirectoryState) (name : ℕ) → directory_of blocks ≡ Ok d
        → get (files_of blocks) name ≡ data_if_there blocks d.info (find name (files_at d.first d.entries)) }
{}

/// The map of a sound volume's files is made of the files of its directory with what the blocks hold of each.
pub fn files_made()
    ensures { (blocks : List (List ℕ)) (d : DirectoryState) → directory_of blocks ≡ Ok d
        → files_of blocks ≡ from_entries (data_of_files blocks d.info (files_at d.first d.entries)) }
{}

/// Of two names, the one whose first differing word is less comes first.
pub fn name_order()
    ensures { (name other : List ℕ) → IsFourWords name → IsFourWords other → IsBefore name other
        → name_of name < name_of other }
{}

/// A sound volume's directory covers as many blocks, may have as many entries, and has as many files with an empty
/// below them as what the volume is read as.
pub fn directory_numbers()
    ensures capacity { (blocks : List (List ℕ)) (d : DirectoryState) → directory_of blocks ≡ Ok d
        → capacity_of blocks ≡ capacity d }
    ensures limit { (blocks : List (List ℕ)) (d : DirectoryState) → directory_of blocks ≡ Ok d
        → limit_of blocks ≡ limit d }
    ensures above { (blocks : List (List ℕ)) (d : DirectoryState) → directory_of blocks ≡ Ok d
        → above_of blocks ≡ above d.entries }
{}

/// An empty volume is sound and has no files, and all its blocks but the first seven are covered and free.
pub fn new_volumes()
    ensures sound { (count : ℕ) (blocks : List (List ℕ)) → IsNewVolume count blocks → Sound blocks }
    ensures files { (count : ℕ) (blocks : List (List ℕ)) → IsNewVolume count blocks
        → files_of blocks ≡ from_entries [] }
    ensures free { (count : ℕ) (blocks : List (List ℕ)) → IsNewVolume count blocks
        → capacity_of blocks ≡ count - FIRST_FILE_BLOCK }
{}

/// A volume that is not sound has no files, and none has an empty below it.
pub fn unsound_volumes()
    ensures files { (blocks : List (List ℕ)) (fault : DirFault) → HasFault blocks fault
        → files_of blocks ≡ from_entries [] }
    ensures above { (blocks : List (List ℕ)) (fault : DirFault) → HasFault blocks fault
        → above_of blocks ≡ 0 }
{}

/// A file that is found has its name and some blocks, and lies inside its directory's volume; two files do not overlap.
pub fn files_inside()
    ensures inside { (volume name : ℕ) (d : DirectoryState) (f : FilePlace) → IsDirectory volume d
        → find name (files_at d.first d.entries) ≡ Some f
        → (f.name ≡ name) × (d.first ≤ f.place) × (0 < f.size) × (f.place + f.size ≤ volume) }
    ensures apart { (volume name other : ℕ) (d : DirectoryState) (f g : FilePlace) → IsDirectory volume d → name ≢ other
        → find name (files_at d.first d.entries) ≡ Some f → find other (files_at d.first d.entries) ≡ Some g
        → (f.place + f.size ≤ g.place) ⊎ (g.place + g.size ≤ f.place) }
{}

/// Without a file a directory is one of the same volume that covers as many blocks and has no more entries. The file is
/// gone, and the others are found as before.
pub fn file_removed()
    ensures directory { (volume name : ℕ) (d : DirectoryState) → IsDirectory volume d
        → IsDirectory volume (directory_with d (without_file name d.entries)) }
    ensures gone { (name first : ℕ) (es : List DirEntry)
        → find name (files_at first (without_file name es)) ≡ None }
    ensures others { (name other first : ℕ) (es : List DirEntry) → name ≢ other
        → find other (files_at first (without_file name es)) ≡ find other (files_at first es) }
    ensures covered { (name : ℕ) (es : List DirEntry) → total (without_file name es) ≡ total es }
    ensures entries { (name : ℕ) (es : List DirEntry) → length (without_file name es) ≤ length es }
{}

/// With one more file a directory is one of the same volume that covers as many blocks. The file is found where it was
/// placed, with the information words given and zeros for missing ones, and the others as before. Where it was placed at
/// the beginning of an empty, there is at most one entry more. Where its name is new too, and no file had an empty below
/// it, no file has one then.
pub fn file_placed()
    ensures directory { (volume name place size : ℕ) (words : List ℕ) (d : DirectoryState) → IsDirectory volume d
        → IsNamed name → 0 < size
        → IsDirectory volume (directory_with d (with_new_file d.first (new_file d name words place size) d.entries)) }
    ensures there { (first : ℕ) (f : FilePlace) (es : List DirEntry) → 0 < f.size
        → LieIn f.place f.size (rooms_at first es) → find f.name (files_at first (with_new_file first f es))
        ≡ Some f }
    ensures info { (name place size : ℕ) (words : List ℕ) (d : DirectoryState) → d.info ≤ 10
        → take d.info (new_file d name words place size).info ≡ with_end_zeros d.info words }
    ensures others { (other first : ℕ) (f : FilePlace) (es : List DirEntry) → f.name ≢ other
        → find other (files_at first (with_new_file first f es)) ≡ find other (files_at first es) }
    ensures covered { (first : ℕ) (f : FilePlace) (es : List DirEntry) → total (with_new_file first f es) ≡ total es }
    ensures entries { (first size : ℕ) (f : FilePlace) (es : List DirEntry) → 0 < f.size → f.size ≤ size
        → IsRoom f.place size (rooms_at first es) → length (with_new_file first f es) ≤ length es + 1 }
    ensures tight { (first size : ℕ) (f : FilePlace) (es : List DirEntry) → IsTidy es → IsTight es
        → find f.name (files_at first es) ≡ None → 0 < f.size → f.size ≤ size
        → IsRoom f.place size (rooms_at first es) → IsTight (with_new_file first f es) }
{}

/// With a file moved down a directory is one of the same volume that covers as many blocks and has no more entries. The
/// file was found directly above an empty, and is found so much lower, and the others are found as before.
pub fn file_moved_down()
    ensures directory { (volume name : ℕ) (d : DirectoryState) → IsDirectory volume d
        → IsDirectory volume (directory_with d (moved_down name d.entries)) }
    ensures found { (volume name : ℕ) (d : DirectoryState) → IsDirectory volume d → 0 < gap_below name d.entries
        → (f : FilePlace) × ((find name (files_at d.first d.entries) ≡ Some f)
        × (gap_below name d.entries ≤ f.place)
        × IsRoom (f.place - gap_below name d.entries) (gap_below name d.entries)
        (rooms_at d.first d.entries)) }
    ensures there { (volume name : ℕ) (d : DirectoryState) → IsDirectory volume d → 0 < gap_below name d.entries
        → find name (files_at d.first (moved_down name d.entries))
        ≡ file_lower (gap_below name d.entries) (find name (files_at d.first d.entries)) }
    ensures others { (name other first : ℕ) (es : List DirEntry) → name ≢ other
        → find other (files_at first (moved_down name es)) ≡ find other (files_at first es) }
    ensures covered { (name : ℕ) (es : List DirEntry) → total (moved_down name es) ≡ total es }
    ensures entries { (name : ℕ) (es : List DirEntry) → length (moved_down name es) ≤ length es }
{}

/// There is a lowest file with an empty directly below it just where some file has one. Where that file is moved down,
/// one file fewer has one. Below it and its empty there are only files. As many files have one as have a covered block
/// of no file below them.
pub fn lowest_file()
    ensures none { (es : List DirEntry) → IsTidy es → (lowest_above es ≡ None) ↔ (above es ≡ 0) }
    ensures gap { (es : List DirEntry) (name gap : ℕ) → IsTidy es → lowest_above es ≡ Some (name, gap)
        → (0 < gap) × (gap_below name es ≡ gap) }
    ensures fewer { (es : List DirEntry) (name gap : ℕ) → IsTidy es → lowest_above es ≡ Some (name, gap)
        → above (moved_down name es) + 1 ≡ above es }
    ensures first { (es : List DirEntry) (name gap : ℕ) → IsTidy es → lowest_above es ≡ Some (name, gap)
        → IsLowestAbove es name gap }
    ensures count { (first : ℕ) (es : List DirEntry) → IsTidy es → IsCountAbove first es (above es) }
{}

/// The room for a wish is an empty that has so many blocks, and there is one where any empty has. It is the smallest of
/// those, or for a wish of 0 the largest, of equals the first. Blocks that lie in an empty are no file's.
pub fn rooms()
    ensures fitting { (wish from size : ℕ) (rooms : List (ℕ × ℕ)) → fitting wish rooms ≡ Some (from, size)
        → IsRoom from size rooms × (wish ≤ size) }
    ensures smallest { (wish : ℕ) (rooms : List (ℕ × ℕ)) (room : ℕ × ℕ) → 0 < wish
        → fitting wish rooms ≡ Some room → IsFirstSmallest wish rooms room }
    ensures largest { (rooms : List (ℕ × ℕ)) (room : ℕ × ℕ) → largest rooms ≡ Some room
        → IsFirstLargest rooms room }
    ensures no_wish { (rooms : List (ℕ × ℕ)) (room : ℕ × ℕ) → fitting 0 rooms ≡ Some room
        → IsFirstLargest rooms room }
    ensures none { (wish : ℕ) (rooms : List (ℕ × ℕ)) → fitting wish rooms ≡ None → (from size : ℕ)
        → IsRoom from size rooms → wish ≤ size → ⊥ }
    ensures short { (wish : ℕ) (rooms : List (ℕ × ℕ)) → 0 < wish → fitting wish rooms ≡ None
        → size_or_zero (largest rooms) < wish }
    ensures lie { (place size from count : ℕ) (rooms : List (ℕ × ℕ)) → IsRoom place size rooms → place ≤ from
        → from + count ≤ place + size → LieIn from count rooms }
    ensures outside { (from count name first : ℕ) (es : List DirEntry) (f : FilePlace)
        → LieIn from count (rooms_at first es) → find name (files_at first es) ≡ Some f
        → (f.place + f.size ≤ from) ⊎ (from + count ≤ f.place) }
{}

/// A directory has at most one empty more than files. Where no file has an empty below it, it has at most one, which has
/// all free blocks.
pub fn entry_counts()
    ensures files { (first : ℕ) (es : List DirEntry) → IsTidy es
        → length (files_at first es) ≡ count_files es }
    ensures entries { (es : List DirEntry) → length es ≡ count_files es + count_empties es }
    ensures empties { (es : List DirEntry) → IsTidy es → count_empties es ≤ count_files es + 1 }
    ensures one { (es : List DirEntry) → IsTidy es → IsTight es → count_empties es ≤ 1 }
    ensures least { (first : ℕ) (es : List DirEntry)
        → size_or_zero (largest (rooms_at first es)) ≤ free_blocks es }
    ensures most { (first : ℕ) (es : List DirEntry) → IsTidy es
        → free_blocks es ≤ size_or_zero (largest (rooms_at first es)) * (count_files es + 1) }
    ensures all { (first : ℕ) (es : List DirEntry) → IsTidy es → IsTight es
        → size_or_zero (largest (rooms_at first es)) ≡ free_blocks es }
{}

/// Under a new name, that no file has, a directory is one of the same volume with as many entries, which lie where they lay, and
/// the same empties. The file is found under the new name where it was, with its information words, and no more under the old
/// one; the others are found as before. With the old name again it is the list that it was.
pub fn file_renamed()
    ensures directory { (volume name new : ℕ) (d : DirectoryState) → IsDirectory volume d → IsNamed new
        → find new (files_at d.first d.entries) ≡ None
        → IsDirectory volume (directory_with d (with_new_name name new d.entries)) }
    ensures gone { (name new first : ℕ) (es : List DirEntry) → name ≢ new
        → find name (files_at first (with_new_name name new es)) ≡ None }
    ensures there { (name new first : ℕ) (es : List DirEntry) → find new (files_at first es) ≡ None
        → find new (files_at first (with_new_name name new es)) ≡ with_name new (find name (files_at first es)) }
    ensures others { (name new other first : ℕ) (es : List DirEntry) → name ≢ other → new ≢ other
        → find other (files_at first (with_new_name name new es)) ≡ find other (files_at first es) }
    ensures covered { (name new : ℕ) (es : List DirEntry) → total (with_new_name name new es) ≡ total es }
    ensures entries { (name new : ℕ) (es : List DirEntry) → length (with_new_name name new es) ≡ length es }
    ensures rooms { (name new first : ℕ) (es : List DirEntry)
        → rooms_at first (with_new_name name new es) ≡ rooms_at first es }
    ensures above { (name new : ℕ) (es : List DirEntry) → above (with_new_name name new es) ≡ above es }
    ensures back { (name new first : ℕ) (es : List DirEntry) → IsTidy es
        → find new (files_at first es) ≡ None → with_new_name new name (with_new_name name new es) ≡ es }
{}

/// The information words of a file that is found are those that its directory has for each entry, and zeros after them.
pub fn file_information()
    ensures { (volume name : ℕ) (d : DirectoryState) (f : FilePlace) → IsDirectory volume d
        → find name (files_at d.first d.entries) ≡ Some f → with_end_zeros 10 (take d.info f.info) ≡ f.info }
{}

//! What plain command lines ask for.
ghost use Rattle.std.specs.Prelude.{◌≡◌, ◌∷◌, [], ℕ, List, codes, false, true, None, Some};
ghost use Rattle.clap.specs.Words.{IsUnsignedIn};
ghost use Rattle.program_tasks.specs.Names.{volume_named};
ghost use Rattle.program_tasks.specs.declared.archives.LineForm.TheVariants.{Columns, Json};
ghost use Rattle.program_tasks.specs.declared.tasks.Cpu.TheVariants.{EightI, EightE};
ghost use Rattle.program_tasks.specs.declared.tasks.RimForm.TheVariants.{Lines, Bin};
ghost use Rattle.program_tasks.specs.declared.tasks.Saving.TheVariants.{AtEnd, Never, Always};
ghost use Rattle.archive_files.specs.declared.forms.GetForm.TheVariants as get_as;
ghost use Rattle.disk_layouts.specs.declared.layouts.Layout.TheVariants.{First, Second, Dectape};
ghost use Rattle.word12.specs.declared.sizes.TheConstants.{MOST_BLOCKS};
ghost use Rattle.command_table.specs.Found.{capitals, is_among, is_set, layout_of, name_in, names_in, time_or, values_of, wait_of};
ghost use Rattle.command_line.specs.Plain.{AreTaken, IsTaken, after, alone, only_gives, in_place, with_value};
ghost use Rattle.command_refusals.specs.Refusals.{refusal_of, together, value};
ghost use Rattle.command_line.specs.Tasks.{cpu_of, get_form, line_form, rim_form, saving_of};
ghost use Rattle.command_table.specs.declared.table.Verb.TheVariants as verb;

/// A law: plain command lines are taken, and give their arguments what they say, and nothing else: each option is read at its own place. So
/// they ask for the task that `AsksFor` has for these arguments. A text is plain where it begins with no hyphen.
pub fn plain_words()
    ensures tape { (image file : List ℕ) → AreTaken (codes "tape") ([] ∷
        (in_place (codes "TAPE") image ∷ in_place (codes "NAME") file ∷ []) ∷ []) }
    ensures rim { (tape : List ℕ) → AreTaken (codes "rim") ([] ∷ (in_place (codes "TAPE") tape ∷ alone (codes "bin") ∷ []) ∷ []) }
    ensures source { (tape start names : List ℕ) → AreTaken (codes "source") ([] ∷ (in_place (codes "TAPE") tape ∷ []) ∷
        (with_value (codes "start") start ∷ []) ∷ (with_value (codes "names") names ∷ []) ∷ (alone (codes "pal8") ∷ []) ∷ []) }
    ensures run { (image text : List ℕ) → AreTaken (codes "run") (after (in_place (codes "IMAGE") image) ([] ∷
        (alone (codes "look") ∷ []) ∷ (alone (codes "keep") ∷ []) ∷ (alone (codes "strict") ∷ []) ∷
        (alone (codes "look") ∷ alone (codes "keep") ∷ []) ∷ (with_value (codes "volume") text ∷ []) ∷ (alone (codes "dectape") ∷ []) ∷
        [])) }
    ensures create_tape { (image : List ℕ) → AreTaken (codes "create") (after (in_place (codes "IMAGE") image) (
        (alone (codes "dectape") ∷ []) ∷ (alone (codes "dectape") ∷ alone (codes "new") ∷ []) ∷ [])) }
    ensures create { (image blocks : List ℕ) → IsUnsignedIn 8 MOST_BLOCKS blocks
        → IsTaken (codes "create") (in_place (codes "IMAGE") image ∷ in_place (codes "BLOCKS") blocks ∷ []) }
    ensures list { (image text : List ℕ) → AreTaken (codes "list") (after (in_place (codes "IMAGE") image) ([] ∷
        (alone (codes "long") ∷ []) ∷ (with_value (codes "volume") text ∷ []) ∷ (alone (codes "dectape") ∷ []) ∷
        (in_place (codes "NAME") text ∷ []) ∷ (in_place (codes "NAME") text ∷ alone (codes "long") ∷ []) ∷
        (alone (codes "lenient") ∷ []) ∷ [])) }
    ensures get { (image file text : List ℕ) → AreTaken (codes "get") (after (in_place (codes "IMAGE") image) (
        (in_place (codes "NAME") file ∷ []) ∷ (in_place (codes "NAME") file ∷ alone (codes "text") ∷ []) ∷
        (in_place (codes "NAME") file ∷ alone (codes "tape") ∷ []) ∷ (in_place (codes "NAME") file ∷ alone (codes "bin") ∷ []) ∷
        (with_value (codes "at") text ∷ []) ∷ (in_place (codes "NAME") file ∷ with_value (codes "into") text ∷ []) ∷
        (in_place (codes "NAME") file ∷ alone (codes "lenient") ∷ []) ∷
        (alone (codes "all") ∷ with_value (codes "into") text ∷ []) ∷
        (alone (codes "blocks") ∷ in_place (codes "NAME") file ∷ in_place (codes "NAME") text ∷ []) ∷ [])) }
    ensures put { (image file text info : List ℕ) → AreTaken (codes "put") (after (in_place (codes "IMAGE") image) (
        (in_place (codes "FILE") file ∷ []) ∷ (in_place (codes "FILE") file ∷ with_value (codes "as") text ∷ []) ∷
        (in_place (codes "FILE") file ∷ with_value (codes "as") text ∷ alone (codes "text") ∷ []) ∷
        (in_place (codes "FILE") file ∷ with_value (codes "as") text ∷ with_value (codes "info") info ∷ []) ∷
        (in_place (codes "FILE") file ∷ in_place (codes "FILE") text ∷ []) ∷
        (alone (codes "files") ∷ in_place (codes "FILE") file ∷ []) ∷ [])) }
    ensures delete { (image file text : List ℕ) → AreTaken (codes "delete") (after (in_place (codes "IMAGE") image) (
        (in_place (codes "NAME") file ∷ []) ∷ (in_place (codes "NAME") file ∷ in_place (codes "NAME") text ∷ []) ∷
        (with_value (codes "at") text ∷ []) ∷ [])) }
    ensures rename { (image file new : List ℕ) → AreTaken (codes "rename") (after (in_place (codes "IMAGE") image) (
        (in_place (codes "NAME") file ∷ in_place (codes "NEW") new ∷ []) ∷
        (with_value (codes "at") file ∷ in_place (codes "NAME") new ∷ []) ∷ [])) }
    ensures copy { (image file to new : List ℕ) → AreTaken (codes "copy") (after (in_place (codes "IMAGE") image) (
        (in_place (codes "NAME") file ∷ in_place (codes "TO") to ∷ []) ∷
        (in_place (codes "NAME") file ∷ in_place (codes "TO") to ∷ in_place (codes "NEW") new ∷ []) ∷
        (with_value (codes "at") file ∷ in_place (codes "NAME") to ∷ []) ∷
        (in_place (codes "NAME") file ∷ in_place (codes "TO") to ∷ alone (codes "to-dectape") ∷ []) ∷
        (in_place (codes "NAME") file ∷ with_value (codes "to") to ∷ []) ∷
        (in_place (codes "NAME") file ∷ in_place (codes "TO") new ∷ with_value (codes "to") to ∷ []) ∷ [])) }
    ensures copy_more { (image one other third fourth to : List ℕ) → AreTaken (codes "copy") ((in_place (codes "IMAGE") image ∷
        in_place (codes "NAME") one ∷ in_place (codes "TO") other ∷ in_place (codes "NEW") third ∷ in_place (codes "MORE") fourth ∷
        with_value (codes "to") to ∷ alone (codes "force") ∷ []) ∷ []) }
    ensures squeeze { (image text : List ℕ) → AreTaken (codes "squeeze") (after (in_place (codes "IMAGE") image) ([] ∷
        (with_value (codes "wait") text ∷ []) ∷ [])) }
    ensures assemble { (file other text : List ℕ) → AreTaken (codes "assemble") ((in_place (codes "FILE") file ∷ []) ∷
        (in_place (codes "FILE") file ∷ in_place (codes "FILE") other ∷ []) ∷
        (in_place (codes "FILE") file ∷ with_value (codes "output") text ∷ []) ∷
        (with_value (codes "from") other ∷ in_place (codes "FILE") file ∷ []) ∷
        (with_value (codes "from") other ∷ in_place (codes "FILE") file ∷ with_value (codes "onto") text ∷ []) ∷ []) }
    ensures teletype { (tape text : List ℕ) → AreTaken (codes "teletype") (after (in_place (codes "TAPE") tape) ([] ∷
        (in_place (codes "NAME") text ∷ []) ∷ (with_value (codes "start") text ∷ []) ∷ (with_value (codes "cpu") text ∷ []) ∷ [])) }
    ensures trace { (tape text : List ℕ) → AreTaken (codes "trace") (after (in_place (codes "TAPE") tape) ([] ∷
        (in_place (codes "NAME") text ∷ []) ∷ (with_value (codes "keys") text ∷ []) ∷ (with_value (codes "cpu") text ∷ []) ∷ [])) }
    ensures profile { (tape text : List ℕ) → AreTaken (codes "profile") (after (in_place (codes "TAPE") tape) ([] ∷
        (in_place (codes "NAME") text ∷ []) ∷ (with_value (codes "keys") text ∷ []) ∷ (with_value (codes "cpu") text ∷ []) ∷ [])) }
    ensures boot { (image text : List ℕ) → AreTaken (codes "boot") (after (in_place (codes "IMAGE") image) ([] ∷
        (alone (codes "look") ∷ []) ∷ (with_value (codes "rk1") text ∷ []) ∷ (with_value (codes "lock") text ∷ []) ∷ [])) }
    ensures check { (image text : List ℕ) → AreTaken (codes "check") (after (in_place (codes "IMAGE") image) ([] ∷
        (in_place (codes "IMAGE") text ∷ []) ∷ (alone (codes "all") ∷ []) ∷ (with_value (codes "volume") text ∷ []) ∷
        (alone (codes "dectape") ∷ []) ∷ (alone (codes "all") ∷ alone (codes "lenient") ∷ []) ∷ [])) }
    ensures index { (image text : List ℕ) → AreTaken (codes "index") (after (in_place (codes "IMAGE") image) ([] ∷
        (in_place (codes "IMAGE") text ∷ []) ∷ (alone (codes "json") ∷ []) ∷ (with_value (codes "find") text ∷ []) ∷
        (with_value (codes "grep") text ∷ []) ∷ (alone (codes "same") ∷ []) ∷ (alone (codes "dectape") ∷ []) ∷
        (alone (codes "lenient") ∷ []) ∷ [])) }
    ensures dump { (image text : List ℕ) → AreTaken (codes "dump") (after (in_place (codes "IMAGE") image) ([] ∷
        (in_place (codes "BLOCK") text ∷ []) ∷ (alone (codes "sixbit") ∷ []) ∷ [])) }
    ensures patch { (image block number old new : List ℕ) → AreTaken (codes "patch") (after (in_place (codes "IMAGE") image) (
        (in_place (codes "BLOCK") block ∷ in_place (codes "WORD") number ∷ in_place (codes "OLD") old ∷ in_place (codes "NEW") new ∷ []) ∷
        [])) }
    ensures rescue { (image new text : List ℕ) → AreTaken (codes "rescue") (after (in_place (codes "IMAGE") image) (
        (in_place (codes "NEW") new ∷ []) ∷ (in_place (codes "NEW") new ∷ with_value (codes "volume") text ∷ []) ∷ [])) }
    ensures scan { (image : List ℕ) → AreTaken (codes "scan") (after (in_place (codes "IMAGE") image) ([] ∷
        (alone (codes "dectape") ∷ []) ∷ [])) }
{}

/// A law: what the options of a command mean, and what holds where none is given (this project's profile).
pub fn options()
    ensures run { (saving_of (only_gives (codes "run") []) ≡ AtEnd) × (saving_of (only_gives (codes "run") (alone (codes "look") ∷ [])) ≡ Never)
        × (saving_of (only_gives (codes "run") (alone (codes "keep") ∷ [])) ≡ Always) }
    ensures both { refusal_of verb.Run (only_gives (codes "run") (alone (codes "look") ∷ alone (codes "keep") ∷ []))
        ≡ Some (together (codes "--look") (codes "--keep")) }
    ensures rim { (rim_form (only_gives (codes "rim") []) ≡ Lines) × (rim_form (only_gives (codes "rim") (alone (codes "bin") ∷ [])) ≡ Bin) }
    ensures get { (get_form (only_gives (codes "get") []) ≡ get_as.Frames)
        × (get_form (only_gives (codes "get") (alone (codes "text") ∷ [])) ≡ get_as.Text)
        × (get_form (only_gives (codes "get") (alone (codes "tape") ∷ [])) ≡ get_as.Tape)
        × (get_form (only_gives (codes "get") (alone (codes "text") ∷ alone (codes "tape") ∷ [])) ≡ get_as.Tape) }
    ensures put { (is_set (codes "text") (only_gives (codes "put") []) ≡ false) × (name_in (codes "as") (only_gives (codes "put") []) ≡ None)
        × (is_set (codes "text") (only_gives (codes "put") (alone (codes "text") ∷ [])) ≡ true) }
    ensures index { (line_form (only_gives (codes "index") []) ≡ Columns) × (line_form (only_gives (codes "index") (alone (codes "json") ∷ [])) ≡ Json) }
    ensures layout { (layout_of (codes "volume") (codes "dectape") (only_gives (codes "list") []) ≡ None)
        × (layout_of (codes "volume") (codes "dectape") (only_gives (codes "list") (with_value (codes "volume") (codes "1") ∷ [])) ≡ Some First)
        × (layout_of (codes "volume") (codes "dectape") (only_gives (codes "list") (with_value (codes "volume") (codes "2") ∷ [])) ≡ Some Second)
        × (layout_of (codes "volume") (codes "dectape") (only_gives (codes "list") (alone (codes "dectape") ∷ [])) ≡ Some Dectape) }
    ensures named { (volume_named None (codes "disk.rk05:1") ≡ (codes "disk.rk05", Some First))
        × (volume_named None (codes "disk.rk05:2") ≡ (codes "disk.rk05", Some Second))
        × (volume_named None (codes "disk.rk05:3") ≡ (codes "disk.rk05:3", None)) × (volume_named None (codes ":1") ≡ (codes ":1", None))
        × (volume_named (Some Second) (codes "disk.rk05:1") ≡ (codes "disk.rk05:1", Some Second)) }
    ensures cpu { (cpu_of (only_gives (codes "trace") []) ≡ EightI)
        × (cpu_of (only_gives (codes "trace") (with_value (codes "cpu") (codes "8i") ∷ [])) ≡ EightI)
        × (cpu_of (only_gives (codes "trace") (with_value (codes "cpu") (codes "8e") ∷ [])) ≡ EightE) }
    ensures no_cpu { refusal_of verb.Trace (only_gives (codes "trace") (with_value (codes "cpu") (codes "8a") ∷ []))
        ≡ Some (value (codes "--cpu <CPU>") (codes "not 8i or 8e") (codes "8a")) }
    ensures boot { (time_or 10 (codes "disk-time") (only_gives (codes "boot") []) ≡ 10)
        × (time_or 10 (codes "disk-time") (only_gives (codes "boot") (with_value (codes "disk-time") (codes "1000000") ∷ [])) ≡ 1000000)
        × (time_or 1000000 (codes "every") (only_gives (codes "boot") []) ≡ 1000000)
        × (time_or 1000000 (codes "every") (only_gives (codes "boot") (with_value (codes "every") (codes "0") ∷ [])) ≡ 0)
        × (is_set (codes "look") (only_gives (codes "boot") []) ≡ false)
        × (is_among (codes "0") (values_of (codes "lock") (only_gives (codes "boot") (with_value (codes "lock") (codes "0") ∷ with_value (codes "lock") (codes "2") ∷ []))) ≡ true)
        × (is_among (codes "1") (values_of (codes "lock") (only_gives (codes "boot") (with_value (codes "lock") (codes "0") ∷ with_value (codes "lock") (codes "2") ∷ []))) ≡ false) }
    ensures wait { (wait_of (only_gives (codes "squeeze") []) ≡ 0)
        × (wait_of (only_gives (codes "squeeze") (with_value (codes "wait") (codes "30") ∷ [])) ≡ 30) }
    ensures names { (file other : List ℕ) → (name_in (codes "NAME") (only_gives (codes "tape") (in_place (codes "NAME") file ∷ [])) ≡ Some (capitals file))
        × (names_in (codes "NAME") (only_gives (codes "delete") (in_place (codes "NAME") file ∷ in_place (codes "NAME") other ∷ []))
        ≡ capitals file ∷ capitals other ∷ []) }
{}

//! The letters of options, as a law.
ghost use Rattle.std.specs.Prelude.{◌≡◌, ◌∷◌, [], codes, map};
ghost use Rattle.command_table.specs.Tables.{table};
ghost use Rattle.program_laws.specs.Letters.{letters_with};

/// The subcommands, in the order in which help has them, each with the letters of its options. Which option a letter means is the law
/// `letters` of the table.
pub fn option_letters()
    ensures { map letters_with table
        ≡ (codes "tape", codes "v") ∷ (codes "rim", codes "v") ∷ (codes "source", codes "v") ∷ (codes "assemble", codes "olv")
        ∷ (codes "teletype", codes "v") ∷ (codes "trace", codes "v") ∷ (codes "profile", codes "v") ∷ (codes "boot", [])
        ∷ (codes "run", codes "v") ∷ (codes "create", codes "v") ∷ (codes "list", codes "lv") ∷ (codes "get", codes "tafv")
        ∷ (codes "put", codes "tv") ∷ (codes "delete", codes "v") ∷ (codes "rename", codes "v") ∷ (codes "copy", codes "fv")
        ∷ (codes "squeeze", codes "v") ∷ (codes "check", codes "av") ∷ (codes "index", codes "v") ∷ (codes "dump", codes "v")
        ∷ (codes "patch", codes "v") ∷ (codes "rescue", codes "v") ∷ (codes "scan", codes "v") ∷ [] }
{}

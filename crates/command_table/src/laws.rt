//! What holds of the table.
ghost use Rattle.std.specs.Prelude.{◌≡◌, ◌∷◌, [], codes, map, option_map, true, Some};
ghost use Rattle.std.specs.List.{list_all};
ghost use Rattle.command_table.specs.Tables.{are_apart, are_distinct, entry_named, is_usual, letters_of, pairs, table};

/// A law: the letters of options are the usual ones, no subcommand has one twice, and these subcommands have these.
pub fn letters()
    ensures distinct { list_all (λ entry. are_apart (letters_of entry)) table ≡ true }
    ensures usual { list_all (λ entry. list_all is_usual (letters_of entry)) table ≡ true }
    ensures assemble { option_map letters_of (entry_named (codes "assemble"))
        ≡ Some ((codes "o", codes "output") ∷ (codes "l", codes "list") ∷ (codes "v", codes "volume") ∷ []) }
    ensures list { option_map letters_of (entry_named (codes "list"))
        ≡ Some ((codes "l", codes "long") ∷ (codes "v", codes "volume") ∷ []) }
    ensures get { option_map letters_of (entry_named (codes "get"))
        ≡ Some ((codes "t", codes "text") ∷ (codes "a", codes "all") ∷ (codes "f", codes "force") ∷ (codes "v", codes "volume") ∷ []) }
{}

/// A law: no two subcommands share a name, and these arguments exclude each other.
pub fn excluded_arguments()
    ensures words { are_distinct (map (λ entry. entry.word) table) ≡ true }
    ensures pairs { pairs ≡ (codes "volume", codes "dectape") ∷ (codes "volume", codes "plain") ∷ (codes "dectape", codes "plain")
        ∷ (codes "to-volume", codes "to-dectape") ∷ (codes "to-volume", codes "to-plain") ∷ (codes "to-dectape", codes "to-plain")
        ∷ (codes "BLOCKS", codes "dectape") ∷ (codes "BLOCKS", codes "rk05") ∷ (codes "BLOCKS", codes "volume")
        ∷ (codes "rk05", codes "dectape") ∷ (codes "rk05", codes "volume") ∷ (codes "new", codes "volume")
        ∷ (codes "blocks", codes "at") ∷ (codes "at", codes "to") ∷ (codes "blocks", codes "into") ∷ (codes "blocks", codes "all")
        ∷ (codes "blocks", codes "force") ∷ (codes "blocks", codes "text-of") ∷ (codes "blocks", codes "tape")
        ∷ (codes "blocks", codes "bin") ∷ (codes "tape", codes "into") ∷ (codes "bin", codes "into") ∷ (codes "blocks", codes "year")
        ∷ (codes "as", codes "text-of") ∷ (codes "output", codes "onto") ∷ (codes "look", codes "keep") ∷ (codes "look", codes "wait")
        ∷ (codes "look", codes "every")
        ∷ (codes "new", codes "wait") ∷ (codes "info", codes "date") ∷ (codes "info", codes "dates") ∷ (codes "date", codes "dates")
        ∷ [] }
{}

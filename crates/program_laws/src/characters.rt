//! The words that `TEXT`, `FILENAME` and `DEVICE` of a PAL8 source make, by their characters, as a law.
ghost use Rattle.std.specs.Prelude.{◌≡◌, ◌<◌, ◌%◌, ◌∷◌, ◌++◌, ℕ, List, [], Some, map};
ghost use Rattle.pal8_lex.specs.declared.tokens.Token.{Token};
ghost use Rattle.pal8_grammar.specs.Bodies.{device_phrase, file_phrase};
ghost use Rattle.pal8_grammar.specs.Names.{extension_of, spaced_run};
ghost use Rattle.pal8_grammar.specs.declared.bodies.Body.TheVariants as body;
ghost use Rattle.pal8_grammar.specs.declared.steps.Step.{Step};
ghost use Rattle.pal8_values.specs.Sums.{Meanings};
ghost use Rattle.pal8_places.specs.declared.options.Options.{Options as Chosen};
ghost use Rattle.pal8_asm.specs.Sources.{words_in};
ghost use Rattle.program_laws.specs.Characters.{HasCharacters, SaysDevice, SaysFile, zeros_after};

/// A text has its characters in its words, two in each and six bits of each, and then zeros. `FILENAME` makes the six characters of a name, and two
/// of its extension or zeros. `DEVICE` makes the first four of its name (PAL8, in this project's profile).
pub fn characters_of_words()
    ensures text { (options : Chosen) (own : Meanings) (steps : List Step) (string : List ℕ) (size : ℕ)
        → HasCharacters (words_in options body.Text own steps string size) (map (λ byte. byte % 0o100) string ++ zeros_after options.is_without_zero string) }
    ensures file { (one point other : Token) (name extension : ℕ) → spaced_run one ≡ Some name → extension_of point other ≡ Some extension → name < 0o1000000000000
        → SaysFile (file_phrase (one ∷ point ∷ other ∷ [])) name extension }
    ensures bare { (one : Token) (name : ℕ) → spaced_run one ≡ Some name → name < 0o1000000000000 → SaysFile (file_phrase (one ∷ [])) name 0 }
    ensures device { (one : Token) (name : ℕ) → spaced_run one ≡ Some name → name < 0o1000000000000 → SaysDevice (device_phrase (one ∷ [])) name }
{}

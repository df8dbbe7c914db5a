//! What holds of numbers and sources in lines. Each function does nothing: its contract is the law.
ghost use Rattle.std.specs.Prelude.{◌≡◌, ◌<◌, ℕ, List, Option, Some, decimal};
ghost use Rattle.word12.specs.Octal.{octal4, octal5, octal_of};
ghost use Rattle.word12.specs.declared.sizes.TheConstants.{CORE};
ghost use Rattle.script8.specs.Lines.{number_of, cell_of, character_of};
ghost use Rattle.script8.specs.Replies.{character_text};
ghost use Rattle.script8.specs.Written.{AssembleAsWritten};

/// A number of at most seven digits that is shown is read as that number.
#[tactic(auto, using(crate::proofs::LawLemmas::number_as_shown))]
pub fn number_as_shown()
    ensures { (number : ℕ) → number < 10000000 → number_of (decimal number) ≡ Some number }
{}

/// A cell, a word and a character that are shown are read as they are.
#[tactic(auto, using(crate::proofs::LawLemmas::cell_as_shown, crate::proofs::LawLemmas::word_as_shown, crate::proofs::LawLemmas::character_as_shown))]
pub fn octal_as_shown()
    ensures cell { (cell : ℕ) → cell < CORE → cell_of (octal5 cell) ≡ Some cell }
    ensures word { (word : ℕ) → word < 0o10000 → octal_of 4 (octal4 word) ≡ Some word }
    ensures character { (character : ℕ) → character < 256
        → character_of (character_text character) ≡ Some character }
{}

/// An `ASSEMBLE` is read as it is written, with `<` after its target and commas between its sources.
#[tactic(auto, using(crate::proofs::WrittenLemmas::assemble_as_written))]
pub fn assemble_as_written()
    ensures { AssembleAsWritten }
{}

//! Laws of notes. Each function does nothing: its contract is the law.

ghost use Rattle.std.specs.Prelude.{◌≡◌, ℕ, Bool, true, Option};
ghost use Rattle.source_notes.specs.Laws.{all_graphic, are_graphic};
ghost use Rattle.source_notes.specs.Notes.{above, remark};

/// Notes are made of graphic characters, whatever the words and the instructions: so none of them ends its line.
pub fn notes_are_graphic()
    ensures above { (words : ℕ → Option ℕ) (is_code : ℕ → Bool) (cell : ℕ)
        → all_graphic (above words is_code cell) ≡ true }
    ensures remark { (words : ℕ → Option ℕ) (is_code : ℕ → Bool) (cell : ℕ)
        → are_graphic (remark words is_code cell) ≡ true }
{}

//! Laws of BIN tapes: a tape has one reading, what is no tape has one fault, and what is written is a tape of its words.

ghost use Rattle.std.specs.Prelude.{◌≡◌, ℕ, ◌<◌, length, List, ◌∷◌, ◌++◌};
ghost use Rattle.bin_tape.specs.Frames.{heeded_frames};
ghost use Rattle.bin_tape.specs.Items.{Item, words_of, words_but_last};
ghost use Rattle.bin_tape.specs.Tape.{IsTape, IsOpen};
ghost use Rattle.bin_tape.specs.Fault.{IsFault, RefusesFrame};
ghost use Rattle.bin_tape.specs.Laws.{IsClosed, GoesOn};
ghost use Rattle.bin_tape.specs.Progress.{Progress};
ghost use Rattle.bin_tape.specs.Reading.{HasRead};
ghost use Rattle.bin_tape.specs.Pairs.{ArePairs, IsTapeOf};
ghost use Rattle.bin_tape.specs.Writing.{tape_of};
ghost use Rattle.bin_tape.specs.declared.faults.TapeFault.{TapeFault};

/// Frames are a tape in one way only.
pub fn one_reading()
    ensures { (frames : List ℕ) (a b : List Item) → IsTape frames a → IsTape frames b → a ≡ b }
{}

/// What follows the trailer means nothing.
pub fn longer_tape()
    ensures { (frames more : List ℕ) (items : List Item) → IsTape frames items
        → IsTape (frames ++ more) items }
{}

/// A tape has no fault.
pub fn no_fault()
    ensures { (frames : List ℕ) (items : List Item) (fault : TapeFault) → IsTape frames items
        → IsFault frames fault → ⊥ }
{}

/// Frames have one fault at most.
pub fn one_fault()
    ensures { (frames : List ℕ) (a b : TapeFault) → IsFault frames a → IsFault frames b → a ≡ b }
{}

/// The frame that is refused is the first that closes what was open: whatever follows it, the frames are no tape and
/// can't become one.
pub fn first_closing()
    ensures { (frames rest : List ℕ) (fault : TapeFault) (refused : RefusesFrame frames fault)
        → IsClosed (refused.before ++ refused.frame ∷ rest) }
{}

/// What is open can go on as a tape: some further frames make it one, and leave its items.
pub fn open_goes_on()
    ensures { (frames : List ℕ) (items : List Item) (part : List ℕ) → IsOpen (heeded_frames frames) items part
        → GoesOn frames items }
{}

/// The words that a reader has handed out are those of the tape that it was given, or all but the last of what may go
/// on as a tape.
pub fn handed_words()
    ensures of_tape { (reader : Progress) (frames : List ℕ) (out : List (ℕ × ℕ)) (items : List Item)
        → HasRead reader frames out → IsTape frames items → out ≡ words_of items }
    ensures of_prefix { (reader : Progress) (frames : List ℕ) (out : List (ℕ × ℕ)) (items : List Item)
        (part : List ℕ)
        → HasRead reader frames out → IsOpen (heeded_frames frames) items part → out ≡ words_but_last items }
{}

/// What is written for words with their cells is a tape of these words, whatever frames follow it. Each cell has the
/// word of the last pair there, and a cell that no pair names has none.
pub fn written_tape()
    ensures { (pairs : List (ℕ × ℕ)) (rest : List ℕ) → ArePairs pairs → 0 < length pairs
        → IsTapeOf (tape_of pairs ++ rest) pairs }
{}

//! Laws of RIM tapes: a tape has one reading, and what is no tape has one fault.

ghost use Rattle.std.specs.Prelude.{◌≡◌, ℕ, List};
ghost use Rattle.rim_tape.specs.Tape.{IsRim};
ghost use Rattle.rim_tape.specs.Fault.{IsFault};
ghost use Rattle.rim_tape.specs.declared.faults.RimFault.{RimFault};

/// Frames are a tape of one list of words with their cells at most.
pub fn one_reading()
    ensures { (frames : List ℕ) (a b : List (ℕ × ℕ)) → IsRim frames a → IsRim frames b → a ≡ b }
{}

/// Frames have one fault at most, and a tape has none but want of memory.
pub fn one_fault()
    ensures { (frames : List ℕ) (a b : RimFault) → IsFault frames a → IsFault frames b → a ≡ b }
{}

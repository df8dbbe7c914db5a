//! Laws of core images: an image has one reading, and what is no image has one fault.

ghost use Rattle.std.specs.Prelude.{◌≡◌, ℕ, List};
ghost use Rattle.core_image.specs.Image.{IsImage};
ghost use Rattle.core_image.specs.Fault.{IsFault};
ghost use Rattle.core_image.specs.declared.faults.CoreFault.{CoreFault};

/// Words are an image of one list of words with their cells at most, with one start and one job status word.
pub fn one_reading()
    ensures { (words : List ℕ) (a b : List (ℕ × ℕ)) (start again status other : ℕ)
        → IsImage words a start status → IsImage words b again other
        → (a ≡ b) × (start ≡ again) × (status ≡ other) }
{}

/// Words have one fault at most, and an image has none but want of memory.
pub fn one_fault()
    ensures { (words : List ℕ) (a b : CoreFault) → IsFault words a → IsFault words b → a ≡ b }
{}

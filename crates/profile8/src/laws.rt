//! Laws of counts and profiles. Each function does nothing: its contract is the law.

ghost use Rattle.std.specs.Prelude.{◌≡◌, ◌≢◌, ℕ, ◌+◌, Bool, true, false, List};
ghost use Rattle.cpu8.specs.State.{next_cell};
ghost use Rattle.cpu8.specs.Fetches.{is_fetch};
ghost use Rattle.terminal8.specs.Fetches.{fetch_count};
ghost use Rattle.terminal8.specs.Terminal.{Terminal, later, after_step};
ghost use Rattle.profile8.specs.Profile.{IsProfile};

use terminal8::laws::later_steps;

/// Counts, and the cells of a tape, have one profile.
pub fn one_profile()
    ensures { (counts : List ℕ) (given : ℕ → Bool) (text other : List ℕ) → IsProfile counts given text
        → IsProfile counts given other → text ≡ other }
{}

/// The counts of steps after others are those of the first, plus those of the others from where the first end.
pub fn counts_add()
    ensures { (a b : ℕ) (t : Terminal) (cell : ℕ)
        → fetch_count (a + b) t cell ≡ fetch_count a t cell + fetch_count b (later a t) cell }
{
    later_steps();
}

/// Each step that fetches is counted, once and at one cell: the one that PC names before it. No other count changes.
pub fn all_fetches()
    ensures counted { (k : ℕ) (t : Terminal) → is_fetch (after_step (later k t)).1 ≡ true
        → fetch_count (k + 1) t (next_cell (later k t).machine)
        ≡ fetch_count k t (next_cell (later k t).machine) + 1 }
    ensures others { (k : ℕ) (t : Terminal) (cell : ℕ) → cell ≢ next_cell (later k t).machine
        → fetch_count (k + 1) t cell ≡ fetch_count k t cell }
    ensures interrupts { (k : ℕ) (t : Terminal) (cell : ℕ) → is_fetch (after_step (later k t)).1 ≡ false
        → fetch_count (k + 1) t cell ≡ fetch_count k t cell }
{}

//! Laws of counts. Each function does nothing: its contract is the law.

ghost use Rattle.std.specs.Prelude.{◌≡◌, ◌≢◌, ℕ, ◌+◌, true, false};
ghost use Rattle.cpu8.specs.State.{next_cell};
ghost use Rattle.cpu8.specs.Fetches.{is_fetch};
ghost use Rattle.pdp8e.specs.Terminal.{Terminal, later, after_step};
ghost use Rattle.trace8e.specs.Counts.{fetch_count};

use pdp8e::Machine;
use terminal8e::machine_laws::later_steps;

/// The counts of steps after others are those of the first, plus those of the others from where the first end.
pub fn counts_add()
    ensures { (a b : ℕ) (t : Terminal) (cell : ℕ)
        → fetch_count (a + b) t cell ≡ fetch_count a t cell + fetch_count b (later a t) cell }
{
    later_steps::<Machine>();
}

/// Each step that fetches is counted, once and at one cell: the one that PC names before it. No other count changes.
pub fn all_fetches()
    ensures counted { (k : ℕ) (t : Terminal) → is_fetch (after_step (later k t)).1 ≡ true
        → fetch_count (k + 1) t (next_cell (later k t).machine.processor.base)
        ≡ fetch_count k t (next_cell (later k t).machine.processor.base) + 1 }
    ensures others { (k : ℕ) (t : Terminal) (cell : ℕ) → cell ≢ next_cell (later k t).machine.processor.base
        → fetch_count (k + 1) t cell ≡ fetch_count k t cell }
    ensures interrupts { (k : ℕ) (t : Terminal) (cell : ℕ) → is_fetch (after_step (later k t)).1 ≡ false
        → fetch_count (k + 1) t cell ≡ fetch_count k t cell }
{}

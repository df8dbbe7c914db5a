//! Laws of traces. Each function does nothing: its contract is the law.

ghost use Rattle.std.specs.Prelude.{◌≡◌, ◌≢◌, ℕ, ◌+◌, ◌++◌, Bool, slice_index};
ghost use Rattle.cpu8e.specs.Step.{next_word};
ghost use Rattle.flow8.specs.Flow.{IsAmong};
ghost use Rattle.pdp8e.specs.Terminal.{Terminal, later, after_step, at_step};
ghost use Rattle.trace8.specs.Stores.{changing_cells};
ghost use Rattle.trace8e.specs.Trace.{trace_lines};

use pdp8e::Machine;
use pdp8e::laws::step_has_parts;
use terminal8e::machine_laws::later_steps;

/// A cell whose word a step changes after its beginning is among those whose changes its line shows.
pub fn changes_are_told()
    ensures { (t : Terminal) (cell : ℕ)
        → slice_index (after_step t).0.processor.base.core cell ≢ slice_index (at_step t).processor.base.core cell
        → IsAmong cell (changing_cells (at_step t).processor.base (next_word (at_step t).processor) (after_step t).1) }
{
    step_has_parts();
}

/// The lines of steps after others are those of the terminal that the others left.
pub fn lines_follow_steps()
    ensures { (tagged : ℕ → Bool) (a b : ℕ) (t : Terminal) → trace_lines tagged (a + b) t
        ≡ trace_lines tagged a t ++ trace_lines tagged b (later a t) }
{
    later_steps::<Machine>();
}

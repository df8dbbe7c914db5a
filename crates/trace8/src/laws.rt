//! Laws of traces. Each function does nothing: its contract is the law.

ghost use Rattle.std.specs.Prelude.{◌≡◌, ◌≢◌, ℕ, ◌+◌, ◌<◌, ◌++◌, Bool, List, Some, slice_index};
ghost use Rattle.word12.specs.declared.sizes.TheConstants.{CORE};
ghost use Rattle.bin_tape.specs.Items.{Item, tape_map};
ghost use Rattle.cpu8.specs.Step.{next_word};
ghost use Rattle.flow8.specs.Flow.{IsAmong};
ghost use Rattle.tape_source.specs.Looks.{is_tagged, plain};
ghost use Rattle.tape_source.specs.Sources.{words_of_tape};
ghost use Rattle.tape_source.specs.Statements.{instruction};
ghost use Rattle.tape_source.specs.Tags.{is_given};
ghost use Rattle.terminal8.specs.Terminal.{Terminal, later, after_step};
ghost use Rattle.trace8.specs.Stores.{changing_cells};
ghost use Rattle.trace8.specs.Trace.{trace_lines};

use terminal8::laws::later_steps;

/// A cell whose word a step changes is among those whose changes its line shows.
pub fn changes_are_told()
    ensures { (t : Terminal) (cell : ℕ)
        → slice_index (after_step t).0.core cell ≢ slice_index t.machine.core cell
        → IsAmong cell (changing_cells t.machine (next_word t.machine) (after_step t).1) }
{}

/// The lines of steps after others are those of the terminal that the others left.
pub fn lines_follow_steps()
    ensures { (tagged : ℕ → Bool) (a b : ℕ) (t : Terminal) → trace_lines tagged (a + b) t
        ≡ trace_lines tagged a t ++ trace_lines tagged b (later a t) }
{
    later_steps();
}

/// Where a tape gives a cell a word, a trace with the tape's cells tagged spells that word as the tape's source does.
pub fn spelled_as_source()
    ensures { (items : List Item) (cell word : ℕ) → cell < CORE → tape_map items cell ≡ Some word
        → instruction (is_given (words_of_tape items)) cell word
        ≡ instruction (is_tagged plain (words_of_tape items)) cell word }
{}

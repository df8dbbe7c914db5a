//! Laws of an 8/E at a terminal.

ghost use Rattle.std.specs.Prelude.{◌≡◌, ℕ, ◌+◌, true, List, ◌++◌, Option, Some, Ok};
ghost use Rattle.cpu8e.specs.State.{State8e};
ghost use Rattle.cpu8e.specs.Runs.{after};
ghost use Rattle.terminal8.specs.declared.absences.Absence.{Absence};
ghost use Rattle.terminal8.specs.declared.inputs.Input.TheVariants.{Ending};
ghost use Rattle.terminal8.specs.declared.keyboards.Form.{Form};
ghost use Rattle.terminal8.specs.declared.outcomes.Ended.{Ended};
ghost use Rattle.terminal8.specs.declared.outcomes.TerminalEnd.{TerminalEnd};
ghost use Rattle.terminal8e.specs.Asks.{asks_for_key, waits_for_key};
ghost use Rattle.terminal8e.specs.Laws.{IsInLoop, IsWholeRun, terminal_of};
ghost use Rattle.terminal8e.specs.Run.{RunsProgram};
ghost use Rattle.terminal8e.specs.Terminal as terminal;
ghost use Rattle.terminal8e.specs.Terminal.{Terminal, IsRun, later};

use crate::machine_laws as any;
use cpu8e::Machine;

/// A machine that waits for a key does so for ever where none comes. After any number of steps it stands at its KSF or at the JMP after
/// it, and is else as before. At its KSF it asks for a key.
pub fn waiting()
    ensures state { (s : State8e) (k : ℕ) → waits_for_key s ≡ true → IsInLoop s (after k s) }
    ensures asks { (s : State8e) (since : ℕ) → waits_for_key s ≡ true → asks_for_key since s ≡ true }
{}

/// Steps after others are steps of the terminal that those left.
pub fn later_steps()
    ensures terminal { (a b : ℕ) (t : Terminal) → later (a + b) t ≡ later b (later a t) }
    ensures printed { (a b : ℕ) (t : Terminal) → terminal.characters_of (a + b) t
        ≡ terminal.characters_of a t ++ terminal.characters_of b (later a t) }
{
    any::later_steps::<Machine>();
}

/// A run has one end: a terminal and a greatest number of steps determine how many are made, and why no more.
pub fn one_end()
    ensures steps { (t : Terminal) (n a b : ℕ) (why other : TerminalEnd) → IsRun t n a why → IsRun t n b other
        → a ≡ b }
    ensures why { (t : Terminal) (n a b : ℕ) (why other : TerminalEnd) → IsRun t n a why → IsRun t n b other
        → why ≡ other }
{
    any::one_end::<Machine>();
}

/// Where keys end, and the bytes of the reader are known, a run is that of a terminal at which all their keys are struck. It does
/// not matter how far the reader was read.
pub fn known_bytes()
    ensures { (form : Form) (n : ℕ) (old new : State8e) (bytes left : List ℕ)
        (writer written : Option (List ℕ)) (absences : List Absence) (ended : Ended)
        → RunsProgram form Ending n old new (Some bytes) (Some left) writer written absences (Ok ended)
        → IsWholeRun (terminal_of form old bytes) n new writer written absences ended }
{
    any::known_bytes::<Machine>();
}

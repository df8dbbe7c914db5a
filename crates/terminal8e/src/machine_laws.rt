//! Laws of machines at a terminal.

ghost use Rattle.std.specs.Prelude.{◌≡◌, ℕ, ◌+◌, List, ◌++◌, Option, Some, Ok};
ghost use Rattle.terminal8.specs.declared.absences.Absence.{Absence};
ghost use Rattle.terminal8.specs.declared.inputs.Input.TheVariants.{Ending};
ghost use Rattle.terminal8.specs.declared.keyboards.Form.{Form};
ghost use Rattle.terminal8.specs.declared.outcomes.Ended.{Ended};
ghost use Rattle.terminal8.specs.declared.outcomes.TerminalEnd.{TerminalEnd};
ghost use Rattle.terminal8e.specs.AnyLaws.{IsWholeRun, terminal_of};
ghost use Rattle.terminal8e.specs.AnyRun.{RunsProgram};
ghost use Rattle.terminal8e.specs.AnyTerminal as terminal;
ghost use Rattle.terminal8e.specs.AnyTerminal.{Terminal, IsRun, later};

use crate::machines::TerminalMachine;

/// Steps after others are steps of the terminal that those left.
pub fn later_steps<M: TerminalMachine>()
    ensures terminal { (a b : ℕ) (t : Terminal M) → later M.acts (a + b) t ≡ later M.acts b (later M.acts a t) }
    ensures printed { (a b : ℕ) (t : Terminal M) → terminal.characters_of M.acts (a + b) t
        ≡ terminal.characters_of M.acts a t ++ terminal.characters_of M.acts b (later M.acts a t) }
{}

/// A run has one end: a terminal and a greatest number of steps determine how many are made, and why no more.
pub fn one_end<M: TerminalMachine>()
    ensures steps { (t : Terminal M) (n a b : ℕ) (why other : TerminalEnd) → IsRun M.acts t n a why
        → IsRun M.acts t n b other → a ≡ b }
    ensures why { (t : Terminal M) (n a b : ℕ) (why other : TerminalEnd) → IsRun M.acts t n a why
        → IsRun M.acts t n b other → why ≡ other }
{}

/// Where keys end, and the bytes of the reader are known, a run is that of a terminal at which all their keys are struck. It does
/// not matter how far the reader was read.
pub fn known_bytes<M: TerminalMachine>()
    ensures { (form : Form) (n : ℕ) (old new : M) (bytes left : List ℕ)
        (writer written : Option (List ℕ)) (absences : List Absence) (ended : Ended)
        → RunsProgram M.acts form Ending n old new (Some bytes) (Some left) writer written absences (Ok ended)
        → IsWholeRun M.acts (terminal_of form old bytes) n new writer written absences ended }
{}

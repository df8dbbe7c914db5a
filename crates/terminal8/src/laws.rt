//! Laws of a machine at a terminal.

ghost use Rattle.std.specs.Prelude.{◌≡◌, ℕ, ◌+◌, ◌*◌, ◌<◌, true, List, [], ◌++◌, Option, Some, Ok};
ghost use Rattle.cpu8.specs.State.{State};
ghost use Rattle.cpu8.specs.Go.{after, characters_of};
ghost use Rattle.terminal8.specs.Asks.{asks_for_key, waits_for_key};
ghost use Rattle.terminal8.specs.Terminal as terminal;
ghost use Rattle.terminal8.specs.Terminal.{Terminal, GoesOn, IsRun, later};
ghost use Rattle.terminal8.specs.Laws.{IsInLoop, IsWholeRun, ReadsNext, key_read, terminal_of, waiting_for};
ghost use Rattle.terminal8.specs.Run.{RunsProgram};
ghost use Rattle.terminal8.specs.declared.absences.Absence.{Absence};
ghost use Rattle.terminal8.specs.declared.inputs.Input.TheVariants.{Ending};
ghost use Rattle.terminal8.specs.declared.keyboards.Form.{Form};
ghost use Rattle.terminal8.specs.declared.outcomes.Ended.{Ended};
ghost use Rattle.terminal8.specs.declared.outcomes.TerminalEnd.{TerminalEnd};

/// A machine that waits for a key does so for ever where none comes. After any number of steps it stands at its KSF or at the JMP
/// after it. Else it is as before, and has printed nothing. At its KSF it asks for a key.
pub fn waiting()
    ensures state { (s : State) (k : ℕ) → waits_for_key s ≡ true → IsInLoop s (after true k s) }
    ensures printed { (s : State) (k : ℕ) → waits_for_key s ≡ true → characters_of true k s ≡ [] }
    ensures asks { (s : State) (since : ℕ) → waits_for_key s ≡ true → asks_for_key since s ≡ true }
{}

/// A program that reads with `KSF; JMP .-1; KRB` gets the next key. After the looks that find none yet, two steps each, and two
/// more steps it stands after its KRB with the key in AC. Nothing was printed, and the looks after that one are still to come. So
/// it gets every key once and in order, whenever it reads. No end comes on the way.
pub fn reading()
    ensures read { (s : State) (count key : ℕ) (looks : List (Option ℕ)) (since : ℕ) → ReadsNext s
        → later (2 * count + 2) (waiting_for s count key looks since)
        ≡ record { machine = key_read s key; looks = looks; since = 2 } }
    ensures printed { (s : State) (count key : ℕ) (looks : List (Option ℕ)) (since : ℕ) → ReadsNext s
        → terminal.characters_of (2 * count + 2) (waiting_for s count key looks since) ≡ [] }
    ensures goes_on { (s : State) (count key : ℕ) (looks : List (Option ℕ)) (since k : ℕ) → ReadsNext s
        → k < 2 * count + 2 → GoesOn (waiting_for s count key looks since) k }
{}

/// Steps after others are steps of the terminal that those left.
pub fn later_steps()
    ensures terminal { (a b : ℕ) (t : Terminal) → later (a + b) t ≡ later b (later a t) }
    ensures printed { (a b : ℕ) (t : Terminal) → terminal.characters_of (a + b) t
        ≡ terminal.characters_of a t ++ terminal.characters_of b (later a t) }
{}

/// A run has one end: a terminal and a greatest number of steps determine how many are made, and why no more.
pub fn one_end()
    ensures steps { (t : Terminal) (n a b : ℕ) (why other : TerminalEnd) → IsRun t n a why → IsRun t n b other
        → a ≡ b }
    ensures why { (t : Terminal) (n a b : ℕ) (why other : TerminalEnd) → IsRun t n a why → IsRun t n b other
        → why ≡ other }
{}

/// Where keys end, and the bytes of the reader are known, a run is that of a terminal at which all their keys are struck. It does
/// not matter how far the reader was read.
pub fn known_bytes()
    ensures { (form : Form) (n : ℕ) (old new : State) (bytes left : List ℕ)
        (writer written : Option (List ℕ)) (absences : List Absence) (ended : Ended)
        → RunsProgram form Ending n old new (Some bytes) (Some left) writer written absences (Ok ended)
        → IsWholeRun (terminal_of form old bytes) n new writer written absences ended }
{}

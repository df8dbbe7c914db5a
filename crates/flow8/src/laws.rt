//! That a program goes where its flow says. Each function does nothing: its contract is the law.

ghost use Rattle.std.specs.Prelude.{◌≡◌, true};
ghost use Rattle.cpu8.specs.Laws.{runs_on};
ghost use Rattle.cpu8.specs.State.{State, next_cell};
ghost use Rattle.cpu8.specs.Step.{next_word, step};
ghost use Rattle.flow8.specs.Exits.{IsExit};
ghost use Rattle.flow8.specs.Laws.{IsTold};

/// An instruction stays in its field, and is no jump through a pointer. Where a machine runs on after it, it stands at one of the
/// cells that the instruction's word gives.
pub fn steps_are_told()
    ensures { (s : State) → IsTold s → runs_on (step s).1 ≡ true
        → IsExit (next_cell s) (next_word s) (next_cell (step s).0) }
{}

//! Laws of histories.

ghost use Rattle.std.specs.Prelude.{◌≡◌, ℕ, ◌+◌, Bool, List, ◌++◌, length};
ghost use Rattle.cpu8.specs.State.{State};
ghost use Rattle.cpu8.specs.Go as go;
ghost use Rattle.history8.specs.Changes.{Change};
ghost use Rattle.history8.specs.History as spec;
ghost use Rattle.history8.specs.History.{characters_after, state_after, steps_before, without};

/// Steps after others are steps of the machine that those left.
pub fn later_steps()
    ensures state { (quick : Bool) (a b : ℕ) (s : State) → go.after quick (a + b) s ≡ go.after quick b (go.after quick a s) }
    ensures printed { (quick : Bool) (a b : ℕ) (s : State) → go.characters_of quick (a + b) s
        ≡ go.characters_of quick a s ++ go.characters_of quick b (go.after quick a s) }
{}

/// So many steps more leave the machine, and print the characters, that so many steps of cpu8 do.
pub fn steps_made()
    ensures state { (quick : Bool) (k : ℕ) (changes : List Change) (first : State)
        → state_after (steps_before quick k changes) first ≡ go.after quick k (state_after changes first) }
    ensures printed { (quick : Bool) (k : ℕ) (changes : List Change) (first : State)
        → characters_after (steps_before quick k changes) first
        ≡ characters_after changes first ++ go.characters_of quick k (state_after changes first) }
{}

/// Changes that are made and gone back leave the history as it was before them: the machine, and what it printed.
pub fn changes_undone()
    ensures { (more : List Change) (h : spec.History)
        → without (length more) (record h { changes = more ++ h.changes }) ≡ h }
{}

/// Going back twice is going back once, by both numbers of changes.
pub fn twice_back()
    ensures { (a b : ℕ) (h : spec.History) → without b (without a h) ≡ without (a + b) h }
{}

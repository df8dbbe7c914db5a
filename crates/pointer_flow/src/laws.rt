//! What a user of the flow may rely on. Each function does nothing: its contract is the law.

ghost use Rattle.std.specs.Prelude.{◌≡◌, ℕ, Bool, true};
ghost use Rattle.pointer_flow.specs.Flow.{IsDirect, IsInFlow, IsKnown, IsWide, Writes};
ghost use Rattle.pointer_flow.specs.Laws.{IsClosed};
ghost use Rattle.pointer_flow.specs.Programs.{Program};
ghost use Rattle.pointer_flow.specs.declared.states.State.{State};

/// The flow is the least set of states with the starts, and with a state its next ones: each table that has those has all of the flow.
pub fn flow_is_least()
    ensures { (p : Program) (has : State → Bool) → IsClosed p has → (s : State) → IsInFlow p s → has s ≡ true }
{}

/// No state of the flow writes a known pointer.
pub fn known_pointer_is_kept()
    ensures { (p : Program) (pointer word : ℕ) → IsKnown p pointer word → (s : State) → IsInFlow p s
        → Writes p (IsKnown p) s pointer → ⊥ }
{}

/// What is reached through no pointer is reached through the pointers that nothing of it writes.
pub fn direct_is_within_wide()
    ensures { (p : Program) (s : State) → IsDirect p s → IsWide p s }
{}

/// What is reached through known pointers is reached through the pointers that nothing direct writes.
pub fn flow_is_within_wide()
    ensures { (p : Program) (s : State) → IsInFlow p s → IsWide p s }
{}

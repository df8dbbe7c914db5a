//! Laws of the 8/E, above the instruction table.

ghost use Rattle.std.specs.Prelude.{◌≡◌, ◌≢◌, ℕ, ◌<◌, true, List, Option};
ghost use Rattle.cpu8.specs.State.{State};
ghost use Rattle.cpu8.specs.Step as Step8i;
ghost use Rattle.cpu8.specs.declared.outcomes.Stepped.TheVariants.{Interrupted};
ghost use Rattle.cpu8e.specs.State.{State8e, as_8e, new_machine, after_start};
ghost use Rattle.cpu8e.specs.Step.{step};
ghost use Rattle.cpu8e.specs.Common.{MeetsCommon};
ghost use Rattle.cpu8e.specs.Runs.{after_keys, answer_with_keys, after_keys_8i, answer_with_keys_8i, MeetsOnlyCommon};
ghost use Rattle.cpu8e.specs.User.{IsSettled, LeavesDevices, LeavesFields};

/// A step of an 8/E that has an 8/I's state is the 8/I's, where that does nothing, is an interrupt or has a common word. It leaves
/// an 8/E that has the state of that 8/I.
pub fn same_as_8i()
    ensures state { (mq : ℕ) (s : State) → MeetsCommon s → (step (as_8e mq s)).0 ≡ as_8e mq (Step8i.step s).0 }
    ensures answer { (mq : ℕ) (s : State) → MeetsCommon s → (step (as_8e mq s)).1 ≡ (Step8i.step s).1 }
{}

/// So is a run of an 8/I that meets only common words: an 8/E with its state makes the same steps, with the same keys before them.
pub fn same_run()
    ensures state { (mq : ℕ) (keys : ℕ → Option ℕ) (k : ℕ) (s : State) → MeetsOnlyCommon keys k s
        → after_keys keys k (as_8e mq s) ≡ as_8e mq (after_keys_8i keys k s) }
    ensures answers { (mq : ℕ) (keys : ℕ → Option ℕ) (k : ℕ) (s : State) → MeetsOnlyCommon keys k s
        → (m : ℕ) → m < k → answer_with_keys keys m (as_8e mq s) ≡ answer_with_keys_8i keys m s }
{}

/// In user mode the user buffer is set and no field waits for a jump. So it is in a new machine and after each start, and each step
/// keeps it. Then no step in user mode changes a device or stops the machine. Nor does one change a field, user mode or whether
/// interrupts are on, but by an interrupt.
pub fn user_is_held()
    ensures new { (core : List ℕ) → IsSettled (new_machine core) }
    ensures start { (s : State8e) (cell : ℕ) → IsSettled (after_start s cell) }
    ensures keeps { (s : State8e) → IsSettled s → IsSettled (step s).0 }
    ensures devices { (s : State8e) → IsSettled s → s.user_flag ≡ true → LeavesDevices s (step s).0 }
    ensures fields { (s : State8e) → IsSettled s → s.user_flag ≡ true → (step s).1 ≢ Interrupted
        → LeavesFields s (step s).0 }
{}

/// No step changes whether devices beside the console request an interrupt.
pub fn request_stays()
    ensures { (s : State8e) → (step s).0.device_request ≡ s.device_request }
{}

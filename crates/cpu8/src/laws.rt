//! Laws of the machine, above the instruction table.

ghost use Rattle.std.specs.Prelude.{◌≡◌, ◌≢◌, ℕ, ◌+◌, ◌-◌, ◌%◌, ◌<◌, ◌≤◌, Bool, true, false, List, [], length, slice_index};
ghost use Rattle.cpu8.specs.State.{State, printer_done};
ghost use Rattle.cpu8.specs.Reference.{effective_address, operand, operand_place, pointer_place};
ghost use Rattle.cpu8.specs.Step.{next_word, step};
ghost use Rattle.cpu8.specs.declared.decoding.Operation.{Operation};
ghost use Rattle.cpu8.specs.declared.decoding.Operation.TheVariants.{Tad, Isz, Jms, Jmp};
ghost use Rattle.cpu8.specs.declared.outcomes.Stepped.TheVariants.{Interrupted};
ghost use Rattle.cpu8.specs.Stores.{stored, stores};
ghost use Rattle.cpu8.specs.Go as Go;
ghost use Rattle.cpu8.specs.Go.{IsGo, is_break, printing_step};
ghost use Rattle.cpu8.specs.declared.outcomes.Why.{Why};
ghost use Rattle.cpu8.specs.Laws.{cia, tsf, tls, cif, rmf, later, next_pointer, IsIon, IsNextWord, IsRequested, NoJump, UsesAutoIndex, ral, rtl, rar, rtr, cll_cml, after, link_and_ac, HasLinkAndAc, IsNext, runs_on, Skips, SkipsNot, IsTest, IsCallAndReturn, IsInterruptAndReturn, Resumes};

/// RTL leaves L and AC as two RAL do, and RTR as two RAR do.
pub fn double_rotation()
    ensures left { (s : State) → HasLinkAndAc s → link_and_ac (after rtl s)
        ≡ link_and_ac (after ral (after ral s)) }
    ensures right { (s : State) → HasLinkAndAc s → link_and_ac (after rtr s)
        ≡ link_and_ac (after rar (after rar s)) }
{}

/// RAL and then RAR give back L and AC, and so do RAR and then RAL.
pub fn rotation_back()
    ensures left { (s : State) → HasLinkAndAc s → link_and_ac (after rar (after ral s)) ≡ link_and_ac s }
    ensures right { (s : State) → HasLinkAndAc s → link_and_ac (after ral (after rar s)) ≡ link_and_ac s }
{}

/// CLL CML sets the link, and leaves AC.
pub fn link_set()
    ensures { (s : State) → HasLinkAndAc s → link_and_ac (after cll_cml s) ≡ 0o10000 + s.ac }
{}

/// TAD adds its operand to L and AC as one number of thirteen bits.
pub fn addition()
    ensures { (s : State) → IsNext Tad s → link_and_ac (step s).0
        ≡ (link_and_ac s + operand s (next_word s)) % 0o20000 }
{}

/// CIA negates AC: what it leaves is 0o10000 less AC, or 0 where AC is 0.
pub fn negation()
    ensures { (s : State) → HasLinkAndAc s → (after cia s).ac ≡ (0o10000 - s.ac) % 0o10000 }
{}

/// Bit 0010 of group 2 reverses the skip: with it a word skips where it doesn't without it.
pub fn reversed_skip()
    ensures skips { (word : ℕ) (s : State) → IsTest word → SkipsNot word s → Skips (0o10 + word) s }
    ensures skips_not { (word : ℕ) (s : State) → IsTest word → Skips word s → SkipsNot (0o10 + word) s }
{}

/// TSF after TLS doesn't skip until the printer is done, and skips then.
pub fn printing()
    ensures before { (s : State) → IsNextWord tls s → IsNextWord tsf (step s).0
        → (step (step s).0).0.pc ≡ ((step s).0.pc + 1) % 0o10000 }
    ensures done { (s : State) → IsNextWord tls s → IsNextWord tsf (printer_done (step s).0)
        → (step (printer_done (step s).0)).0.pc ≡ ((step s).0.pc + 2) % 0o10000 }
{}

/// An indirect JMP through the first word of a subroutine comes back to the cell after the JMS that called it.
pub fn subroutine()
    ensures pc { (call back : State) → IsCallAndReturn call back
        → (step back).0.pc ≡ (call.pc + 1) % 0o10000 }
    ensures field { (call back : State) → IsCallAndReturn call back
        → (step back).0.instruction_field ≡ call.instruction_field }
{}

/// After an interrupt, RMF and JMP I 0 resume where the program was, with its fields.
pub fn interrupt_return()
    ensures { (program back : State) → IsInterruptAndReturn program back
        → Resumes program (step (step back).0).0 }
{}

/// The step after an ION that found interrupts off is never an interrupt. The one after that is one where interrupts are
/// on then, not held off, and requested.
pub fn ion_delay()
    ensures not_at_once { (s : State) → IsIon s → (step (step s).0).1 ≢ Interrupted }
    ensures then_granted { (s : State) → IsIon s → IsRequested (step (step s).0).0
        → (step (step (step s).0).0).1 ≡ Interrupted }
{}

/// CIF and RMF hold interrupts off: as long as no JMP or JMS is done, no step is an interrupt. JMP and JMS end that.
pub fn interrupts_held_off()
    ensures cif { (n : ℕ) (s : State) → n < 8 → IsNextWord (cif n) s → (step s).0.held_off ≡ true }
    ensures rmf { (s : State) → IsNextWord rmf s → (step s).0.held_off ≡ true }
    ensures none { (s : State) (k : ℕ) → s.held_off ≡ true → NoJump s k → (m : ℕ) → m < k + 1
        → (step (later m s)).1 ≢ Interrupted }
    ensures jmp { (s : State) → IsNext Jmp s → (step s).0.held_off ≡ false }
    ensures jms { (s : State) → IsNext Jms s → (step s).0.held_off ≡ false }
{}

/// The pointer of an auto-index is one more after each use, and the effective address is the pointer then.
pub fn auto_index()
    ensures address { (kind : Operation) (s : State) → UsesAutoIndex kind s
        → effective_address s (next_word s) ≡ next_pointer s }
    ensures pointer { (kind : Operation) (s : State) → UsesAutoIndex kind s
        → slice_index (step s).0.core (pointer_place s (next_word s)) ≡ next_pointer s }
{}

/// A go without breaks is one with breaks of which no cell has one.
pub fn unset_breaks()
    ensures { (quick : Bool) (breaks : List Bool) (s : State) (n steps : ℕ) (why : Why)
        → ((cell : ℕ) → is_break breaks cell ≡ false)
        → IsGo quick [] s n steps why → IsGo quick breaks s n steps why }
{}

/// ISZ skips exactly where the word that it leaves is 0.
pub fn increment_and_skip()
    ensures zero { (s : State) → IsNext Isz s → operand_place s (next_word s) < length s.core
        → slice_index (step s).0.core (operand_place s (next_word s)) ≡ 0
        → (step s).0.pc ≡ (s.pc + 2) % 0o10000 }
    ensures other { (s : State) → IsNext Isz s → operand_place s (next_word s) < length s.core
        → slice_index (step s).0.core (operand_place s (next_word s)) ≢ 0
        → (step s).0.pc ≡ (s.pc + 1) % 0o10000 }
{}

/// A machine runs on after a step exactly where an instruction was done that does not halt, or an interrupt came.
pub fn running()
    ensures { (s : State) → (step s).0.running ≡ runs_on (step s).1 }
{}

/// A step keeps the number of cells.
pub fn core_size()
    ensures { (s : State) → length (step s).0.core ≡ length s.core }
{}

/// A step stores what the instruction table says, at most two words, and leaves every other cell.
pub fn stored_words()
    ensures core { (s : State) → (step s).0.core ≡ stored (stores s) s.core }
    ensures few { (s : State) → length (stores s) ≤ 2 }
{}

/// The state after one step more is that after a step of the state before.
pub fn later_states()
    ensures none { (quick : Bool) (s : State) → Go.after quick 0 s ≡ s }
    ensures next { (quick : Bool) (k : ℕ) (s : State) → Go.after quick (k + 1) s ≡ (printing_step quick (Go.after quick k s)).0 }
{}

//! What may be asked of a flow. Each answer takes at most as many steps as a cell has states, and no memory.

ghost use Rattle.std.specs.Prelude.{◌≡◌, ◌<◌, ◌↔◌, true, not, nat_lt, IfSome};
ghost use Rattle.pointer_flow.specs.Flow.{IsInFlow, IsKnown};
ghost use Rattle.pointer_flow.specs.Programs.{Program};
ghost use Rattle.pointer_flow.specs.Questions.{Answers, AnswersCall, AnswersWriter, HasDataField, HasField, HasJumpField, IsInstruction, IsJumpPlace, IsReturnCell, IsTarget, is_jump};
ghost use Rattle.pointer_flow.specs.Returns.{inline_count};
ghost use Rattle.pointer_flow.specs.Settled.{refers_through};
ghost use Rattle.pointer_flow.specs.States.{IsState};
ghost use Rattle.pointer_flow.specs.Tables.{AreFacts, IsFlowOf};

use crate::calls::Call;
use crate::cell_states::{earliest_call, has_any, settled_data, settled_field, settled_jump};
use crate::cells::{cell_at, is_auto_index, word_at};
use crate::facts::{Facts, MOST_MOVES};
use crate::flows::Flow;
use crate::next_states::called_address;
use crate::states::State;
use cpu8::decoding::{INDIRECT, has};
use flow8::referred_cell;
use word12::{Cell, Word};

impl<'w> Flow<'w> {
    /// Whether a state is one of the flow.
    pub fn has_state(&self, state: State) -> bool
        requires { IsState state }
        ensures { (p : Program) → IsFlowOf p self.now → (result ≡ true) ↔ IsInFlow p state }
    {
        self.states.has(&state)
    }

    /// Whether the word of a cell is an instruction that the program reaches.
    pub fn is_instruction(&self, cell: Cell) -> bool
        ensures { (p : Program) → IsFlowOf p self.now → (result ≡ true) ↔ IsInstruction p cell }
    {
        has_any(&self.states, cell)
    }

    /// The field, 0 to 7, into which jumps go in all states of a cell, where that is one.
    pub fn jump_field(&self, cell: Cell) -> Option<u8>
        ensures field { (p : Program) → IsFlowOf p self.now → Answers (HasJumpField p cell) result }
        ensures range { IfSome result (λ field. field < 8) }
    {
        settled_field(settled_jump(&self.states, cell))
    }

    /// The data field, 0 to 7, of all states of a cell, where that is one.
    pub fn data_field(&self, cell: Cell) -> Option<u8>
        ensures field { (p : Program) → IsFlowOf p self.now → Answers (HasDataField p cell) result }
        ensures range { IfSome result (λ field. field < 8) }
    {
        settled_field(settled_data(&self.states, cell))
    }

    /// The word of a pointer that is known: no state of the flow writes it.
    pub fn known_word(&self, pointer: Cell) -> Option<Word>
        ensures { (p : Program) → IsFlowOf p self.now → Answers (IsKnown p pointer) result }
    {
        word_at(&self.known_words, pointer)
    }

    /// The lowest cell of an instruction that may write a cell, of all that is reached through pointers that nothing direct writes.
    pub fn first_writer(&self, cell: Cell) -> Option<Cell>
        ensures { (p : Program) → IsFlowOf p self.now → AnswersWriter p cell result }
    {
        cell_at(&self.writers, cell)
    }

    /// Whether a return may be stored in a cell, by a JMS or an interrupt, of all that is reached through pointers that nothing direct
    /// writes.
    pub fn is_return(&self, cell: Cell) -> bool
        ensures { (p : Program) → IsFlowOf p self.now → (result ≡ true) ↔ IsReturnCell p cell }
    {
        cell_at(&self.return_writers, cell).is_some()
    }

    /// The call of the monitor in a cell. Where its states are several ones, the USR's counts before the system handler's, and that before
    /// another handler's.
    pub fn call(&self, cell: Cell) -> Option<Call>
        ensures { (p : Program) → IsFlowOf p self.now → AnswersCall p cell result }
    {
        let word = self.facts.word(cell)?;
        earliest_call(&self.facts, &self.states, cell, word)
    }

    /// The cell to which the instruction of a cell leads through a known pointer, where its field is one in all states. For AND, TAD, ISZ and
    /// DCA that is the data field, for JMS and JMP the one into which jumps go. A call has none.
    pub fn target(&self, cell: Cell) -> Option<Cell>
        ensures { (p : Program) → IsFlowOf p self.now → Answers (IsTarget p cell) result }
    {
        let word = self.facts.word(cell)?;
        if has_no_pointer(cell, word) {
            return None;
        }
        let address = self.known_word(referred_cell(cell, word))?;
        if self.call(cell).is_some() {
            return None;
        }
        let field = self.reference_field(cell, word)?;
        Some(Cell::at(field, address))
    }

    /// The cell to which the JMS or JMP of a cell goes by the words that the tape gives, where its field is one in all states. For a JMS
    /// it is the first cell of a subroutine. What the program stores in its pointer doesn't count, and a call has none (this project's
    /// reading of a program's flow).
    pub fn jump_place(&self, cell: Cell) -> Option<Cell>
        ensures { (p : Program) → IsFlowOf p self.now → Answers (IsJumpPlace p cell) result }
    {
        let word = self.facts.word(cell)?;
        if is_no_jump(word) {
            return None;
        }
        let address = called_address(&self.facts, cell, word)?;
        if self.call(cell).is_some() {
            return None;
        }
        let field = self.jump_field(cell)?;
        Some(Cell::at(field, address))
    }

    /// How many words after its call a subroutine takes that begins with this cell, 0 to 3, as far as its words show it (this project's
    /// reading of a program's flow).
    pub fn inline_count(&self, first: Cell) -> u8
        ensures { (p : Program) → IsFlowOf p self.now → result ≡ inline_count p.words first }
    {
        inline_count(&self.facts, first)
    }

    /// The field that decides where a reference of this word leads.
    fn reference_field(&self, cell: Cell, word: Word) -> Option<u8>
        ensures field { (p : Program) → IsFlowOf p self.now → Answers (HasField p cell (nat_lt word 0o4000)) result }
        ensures range { IfSome result (λ field. field < 8) }
    {
        if word.get() < 0o4000 {
            self.data_field(cell)
        } else {
            self.jump_field(cell)
        }
    }
}

/// How many words a subroutine takes, by what the words of the program show.
fn inline_count(facts: &Facts<'_>, first: Cell) -> u8
    ensures { (p : Program) → AreFacts p facts.now.words.now facts.now.data_flags.now facts.now.increments.items
        facts.now.arguments.items facts.now.handlers.items → result ≡ inline_count p.words first }
{
    let moves = facts.increments[first.index()];
    if facts.word(first).is_none() || moves > MOST_MOVES {
        return 0;
    }
    moves.min(facts.arguments[first.index()])
}

fn is_no_jump(word: Word) -> bool
    ensures { result ≡ not (is_jump word) }
{
    !is_jump(word)
}

/// Whether a word is a JMS or a JMP.
fn is_jump(word: Word) -> bool
    ensures { result ≡ is_jump word }
{
    0o4000 <= word.get() && word.get() < 0o6000
}

/// Whether a word refers through no pointer but an auto-index.
fn has_no_pointer(cell: Cell, word: Word) -> bool
    ensures { result ≡ not (refers_through cell word) }
{
    !refers_through(cell, word)
}

/// Whether a word refers through a pointer that is no auto-index.
fn refers_through(cell: Cell, word: Word) -> bool
    ensures { result ≡ refers_through cell word }
{
    word.get() < 0o6000 && (has(word, INDIRECT) && !is_auto_index(referred_cell(cell, word)))
}

//! What a flow answers of each cell.

ghost use Rattle.std.specs.Prelude.{◌≡◌, ◌<◌, ◌↔◌, ℕ, true, IfOk, length, vec_len};
ghost use Rattle.word12.specs.declared.sizes.TheConstants.{CORE};
ghost use Rattle.flow8.specs.Flow.{word_in};
ghost use Rattle.source_notes.specs.Notes.{is_flagged};
ghost use Rattle.pointer_flow.specs.Programs.{Program};
ghost use Rattle.pointer_flow.specs.Questions.{Answers, IsInstruction, IsTarget};
ghost use Rattle.pointer_flow.specs.Tables.{IsFlowOf};
ghost use Rattle.pointer_notes.specs.Views.{AreAnswers};
ghost use Rattle.pointer_notes.specs.Tables.{answers_in};

use pointer_flow::Flow;
use std::alloc::{AllocError, Global};
use word12::{CORE, Cell, Word};

/// What a flow answers of one cell.
#[derive(Clone, Copy)]
pub(crate) struct CellAnswers {
    /// The cell to which its instruction leads through a known pointer.
    pub target: Option<Cell>,
    /// The cell to which its JMS or JMP goes by the words that the tape gives.
    pub place: Option<Cell>,
    /// The lowest cell that may write it.
    pub writer: Option<Cell>,
    /// A subroutine that begins with it takes so many words from after its call, 0 to 3.
    pub inline_count: u8,
    /// It is a call of the monitor.
    pub is_call: bool,
    /// It is a known pointer.
    pub is_known: bool,
    /// A JMS or an interrupt may store its return in it.
    pub is_return: bool,
}

/// The words of a tape, flags of the instructions, and what the flow answers, one for each cell of core.
#[derive(Clone, Copy)]
pub(crate) struct Views<'v> {
    pub words: &'v [Option<Word>],
    pub code: &'v [bool],
    pub answers: &'v [CellAnswers],
    ghost sized: { (length words.now ≡ CORE) × (length code.now ≡ CORE) × (length answers.now ≡ CORE) },
}

impl<'v> Views<'v> {
    /// The word that the tape gives a cell, if it gives it one.
    pub fn word(&self, cell: Cell) -> Option<Word>
        ensures { result ≡ word_in self.now.words.now cell }
    {
        self.words[cell.index()]
    }

    /// Whether the program reaches the instruction in a cell.
    pub fn is_code(&self, cell: Cell) -> bool
        ensures { result ≡ is_flagged self.now.code.now cell }
    {
        self.code[cell.index()]
    }

    /// What the flow answers of a cell.
    pub fn of(&self, cell: Cell) -> CellAnswers
        ensures { result ≡ answers_in self.now.answers.now cell }
    {
        self.answers[cell.index()]
    }
}

/// A flag for each of the 0o100000 cells of core: the program reaches the instruction in it (this project's reading of a program's flow).
pub fn instruction_flags(alloc: Global, flow: &Flow<'_>) -> Result<Vec<bool>, AllocError>
    ensures size { IfOk result (λ flags. vec_len flags ≡ CORE) }
    ensures flags { (p : Program) → IsFlowOf p flow.now → IfOk result (λ flags. (cell : ℕ) → cell < CORE
        → (is_flagged flags.items cell ≡ true) ↔ IsInstruction p cell) }
{
    let mut flags = Vec::with_capacity(alloc, CORE)?;
    for number in 0u32..CORE as u32 {
        flags.push(flow.is_instruction(Cell::of(number)))?;
    }
    Ok(flags)
}

/// What the flow answers of each cell of core.
pub(crate) fn all_answers(alloc: Global, flow: &Flow<'_>) -> Result<Vec<CellAnswers>, AllocError>
    ensures size { IfOk result (λ answers. vec_len answers ≡ CORE) }
    ensures answers { (p : Program) → IsFlowOf p flow.now → IfOk result (λ answers. (cell : ℕ) → cell < CORE
        → AreAnswers p cell (answers_in answers.items cell)) }
{
    let mut answers = Vec::with_capacity(alloc, CORE)?;
    for number in 0u32..CORE as u32 {
        let cell = Cell::of(number);
        answers.push(answers_of(flow, cell, flow.target(cell)))?;
    }
    Ok(answers)
}

/// What the flow answers of one cell with this target.
fn answers_of(flow: &Flow<'_>, cell: Cell, target: Option<Cell>) -> CellAnswers
    ensures { (p : Program) → IsFlowOf p flow.now → Answers (IsTarget p cell) target → AreAnswers p cell result }
{
    CellAnswers {
        target,
        place: flow.jump_place(cell),
        writer: flow.first_writer(cell),
        inline_count: flow.inline_count(cell),
        is_call: flow.call(cell).is_some(),
        is_known: flow.known_word(cell).is_some(),
        is_return: flow.is_return(cell),
    }
}

ghost use Rattle.std.specs.Prelude.{◌≡◌, ◌<◌, ◌↔◌, ◌++◌, ℕ, true, IfOk, OnOk, length};
ghost use Rattle.word12.specs.declared.sizes.TheConstants.{CORE};
ghost use Rattle.flow8.specs.Flow.{word_in};
ghost use Rattle.source_notes.specs.Notes.{is_flagged, note_lines};
ghost use Rattle.pointer_flow.specs.Programs.{Program};
ghost use Rattle.pointer_flow.specs.Questions.{IsInstruction};
ghost use Rattle.pointer_flow.specs.Tables.{IsFlowOf};
ghost use Rattle.pointer_notes.specs.Heads.{head};
ghost use Rattle.pointer_notes.specs.Notes.{above, has_gap, remark};
ghost use Rattle.pointer_notes.specs.References.{is_target, datum_target};
ghost use Rattle.pointer_notes.specs.Tables.{notes_view};
ghost use Rattle.pointer_notes.specs.Views.{IsViewOf};

use crate::answers::{CellAnswers, Views, all_answers};
use crate::chains::{Chains, chains_of};
use crate::comments::put_list;
use crate::heads::{assumed_cells, put_assumed};
use crate::naming::CellNaming;
use crate::references::Kind;
use crate::remarks::{put_datum_remark, put_instruction_remark};
use pointer_flow::Flow;
use source_notes::Notes;
use std::alloc::{AllocError, Global};
use std::marker::Model;
use word12::{Cell, Word};

/// What a listing shows of the words of a tape by the flow of a program through its known pointers.
///
/// A contract sees the words, the flags of the instructions, the answers of the flow, and the cells at which the program starts.
#[derive(Drop)]
pub struct PointerNotes<'w> {
    words: &'w [Option<Word>],
    code: &'w [bool],
    starts: &'w [Cell],
    answers: Vec<CellAnswers>,
    notes: Notes<'w>,
    calls: Chains,
    others: Chains,
    targets: Chains,
    pointers: Chains,
    assumed_cells: Vec<Cell>,
}

impl<'w> Model for PointerNotes<'w> {
    ghost use Rattle.pointer_notes.specs.Tables as spec;
    ghost use Rattle.pointer_notes.specs.Tables.{AreFound};

    ghost Value = { spec.NotesTables };

    ghost view = { λ n. record { words = n.words.now; code = n.code.now; answers = n.answers.items; starts = n.starts.now } };

    ghost invariant = { λ n. AreFound n.words.now n.code.now n.answers.items n.notes n.calls n.others n.targets n.pointers n.assumed_cells.items };
}

impl<'w> PointerNotes<'w> {
    /// The notes of a tape's words, one or none for each of the 0o100000 cells of core. Those with a flag are the instructions that a
    /// program reaches by this flow, which starts at these cells (this project's profile).
    ///
    /// Memory is asked for the answers of the flow, one for each cell, and for twelve lists of as many or twice as many numbers.
    pub fn new(
        alloc: Global,
        flow: &Flow<'_>,
        words: &'w [Option<Word>],
        code: &'w [bool],
        starts: &'w [Cell],
    ) -> Result<PointerNotes<'w>, AllocError>
        requires words { length words.now ≡ CORE }
        requires code { length code.now ≡ CORE }
        ensures words { IfOk result (λ notes. notes.words ≡ words.now) }
        ensures code { IfOk result (λ notes. notes.code ≡ code.now) }
        ensures starts { IfOk result (λ notes. notes.starts ≡ starts.now) }
        ensures view { (p : Program) → IsFlowOf p flow.now → p.words ≡ word_in words.now
            → ((cell : ℕ) → cell < CORE → (is_flagged code.now cell ≡ true) ↔ IsInstruction p cell)
            → IfOk result (λ notes. IsViewOf p (notes_view notes)) }
    {
        let answers = all_answers(alloc, flow)?;
        let notes = Notes::new(alloc, words, code)?;
        let views = Views {
            words,
            code,
            answers: &answers,
        };
        let calls = chains_of(alloc, &views, Kind::Call)?;
        let others = chains_of(alloc, &views, Kind::Reference)?;
        let targets = chains_of(alloc, &views, Kind::Target)?;
        let pointers = chains_of(alloc, &views, Kind::Pointer)?;
        let assumed_cells = assumed_cells(alloc, &views)?;
        Ok(PointerNotes {
            words,
            code,
            starts,
            answers,
            notes,
            calls,
            others,
            targets,
            pointers,
            assumed_cells,
        })
    }

    /// Appends the first comments of a listing, each as a line of its own with CR and LF. They have the cells at which the program starts,
    /// and the instructions that store in cells that aren't known, eight at most of each (this project's profile).
    pub fn put_head(&self, text: &mut Vec<u8>) -> Result<(), AllocError>
        ensures { OnOk result (text.new.items ≡ text.old.items
            ++ note_lines (head (notes_view self.now) self.now.starts)) }
    {
        put_list(text, b" BY POINTERS FROM", self.starts)?;
        put_assumed(text, &self.assumed_cells)?;
        Ok(())
    }

    /// Appends the comments that stand above a cell's line, each as a line of its own with CR and LF. They give the cells, by their
    /// fields and addresses, whose instructions call the subroutine that begins there, and those whose instructions refer to it
    /// otherwise. Where an instruction leads through a known pointer counts as if it named it. There are eight at most of each (this
    /// project's profile).
    pub fn put_above(&self, text: &mut Vec<u8>, cell: Cell) -> Result<(), AllocError>
        ensures { OnOk result (text.new.items ≡ text.old.items
            ++ note_lines (above (notes_view self.now) cell)) }
    {
        self.calls
            .put_line(text, b" SUBROUTINE, CALLED FROM", cell)?;
        self.others.put_line(text, b" FROM", cell)?;
        Ok(())
    }

    /// Appends what stands in a cell's comment after its word, where cells are named so. Of an instruction it is the cell to which it
    /// leads, or who may write its pointer. Of a datum it is the subroutine that takes it as an argument, or its characters (this
    /// project's profile).
    pub fn put_remark<N: CellNaming>(
        &self,
        text: &mut Vec<u8>,
        names: &N,
        cell: Cell,
    ) -> Result<(), AllocError>
        ensures { OnOk result (text.new.items ≡ text.old.items
            ++ remark (notes_view self.now) (N.name names.now) cell) }
    {
        let views = Views {
            words: self.words,
            code: self.code,
            answers: &self.answers,
        };
        if views.is_code(cell) {
            return put_instruction_remark(text, &views, names, cell);
        }
        put_datum_remark(text, &views, &self.notes, names, cell)
    }

    /// Whether an empty line stands after a cell's: its word is an instruction, and a HLT or a JMP through a pointer (this project's
    /// profile).
    pub fn has_gap(&self, cell: Cell) -> bool
        ensures { result ≡ has_gap (notes_view self.now) cell }
    {
        self.notes.has_gap(cell)
    }

    /// Whether a cell has a tag since an instruction leads to it: through a known pointer, or from another field (this project's
    /// profile).
    pub fn is_target(&self, cell: Cell) -> bool
        ensures { result ≡ is_target (notes_view self.now) cell }
    {
        self.words[cell.index()].is_some() && self.targets.lowest(cell).is_some()
    }

    /// The cell by whose tag the datum in a cell is shown: that to which the lowest instruction leads that leads through it to a cell
    /// with a word (this project's profile).
    pub fn datum_target(&self, cell: Cell) -> Option<Cell>
        ensures { result ≡ datum_target (notes_view self.now) cell }
    {
        let from = self.pointers.lowest(cell)?;
        self.answers[from.index()].target
    }
}

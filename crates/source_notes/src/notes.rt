ghost use Rattle.std.specs.Prelude.{◌≡◌, ◌++◌, IfOk, OnOk, length};
ghost use Rattle.word12.specs.declared.sizes.TheConstants.{CORE};
ghost use Rattle.flow8.specs.Flow.{word_in};
ghost use Rattle.source_notes.specs.Notes.{above, is_flagged, has_gap, is_last, note_lines, remark};

use crate::chains::{Chains, chains_of};
use crate::characters::put_characters;
use crate::references::Kind;
use cpu8::decoding::{HLT, has};
use std::alloc::{AllocError, Global};
use std::marker::Model;
use word12::{Cell, Word};

/// A JMP through a pointer without its page bit and its offset, 5400 to 5777.
const INDIRECT_JMP: u16 = 0o13;

/// The operates of groups 2 and 3, 7400 to 7777.
const GROUPS_2_AND_3: u16 = 0o17;

/// What a listing shows of the words of a tape, of which some are instructions. A contract sees the words and the flags.
#[derive(Drop)]
pub struct Notes<'w> {
    words: &'w [Option<Word>],
    code: &'w [bool],
    calls: Chains,
    others: Chains,
}

impl<'w> Model for Notes<'w> {
    ghost use Rattle.source_notes.specs.Notes as spec;
    ghost use Rattle.source_notes.specs.Tables.{AreTied};

    ghost Value = { spec.Notes };

    ghost view = { λ n. record { words = n.words.now; code = n.code.now } };

    ghost invariant = { λ n. AreTied n.words.now n.code.now n.calls n.others };
}

impl<'w> Notes<'w> {
    /// The notes of a tape's words, one or none for each of the 0o100000 cells of core, of which those with a flag are instructions
    /// (this project's profile). Memory is asked for four lists of as many cells.
    pub fn new(
        alloc: Global,
        words: &'w [Option<Word>],
        code: &'w [bool],
    ) -> Result<Notes<'w>, AllocError>
        requires words { length words.now ≡ CORE }
        requires code { length code.now ≡ CORE }
        ensures words { IfOk result (λ notes. notes.words ≡ words.now) }
        ensures code { IfOk result (λ notes. notes.code ≡ code.now) }
    {
        let calls = chains_of(alloc, words, code, Kind::Call)?;
        let others = chains_of(alloc, words, code, Kind::Other)?;
        Ok(Notes {
            words,
            code,
            calls,
            others,
        })
    }

    /// Appends the comments that stand above a cell's line, each as a line of its own with CR and LF. They give the cells, by their
    /// fields and addresses, whose instructions call the subroutine that begins there, and those whose instructions refer to it
    /// otherwise. There are eight at most of each (this project's profile).
    pub fn put_above(&self, text: &mut Vec<u8>, cell: Cell) -> Result<(), AllocError>
        ensures { OnOk result (text.new.items ≡ text.old.items
            ++ note_lines (above (word_in self.now.words) (is_flagged self.now.code) cell)) }
    {
        self.calls
            .put_line(text, b" SUBROUTINE, CALLED FROM", cell)?;
        self.others.put_line(text, b" FROM", cell)?;
        Ok(())
    }

    /// Appends what stands in a cell's comment after its word: the characters of a datum, where it is text (this project's profile).
    pub fn put_remark(&self, text: &mut Vec<u8>, cell: Cell) -> Result<(), AllocError>
        ensures { OnOk result (text.new.items ≡ text.old.items
            ++ remark (word_in self.now.words) (is_flagged self.now.code) cell) }
    {
        put_characters(text, self.words, self.code, cell)
    }

    /// Whether an empty line stands after a cell's: its word is an instruction, and a HLT or a JMP through a pointer (this project's
    /// profile).
    pub fn has_gap(&self, cell: Cell) -> bool
        ensures { result ≡ has_gap (word_in self.now.words) (is_flagged self.now.code) cell }
    {
        self.code[cell.index()] && is_last(self.words[cell.index()])
    }
}

/// Whether a program doesn't go on after this word.
fn is_last(word: Option<Word>) -> bool
    ensures { result ≡ is_last word }
{
    let Some(word) = word else {
        return false;
    };
    let operation = word.get() / 0o400;
    operation == INDIRECT_JMP
        || (operation == GROUPS_2_AND_3 && (word.get() % 2 == 0 && has(word, HLT)))
}

ghost use Rattle.std.specs.Prelude.{◌≡◌, ◌<◌, IfSome, Some, length};
ghost use Rattle.word12.specs.declared.sizes.TheConstants.{CORE};
ghost use Rattle.flow8.specs.Flow.{word_in};
ghost use Rattle.source_notes.specs.Notes.{is_flagged};
ghost use Rattle.source_notes.specs.Referrers.{is_call, is_reference};
ghost use Rattle.source_notes.specs.Steps.{is_of_kind, cell_named_by};

use cpu8::decoding::CURRENT_PAGE;
use flow8::referred_cell;
use word12::{Cell, PAGE, Word};

/// How an instruction refers to a cell.
#[derive(Clone, Copy)]
pub(crate) enum Kind {
    /// It calls the subroutine that begins there: a direct JMS.
    Call,
    /// Otherwise.
    Other,
}

/// A direct JMS without its page bit and its offset, 4000 to 4377.
const DIRECT_JMS: u16 = 0o10;

/// Whether a word at an address is that of a memory reference: its operation is below 6. On page zero the page bit, 0200, is
/// clear, as the assembler leaves it there (PAL III Symbolic Assembler manual).
pub fn is_reference(at: Word, word: Word) -> bool
    ensures { result ≡ is_reference at word }
{
    let word = word.get();
    word < 0o6000 && (word / CURRENT_PAGE % 2 == 0 || at.get() >= PAGE)
}

/// The cell to which the instruction in a cell refers in this way, if it does.
pub(crate) fn cell_named_by(
    words: &[Option<Word>],
    code: &[bool],
    kind: Kind,
    cell: Cell,
) -> Option<Cell>
    requires words { length words.now ≡ CORE }
    requires code { length code.now ≡ CORE }
    ensures value { result ≡ cell_named_by kind (word_in words.now) (is_flagged code.now) cell }
    ensures range { IfSome result (λ named. named < CORE) }
{
    if !code[cell.index()] {
        return None;
    }
    let word = words[cell.index()]?;
    if is_of_kind(kind, word) && is_reference(cell.address(), word) {
        return Some(referred_cell(cell, word));
    }
    None
}

/// Whether a memory reference of this word refers in this way.
fn is_of_kind(kind: Kind, word: Word) -> bool
    ensures { result ≡ is_of_kind kind word }
{
    match kind {
        Kind::Call => is_call(word),
        Kind::Other => !is_call(word),
    }
}

/// Whether an instruction of this word calls a subroutine that its word names.
fn is_call(word: Word) -> bool
    ensures { result ≡ is_call (Some word) }
{
    word.get() / 0o400 == DIRECT_JMS
}

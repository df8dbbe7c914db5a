//! Why a tape has no source.

use pal_faults::LineRefusal;
use refusals::SessionFault;
use word12::Cell;

/// Why a tape has no source.
#[derive(Clone, Copy, PartialEq, Eq, Debug)]
pub enum SourceFault {
    /// The tape gives no cell a word, and the assembler refuses a source of no word.
    NoWord,

    /// The tape gives this cell no word, at which a program is to start.
    NoStart(Cell),

    /// This line of the names is the first that is refused, counted from 1, and why.
    Names(u64, LineRefusal),

    /// The name of this cell is a word of PAL8, in which the source is to be.
    Reserved(Cell),

    /// The frames are no tape, or memory ran out.
    Session(SessionFault),
}

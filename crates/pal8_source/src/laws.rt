//! Laws of sources that come back. A call of one does nothing, and lets its caller use it.

ghost use Rattle.pal8_source.specs.Laws.{HasNoFault, PlainComesBack, TapeComesBack};

use bin_tape::laws::{one_reading, written_tape};
use pal8_tape::join_laws::one_is_itself;

/// The source that is answered for a tape comes back. As the only source of `assemble --pal8` it has no fault, and the tape that is made of it, whatever
/// follows it, gives each cell what the first one gave it. This holds of each tape that gives a cell a word, whatever starts and names are given.
pub fn tape_comes_back()
    ensures tape { TapeComesBack }
    ensures fault { HasNoFault }
{
    one_reading();
    written_tape();
    one_is_itself();
}

/// The plain source of the words of cells comes back, if a cell has a word.
pub fn plain_source_comes_back()
    ensures { PlainComesBack }
{}

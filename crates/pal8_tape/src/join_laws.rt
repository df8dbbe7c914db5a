//! Laws of joins. A call of one does nothing, and lets its caller use it.

ghost use Rattle.pal8_tape.specs.JoinLaws.{OneIsItself, PartIsRead, RestIsNotRead};

use pal8_lex::laws::lines_end;

/// One source is the join of itself.
pub fn one_is_itself()
    ensures { OneIsItself }
{}

/// What stands after PAUSE in a source doesn't matter.
pub fn rest_is_not_read()
    ensures { RestIsNotRead }
{}

/// What the next text goes on after is what the statements leave that are joined.
pub fn part_is_read()
    ensures { PartIsRead }
{
    lines_end();
}

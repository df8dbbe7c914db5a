//! Laws of the table of instructions.

ghost use Rattle.std.specs.Prelude.{◌≡◌, ℕ, true};
ghost use Rattle.pal_sym.specs.Permanent.{permanent};
ghost use Rattle.tape_source.specs.Fewest.{group_1, group_2};
ghost use Rattle.instructions8.specs.Instructions.{instructions, Each};
ghost use Rattle.instructions8.specs.Names.{code_of, are_named, are_different};
ghost use Rattle.instructions8.specs.Shown.{IsShown, is_of_group_1, is_of_group_2, codes_where};
ghost use Rattle.instructions8.specs.Steps.{IsDone};

/// A name has a permanent value exactly where the table has it, and that is its code there. No two instructions have the same
/// code.
pub fn permanent_names_are_the_tables()
    ensures values { (name : ℕ) → permanent name ≡ code_of instructions name }
    ensures names { are_named instructions ≡ true }
    ensures codes { are_different instructions ≡ true }
{}

/// A step whose next word is of an instruction does what the table says. This holds for a memory reference whatever its
/// address, for CDF and CIF whatever their field, and for an operate with just the bits that the table lists.
pub fn steps_are_the_tables()
    ensures { Each IsDone instructions }
{}

/// The statement that the source of a tape has for a word of an instruction begins with the name that the table has for it.
/// Something follows only after memory references, CDF and CIF.
pub fn shown_names_are_the_tables()
    ensures { Each IsShown instructions }
{}

/// The operates whose names a source shows, as few as possible, are those of the table.
pub fn groups_are_the_tables()
    ensures group_1 { group_1 ≡ codes_where is_of_group_1 instructions }
    ensures group_2 { group_2 ≡ codes_where is_of_group_2 instructions }
{}

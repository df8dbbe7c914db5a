//! Laws about the names that have a meaning of their own. A call of one does nothing, and lets its caller use it.

ghost use Rattle.pal8_grammar.specs.Laws.{OldNamesStand, SoftNamesStand};

/// The permanent names of PAL III have their values, and none is reserved or gives way.
pub fn old_names_stand()
    ensures { OldNamesStand }
{}

/// The soft names have their values, and none is reserved or one of PAL III's.
pub fn soft_names_stand()
    ensures { SoftNamesStand }
{}

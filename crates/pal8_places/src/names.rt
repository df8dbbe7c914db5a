ghost use Rattle.std.specs.Prelude.{◌≡◌, ◌<◌, ℕ, false, IfSome, OnOk};
ghost use Rattle.pal8_grammar.specs.SourceNames.{first_names, names_of, with_one};
ghost use Rattle.pal8_places.specs.Passing.{is_late, open_of};

use pal8_grammar::SourceNames;
use pal8_lex::Name;
use std::alloc::{AllocError, Global};
use std::collections::BTreeSet;
use word12::Word;

/// The names of a source by its statements so far.
#[derive(Drop)]
pub struct KnownNames {
    /// What they stand for, by all definitions but the late ones.
    pub table: SourceNames,
    /// The names whose last definition is late: a name of its value had none by then.
    pub late: BTreeSet<u64>,
}

impl KnownNames {
    /// The permanent names alone. It takes no memory.
    pub fn new(alloc: Global) -> KnownNames
        ensures names { names_of result.table ≡ first_names }
        ensures late { (n : ℕ) → is_late result n ≡ false }
    {
        KnownNames {
            table: SourceNames::new(alloc),
            late: BTreeSet::new(alloc),
        }
    }

    /// What a name stands for in a word by now: its last definition in the source, if it has one and that isn't late.
    pub fn open_value(&self, name: Name) -> Option<Word>
        ensures value { result ≡ open_of self.now name }
        ensures range { IfSome result (λ word. word < 0o10000) }
    {
        if self.late.contains(&name.number()) {
            return None;
        }
        self.table.own_value(name)
    }

    /// Says that the last definition of a name is late.
    pub(crate) fn put_late(&mut self, name: Name) -> Result<(), AllocError>
        ensures table { self.new.table ≡ self.old.table }
        ensures late { OnOk result ((n : ℕ) → is_late self.new n ≡ with_one name (is_late self.old) n) }
    {
        self.late.insert(name.number())?;
        Ok(())
    }
}

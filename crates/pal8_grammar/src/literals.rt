ghost use Rattle.std.specs.Prelude.{◌≡◌, [], ◌∷◌, OnOk, OnErr};
ghost use Rattle.pal8_grammar.specs.Steps.{Pops};

use crate::Outer;
use std::alloc::{AllocError, Global};
use std::marker::Model;

/// The open literals, the innermost first.
#[derive(Drop)]
pub struct Literals {
    open: Vec<Outer>,
}

impl Model for Literals {
    ghost use Rattle.std.specs.Prelude.{List, reverse};
    ghost use Rattle.pal8_grammar.specs.declared.stands.Outer.{Outer};

    ghost Value = { List Outer };

    ghost view = { λ l. reverse l.open.items };
}

impl Literals {
    pub fn new(alloc: Global) -> Literals
        ensures { result ≡ [] }
    {
        Literals {
            open: Vec::new(alloc),
        }
    }

    /// Opens a literal in the others.
    pub fn push(&mut self, outer: Outer) -> Result<(), AllocError>
        ensures { OnOk result (self.new ≡ outer ∷ self.old) }
    {
        self.open.push(outer)?;
        Ok(())
    }

    /// Closes the innermost, if one is open.
    pub fn pop(&mut self) -> Option<Outer>
        ensures { Pops self.old result self.new }
    {
        self.open.pop()
    }

    pub fn clear(&mut self)
        ensures { self.new ≡ [] }
    {
        self.open.clear();
    }
}

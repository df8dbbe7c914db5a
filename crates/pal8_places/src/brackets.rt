ghost use Rattle.std.specs.Prelude.{◌≡◌, [], OnOk};
ghost use Rattle.pal8_places.specs.Brackets.{brackets_after, closes_none, has_none, is_selected};

use pal8_lex::End;
use std::alloc::{AllocError, Global};
use std::marker::Model;

/// The brackets that are open: of each whether it is true, by which the statements in it are selected. One that is opened in a false one
/// is false.
#[derive(Drop)]
pub struct Brackets {
    open: Vec<bool>,
}

impl Model for Brackets {
    ghost use Rattle.std.specs.Prelude.{Bool, List, reverse};

    ghost Value = { List Bool };

    ghost view = { λ b. reverse b.open.items };
}

impl Brackets {
    /// No bracket is open. It takes no memory.
    pub fn new(alloc: Global) -> Brackets
        ensures { result ≡ [] }
    {
        Brackets {
            open: Vec::new(alloc),
        }
    }

    /// Whether the next statement is selected.
    pub fn is_selected(&self) -> bool
        ensures { result ≡ is_selected self.now }
    {
        match self.open.last() {
            Some(is_true) => *is_true,
            None => true,
        }
    }

    /// Whether no bracket is open.
    pub fn is_empty(&self) -> bool
        ensures { result ≡ has_none self.now }
    {
        self.open.is_empty()
    }

    /// Whether a `>` ends a statement where no bracket is open.
    pub fn has_none_for(&self, end: End) -> bool
        ensures { result ≡ closes_none end self.now }
    {
        match end {
            End::Close => self.open.is_empty(),
            End::Semicolon | End::Line | End::Open | End::Dollar => false,
        }
    }

    /// Opens the bracket of a `<` that ends a statement, which is true or not, or closes the newest one at a `>`.
    pub fn pass(&mut self, end: End, is_true: bool) -> Result<(), AllocError>
        ensures { OnOk result (self.new ≡ brackets_after end is_true self.old) }
    {
        match end {
            End::Open => {
                self.open.push(is_true)?;
                Ok(())
            }
            End::Close => {
                let _newest = self.open.pop();
                Ok(())
            }
            End::Semicolon | End::Line | End::Dollar => Ok(()),
        }
    }
}

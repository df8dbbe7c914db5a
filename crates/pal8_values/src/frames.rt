ghost use Rattle.std.specs.Prelude.{◌≡◌, [], ◌∷◌, OnOk};
ghost use Rattle.pal8_values.specs.Steps.{Pops};

use crate::Sum;
use pal8_lex::Pool;
use std::alloc::{AllocError, Global};
use std::marker::Model;

/// What goes on around an open literal: which pool that asks, and the terms before it.
#[derive(Clone, Copy)]
pub struct Frame {
    pub pool: Pool,
    pub sum: Sum,
}

/// What goes on around the open literals, the innermost first. It keeps its room from one word to the next.
#[derive(Drop)]
pub struct Frames {
    open: Vec<Frame>,
}

impl Model for Frames {
    ghost use Rattle.std.specs.Prelude.{List, reverse};
    ghost use Rattle.pal8_values.specs.declared.frames.Frame.{Frame};

    ghost Value = { List Frame };

    ghost view = { λ f. reverse f.open.items };
}

impl Frames {
    /// No open literal. It takes no memory.
    pub fn new(alloc: Global) -> Frames
        ensures { result ≡ [] }
    {
        Frames {
            open: Vec::new(alloc),
        }
    }

    /// Opens a literal in the others.
    pub(crate) fn push(&mut self, frame: Frame) -> Result<(), AllocError>
        ensures { OnOk result (self.new ≡ frame ∷ self.old) }
    {
        self.open.push(frame)?;
        Ok(())
    }

    /// Closes the innermost, if one is open.
    pub(crate) fn pop(&mut self) -> Option<Frame>
        ensures { Pops self.old result self.new }
    {
        self.open.pop()
    }

    pub(crate) fn clear(&mut self)
        ensures { self.new ≡ [] }
    {
        self.open.clear();
    }
}

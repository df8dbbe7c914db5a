ghost use Rattle.std.specs.Prelude.{◌≡◌, List, ℕ};

use crate::Bytes;
use std::marker::Model;

/// Names that an entry owns, each as its line has it, in their order.
#[derive(Drop)]
pub struct Names {
    items: Vec<Bytes>,
}

impl Model for Names {
    ghost Value = { List (List ℕ) };

    ghost view = { λ names. names.items.items };
}

impl Names {
    /// These names.
    pub fn new(items: Vec<Bytes>) -> Names
        ensures { result ≡ items.items }
    {
        Names { items }
    }

    /// The names.
    pub fn as_slice(&self) -> &[Bytes]
        ensures { result.now ≡ self.now }
    {
        &self.items
    }

    /// The names.
    pub fn into_vec(self) -> Vec<Bytes>
        ensures { result.items ≡ self }
    {
        self.items
    }
}

//! References to cells. A name is the place of its bytes in the line.
use crate::Part;
use word12::{Cell, Word};

/// What a reference to a cell begins with.
#[derive(Clone, Copy, PartialEq, Eq, Debug)]
pub enum Base {
    /// A cell by its number, or by its field and its address there.
    Number(Cell),

    /// A name: a letter, then letters and digits.
    Name(Part),

    /// `.`: the cell of the next instruction.
    Here,
}

/// How far from there the cell is.
#[derive(Clone, Copy, PartialEq, Eq, Debug)]
pub enum Offset {
    Plus(Word),
    Minus(Word),
}

/// A reference to a cell.
#[derive(Clone, Copy, PartialEq, Eq, Debug)]
pub struct Reference {
    pub base: Base,
    pub offset: Offset,
}

/// One cell, or those from one to another.
#[derive(Clone, Copy, PartialEq, Eq, Debug)]
pub struct Range {
    pub first: Reference,
    pub last: Option<Reference>,
}

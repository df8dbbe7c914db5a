//! At what breaks stop.
use crate::{Part, Range, Reference};

/// A class of instructions (Small Computer Handbook).
#[derive(Clone, Copy, PartialEq, Eq, Debug)]
pub enum Class {
    /// `iot`: in-out transfers.
    Transfer,

    /// `jms`: jumps to a subroutine.
    Call,

    /// `jmp`: jumps.
    Jump,

    /// `hlt`: halts.
    Halt,

    /// `opr`: operate instructions.
    Operate,

    /// `ref`: references to memory.
    MemoryReference,
}

/// At what a break stops.
#[derive(Clone, Copy, PartialEq, Eq, Debug)]
pub enum Spot {
    /// The instruction at a cell.
    At(Reference),

    /// A write into one of some cells.
    Write(Range),

    /// A character that is printed, any or this one.
    Print(Option<Part>),

    /// A fetch outside the program's words.
    Outside,

    /// An instruction of a class.
    Instructions(Class),
}

//! Comparisons of registers and of cells.
use crate::Reference;
use word12::Word;

/// A register of the processor (Small Computer Handbook).
#[derive(Clone, Copy, PartialEq, Eq, Debug)]
pub enum Register {
    /// `ac`: the accumulator.
    Accumulator,

    /// `l`: the link.
    Link,

    /// `mq`: the multiplier quotient.
    Quotient,

    /// `pc`: the program counter.
    Counter,

    /// `sr`: the switch register.
    Switches,

    /// `if`: the instruction field.
    InstructionField,

    /// `df`: the data field.
    DataField,
}

/// What is compared.
#[derive(Clone, Copy, PartialEq, Eq, Debug)]
pub enum Subject {
    Register(Register),

    /// The word in a cell.
    Cell(Reference),
}

/// How it is compared.
#[derive(Clone, Copy, PartialEq, Eq, Debug)]
pub enum Sign {
    Equal,
    Unequal,
    Less,
    Greater,
}

/// A comparison of a register or a cell with a word.
#[derive(Clone, Copy, PartialEq, Eq, Debug)]
pub struct Comparison {
    pub subject: Subject,
    pub sign: Sign,
    pub word: Word,
}

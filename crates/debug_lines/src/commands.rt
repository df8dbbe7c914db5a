//! The commands of a line. A name or a text is the place of its bytes in the line.
use crate::{Condition, Part, Range, Reference, Register, Spot};
use word12::Word;

/// How words are shown.
#[derive(Clone, Copy, PartialEq, Eq, Debug)]
pub enum Form {
    Octal,
    Instruction,
    Character,
    Sixbit,
    Text,
}

/// A command.
#[derive(Drop)]
pub enum Command {
    /// `help [WORD]`.
    Help(Option<Part>),

    /// `examine RANGE [as FORM]`.
    Examine {
        range: Range,
        form: Option<Form>,
    },

    /// `list [RANGE]`.
    List(Option<Range>),

    /// `registers`.
    Registers,

    /// `where`.
    Where,

    /// `symbols [PATTERN]`.
    Symbols(Option<Part>),

    /// `who CELL`.
    Who(Reference),

    /// `deposit CELL REST`: the rest of the line.
    Deposit {
        cell: Reference,
        rest: Part,
    },

    /// `set REGISTER=WORD`.
    Set {
        register: Register,
        word: Word,
    },

    /// `key 'A'` or `key "TEXT"`: the text without its quotes.
    Key(Part),

    /// `step [N]`.
    Step(Option<u64>),

    /// `next [N]`.
    Next(Option<u64>),

    /// `finish`.
    Finish,

    /// `continue`.
    Continue,

    /// `until CELL`.
    Until(Reference),

    /// `break SPOT [if CONDITION] [after N]`.
    Break {
        spot: Spot,
        condition: Condition,
        after: Option<u64>,
    },

    /// `breaks`.
    Breaks,

    /// `unbreak [N]`.
    Unbreak(Option<u64>),

    /// `back [N]`.
    Back(Option<u64>),

    /// `reverse-continue`.
    ReverseContinue,

    /// `reverse-next`.
    ReverseNext,

    /// `reverse-finish`.
    ReverseFinish,

    /// `goto N`.
    Goto(u64),

    /// `last-write CELL`.
    LastWrite(Reference),

    /// `save FILE`: the name without its quotes, if it has some.
    Save(Part),

    /// `trace FILE`, or `trace off`.
    Trace(Option<Part>),

    /// `quit`.
    Quit,
}

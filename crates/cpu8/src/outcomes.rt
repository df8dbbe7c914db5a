use word12::Word;

/// What a step did.
#[derive(Clone, Copy, PartialEq, Eq, Debug)]
pub enum Stepped {
    /// Nothing: the machine is stopped.
    Stopped,
    /// An interrupt came in place of an instruction.
    Interrupted,
    /// An instruction was done, and perhaps a character of eight bits printed.
    Ran { printed: Option<u8> },
    /// A HLT was done: the machine is stopped.
    Halted,
    /// The next instruction is this word, which is unassigned: the machine is stopped with PC at it.
    Unassigned(Word),
}

/// An instruction was done that printed nothing.
pub(crate) const RAN: Stepped = Stepped::Ran { printed: None };

/// How far a machine went.
#[derive(Clone, Copy, PartialEq, Eq, Debug)]
pub struct Gone {
    /// How many steps were made.
    pub steps: usize,
    /// Why no more were made.
    pub why: Why,
}

/// Why a machine goes no further, the first of these that holds.
#[derive(Clone, Copy, PartialEq, Eq, Debug)]
pub enum Why {
    /// The last step was a HLT, or the machine stood stopped.
    Halt,
    /// The last step met a word that is unassigned.
    Unassigned,
    /// The next instruction is at a break.
    Break,
    /// So many steps were made as were asked for.
    Limit,
}

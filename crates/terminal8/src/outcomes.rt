use thiserror::Error;

/// How far a machine went at a terminal.
#[derive(Clone, Copy, PartialEq, Eq, Debug)]
pub struct Ended {
    /// How many steps were made.
    pub steps: u64,
    /// Why no more were made.
    pub why: TerminalEnd,
}

/// Why a machine goes no further at a terminal.
#[derive(Clone, Copy, PartialEq, Eq, Debug)]
pub enum TerminalEnd {
    /// The last step was a HLT, or the machine stood stopped.
    Halt,
    /// The last step met a word that is unassigned.
    Unassigned,
    /// No key is left, and the machine does nothing but wait for one.
    Keys,
    /// So many steps were made as were asked for.
    Limit,
}

/// What ends a run at a terminal before its end.
#[derive(Clone, Copy, PartialEq, Eq, Debug, Error)]
pub enum TerminalFault {
    /// The reader failed.
    #[error("the reader failed")]
    Reader,

    /// The writer failed.
    #[error("the writer failed")]
    Writer,
}

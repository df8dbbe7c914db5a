use thiserror::Error;

/// Why a line of a text that names cells is refused, in the order in which it is judged.
#[derive(Clone, Copy, PartialEq, Eq, Debug, Error)]
pub enum LineRefusal {
    /// It isn't a cell, five octal digits, with a blank or a tab after it.
    #[error("no cell with a name")]
    BadLine,

    /// What stands after the cell isn't a letter, followed by letters and digits, six characters at most.
    #[error("no name")]
    NoName,

    /// The name is a permanent symbol, or a word of the language.
    #[error("a name of the language")]
    Permanent,

    /// The name has the form of the tags that listings make.
    #[error("the form of a tag")]
    Tag,

    /// The name, or the cell, was given on an earlier line.
    #[error("given twice")]
    Twice,

    /// The tape gives the cell no word.
    #[error("no word in the cell")]
    NoCell,
}

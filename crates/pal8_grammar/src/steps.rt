use pal8_lex::{Name, Operator, Pool};
use word12::Word;

/// A step of a value. A value is the sum of its terms, each joined by the sign before it. A reference is an operation with such a sum as its address.
#[derive(Clone, Copy)]
pub enum Step {
    /// A memory reference begins, with the word of its operation.
    Operation(Word),
    /// No reference begins: the name of the operation is a term, which comes next.
    Alone,
    /// `I`
    Indirect,
    /// A term that is a name, and no permanent one.
    Name(Name),
    /// A term that is a permanent name, with the value that it has where the source gives it none.
    Permanent(Name, Word),
    /// A term that is a number or a character.
    Number(Word),
    /// `.`, a term.
    Here,
    /// The sign before the next term.
    Sign(Operator),
    /// A literal begins, and the steps of its own value.
    Open(Pool),
    /// The innermost literal ends, and is a term.
    Close,
}

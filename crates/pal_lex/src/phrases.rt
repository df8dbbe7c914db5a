ghost use Rattle.std.specs.Prelude.{◌≡◌, ◌<◌};
ghost use Rattle.pal_lex.specs.Language.{word_of};

use crate::{Name, Term, Tokens};
use smallvec::SmallVec;
use std::marker::Model;
use word12::Word;

/// How a term is joined to the terms before it.
#[derive(Clone, Copy, Default)]
pub enum Joint {
    #[default]
    Add,
    Subtract,
    /// Inclusive or, which a blank stands for.
    Or,
}

/// A term of an expression, with what joins it to those before it; the first one is joined to 0.
#[derive(Clone, Copy, Default)]
pub struct Part {
    pub joint: Joint,
    pub term: Term,
}

/// Terms, from left to right. Most expressions have one or two, which take no memory of their own.
#[derive(Drop)]
pub struct Expression {
    parts: SmallVec<Part, 2>,
}

impl Model for Expression {
    ghost use Rattle.std.specs.Prelude.{List};
    ghost use Rattle.pal_lex.specs.declared.phrases.Part.{Part};

    ghost Value = { List Part };

    ghost view = { λ expression. expression.parts.items };
}

impl Expression {
    pub(crate) fn new(parts: SmallVec<Part, 2>) -> Expression
        ensures { result ≡ parts.items }
    {
        Expression { parts }
    }

    /// The terms as a slice.
    pub fn parts(&self) -> &[Part]
        ensures { result.now ≡ self.now }
    {
        &self.parts
    }
}

/// The operations that refer to memory (Small Computer Handbook).
#[derive(Clone, Copy)]
pub enum Operation {
    And,
    Tad,
    Isz,
    Dca,
    Jms,
    Jmp,
}

impl Operation {
    /// The word of the operation, with no address (Small Computer Handbook).
    pub fn word(self) -> Word
        ensures value { result ≡ word_of self }
        ensures range { result < 0o10000 }
    {
        match self {
            Operation::And => Word::low(0o0000),
            Operation::Tad => Word::low(0o1000),
            Operation::Isz => Word::low(0o2000),
            Operation::Dca => Word::low(0o3000),
            Operation::Jms => Word::low(0o4000),
            Operation::Jmp => Word::low(0o5000),
        }
    }
}

/// What a statement says.
#[derive(Drop)]
pub enum Body {
    Nothing,
    /// `*`: sets the location.
    Origin(Expression),
    /// `=`: gives a name a value.
    Define(Name, Expression),
    /// The radix is 10 from the next statement on.
    Decimal,
    /// The radix is 8 from the next statement on.
    Octal,
    /// The source goes on in the next text.
    Pause,
    Field(Expression),
    /// A memory reference word; an address that is missing is 0.
    Reference {
        operation: Operation,
        indirect: bool,
        address: Option<Expression>,
    },
    Word(Expression),
}

/// The tags of a statement, from the left.
#[derive(Drop)]
pub struct Tags {
    names: Vec<Name>,
}

impl Model for Tags {
    ghost use Rattle.std.specs.Prelude.{List, ℕ};

    ghost Value = { List ℕ };

    ghost view = { λ tags. tags.names.items };
}

impl Tags {
    pub(crate) fn new(names: Vec<Name>) -> Tags
        ensures { result ≡ names.items }
    {
        Tags { names }
    }

    /// The names as a slice.
    pub fn names(&self) -> &[Name]
        ensures { result.now ≡ self.now }
    {
        &self.names
    }
}

/// A statement of a source.
#[derive(Drop)]
pub struct Statement {
    /// The line of the statement, 1 and up, or 2^64 - 1 where it would be more.
    pub line: u64,
    pub tags: Tags,
    pub body: Body,
    /// Whether `$` ended the statement, and with it the source.
    pub last: bool,
    /// Which of several sources the statement stands in, and with it the places of its tokens: from 0, or 2^64 - 1 where it
    /// would be more.
    pub source: u64,
    pub tokens: Tokens,
}

/// The tags and the body of a statement.
#[derive(Drop)]
pub struct Said {
    pub tags: Tags,
    pub body: Body,
}

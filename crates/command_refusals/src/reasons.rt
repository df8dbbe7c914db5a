//! What is refused of a command line that `clap` takes, with texts as `clap` writes such.
use thiserror::Error;

/// What is missing.
#[derive(Clone, Copy, Debug, Error)]
pub enum What {
    #[error("<NAME>")]
    Name,
    #[error("<TAPE>\n  <NAME>")]
    TapeAndName,
    #[error("<NAME>\n  <NEW>")]
    NameAndNew,
    #[error("<NEW>")]
    New,
    #[error("<NAME>\n  <TO>")]
    NameAndTo,
    #[error("<TO>")]
    To,
    #[error("<BLOCKS>")]
    Blocks,
    #[error("<FIRST>\n  <COUNT>")]
    FirstAndCount,
    #[error("<COUNT>")]
    Count,
    #[error("--into <FOLDER>")]
    Into,
    #[error("--as <NAME>")]
    As,
    #[error("--list <LISTING>")]
    List,
    #[error("--from <IMAGE>")]
    From,
    #[error("--onto <NAME>")]
    Onto,
    #[error("--pal8")]
    Pal8,
    #[error("--cpu 8e")]
    Cpu,
}

/// What is refused.
#[derive(Debug, Drop, Error)]
pub enum Refusal {
    /// Two arguments exclude each other.
    #[error("the argument '{0}' cannot be used with '{1}'")]
    Together(&'static str, &'static str),

    /// An argument is missing.
    #[error("the following required arguments were not provided:\n  {0}")]
    Missing(What),

    /// Standard input is named twice among the files.
    #[error("the argument '-' cannot be used multiple times")]
    InputTwice,

    /// There is an argument too many.
    #[error("unexpected argument '{0}' found")]
    Unexpected(String),

    /// A value is none of its argument's kind: the argument, and what is wrong with the value.
    #[error("invalid value '{2}' for '{0}': {1}")]
    Value(&'static str, &'static str, String),
}

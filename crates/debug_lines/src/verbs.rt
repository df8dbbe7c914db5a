//! The commands by their names.
ghost use Rattle.std.specs.Prelude.{◌≡◌};
ghost use Rattle.debug_lines.specs.Verbs as spec;

use crate::Refused;

/// What a command does.
#[derive(Clone, Copy, PartialEq, Eq, Debug)]
pub enum Verb {
    Help,
    Examine,
    List,
    Registers,
    Where,
    Symbols,
    Who,
    Deposit,
    Set,
    Key,
    Step,
    Next,
    Finish,
    Continue,
    Until,
    Break,
    Breaks,
    Unbreak,
    Back,
    ReverseContinue,
    ReverseNext,
    ReverseFinish,
    Goto,
    LastWrite,
    Save,
    Trace,
    Quit,
}

/// All commands.
pub const VERBS: [Verb; 27] = [
    Verb::Help,
    Verb::Examine,
    Verb::List,
    Verb::Registers,
    Verb::Where,
    Verb::Symbols,
    Verb::Who,
    Verb::Deposit,
    Verb::Set,
    Verb::Key,
    Verb::Step,
    Verb::Next,
    Verb::Finish,
    Verb::Continue,
    Verb::Until,
    Verb::Break,
    Verb::Breaks,
    Verb::Unbreak,
    Verb::Back,
    Verb::ReverseContinue,
    Verb::ReverseNext,
    Verb::ReverseFinish,
    Verb::Goto,
    Verb::LastWrite,
    Verb::Save,
    Verb::Trace,
    Verb::Quit,
];

/// The name of a command.
pub fn name_of(verb: Verb) -> &'static [u8]
    ensures { result.now ≡ spec.name_of verb }
{
    match verb {
        Verb::Help => b"help",
        Verb::Examine => b"examine",
        Verb::List => b"list",
        Verb::Registers => b"registers",
        Verb::Where => b"where",
        Verb::Symbols => b"symbols",
        Verb::Who => b"who",
        Verb::Deposit => b"deposit",
        Verb::Set => b"set",
        Verb::Key => b"key",
        Verb::Step => b"step",
        Verb::Next => b"next",
        Verb::Finish => b"finish",
        Verb::Continue => b"continue",
        Verb::Until => b"until",
        Verb::Break => b"break",
        Verb::Breaks => b"breaks",
        Verb::Unbreak => b"unbreak",
        Verb::Back => b"back",
        Verb::ReverseContinue => b"reverse-continue",
        Verb::ReverseNext => b"reverse-next",
        Verb::ReverseFinish => b"reverse-finish",
        Verb::Goto => b"goto",
        Verb::LastWrite => b"last-write",
        Verb::Save => b"save",
        Verb::Trace => b"trace",
        Verb::Quit => b"quit",
    }
}

/// The letter of a command, or its name where it has none.
pub fn short_name_of(verb: Verb) -> &'static [u8]
    ensures { result.now ≡ spec.short_name_of verb }
{
    match verb {
        Verb::Help => b"h",
        Verb::Examine => b"e",
        Verb::List => b"l",
        Verb::Registers => b"r",
        Verb::Who => b"w",
        Verb::Deposit => b"d",
        Verb::Key => b"k",
        Verb::Step => b"s",
        Verb::Next => b"n",
        Verb::Finish => b"f",
        Verb::Continue => b"c",
        Verb::Until => b"u",
        Verb::Break => b"b",
        Verb::Quit => b"q",
        other => name_of(other),
    }
}

/// The command of a word in small letters: its name, its letter, or else how the name of one command alone begins.
#[tactic(auto, unfolding(crate::specs::Verbs::verb_of))]
pub fn verb_of(word: &[u8]) -> Result<Verb, Refused>
    ensures { result ≡ spec.verb_of word.now }
{
    match spelled_verb(word, &VERBS) {
        Some(verb) => Ok(verb),
        None => only_verb(word, &VERBS),
    }
}

/// The first command that a word spells whole.
fn spelled_verb(word: &[u8], verbs: &[Verb]) -> Option<Verb>
    ensures { result ≡ spec.spelled_verb word.now verbs.now }
{
    match verbs {
        [] => None,
        [verb, others @ ..] => {
            if is_spelled(word, *verb) {
                Some(*verb)
            } else {
                spelled_verb(word, others)
            }
        }
    }
}

/// Whether a word is the name or the letter of a command.
fn is_spelled(word: &[u8], verb: Verb) -> bool
    ensures { result ≡ spec.is_spelled word.now verb }
{
    word == name_of(verb) || word == short_name_of(verb)
}

/// The one command whose name begins with a word.
fn only_verb(word: &[u8], verbs: &[Verb]) -> Result<Verb, Refused>
    ensures { result ≡ spec.only_verb word.now verbs.now }
{
    match verbs {
        [] => Err(Refused::UnknownCommand),
        [verb, others @ ..] => {
            if begins(word, *verb) {
                alone_verb(*verb, begins_any(word, others))
            } else {
                only_verb(word, others)
            }
        }
    }
}

/// A command, if no other begins so.
fn alone_verb(verb: Verb, has_other: bool) -> Result<Verb, Refused>
    ensures { result ≡ spec.alone_verb verb has_other }
{
    if has_other {
        Err(Refused::NotPlain)
    } else {
        Ok(verb)
    }
}

/// Whether the name of one of some commands begins with a word.
fn begins_any(word: &[u8], verbs: &[Verb]) -> bool
    ensures { result ≡ spec.begins_any word.now verbs.now }
{
    match verbs {
        [] => false,
        [verb, others @ ..] => begins(word, *verb) || begins_any(word, others),
    }
}

/// Whether the name of a command begins with a word.
fn begins(word: &[u8], verb: Verb) -> bool
    ensures { result ≡ spec.begins word.now verb }
{
    name_of(verb).starts_with(word)
}

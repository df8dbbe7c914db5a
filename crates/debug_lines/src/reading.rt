//! A line, command by command.
ghost use Rattle.std.specs.Prelude.{◌≡◌, ◌≤◌, length, take};
ghost use Rattle.debug_lines.specs.Answers.{Reads};
ghost use Rattle.debug_lines.specs.Lines as spec;

use crate::breaks::break_of;
use crate::grammar::simple_command;
use crate::numbers::refusal_at;
use crate::parts::{is_word, put};
use crate::words::words_in;
use crate::{Command, Commands, LineFault, Part, Refusal, Verb, name_of, text_of, verb_of};
use std::alloc::Global;

/// The commands of a line, or why and where it is refused. A line of no word has none. The line is not changed, and letters in it count as
/// small ones.
#[tactic(auto, unfolding(crate::specs::Lines::commands_of))]
pub fn read_line(alloc: Global, line: &[u8]) -> Result<Commands, LineFault>
    ensures { Reads (spec.commands_of line.now) result }
{
    let small = line.to_ascii_lowercase(alloc)?;
    let words = words_in(alloc, &small)?;
    commands_in(alloc, &small, &words)
}

/// The commands of a line's words.
fn commands_in(alloc: Global, line: &[u8], words: &[Part]) -> Result<Commands, LineFault>
    ensures { Reads (spec.commands_from line.now 0 words.now) result }
{
    let mut commands = Vec::new(alloc);
    let mut rest = words;
    while !rest.is_empty() {
        let word = rest[0];
        let (_word, others) = rest.split_at(1);
        if is_word(line, word, b";") {
            rest = others;
        } else {
            let verb = verb_in(line, word)?;
            let (operands, following) = others.split_at(operand_count(line, verb, others));
            let command = command_of(alloc, line, verb, word.end, operands)?;
            put(&mut commands, command)?;
            rest = following;
        }
    }
    Ok(Commands::new(commands))
}

/// The command of a word.
fn verb_in(line: &[u8], word: Part) -> Result<Verb, Refusal>
    ensures { result ≡ spec.verb_in line.now word }
{
    match verb_of(text_of(line, word)) {
        Ok(verb) => Ok(verb),
        Err(why) => Err(refusal_at(why, word)),
    }
}

/// How many words after a command are its own: all after a `deposit`, and else those before the next `;`.
fn operand_count(line: &[u8], verb: Verb, words: &[Part]) -> usize
    ensures count { result ≡ length (spec.operands_of line.now verb words.now) }
    ensures operands { take result words.now ≡ spec.operands_of line.now verb words.now }
    ensures most { result ≤ length words.now }
{
    if is_named(verb, b"deposit") {
        words.len()
    } else {
        place_of_end(line, words)
    }
}

/// The place of the first `;` among words, or their number.
fn place_of_end(line: &[u8], words: &[Part]) -> usize
    ensures place { result ≡ length (spec.operands line.now words.now) }
    ensures most { result ≤ length words.now }
{
    for (place, word) in words.iter().enumerate() {
        if is_word(line, *word, b";") {
            return place;
        }
    }
    words.len()
}

/// What a command says by its words.
fn command_of(
    alloc: Global,
    line: &[u8],
    verb: Verb,
    before: usize,
    words: &[Part],
) -> Result<Command, LineFault>
    ensures { Reads (spec.command_of line.now verb before words.now) result }
{
    if is_named(verb, b"break") {
        return break_of(alloc, line, before, words);
    }
    let command = simple_command(line, verb, before, words)?;
    Ok(command)
}

/// Whether a command has a name.
fn is_named(verb: Verb, name: &[u8]) -> bool
    ensures { result ≡ spec.is_named name.now verb }
{
    name_of(verb) == name
}

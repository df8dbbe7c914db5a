//! What a `break` says by its words.
ghost use Rattle.std.specs.Prelude.{◌≡◌, ◌≤◌, [], IfSome, length};
ghost use Rattle.debug_lines.specs.Answers.{Reads};
ghost use Rattle.debug_lines.specs.BreakSteps as steps;
ghost use Rattle.debug_lines.specs.Breaks as spec;
ghost use Rattle.debug_lines.specs.CompareSteps.{PutsRead};
ghost use Rattle.debug_lines.specs.Operands.{comparison_in};

use crate::cells::{cell_in, range_in};
use crate::grammar::{missing, one_number};
use crate::numbers::refusal_at;
use crate::operands::{character_in, class_of, comparison_in, is_quoted};
use crate::parts::is_word;
use crate::{Command, Comparison, Condition, LineFault, Part, Refusal, Refused, Spot, text_of};
use std::alloc::Global;

/// A `break`: a spot, and then a condition and a number, each of which may be left out.
pub(crate) fn break_of(
    alloc: Global,
    line: &[u8],
    before: usize,
    words: &[Part],
) -> Result<Command, LineFault>
    ensures { Reads (spec.break_of line.now before words.now) result }
{
    match words {
        [] => Err(LineFault::Refused(missing(before))),
        [word, others @ ..] => {
            if is_word(line, *word, b"write") {
                return break_at_write(alloc, line, word.end, others);
            }
            if is_word(line, *word, b"print") {
                return break_at_print(alloc, line, others);
            }
            let spot = spot_in(line, *word)?;
            with_condition(alloc, line, spot, others)
        }
    }
}

/// A spot of one word: `outside`, a class of instructions, or a cell.
fn spot_in(line: &[u8], word: Part) -> Result<Spot, Refusal>
    ensures { result ≡ spec.spot_in line.now word }
{
    if is_word(line, word, b"outside") {
        return Ok(Spot::Outside);
    }
    match class_of(text_of(line, word)) {
        Some(class) => Ok(Spot::Instructions(class)),
        None => {
            let cell = cell_in(line, word)?;
            Ok(Spot::At(cell))
        }
    }
}

/// A `break` at writes into a range.
fn break_at_write(
    alloc: Global,
    line: &[u8],
    before: usize,
    words: &[Part],
) -> Result<Command, LineFault>
    ensures { Reads (spec.break_at_write line.now before words.now) result }
{
    match words {
        [] => Err(LineFault::Refused(missing(before))),
        [word, others @ ..] => {
            let range = range_in(line, *word)?;
            with_condition(alloc, line, Spot::Write(range), others)
        }
    }
}

/// A `break` at a printed character, any or one in quotes.
fn break_at_print(alloc: Global, line: &[u8], words: &[Part]) -> Result<Command, LineFault>
    ensures { Reads (spec.break_at_print line.now words.now) result }
{
    match words {
        [] => with_condition(alloc, line, Spot::Print(None), words),
        [word, others @ ..] => {
            if is_quoted(line, *word) {
                let character = character_in(line, *word)?;
                with_condition(alloc, line, Spot::Print(Some(character)), others)
            } else {
                with_condition(alloc, line, Spot::Print(None), words)
            }
        }
    }
}

/// A `break` at a spot, with what stands after it: nothing, `if` and comparisons, `after` and a number, or both.
fn with_condition(
    alloc: Global,
    line: &[u8],
    spot: Spot,
    words: &[Part],
) -> Result<Command, LineFault>
    ensures { Reads (spec.with_condition line.now spot words.now) result }
{
    match words {
        [word, others @ ..] if is_word(line, *word, b"if") => {
            with_comparisons(alloc, line, spot, word.end, others)
        }
        _ => {
            let command = with_number(line, spot, Condition::new(Vec::new(alloc)), words)?;
            Ok(command)
        }
    }
}

/// A `break` at a spot, with one or more comparisons that `and` joins, and then nothing, or `after` and a number.
fn with_comparisons(
    alloc: Global,
    line: &[u8],
    spot: Spot,
    before: usize,
    words: &[Part],
) -> Result<Command, LineFault>
    ensures { Reads (spec.with_comparisons line.now spot [] before words.now) result }
{
    let mut items = Vec::new(alloc);
    let mut place = before;
    let mut rest = words;
    while rest.len() >= 3 {
        put_comparison(line, rest[0], rest[1], rest[2], &mut items)?;
        let (_comparison, others) = rest.split_at(3);
        match joint_end(line, others) {
            None => return finished_break(line, spot, items, others),
            Some(end) => {
                let (_joint, following) = others.split_at(1);
                place = end;
                rest = following;
            }
        }
    }
    Err(LineFault::Refused(missing(place_missed(place, rest))))
}

/// Where an `and` ends with which words begin.
fn joint_end(line: &[u8], words: &[Part]) -> Option<usize>
    ensures place { result ≡ steps.joint_end line.now words.now }
    ensures least { IfSome result (λ _. 1 ≤ length words.now) }
{
    match words {
        [] => None,
        [word, ..] => {
            if is_word(line, *word, b"and") {
                Some(word.end)
            } else {
                None
            }
        }
    }
}

/// A `break` with its comparisons, and what stands after them.
fn finished_break(
    line: &[u8],
    spot: Spot,
    items: Vec<Comparison>,
    words: &[Part],
) -> Result<Command, LineFault>
    ensures { Reads (spec.with_number line.now spot items.items words.now) result }
{
    let command = with_number(line, spot, Condition::new(items), words)?;
    Ok(command)
}

/// Puts a comparison after others.
fn put_comparison(
    line: &[u8],
    subject: Part,
    sign: Part,
    word: Part,
    items: &mut Vec<Comparison>,
) -> Result<(), LineFault>
    ensures { PutsRead (comparison_in line.now subject sign word) items.old.items items.new.items result }
{
    let comparison = comparison_in(line, subject, sign, word)?;
    items.extend_from_slice(&[comparison])?;
    Ok(())
}

/// Where the next word is missed after some.
fn place_missed(before: usize, words: &[Part]) -> usize
    ensures { result ≡ steps.place_missed before words.now }
{
    match words {
        [] => before,
        [subject] => subject.end,
        [_, sign, ..] => sign.end,
    }
}

/// A `break` at a spot with a condition, and then nothing, or `after` and a number.
fn with_number(
    line: &[u8],
    spot: Spot,
    condition: Condition,
    words: &[Part],
) -> Result<Command, Refusal>
    ensures { result ≡ spec.with_number line.now spot condition words.now }
{
    match words {
        [] => Ok(Command::Break {
            spot,
            condition,
            after: None,
        }),
        [word, others @ ..] => {
            if !is_word(line, *word, b"after") {
                return Err(refusal_at(Refused::LeftOver, *word));
            }
            let number = one_number(line, word.end, others)?;
            Ok(Command::Break {
                spot,
                condition,
                after: Some(number),
            })
        }
    }
}

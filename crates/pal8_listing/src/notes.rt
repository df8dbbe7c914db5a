//! The notes on the statements of a text.
ghost use Rattle.std.specs.Prelude.{◌≡◌, ◌++◌, ◌||◌, ◌∷◌, [], ℕ, List, IfOk, OnOk};
ghost use Rattle.pal_lex.specs.Text.{text_of};
ghost use Rattle.pal8_asm.specs.Pushing.{shown_statement};
ghost use Rattle.pal8_asm.specs.Sources.{PassResult};
ghost use Rattle.pal8_tape.specs.Joins.{is_operation};
ghost use Rattle.pal8_tape.specs.Passing.{Follows};
ghost use Rattle.pal8_listing.specs.Notes.{differences, if_so, notes, notes_at, notes_on, notes_read};
ghost use Rattle.pal8_listing.specs.ItemSteps.{HasLooked, LooksAtOne};

use crate::Difference;
use crate::differences::{has_apart, has_closer, has_tab};
use pal8_asm::{Statement, push_byte, shown_statement};
use pal8_lex::{End, Lexer};
use pal8_places::Options;
use pal8_tape::{JoinFault, Pass};
use std::alloc::{AllocError, Global};

/// A note on a statement, with the line of the join in which that begins.
#[derive(Clone, Copy)]
pub struct Note {
    pub line: u64,
    pub difference: Difference,
}

/// Puts a note, if there is one.
fn put_if(
    found: &mut Vec<Note>,
    is_so: bool,
    line: u64,
    difference: Difference,
) -> Result<(), AllocError>
    ensures { OnOk result (found.new.items ≡ found.old.items ++ notes_at line (if_so is_so difference)) }
{
    if is_so {
        found.push(Note { line, difference })?;
    }
    Ok(())
}

/// Puts the notes on the next statement of a pass, if that is read.
fn put_notes(
    alloc: Global,
    found: &mut Vec<Note>,
    pass: &Pass,
    statement: Statement<'_>,
) -> Result<(), AllocError>
    ensures { (left : PassResult) → Follows pass.now left → OnOk result (found.new.items ≡ found.old.items
        ++ notes_on left statement.entry.line statement.entry.tokens.now statement.entry.string.now) }
{
    if !pass.is_read() {
        return Ok(());
    }
    put_differences(alloc, found, pass, statement)
}

/// Puts the notes on the next statement of a pass.
fn put_differences(
    alloc: Global,
    found: &mut Vec<Note>,
    pass: &Pass,
    statement: Statement<'_>,
) -> Result<(), AllocError>
    ensures { (left : PassResult) → Follows pass.now left → OnOk result (found.new.items ≡ found.old.items
        ++ notes_at statement.entry.line (differences (is_operation left) statement.entry.tokens.now statement.entry.string.now)) }
{
    let Statement {
        line,
        tokens,
        string,
        ..
    } = statement;
    put_if(found, has_apart(tokens), line, Difference::Apart)?;
    let closer = has_closer(alloc, pass, tokens)?;
    put_if(found, closer, line, Difference::Closer)?;
    put_if(found, has_tab(tokens, string), line, Difference::Tab)
}

/// Puts the notes on the statement that a lexer shows, if it is read, and passes it.
fn note_statement(
    alloc: Global,
    found: &mut Vec<Note>,
    pass: &mut Pass,
    lexer: &Lexer,
    end: End,
) -> Result<(), JoinFault>
    ensures { (at : ℕ) (left : PassResult) → Follows pass.old left → OnOk result (LooksAtOne notes_read left (shown_statement at end lexer.now)
        found.old.items found.new.items pass.new) }
{
    let statement = shown_statement(lexer, end);
    put_notes(alloc, found, pass, statement)?;
    pass.take(statement)?;
    Ok(())
}

/// Takes the next byte of a text, and puts the notes on the statement that it ends.
fn note_byte(
    alloc: Global,
    found: &mut Vec<Note>,
    pass: &mut Pass,
    lexer: &mut Lexer,
    byte: u8,
) -> Result<(), JoinFault>
    ensures { (first : PassResult) (here : List ℕ) → HasLooked notes_read first here found.old.items lexer.old pass.old
        → OnOk result (HasLooked notes_read first (byte ∷ here) found.new.items lexer.new pass.new) }
{
    match push_byte(lexer, byte)? {
        Some(end) => note_statement(alloc, found, pass, lexer, end),
        None => Ok(()),
    }
}

/// The notes on the statements of a text that are read by these options, in its order.
pub(crate) fn notes_of(alloc: Global, options: Options, text: &[u8]) -> Result<Vec<Note>, JoinFault>
    ensures { IfOk result (λ found. found.items ≡ notes options (text_of text.now)) }
{
    let mut found = Vec::new(alloc);
    let mut pass = Pass::new(alloc, options);
    let mut lexer = Lexer::new(alloc);
    let mut rest = text;
    while let [byte, others @ ..] = rest {
        note_byte(alloc, &mut found, &mut pass, &mut lexer, *byte)?;
        rest = others;
    }
    Ok(found)
}

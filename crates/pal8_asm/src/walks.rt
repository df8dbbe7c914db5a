//! A walk over the statements of a source.
ghost use Rattle.std.specs.Prelude.{◌≡◌, ◌<◌, ℕ, [], IfOk, None};
ghost use Rattle.pal8_places.specs.Places.{truth_of};
ghost use Rattle.pal8_places.specs.Passing.{standing};
ghost use Rattle.pal8_asm.specs.Sources.{brackets_with, first_left};
ghost use Rattle.pal8_asm.specs.Steps.{PassesEnd};
ghost use Rattle.pal8_asm.specs.Walking.{Passes, remainder_after, statement_in};
ghost use Rattle.pal8_asm.specs.declared.faults.Place.{Place};

use crate::Statement;
use pal8_grammar::{Body, Reader, Step};
use pal8_lex::End;
use pal8_places::{
    Brackets, Code, KnownNames, Options, Position, Stop, first_position, pass_statement, truth_of,
};
use std::alloc::Global;

/// How far the statements of a source are passed: what names stand for, where the next statement stands, and which statements are selected.
#[derive(Drop)]
pub struct Walk {
    pub names: KnownNames,
    pub position: Position,
    pub brackets: Brackets,
    /// It has the steps of the statement that was passed last.
    pub reader: Reader,
}

impl Walk {
    /// A walk over no statement, at 0200 of field 0, of a source that is read by these options. It takes no memory.
    pub fn new(alloc: Global, options: Options) -> Walk
        ensures { remainder_after result [] None ≡ first_left options }
    {
        Walk {
            names: KnownNames::new(alloc),
            position: first_position(options),
            brackets: Brackets::new(alloc),
            reader: Reader::new(alloc),
        }
    }
}

/// Passes the end of a statement that says this, where the next one has this position: a condition opens a bracket.
fn pass_end(
    names: &KnownNames,
    brackets: &mut Brackets,
    position: Position,
    body: Body,
    steps: &[Step],
    end: End,
) -> Result<(), Stop>
    requires location { position.location < 0o20000 }
    requires shift { position.shift < 0o10000 }
    ensures { (place : Place) → PassesEnd place (brackets_with place end brackets.old (truth_of body steps.now (standing names.now position)))
        result brackets.new }
{
    let again = end;
    let is_true = match truth_of(names, body, steps, position) {
        Ok(is_true) => is_true,
        Err(stop) => return Err(stop),
    };
    if brackets.has_none_for(again) {
        return Err(Stop::At(Code::PH));
    }
    brackets.pass(end, is_true)?;
    Ok(())
}

/// Passes a statement that is selected, and answers what it says: the reader has the steps of its value then. Its tags and its body define names and
/// set the position of the next one, and a condition opens a bracket.
///
/// Its fault is the first of these. IC, NU and SY come first. Then come PF and DT of each tag. Then come UA, PF, DZ and IR of a value that a place, a
/// name or a condition rests on. Then come FD, PG or RD, then PF where a word is past 7777, and PH where `>` closes no bracket. After a fault, and
/// where memory ran out, no further statement means anything (PAL8, in this project's profile).
pub fn pass_selected(walk: &mut Walk, statement: Statement<'_>) -> Result<Body, Stop>
    requires location { walk.old.position.location < 0o20000 }
    requires field { walk.old.position.field < 8 }
    requires shift { walk.old.position.shift < 0o10000 }
    ensures passes { (at : ℕ) → Passes (statement_in at statement.entry) walk.old result walk.new }
    ensures range { (walk.new.position.location < 0o20000) × (walk.new.position.field < 8) × (walk.new.position.shift < 0o10000) }
{
    let Statement {
        tokens,
        string,
        is_cut,
        end,
        ..
    } = statement;
    let again = end;
    let position = walk.position;
    let body = walk
        .reader
        .read_statement(&walk.names.table, tokens, is_cut, end, position.radix)?;
    let said = body;
    let answer = body;
    let steps = walk.reader.steps();
    let next = match pass_statement(&mut walk.names, tokens, body, steps, string.len(), position) {
        Ok(next) => next,
        Err(stop) => return Err(stop),
    };
    match pass_end(&walk.names, &mut walk.brackets, next, said, steps, again) {
        Ok(()) => {}
        Err(stop) => return Err(stop),
    }
    walk.position = next;
    Ok(answer)
}

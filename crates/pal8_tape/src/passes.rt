//! What statements leave for those after them, but for words.
ghost use Rattle.std.specs.Prelude.{◌≡◌, ℕ, IfOk, Ok, OnOk};
ghost use Rattle.pal8_asm.specs.Sources.{PassResult, first_left, with_next};
ghost use Rattle.pal8_asm.specs.Walking.{statement_in};
ghost use Rattle.pal8_grammar.specs.Bodies as grammar;
ghost use Rattle.pal8_tape.specs.Joins.{empty_statement, is_lone_pause, is_operation, is_pause, is_pause_name, is_read, line_end};
ghost use Rattle.pal8_tape.specs.Passing.{Follows};
ghost use Rattle.pal8_tape.specs.Steps.{Meets, is_dollar};

use crate::JoinFault;
use pal8_asm::{Statement, Walk, pass_selected};
use pal8_lex::{End, Kind, Name, Token};
use pal8_places::{Options, Stop};
use std::alloc::Global;
use std::marker::Model;

/// The number of the name PAUSE, which its sixbit codes make.
const PAUSE: u64 = 0o200125230500;

/// Passes the statements of sources, one after the other, up to a fault or the `$`. It learns what names stand for and which statements are selected.
#[derive(Drop)]
pub struct Pass {
    walk: Walk,
    is_over: bool,
}

impl Model for Pass {
    ghost use Rattle.std.specs.Prelude.{◌<◌};
    ghost use Rattle.std.specs.Coded.{codes};
    ghost use Rattle.pal8_places.specs.contracts.names.KnownNames as known_names;
    ghost use Rattle.pal8_grammar.specs.contracts.source_names.SourceNames as source_names;
    ghost use Rattle.pal8_tape.specs.Passing.{PassState};

    ghost Value = { PassState };

    ghost coded = { Prim.hlevel (codes, known_names.the_row.coded, source_names.the_row.coded) };

    ghost view = { λ p. record { names = p.walk.names; position = p.walk.position; brackets = p.walk.brackets; is_over = p.is_over } };

    ghost invariant = { λ p. (p.walk.position.location < 0o20000) × (p.walk.position.field < 8) × (p.walk.position.shift < 0o10000) };
}

fn name_of(kind: Kind) -> Option<Name>
    ensures { result ≡ grammar.name_of kind }
{
    match kind {
        Kind::Name(name) => Some(name),
        Kind::Number(_) | Kind::Character(_) | Kind::Here | Kind::Operator(_) => None,
        Kind::Equals | Kind::Comma | Kind::Star | Kind::Opening(_) => None,
        Kind::Closing(_) | Kind::String | Kind::Bad => None,
    }
}

fn is_pause_name(name: Option<Name>) -> bool
    ensures { result ≡ is_pause_name name }
{
    match name {
        Some(name) => name.number() == PAUSE,
        None => false,
    }
}

fn is_lone_pause(tokens: &[Token]) -> bool
    ensures { result ≡ is_lone_pause tokens.now }
{
    match tokens {
        [token] => is_pause_name(name_of(token.kind)),
        _ => false,
    }
}

/// Whether a statement is PAUSE without tags, which no `<` ends.
fn is_pause(tokens: &[Token], end: End) -> bool
    ensures { result ≡ is_pause tokens.now end }
{
    is_lone_pause(tokens) && !matches!(end, End::Open)
}

/// The end of the empty statement that PAUSE counts as.
fn line_end(end: End) -> End
    ensures { result ≡ line_end end }
{
    match end {
        End::Close => End::Close,
        End::Semicolon | End::Line | End::Open | End::Dollar => End::Line,
    }
}

/// The empty statement that PAUSE counts as, which this ends.
fn empty_statement(end: End) -> Statement<'static>
    ensures { statement_in 0 result ≡ empty_statement end }
{
    Statement {
        line: 1,
        tokens: &[],
        string: &[],
        is_cut: false,
        end: line_end(end),
    }
}

fn is_dollar(end: End) -> bool
    ensures { result ≡ is_dollar end }
{
    matches!(end, End::Dollar)
}

impl Pass {
    /// A pass of no statement of sources that are read by these options. It takes no memory.
    pub fn new(alloc: Global, options: Options) -> Pass
        ensures { Follows result (Ok (first_left options)) }
    {
        Pass {
            walk: Walk::new(alloc, options),
            is_over: false,
        }
    }

    /// Whether the next statement is selected, after no fault and no `$`.
    pub fn is_read(&self) -> bool
        ensures { (left : PassResult) → Follows self.now left → result ≡ is_read left }
    {
        !self.is_over && self.walk.brackets.is_selected()
    }

    /// Whether a name begins memory references in the next statement (PAL8, in this project's profile). After a fault or the `$` none does.
    pub fn is_operation(&self, name: Name) -> bool
        ensures { (left : PassResult) → Follows self.now left → result ≡ is_operation left name }
    {
        !self.is_over && self.walk.names.table.operation(name).is_some()
    }

    /// Passes the next statement. One that isn't selected opens or closes a bracket at most. After a fault or the `$` none means anything. `Memory` is
    /// answered where memory ran out, and then no further statement means anything.
    pub fn take(&mut self, statement: Statement<'_>) -> Result<(), JoinFault>
        ensures { (at : ℕ) (left : PassResult) → Follows self.old left → OnOk result (Follows self.new (with_next (statement_in at statement.entry) left)) }
    {
        if self.is_over {
            return Ok(());
        }
        let end = statement.end;
        let again = end;
        if !self.walk.brackets.is_selected() {
            self.walk.brackets.pass(end, false)?;
            return Ok(());
        }
        match pass_selected(&mut self.walk, statement) {
            Ok(_) => {
                self.is_over = is_dollar(again);
                Ok(())
            }
            Err(Stop::At(_)) => {
                self.is_over = true;
                Ok(())
            }
            Err(Stop::Memory) => Err(JoinFault::Memory),
        }
    }

    /// Passes the next statement, or answers that it is PAUSE, which counts as an empty one then.
    pub(crate) fn meet(&mut self, statement: Statement<'_>) -> Result<bool, JoinFault>
        ensures { (at : ℕ) (left : PassResult) → Follows self.old left → IfOk result (λ paused. Meets left (statement_in at statement.entry) paused self.new) }
    {
        if is_pause(statement.tokens, statement.end) && self.is_read() {
            self.take(empty_statement(statement.end))?;
            return Ok(true);
        }
        self.take(statement)?;
        Ok(false)
    }
}

//! What stands in the expressions of a statement so far, where brackets nest.
ghost use Rattle.std.specs.Prelude.{◌≡◌, ◌∷◌, [], IfOk, OnOk};
ghost use Rattle.pal8_listing.specs.Closer.{binds_closer, begins_anew, first_levels, is_closer, is_closing, is_joined, is_opening, is_reserved_kind, level_after, levels_with};
ghost use Rattle.pal8_listing.specs.NotesSteps.{Pops};

use pal8_grammar::is_reserved;
use pal8_lex::{Kind, Operator, Token};
use std::alloc::{AllocError, Global};
use std::marker::Model;

/// What stands in an expression so far.
#[derive(Clone, Copy)]
pub enum Level {
    /// Nothing: a value begins.
    First,
    /// The name of an operation or of a form, and `I` and `Z` after it. A blank after it joins nothing.
    Lead,
    /// A term, and others that operators join to it.
    Term,
    /// Terms, of which a blank joins some.
    Joined,
}

/// The expressions that go on, the innermost first.
#[derive(Drop)]
pub struct Levels {
    open: Vec<Level>,
}

impl Model for Levels {
    ghost use Rattle.std.specs.Prelude.{List, reverse};
    ghost use Rattle.pal8_listing.specs.declared.levels.Level.{Level};

    ghost Value = { List Level };

    ghost view = { λ l. reverse l.open.items };
}

fn is_reserved_kind(kind: Kind) -> bool
    ensures { result ≡ is_reserved_kind kind }
{
    match kind {
        Kind::Name(name) => is_reserved(name),
        Kind::Number(_) | Kind::Character(_) | Kind::Here | Kind::Operator(_) => false,
        Kind::Equals | Kind::Comma | Kind::Star | Kind::Opening(_) => false,
        Kind::Closing(_) | Kind::String | Kind::Bad => false,
    }
}

fn is_opening(kind: Kind) -> bool
    ensures { result ≡ is_opening kind }
{
    matches!(kind, Kind::Opening(_))
}

fn is_closing(kind: Kind) -> bool
    ensures { result ≡ is_closing kind }
{
    matches!(kind, Kind::Closing(_))
}

/// Whether a value begins after a token.
fn begins_anew(kind: Kind) -> bool
    ensures { result ≡ begins_anew kind }
{
    matches!(kind, Kind::Equals | Kind::Comma | Kind::Star)
}

/// Whether a token is an operator that differs from a blank.
fn is_closer(kind: Kind) -> bool
    ensures { result ≡ is_closer kind }
{
    match kind {
        Kind::Operator(operator) => !matches!(operator, Operator::Or),
        Kind::Name(_) | Kind::Number(_) | Kind::Character(_) | Kind::Here => false,
        Kind::Equals | Kind::Comma | Kind::Star | Kind::Opening(_) => false,
        Kind::Closing(_) | Kind::String | Kind::Bad => false,
    }
}

fn is_joined(level: Level) -> bool
    ensures { result ≡ is_joined level }
{
    matches!(level, Level::Joined)
}

/// What stands in an expression after one token more, which begins a reference or a form if it comes first.
fn level_after(leads: bool, token: &Token, level: Level) -> Level
    ensures { result ≡ level_after leads token.now level }
{
    if begins_anew(token.kind) {
        return Level::First;
    }
    match level {
        Level::First => { if leads { Level::Lead } else { Level::Term } }
        Level::Lead => {
            if is_reserved_kind(token.kind) {
                Level::Lead
            } else {
                Level::Term
            }
        }
        Level::Term => {
            if token.is_spaced {
                Level::Joined
            } else {
                Level::Term
            }
        }
        Level::Joined => Level::Joined,
    }
}

impl Levels {
    /// A statement begins.
    pub fn new(alloc: Global) -> Result<Levels, AllocError>
        ensures { IfOk result (λ levels. levels ≡ first_levels) }
    {
        let mut levels = Levels {
            open: Vec::new(alloc),
        };
        levels.push(Level::First)?;
        Ok(levels)
    }

    fn push(&mut self, level: Level) -> Result<(), AllocError>
        ensures { OnOk result (self.new ≡ level ∷ self.old) }
    {
        self.open.push(level)?;
        Ok(())
    }

    fn pop(&mut self) -> Option<Level>
        ensures { Pops self.old result self.new }
    {
        self.open.pop()
    }

    /// Takes the next token, and answers whether it is an operator that binds closer than a blank before it.
    pub fn take(&mut self, leads: bool, token: &Token) -> Result<bool, AllocError>
        ensures closer { IfOk result (λ closer. closer ≡ binds_closer self.old token.now) }
        ensures levels { OnOk result (self.new ≡ levels_with leads token.now self.old) }
    {
        match self.pop() {
            Some(level) => {
                self.go_on(leads, token, level)?;
                Ok(is_joined(level) && is_closer(token.kind))
            }
            None => Ok(false),
        }
    }

    /// Takes the next token where this is the innermost expression.
    fn go_on(&mut self, leads: bool, token: &Token, level: Level) -> Result<(), AllocError>
        ensures { OnOk result (self.new ≡ levels_with leads token.now (level ∷ self.old)) }
    {
        if is_closing(token.kind) {
            return Ok(());
        }
        self.push(level_after(leads, token, level))?;
        if is_opening(token.kind) {
            self.push(Level::First)?;
        }
        Ok(())
    }
}

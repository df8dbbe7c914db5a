//! What the statements of a text name, and where.
ghost use Rattle.std.specs.Prelude.{◌≡◌, ◌++◌, ◌∷◌, [], ℕ, List, IfOk, OnOk, if◌then◌else◌};
ghost use Rattle.pal_lex.specs.Text.{text_of};
ghost use Rattle.pal8_lex.specs.Kinds.{is_comma};
ghost use Rattle.pal8_lex.specs.Reading.{HasRead};
ghost use Rattle.pal8_asm.specs.Pushing.{shown_statement};
ghost use Rattle.pal8_asm.specs.Sources.{PassResult, with_next};
ghost use Rattle.pal8_grammar.specs.Bodies.{free_name, is_equals, names_file};
ghost use Rattle.pal8_tape.specs.Joins.{is_read, pass_on};
ghost use Rattle.pal8_tape.specs.Passing.{Follows};
ghost use Rattle.pal8_listing.specs.Uses.{is_defining, mention_by, mentions, names_in, names_read};
ghost use Rattle.pal8_listing.specs.ItemSteps.{HasLooked, LooksAtOne};

use pal8_asm::{push_byte, shown_statement};
use pal8_grammar::free_name;
use pal8_lex::{End, Kind, Lexer, Name, Token};
use pal8_places::Options;
use pal8_tape::{JoinFault, Pass};
use std::alloc::{AllocError, Global};

/// The numbers of the names FILENAME and DEVICE, which their sixbit codes make.
const FILENAME: u64 = 0o061114051601;

const DEVICE: u64 = 0o040526110305;

/// A name in a statement, with the line of the join in which that begins.
#[derive(Clone, Copy)]
pub(crate) struct Mention {
    pub(crate) name: u64,
    pub(crate) line: u64,
    /// Whether the statement defines the name there.
    pub(crate) is_definition: bool,
}

fn is_comma(kind: Kind) -> bool
    ensures { result ≡ is_comma kind }
{
    matches!(kind, Kind::Comma)
}

fn is_equals(kind: Kind) -> bool
    ensures { result ≡ is_equals kind }
{
    matches!(kind, Kind::Equals)
}

/// Whether `,` or `=` comes first.
fn is_defining(tokens: &[Token]) -> bool
    ensures { result ≡ is_defining tokens.now }
{
    match tokens {
        [first, ..] => is_comma(first.kind) || is_equals(first.kind),
        [] => false,
    }
}

/// Whether FILENAME or DEVICE comes first.
fn names_file(tokens: &[Token]) -> bool
    ensures { result ≡ names_file tokens.now }
{
    match tokens {
        [first, ..] => match first.kind {
            Kind::Name(name) => name.number() == FILENAME || name.number() == DEVICE,
            Kind::Number(_) | Kind::Character(_) | Kind::Here | Kind::Operator(_) => false,
            Kind::Equals | Kind::Comma | Kind::Star | Kind::Opening(_) => false,
            Kind::Closing(_) | Kind::String | Kind::Bad => false,
        },
        [] => false,
    }
}

/// Puts the mention of a name, if there is one.
fn put_mention(
    found: &mut Vec<Mention>,
    name: Option<Name>,
    line: u64,
    is_definition: bool,
) -> Result<(), AllocError>
    ensures { OnOk result (found.new.items ≡ found.old.items ++ mention_by name line is_definition) }
{
    match name {
        Some(name) => {
            found.push(Mention {
                name: name.number(),
                line,
                is_definition,
            })?;
            Ok(())
        }
        None => Ok(()),
    }
}

/// Puts the names in the tokens of a statement that begins in a line.
fn put_mentions(found: &mut Vec<Mention>, line: u64, tokens: &[Token]) -> Result<(), AllocError>
    ensures { OnOk result (found.new.items ≡ found.old.items ++ names_in line tokens.now) }
{
    let mut rest = tokens;
    while let [token, others @ ..] = rest {
        if names_file(rest) {
            return Ok(());
        }
        put_mention(found, free_name(token.kind), line, is_defining(others))?;
        rest = others;
    }
    Ok(())
}

/// Puts the names in the tokens of the next statement of a pass, if it is read.
fn put_read(
    found: &mut Vec<Mention>,
    pass: &Pass,
    line: u64,
    tokens: &[Token],
) -> Result<(), AllocError>
    ensures { (left : PassResult) → Follows pass.now left → OnOk result (found.new.items ≡ found.old.items ++ (if is_read left then names_in line tokens.now else [])) }
{
    if !pass.is_read() {
        return Ok(());
    }
    put_mentions(found, line, tokens)
}

/// Puts the names in the statement that a lexer shows, if it is read, and passes it.
fn meet_statement(
    found: &mut Vec<Mention>,
    pass: &mut Pass,
    lexer: &Lexer,
    end: End,
) -> Result<(), JoinFault>
    ensures { (at : ℕ) (left : PassResult) → Follows pass.old left → OnOk result (LooksAtOne names_read left (shown_statement at end lexer.now)
        found.old.items found.new.items pass.new) }
{
    let statement = shown_statement(lexer, end);
    put_read(found, pass, statement.line, statement.tokens)?;
    pass.take(statement)?;
    Ok(())
}

/// Takes the next byte of a text, and puts the names in the statement that it ends.
fn meet_byte(
    found: &mut Vec<Mention>,
    pass: &mut Pass,
    lexer: &mut Lexer,
    byte: u8,
) -> Result<(), JoinFault>
    ensures { (first : PassResult) (here : List ℕ) → HasLooked names_read first here found.old.items lexer.old pass.old
        → OnOk result (HasLooked names_read first (byte ∷ here) found.new.items lexer.new pass.new) }
{
    match push_byte(lexer, byte)? {
        Some(end) => meet_statement(found, pass, lexer, end),
        None => Ok(()),
    }
}

/// The names in the statements of a text that are read by these options, in its order.
pub(crate) fn mentions(
    alloc: Global,
    options: Options,
    text: &[u8],
) -> Result<Vec<Mention>, JoinFault>
    ensures { IfOk result (λ found. found.items ≡ mentions options (text_of text.now)) }
{
    let mut found = Vec::new(alloc);
    let mut pass = Pass::new(alloc, options);
    let mut lexer = Lexer::new(alloc);
    let mut rest = text;
    while let [byte, others @ ..] = rest {
        meet_byte(&mut found, &mut pass, &mut lexer, *byte)?;
        rest = others;
    }
    Ok(found)
}

//! What the statements of a text name, and where.
ghost use Rattle.std.specs.Prelude.{◌≡◌, ◌++◌, ◌∷◌, [], ℕ, List, false, None, slice_index_or, IfOk, IfErr, OnOk};
ghost use Rattle.pal_lex.specs.Text.{text_of};
ghost use Rattle.pal_lex.specs.Statements.{statements};
ghost use Rattle.pal_lex.specs.Reading.{HasRead};
ghost use Rattle.pal_asm.specs.Faults.{first_order};
ghost use Rattle.source_listing.specs.References.{term_names, part_names, body_names, names_ended, mentions_at, mentions, AreByName};
ghost use Rattle.source_listing.specs.SpotSteps.{no_spot};
ghost use Rattle.host_sources.specs.declared.faults.SourceFault.TheVariants.{Memory};

use crate::spots::{Spot, spot_at};
use crate::tables::is_permanent;
use host_sources::laws::fine_by_bytes;
use host_sources::{SourceFault, statement_ended};
use pal_lex::{Body, Lexer, Name, Part, Statement, Term};
use std::alloc::{AllocError, Global};

/// A name in a statement, with the line of that.
#[derive(Clone, Copy)]
pub struct Mention {
    pub name: u64,
    pub spot: Spot,
}

/// The names in the statements of a text with no fault that the first pass meets, but for the permanent ones, in the order of the
/// text. These are the spots of its bytes. The only fault is `Memory`.
pub(crate) fn mentions(
    alloc: Global,
    text: &[u8],
    spots: &[Spot],
) -> Result<Vec<Mention>, SourceFault>
    requires { first_order (statements (text_of text.now)) ≡ None }
    ensures mentions { IfOk result
        (λ found. found.items ≡ mentions (λ at. slice_index_or spots.now at no_spot) (text_of text.now)) }
    ensures fault { IfErr result (λ fault. fault ≡ Memory) }
{
    fine_by_bytes();
    let mut lexer = Lexer::without_tokens(alloc);
    let mut found = Vec::new(alloc);
    let mut taken = 0;
    while taken < text.len() {
        let spot = spot_at(spots, taken);
        take_byte(&mut lexer, &mut found, text[taken], spot)?;
        taken += 1;
    }
    Ok(found)
}

/// Takes the next byte, and puts the names in the statement that it ends.
fn take_byte(
    lexer: &mut Lexer,
    found: &mut Vec<Mention>,
    byte: u8,
    spot: Spot,
) -> Result<(), SourceFault>
    ensures takes { (text : List ℕ) → HasRead lexer.old 0 text → lexer.old.may_pause ≡ false
        → first_order (statements (byte ∷ text)) ≡ None
        → OnOk result ((found.new.items ≡ found.old.items ++ mentions_at spot (names_ended text byte))
        × HasRead lexer.new 0 (byte ∷ text)) }
    ensures setting { lexer.new.may_pause ≡ lexer.old.may_pause }
    ensures fault { IfErr result (λ fault. fault ≡ Memory) }
{
    match statement_ended(lexer, byte)? {
        Some(statement) => {
            put_statement(found, &statement, spot)?;
            Ok(())
        }
        None => Ok(()),
    }
}

/// Puts the names in a statement, the tags first.
fn put_statement(
    found: &mut Vec<Mention>,
    statement: &Statement,
    spot: Spot,
) -> Result<(), AllocError>
    ensures { OnOk result (found.new.items ≡ found.old.items ++ mentions_at spot
        (statement.now.tags ++ body_names statement.now.body)) }
{
    put_names(found, statement.tags.names(), spot)?;
    put_body(found, &statement.body, spot)?;
    Ok(())
}

/// Puts names.
fn put_names(found: &mut Vec<Mention>, names: &[Name], spot: Spot) -> Result<(), AllocError>
    ensures { OnOk result (found.new.items ≡ found.old.items ++ mentions_at spot names.now) }
{
    let mut rest = names;
    while let [name, others @ ..] = rest {
        put_name(found, name.number(), spot)?;
        rest = others;
    }
    Ok(())
}

/// Puts the names in a body.
fn put_body(found: &mut Vec<Mention>, body: &Body, spot: Spot) -> Result<(), AllocError>
    ensures { OnOk result (found.new.items ≡ found.old.items ++ mentions_at spot (body_names body.now)) }
{
    match body {
        Body::Nothing | Body::Decimal | Body::Octal | Body::Pause => Ok(()),
        Body::Define(name, value) => {
            put_name(found, name.number(), spot)?;
            put_parts(found, value.parts(), spot)
        }
        Body::Origin(value) | Body::Field(value) | Body::Word(value) => {
            put_parts(found, value.parts(), spot)
        }
        Body::Reference { address, .. } => match address {
            Some(address) => put_parts(found, address.parts(), spot),
            None => Ok(()),
        },
    }
}

/// Puts the names in an expression.
fn put_parts(found: &mut Vec<Mention>, parts: &[Part], spot: Spot) -> Result<(), AllocError>
    ensures { OnOk result (found.new.items ≡ found.old.items ++ mentions_at spot (part_names parts.now)) }
{
    let mut rest = parts;
    while let [part, others @ ..] = rest {
        put_term(found, part.term, spot)?;
        rest = others;
    }
    Ok(())
}

/// Puts the name that a term is, if it is one.
fn put_term(found: &mut Vec<Mention>, term: Term, spot: Spot) -> Result<(), AllocError>
    ensures { OnOk result (found.new.items ≡ found.old.items ++ mentions_at spot (term_names term)) }
{
    match term {
        Term::Name(name) => put_name(found, name.number(), spot),
        Term::Number(_) | Term::Here => Ok(()),
    }
}

/// Puts a name, if it is no permanent one.
fn put_name(found: &mut Vec<Mention>, name: u64, spot: Spot) -> Result<(), AllocError>
    ensures { OnOk result (found.new.items ≡ found.old.items ++ mentions_at spot (name ∷ [])) }
{
    if is_permanent(name) {
        return Ok(());
    }
    found.push(Mention { name, spot })?;
    Ok(())
}

/// Puts mentions in the order of their names, those of one name in the order that they have.
pub(crate) fn sort(found: &mut Vec<Mention>) -> Result<(), AllocError>
    ensures { OnOk result (AreByName found.old.items found.new.items) }
{
    found.sort_by_key(|mention| mention.name)?;
    Ok(())
}

ghost use Rattle.std.specs.Prelude.{◌≡◌, true, false, Some, IfOk, [], ◌∷◌};
ghost use Rattle.pal_lex.specs.Language.{free_name};
ghost use Rattle.pal_lex.specs.Grammar.{sum, expression, map_body, reference, definition, field_number, lone_body, longer_body, body, without_tags, phrase_of_tokens, has_bad_number};
ghost use Rattle.pal_lex.specs.AfterSteps.{with_tags_before};

use crate::expressions::{expression, terms};
use crate::kinds::{is_bad, is_blank, is_comma, is_equals, is_sign, is_star};
use crate::language::{
    DECIMAL, FIELD, INDIRECT, OCTAL, ZERO_PAGE, free_name, is_named, operation_in,
};
use crate::phrases::Said;
use crate::{Body, Kind, Name, Operation, Tags, Token};
use std::alloc::{AllocError, Global};

/// An expression that stands alone.
fn word(alloc: Global, tokens: &[Token]) -> Result<Option<Body>, AllocError>
    ensures { IfOk result (λ b. b ≡ map_body Body.Word (expression tokens.now)) }
{
    let expression = expression(alloc, tokens)?;
    Ok(expression.map(Body::Word))
}

/// A memory reference with an address.
fn reference_body(
    alloc: Global,
    operation: Operation,
    indirect: bool,
    tokens: &[Token],
) -> Result<Option<Body>, AllocError>
    ensures { IfOk result (λ b. b ≡ map_body (λ e. Body.Reference operation indirect (Some e))
        (sum tokens.now)) }
{
    let address = terms(alloc, false, tokens)?;
    Ok(address.map(|address| Body::Reference {
        operation,
        indirect,
        address: Some(address),
    }))
}

/// A memory reference, by what stands after its operation.
fn reference(
    alloc: Global,
    operation: Operation,
    tokens: &[Token],
) -> Result<Option<Body>, AllocError>
    ensures { IfOk result (λ b. b ≡ reference operation false tokens.now) }
{
    let mut indirect = false;
    let mut rest = tokens;
    while let [blank, word, others @ ..] = rest {
        if !is_blank(blank.kind) {
            return Ok(None);
        }
        if is_named(INDIRECT, word.kind) {
            indirect = true;
        } else if !is_named(ZERO_PAGE, word.kind) {
            let (_, following) = rest.split_at(1);
            return reference_body(alloc, operation, indirect, following);
        }
        rest = others;
    }
    if !rest.is_empty() {
        return Ok(None);
    }
    Ok(Some(Body::Reference {
        operation,
        indirect,
        address: None,
    }))
}

/// The number of a field: a blank and an expression, or an expression that begins with a sign.
fn field(
    alloc: Global,
    tokens: &[Token],
    first: &Token,
    others: &[Token],
) -> Result<Option<Body>, AllocError>
    requires { tokens.now ≡ first.now ∷ others.now }
    ensures { IfOk result (λ b. b ≡ map_body Body.Field (field_number first.now others.now)) }
{
    if is_blank(first.kind) {
        let number = expression(alloc, others)?;
        return Ok(number.map(Body::Field));
    }
    if is_sign(first.kind) {
        let number = expression(alloc, tokens)?;
        return Ok(number.map(Body::Field));
    }
    Ok(None)
}

/// An origin, by what stands after its `*`.
fn origin(alloc: Global, tokens: &[Token]) -> Result<Option<Body>, AllocError>
    ensures { IfOk result (λ b. b ≡ map_body Body.Origin (expression tokens.now)) }
{
    let place = expression(alloc, tokens)?;
    Ok(place.map(Body::Origin))
}

/// A definition, by its name and what stands after `=`.
fn definition(alloc: Global, kind: Kind, tokens: &[Token]) -> Result<Option<Body>, AllocError>
    ensures { IfOk result (λ b. b ≡ definition (free_name kind) (expression tokens.now)) }
{
    match free_name(kind) {
        Some(name) => {
            let value = expression(alloc, tokens)?;
            Ok(value.map(|value| Body::Define(name, value)))
        }
        None => Ok(None),
    }
}

/// A body of one token.
fn lone_body(alloc: Global, tokens: &[Token], token: &Token) -> Result<Option<Body>, AllocError>
    requires { tokens.now ≡ token.now ∷ [] }
    ensures { IfOk result (λ b. b ≡ lone_body token.now) }
{
    if is_named(DECIMAL, token.kind) {
        return Ok(Some(Body::Decimal));
    }
    if is_named(OCTAL, token.kind) {
        return Ok(Some(Body::Octal));
    }
    match operation_in(token.kind) {
        Some(operation) => Ok(Some(Body::Reference {
            operation,
            indirect: false,
            address: None,
        })),
        None => word(alloc, tokens),
    }
}

/// A body of two tokens or more.
fn longer_body(
    alloc: Global,
    tokens: &[Token],
    first: &Token,
    second: &Token,
    others: &[Token],
) -> Result<Option<Body>, AllocError>
    requires { tokens.now ≡ first.now ∷ second.now ∷ others.now }
    ensures { IfOk result (λ b. b ≡ longer_body first.now second.now others.now) }
{
    let (_, following) = tokens.split_at(1);
    if is_star(first.kind) {
        return origin(alloc, following);
    }
    if is_equals(second.kind) {
        return definition(alloc, first.kind, others);
    }
    if is_named(FIELD, first.kind) {
        return field(alloc, following, second, others);
    }
    if is_blank(second.kind) {
        if let Some(operation) = operation_in(first.kind) {
            return reference(alloc, operation, following);
        }
    }
    word(alloc, tokens)
}

/// The body of a statement without its tags.
fn body(alloc: Global, tokens: &[Token]) -> Result<Option<Body>, AllocError>
    ensures { IfOk result (λ b. b ≡ body tokens.now) }
{
    match tokens {
        [] => Ok(Some(Body::Nothing)),
        [token] => lone_body(alloc, tokens, token),
        [first, second, others @ ..] => { longer_body(alloc, tokens, first, second, others) }
    }
}

/// What a statement says, by its tags and what stands after them.
fn with_tags(alloc: Global, names: Vec<Name>, tokens: &[Token]) -> Result<Option<Said>, AllocError>
    ensures { IfOk result (λ s. s ≡ with_tags_before names.items (without_tags (body tokens.now))) }
{
    let body = body(alloc, tokens)?;
    match body {
        Some(body) => Ok(Some(Said {
            tags: Tags::new(names),
            body,
        })),
        None => Ok(None),
    }
}

/// What a statement says: any number of tags, which are names with a comma, and a body.
pub fn phrase_of_tokens(alloc: Global, tokens: &[Token]) -> Result<Option<Said>, AllocError>
    ensures { IfOk result (λ s. s ≡ phrase_of_tokens tokens.now) }
{
    let mut names = Vec::new(alloc);
    let mut rest = tokens;
    while let [tag, comma, others @ ..] = rest {
        if !is_comma(comma.kind) {
            return with_tags(alloc, names, rest);
        }
        match free_name(tag.kind) {
            Some(name) => names.push(name)?,
            None => return Ok(None),
        }
        rest = others;
    }
    with_tags(alloc, names, rest)
}

/// Whether a token is a bad number.
pub fn has_bad_number(tokens: &[Token]) -> bool
    ensures { result ≡ has_bad_number tokens.now }
{
    let mut rest = tokens;
    while let [token, others @ ..] = rest {
        if is_bad(token.kind) {
            return true;
        }
        rest = others;
    }
    false
}

ghost use Rattle.std.specs.Prelude.{◌≡◌, ◌<◌, IfOk, Ok, Some, is_some, not};
ghost use Rattle.pal8_grammar.specs.SourceNames.{own_value};
ghost use Rattle.pal8_values.specs.Sums.{early_value};
ghost use Rattle.pal8_values.specs.Answering.{Answers};
ghost use Rattle.pal8_lex.specs.Kinds.{is_comma};
ghost use Rattle.pal8_grammar.specs.Bodies.{free_name};
ghost use Rattle.pal8_places.specs.Places.{as_code, spot_at, text_size, truth_of, has_later, is_later, with_body, with_define, with_definition, with_operation, with_statement, with_tag, with_tags, with_value_of, with_valued};
ghost use Rattle.pal8_places.specs.Steps.{Defines, Values};
ghost use Rattle.pal8_places.specs.Passing.{IsJudged, Passes, standing};

use crate::places::{
    Position, next_page, spot_at, to_place, with_field, with_page, with_relocation, with_size,
};
use crate::{Code, KnownNames, Options, Stop};
use pal_sym::SymFault;
use pal8_grammar::{Body, SourceNames, Step, free_name};
use pal8_lex::{Kind, Name, Radix, Token};
use pal8_values::{ValueFault, early_value, here_of};
use word12::Word;

/// Defines a tag at a place.
fn define_tag(names: &mut KnownNames, name: Name, position: Position) -> Result<(), Stop>
    requires location { position.location < 0o20000 }
    requires shift { position.shift < 0o10000 }
    ensures { Defines (with_tag (Some name) (standing names.old position)) position result names.new }
{
    let Some(place) = here_of(spot_at(position)) else {
        return Err(Stop::At(Code::PF));
    };
    match names.table.define_tag(name, place) {
        Ok(()) => {
            names.late.remove(&name.number());
            Ok(())
        }
        Err(SymFault::Memory) => Err(Stop::Memory),
        Err(SymFault::DT | SymFault::RD) => Err(Stop::At(Code::DT(name.number()))),
    }
}

/// Gives a name a value.
fn define(
    names: &mut KnownNames,
    name: Name,
    value: Word,
    position: Position,
) -> Result<Position, Stop>
    ensures passes { Passes (with_definition name value (standing names.old position)) result names.new }
    ensures same { IfOk result (λ p. p ≡ position) }
{
    match names.table.define_value(name, value) {
        Ok(()) => {
            names.late.remove(&name.number());
            Ok(position)
        }
        Err(SymFault::Memory) => Err(Stop::Memory),
        Err(SymFault::DT | SymFault::RD) => Err(Stop::At(Code::RD)),
    }
}

/// Gives a name a value, and makes it an operation.
fn define_operation(
    names: &mut KnownNames,
    name: Name,
    value: Word,
    position: Position,
) -> Result<Position, Stop>
    ensures passes { Passes (Ok (with_operation name value (standing names.old position))) result names.new }
    ensures same { IfOk result (λ p. p ≡ position) }
{
    names.table.define_operation(name, value)?;
    names.late.remove(&name.number());
    Ok(position)
}

/// Defines the tag that a token is.
fn define_token(names: &mut KnownNames, kind: Kind, position: Position) -> Result<(), Stop>
    requires location { position.location < 0o20000 }
    requires shift { position.shift < 0o10000 }
    ensures { Defines (with_tag (free_name kind) (standing names.old position)) position result names.new }
{
    match free_name(kind) {
        Some(name) => define_tag(names, name, position),
        None => Ok(()),
    }
}

fn is_comma(kind: Kind) -> bool
    ensures { result ≡ is_comma kind }
{
    matches!(kind, Kind::Comma)
}

/// Defines the tags in front of a statement, from the left.
fn define_tags(names: &mut KnownNames, tokens: &[Token], position: Position) -> Result<(), Stop>
    requires location { position.location < 0o20000 }
    requires shift { position.shift < 0o10000 }
    ensures { Defines (with_tags tokens.now (Ok (standing names.old position))) position result names.new }
{
    let mut rest = tokens;
    while let [tag, next, others @ ..] = rest {
        if !is_comma(next.kind) {
            return Ok(());
        }
        match define_token(names, tag.kind, position) {
            Ok(()) => {}
            Err(stop) => return Err(stop),
        }
        rest = others;
    }
    Ok(())
}

/// The value of steps at a position, by the names so far.
fn early_at(names: &KnownNames, position: Position, steps: &[Step]) -> Result<Word, ValueFault>
    requires location { position.location < 0o20000 }
    requires shift { position.shift < 0o10000 }
    ensures { Answers (early_value (own_value names.now.table) (spot_at position) steps.now) result }
{
    early_value(&names.table, spot_at(position), steps)
}

/// The value of steps by the names so far.
fn value_at(names: &KnownNames, position: Position, steps: &[Step]) -> Result<Word, Stop>
    requires location { position.location < 0o20000 }
    requires shift { position.shift < 0o10000 }
    ensures { Values (as_code (early_value (own_value names.now.table) (spot_at position) steps.now)) result }
{
    match early_at(names, position, steps) {
        Ok(value) => Ok(value),
        Err(ValueFault::UA(name)) => Err(Stop::At(Code::UA(name))),
        Err(ValueFault::PF) => Err(Stop::At(Code::PF)),
        Err(ValueFault::DZ) => Err(Stop::At(Code::DZ)),
        Err(ValueFault::IR) => Err(Stop::At(Code::IR)),
        Err(ValueFault::II) => Err(Stop::At(Code::II)),
        Err(ValueFault::PE) => Err(Stop::At(Code::PE)),
        Err(ValueFault::ZE) => Err(Stop::At(Code::ZE)),
        Err(ValueFault::RL) => Err(Stop::At(Code::RL)),
        Err(ValueFault::Memory) => Err(Stop::Memory),
    }
}

/// Whether a condition is true, at a position, by the names so far, or the first fault of its value: UA, PF, DZ. Another body isn't true (PAL8, in
/// this project's profile).
pub fn truth_of(
    names: &KnownNames,
    body: Body,
    steps: &[Step],
    position: Position,
) -> Result<bool, Stop>
    requires location { position.location < 0o20000 }
    requires shift { position.shift < 0o10000 }
    ensures { IsJudged (truth_of body steps.now (standing names.now position)) result }
{
    match body {
        Body::IfZero => match value_at(names, position, steps) {
            Ok(value) => Ok(value.get() == 0),
            Err(stop) => Err(stop),
        },
        Body::IfNotZero => match value_at(names, position, steps) {
            Ok(value) => Ok(value.get() != 0),
            Err(stop) => Err(stop),
        },
        Body::IfDefined(name) => Ok(names.table.value(name).is_some()),
        Body::IfUndefined(name) => Ok(names.table.value(name).is_none()),
        Body::Nothing | Body::Origin | Body::Define(_) | Body::Decimal | Body::Octal => Ok(false),
        Body::Field | Body::NextPage | Body::Page | Body::Zeros | Body::Text => Ok(false),
        Body::Listing | Body::Word | Body::NoPunch | Body::Punch | Body::Relocate => Ok(false),
        Body::Unrelocate | Body::FileName | Body::Device | Body::Expunge => Ok(false),
        Body::FixTable | Body::FixOperation(_) => Ok(false),
    }
}

/// Passes a body with its value.
fn pass_valued(
    names: &mut KnownNames,
    body: Body,
    value: Word,
    position: Position,
) -> Result<Position, Stop>
    requires location { position.location < 0o20000 }
    requires field { position.field < 8 }
    requires shift { position.shift < 0o10000 }
    ensures passes { Passes (with_valued body (standing names.old position) value) result names.new }
    ensures range { IfOk result (λ p. (p.location < 0o20000) × (p.field < 8) × (p.shift < 0o10000)) }
{
    match body {
        Body::Origin => Ok(to_place(value, position)),
        Body::Define(name) => define(names, name, value, position),
        Body::Field => with_field(value, position),
        Body::Page => with_page(value, position),
        Body::Zeros => with_size(usize::from(value.get()), position),
        Body::Relocate => Ok(with_relocation(value, position)),
        Body::Nothing | Body::Decimal | Body::Octal | Body::NextPage => Ok(position),
        Body::Text | Body::Listing | Body::Word => Ok(position),
        Body::IfZero | Body::IfNotZero | Body::IfDefined(_) | Body::IfUndefined(_) => Ok(position),
        Body::NoPunch | Body::Punch | Body::Unrelocate => Ok(position),
        Body::FileName | Body::Device | Body::Expunge | Body::FixTable => Ok(position),
        Body::FixOperation(name) => define_operation(names, name, value, position),
    }
}

/// Passes a body whose value is to be found.
fn pass_value(
    names: &mut KnownNames,
    body: Body,
    steps: &[Step],
    position: Position,
) -> Result<Position, Stop>
    requires location { position.location < 0o20000 }
    requires field { position.field < 8 }
    requires shift { position.shift < 0o10000 }
    ensures passes { Passes (with_value_of body (standing names.old position)
        (as_code (early_value (own_value names.old.table) (spot_at position) steps.now))) result names.new }
    ensures range { IfOk result (λ p. (p.location < 0o20000) × (p.field < 8) × (p.shift < 0o10000)) }
{
    let again = position;
    match value_at(names, position, steps) {
        Ok(value) => pass_valued(names, body, value, again),
        Err(stop) => Err(stop),
    }
}

/// Whether a name has no value.
fn is_undefined(names: &SourceNames, name: Name) -> bool
    ensures { result ≡ not (is_some (own_value names.now name)) }
{
    names.own_value(name).is_none()
}

/// Whether a name of a step has no value by now.
fn is_later(names: &SourceNames, step: Step) -> bool
    ensures { result ≡ is_later (own_value names.now) step }
{
    match step {
        Step::Name(name) => is_undefined(names, name),
        Step::Operation(_) | Step::Alone | Step::Indirect | Step::Permanent(_, _) => false,
        Step::Number(_) | Step::Here | Step::Sign(_) | Step::Open(_) | Step::Close => false,
    }
}

/// Whether a name of a value has none by now.
pub fn has_later(names: &SourceNames, steps: &[Step]) -> bool
    ensures { result ≡ has_later (own_value names.now) steps.now }
{
    let mut rest = steps;
    while let [step, others @ ..] = rest {
        if is_later(names, *step) {
            return true;
        }
        rest = others;
    }
    false
}

/// Passes a definition. A late one has no value yet.
fn pass_definition(
    names: &mut KnownNames,
    name: Name,
    steps: &[Step],
    position: Position,
) -> Result<Position, Stop>
    requires location { position.location < 0o20000 }
    requires field { position.field < 8 }
    requires shift { position.shift < 0o10000 }
    ensures passes { Passes (with_define name steps.now (standing names.old position) (has_later (own_value names.old.table) steps.now)) result names.new }
    ensures range { IfOk result (λ p. (p.location < 0o20000) × (p.field < 8) × (p.shift < 0o10000)) }
{
    if has_later(&names.table, steps) {
        names.put_late(name)?;
        return Ok(position);
    }
    pass_value(names, Body::Define(name), steps, position)
}

/// How many words a text of so many characters has.
fn text_size(options: Options, length: usize) -> usize
    ensures { result ≡ text_size options length }
{
    if options.is_without_zero {
        length / 2 + length % 2
    } else {
        length / 2 + 1
    }
}

/// Passes a body.
fn pass_body(
    names: &mut KnownNames,
    body: Body,
    steps: &[Step],
    length: usize,
    position: Position,
) -> Result<Position, Stop>
    requires location { position.location < 0o20000 }
    requires field { position.field < 8 }
    requires shift { position.shift < 0o10000 }
    ensures passes { Passes (with_body body steps.now length (standing names.old position)) result names.new }
    ensures range { IfOk result (λ p. (p.location < 0o20000) × (p.field < 8) × (p.shift < 0o10000)) }
{
    let again = body;
    match body {
        Body::Origin => pass_value(names, Body::Origin, steps, position),
        Body::Define(name) => pass_definition(names, name, steps, position),
        Body::Field => pass_value(names, Body::Field, steps, position),
        Body::Page => pass_value(names, Body::Page, steps, position),
        Body::Zeros => pass_value(names, Body::Zeros, steps, position),
        Body::Decimal => Ok(Position {
            radix: Radix::Decimal,
            ..position
        }),
        Body::Octal => Ok(Position {
            radix: Radix::Octal,
            ..position
        }),
        Body::NextPage => Ok(next_page(position)),
        Body::Text => with_size(text_size(position.options, length), position),
        Body::Word => with_size(1, position),
        Body::Nothing | Body::Listing => Ok(position),
        Body::IfZero | Body::IfNotZero | Body::IfDefined(_) | Body::IfUndefined(_) => Ok(position),
        Body::NoPunch => Ok(Position {
            is_punched: false,
            ..position
        }),
        Body::Punch => Ok(Position {
            is_punched: true,
            ..position
        }),
        Body::Unrelocate => Ok(Position {
            shift: 0,
            ..position
        }),
        Body::Relocate => pass_value(names, Body::Relocate, steps, position),
        Body::FileName => with_size(4, position),
        Body::Device => with_size(2, position),
        Body::Expunge => {
            names.table.expunge();
            Ok(position)
        }
        Body::FixTable => {
            names.table.fix_all();
            Ok(position)
        }
        Body::FixOperation(_) => pass_value(names, again, steps, position),
    }
}

/// Takes a statement, whose tokens begin with its tags, which are defined from the left. Then its body defines a name or sets the position of the
/// next statement, by the steps of its value and the length of its string. The position answered is that one.
///
/// Its fault is the first of these. First come PF and DT of each tag. Then come UA, PF, DZ and IR of a value that a place or a name rests on, then
/// FD, PG or RD. The last is PF, where a word is past 7777. A name that memory ran out for isn't defined, and those before it are (PAL8, in this
/// project's profile).
pub fn pass_statement(
    names: &mut KnownNames,
    tokens: &[Token],
    body: Body,
    steps: &[Step],
    length: usize,
    position: Position,
) -> Result<Position, Stop>
    requires location { position.location < 0o20000 }
    requires field { position.field < 8 }
    requires shift { position.shift < 0o10000 }
    ensures passes { Passes (with_statement tokens.now body steps.now length (standing names.old position)) result names.new }
    ensures range { IfOk result (λ p. (p.location < 0o20000) × (p.field < 8) × (p.shift < 0o10000)) }
{
    match define_tags(names, tokens, position) {
        Ok(()) => pass_body(names, body, steps, length, position),
        Err(stop) => Err(stop),
    }
}

ghost use Rattle.std.specs.Prelude.{◌≡◌, [], ◌∷◌, Ok};
ghost use Rattle.pal8_lex.specs.Judging.{tag_count};
ghost use Rattle.pal8_grammar.specs.Bodies.{alone, argument_steps, body_in, body_phrase, expression_steps, form_phrase, has_free_tags, number_tokens, named_phrase, operation_phrase, page_phrase, phrase, phrase_by, phrase_by_names, text_phrase, value_steps, word_phrase};
ghost use Rattle.pal8_grammar.specs.SourceNames.{names_of, vocabulary_of};
ghost use Rattle.pal8_grammar.specs.Steps.{Reads, ReadsBody};
ghost use Rattle.pal8_grammar.specs.Saying.{Says};
ghost use Rattle.pal8_grammar.specs.declared.bodies.Body.{Body};

use crate::forms::{ends_condition, form_by, names_file};
use crate::kinds::{free_name, is_equals, is_star, is_string, name_of, sign_of};
use crate::names::spaced_name;
use crate::{Form, GrammarFault, Reader, Rules, SourceNames, Stand, is_reserved};
use pal8_lex::{End, Kind, Name, Radix, Token, has_bad, has_bad_number, tag_count};
use std::alloc::AllocError;

/// What a body says. Its value reads as steps.
#[derive(Clone, Copy)]
pub enum Body {
    Nothing,
    /// `*` and an expression.
    Origin,
    /// A name, `=` and a value.
    Define(Name),
    Decimal,
    Octal,
    /// `FIELD` and an expression.
    Field,
    /// `PAGE` alone.
    NextPage,
    /// `PAGE` and an expression.
    Page,
    /// `ZBLOCK` and an expression.
    Zeros,
    /// `TEXT` and a string.
    Text,
    /// `EJECT` or `XLIST`.
    Listing,
    /// `IFZERO` and an expression.
    IfZero,
    /// `IFNZRO` and an expression.
    IfNotZero,
    /// `IFDEF` and a name.
    IfDefined(Name),
    /// `IFNDEF` and a name.
    IfUndefined(Name),
    /// `NOPUNCH`
    NoPunch,
    /// `ENPUNCH`
    Punch,
    /// `RELOC` and an expression.
    Relocate,
    /// `RELOC` alone.
    Unrelocate,
    /// `FILENAME` and a file's name, which reads as four words.
    FileName,
    /// `DEVICE` and a device's name, which reads as two words.
    Device,
    /// `EXPUNGE`
    Expunge,
    /// `FIXTAB`
    FixTable,
    /// `FIXMRI`, a name, `=` and a value.
    FixOperation(Name),
    /// A value.
    Word,
}

/// Whether the tags are names that aren't reserved.
fn has_free_tags(tokens: &[Token]) -> bool
    ensures { result ≡ has_free_tags tokens.now }
{
    let mut rest = tokens;
    while let [tag, next, others @ ..] = rest {
        if !matches!(next.kind, Kind::Comma) {
            return true;
        }
        if free_name(tag.kind).is_none() {
            return false;
        }
        rest = others;
    }
    true
}

impl Reader {
    /// Reads what a statement says by the names and the radix before it: its body, after tags that are names and aren't reserved. Its value's
    /// steps are then shown. `<` ends each condition, and nothing else.
    ///
    /// The fault is the first of IC, NU and SY that applies, or that memory ran out (PAL8, in this project's profile).
    pub fn read_statement(
        &mut self,
        names: &SourceNames,
        tokens: &[Token],
        is_cut: bool,
        end: End,
        radix: Radix,
    ) -> Result<Body, GrammarFault>
        ensures { Says (phrase_by_names (vocabulary_of (names_of names.now)) radix tokens.now is_cut end) result self.new }
    {
        if has_bad(tokens) {
            return Err(GrammarFault::IC);
        }
        let (tags, rest) = tokens.split_at(2 * tag_count(tokens));
        let judged = if names_file(rest) { tags } else { tokens };
        if has_bad_number(judged, radix) {
            return Err(GrammarFault::NU);
        }
        if is_cut || !has_free_tags(tokens) {
            return Err(GrammarFault::SY);
        }
        match self.read_body(names, radix, rest)? {
            Some(body) => {
                let again = body;
                if ends_condition(end, body) {
                    Ok(again)
                } else {
                    Err(GrammarFault::SY)
                }
            }
            None => Err(GrammarFault::SY),
        }
    }

    /// Reads a body.
    fn read_body(
        &mut self,
        names: &SourceNames,
        radix: Radix,
        tokens: &[Token],
    ) -> Result<Option<Body>, AllocError>
        ensures { ReadsBody (body_phrase (vocabulary_of (names_of names.now)) radix tokens.now) result self.new }
    {
        match tokens {
            [] => Ok(self.read_alone(Body::Nothing, tokens)),
            [first, rest @ ..] => {
                if is_star(first.kind) {
                    return self.read_expression(names, radix, Body::Origin, rest);
                }
                match name_of(first.kind) {
                    Some(name) => {
                        if is_reserved(name) {
                            self.read_form(names, radix, form_by(name), rest)
                        } else {
                            self.read_named(names, radix, name, tokens, rest)
                        }
                    }
                    None => self.read_word(names, radix, tokens),
                }
            }
        }
    }

    /// Reads a body that begins with a name that isn't reserved.
    fn read_named(
        &mut self,
        names: &SourceNames,
        radix: Radix,
        name: Name,
        tokens: &[Token],
        rest: &[Token],
    ) -> Result<Option<Body>, AllocError>
        ensures { (first : Token) → tokens.now ≡ first ∷ rest.now
            → ReadsBody (named_phrase (vocabulary_of (names_of names.now)) radix name first rest.now) result self.new }
    {
        match rest {
            [] => self.read_word(names, radix, tokens),
            [second, others @ ..] => {
                if is_equals(second.kind) {
                    self.read_value(names, radix, Body::Define(name), others)
                } else {
                    self.read_word(names, radix, tokens)
                }
            }
        }
    }

    /// Reads what stands after a reserved name.
    fn read_form(
        &mut self,
        names: &SourceNames,
        radix: Radix,
        form: Form,
        rest: &[Token],
    ) -> Result<Option<Body>, AllocError>
        ensures { ReadsBody (form_phrase (vocabulary_of (names_of names.now)) radix form rest.now) result self.new }
    {
        match form {
            Form::Alone(body) => Ok(self.read_alone(body, rest)),
            Form::Valued(body) => self.read_argument(names, radix, body, rest),
            Form::Page => {
                if rest.is_empty() {
                    return Ok(self.read_alone(Body::NextPage, rest));
                }
                self.read_argument(names, radix, Body::Page, rest)
            }
            Form::Reloc => match rest {
                [] => Ok(self.read_alone(Body::Unrelocate, rest)),
                _ => self.read_argument(names, radix, Body::Relocate, rest),
            },
            Form::Text => Ok(self.read_text(rest)),
            Form::IfDefined => Ok(self.read_defined(rest)),
            Form::IfUndefined => Ok(self.read_undefined(rest)),
            Form::FileName => self.read_file(rest),
            Form::Device => self.read_device(rest),
            Form::FixOperation => self.read_operation(names, radix, rest),
            Form::Later => Ok(None),
        }
    }

    /// Reads nothing more.
    fn read_alone(&mut self, body: Body, rest: &[Token]) -> Option<Body>
        ensures { ReadsBody (alone body rest.now) (Ok result) self.new }
    {
        self.clear(Stand::Value);
        if rest.is_empty() { Some(body) } else { None }
    }

    /// Reads the string of a text.
    fn read_text(&mut self, rest: &[Token]) -> Option<Body>
        ensures { ReadsBody (text_phrase rest.now) (Ok result) self.new }
    {
        self.clear(Stand::Value);
        match rest {
            [string] => {
                if is_string(string.kind) {
                    Some(Body::Text)
                } else {
                    None
                }
            }
            _ => None,
        }
    }

    /// Reads an expression after a blank, or one that begins with a sign.
    fn read_argument(
        &mut self,
        names: &SourceNames,
        radix: Radix,
        body: Body,
        rest: &[Token],
    ) -> Result<Option<Body>, AllocError>
        ensures { ReadsBody (phrase body (argument_steps (vocabulary_of (names_of names.now)) radix rest.now)) result self.new }
    {
        match rest {
            [] => Ok(None),
            [first, ..] => {
                if first.is_spaced || sign_of(first.kind).is_some() {
                    self.read_expression(names, radix, body, rest)
                } else {
                    Ok(None)
                }
            }
        }
    }

    /// Reads an expression.
    fn read_expression(
        &mut self,
        names: &SourceNames,
        radix: Radix,
        body: Body,
        tokens: &[Token],
    ) -> Result<Option<Body>, AllocError>
        ensures { ReadsBody (phrase body (expression_steps (vocabulary_of (names_of names.now)) radix tokens.now)) result self.new }
    {
        let rules = Rules {
            radix,
            has_literals: false,
        };
        let is_one = self.read(names, rules, Stand::Expression, tokens)?;
        if is_one { Ok(Some(body)) } else { Ok(None) }
    }

    /// Reads the value that a name is given.
    fn read_value(
        &mut self,
        names: &SourceNames,
        radix: Radix,
        body: Body,
        tokens: &[Token],
    ) -> Result<Option<Body>, AllocError>
        ensures { ReadsBody (phrase body (value_steps (vocabulary_of (names_of names.now)) radix tokens.now)) result self.new }
    {
        let rules = Rules {
            radix,
            has_literals: false,
        };
        let is_one = self.read(names, rules, Stand::Value, tokens)?;
        if is_one { Ok(Some(body)) } else { Ok(None) }
    }

    /// Reads the name of an operation and its value.
    fn read_operation(
        &mut self,
        names: &SourceNames,
        radix: Radix,
        rest: &[Token],
    ) -> Result<Option<Body>, AllocError>
        ensures { ReadsBody (operation_phrase (vocabulary_of (names_of names.now)) radix rest.now) result self.new }
    {
        match rest {
            [first, second, others @ ..] => {
                if !is_equals(second.kind) {
                    return Ok(None);
                }
                match spaced_name(first) {
                    Some(name) => self.read_value(names, radix, Body::FixOperation(name), others),
                    None => Ok(None),
                }
            }
            _ => Ok(None),
        }
    }

    /// Reads the value of a word.
    fn read_word(
        &mut self,
        names: &SourceNames,
        radix: Radix,
        tokens: &[Token],
    ) -> Result<Option<Body>, AllocError>
        ensures { ReadsBody (word_phrase (vocabulary_of (names_of names.now)) radix tokens.now) result self.new }
    {
        let rules = Rules {
            radix,
            has_literals: true,
        };
        let is_one = self.read(names, rules, Stand::Value, tokens)?;
        if is_one {
            Ok(Some(Body::Word))
        } else {
            Ok(None)
        }
    }
}

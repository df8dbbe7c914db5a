//! The names that stand after IFDEF and IFNDEF, and those of files and devices, which read as words of two characters.

ghost use Rattle.std.specs.Prelude.{◌≡◌, ◌<◌, Ok, [], ◌∷◌, ◌++◌, OnOk};
ghost use Rattle.pal8_grammar.specs.Bodies.{defined_phrase, device_phrase, file_phrase, phrase, undefined_phrase};
ghost use Rattle.pal8_grammar.specs.Names.{device_steps, extension_of, file_steps, is_here, one_name, pair_of, spaced_name, spaced_run, spelling_of};
ghost use Rattle.pal8_grammar.specs.Steps.{ReadsBody};
ghost use Rattle.pal8_grammar.specs.declared.bodies.Body.TheVariants as body;
ghost use Rattle.pal8_grammar.specs.declared.stands.Stand.TheVariants as stand;
ghost use Rattle.pal8_grammar.specs.declared.steps.Step.TheVariants as step;

use crate::kinds::free_name;
use crate::{Body, Reader, Stand, Step};
use pal8_lex::{Kind, Name, Token};
use std::alloc::AllocError;
use word12::Word;

/// The place of the first two of six characters in a name's number, and of the next two.
const FIRST: u64 = 0o100000000;

const SECOND: u64 = 0o10000;

/// The first six letters and digits of a token, if it is made of such.
fn spelling_of(kind: Kind) -> Option<Name>
    ensures { result ≡ spelling_of kind }
{
    match kind {
        Kind::Name(name) => Some(name),
        Kind::Number(number) => Some(number.spelling),
        Kind::Character(_) | Kind::Here | Kind::Operator(_) | Kind::Equals => None,
        Kind::Comma | Kind::Star | Kind::Opening(_) | Kind::Closing(_) => None,
        Kind::String | Kind::Bad => None,
    }
}

fn is_here(kind: Kind) -> bool
    ensures { result ≡ is_here kind }
{
    matches!(kind, Kind::Here)
}

/// The first six letters and digits of a token after a blank.
fn spaced_run(token: &Token) -> Option<Name>
    ensures { result ≡ spaced_run token.now }
{
    if token.is_spaced {
        spelling_of(token.kind)
    } else {
        None
    }
}

/// The name after a blank, if it isn't reserved.
pub(crate) fn spaced_name(token: &Token) -> Option<Name>
    ensures { result ≡ spaced_name token.now }
{
    if token.is_spaced {
        free_name(token.kind)
    } else {
        None
    }
}

/// The name that tokens are, if they are one after a blank.
fn one_name(tokens: &[Token]) -> Option<Name>
    ensures { result ≡ one_name tokens.now }
{
    match tokens {
        [name] => spaced_name(name),
        _ => None,
    }
}

/// The extension of a file's name: letters and digits after a `.`, both without a blank before them.
fn extension_of(point: &Token, run: &Token) -> Option<Name>
    ensures { result ≡ extension_of point.now run.now }
{
    if is_here(point.kind) && !point.is_spaced && !run.is_spaced {
        spelling_of(run.kind)
    } else {
        None
    }
}

/// Two characters of a name, by their place in its number.
fn pair_of(name: Name, place: u64) -> Word
    requires { 0 < place }
    ensures { result ≡ pair_of name place }
{
    Word::low((name.number() / place % 0o10000) as u16)
}

impl Reader {
    /// Reads the name after IFDEF.
    pub(crate) fn read_defined(&mut self, rest: &[Token]) -> Option<Body>
        ensures { ReadsBody (defined_phrase rest.now) (Ok result) self.new }
    {
        self.clear(Stand::Value);
        match one_name(rest) {
            Some(name) => Some(Body::IfDefined(name)),
            None => None,
        }
    }

    /// Reads the name after IFNDEF.
    pub(crate) fn read_undefined(&mut self, rest: &[Token]) -> Option<Body>
        ensures { ReadsBody (undefined_phrase rest.now) (Ok result) self.new }
    {
        self.clear(Stand::Value);
        match one_name(rest) {
            Some(name) => Some(Body::IfUndefined(name)),
            None => None,
        }
    }

    /// Reads the name of a file.
    pub(crate) fn read_file(&mut self, rest: &[Token]) -> Result<Option<Body>, AllocError>
        ensures { ReadsBody (file_phrase rest.now) result self.new }
    {
        match rest {
            [run] => self.read_file_name(spaced_run(run), Some(Name::from_number(0))),
            [run, point, extension] => {
                self.read_file_name(spaced_run(run), extension_of(point, extension))
            }
            _ => Ok(None),
        }
    }

    /// Puts the four words of a file's name with its extension.
    fn read_file_name(
        &mut self,
        name: Option<Name>,
        extension: Option<Name>,
    ) -> Result<Option<Body>, AllocError>
        ensures { ReadsBody (phrase body.FileName (file_steps name extension)) result self.new }
    {
        self.clear(Stand::Value);
        match name {
            Some(name) => match extension {
                Some(extension) => {
                    self.put_pair(name, FIRST)?;
                    self.put_pair(name, SECOND)?;
                    self.put_pair(name, 1)?;
                    self.put_pair(extension, FIRST)?;
                    Ok(Some(Body::FileName))
                }
                None => Ok(None),
            },
            None => Ok(None),
        }
    }

    /// Reads the name of a device.
    pub(crate) fn read_device(&mut self, rest: &[Token]) -> Result<Option<Body>, AllocError>
        ensures { ReadsBody (device_phrase rest.now) result self.new }
    {
        match rest {
            [run] => self.read_device_name(spaced_run(run)),
            _ => Ok(None),
        }
    }

    /// Puts the two words of a device's name.
    fn read_device_name(&mut self, name: Option<Name>) -> Result<Option<Body>, AllocError>
        ensures { ReadsBody (phrase body.Device (device_steps name)) result self.new }
    {
        self.clear(Stand::Value);
        match name {
            Some(name) => {
                self.put_pair(name, FIRST)?;
                self.put_pair(name, SECOND)?;
                Ok(Some(Body::Device))
            }
            None => Ok(None),
        }
    }

    /// Puts two characters of a name as a word after the others.
    fn put_pair(&mut self, name: Name, place: u64) -> Result<(), AllocError>
        requires { 0 < place }
        ensures { OnOk result (self.new ≡ record {
          stand = stand.Value;
          literals = self.old.literals;
          steps = self.old.steps ++ step.Number (pair_of name place) ∷ [];
        }) }
    {
        self.put(Step::Number(pair_of(name, place)), Stand::Value)?;
        Ok(())
    }
}

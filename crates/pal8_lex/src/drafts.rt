ghost use Rattle.std.specs.Prelude.{◌≡◌, ℕ, ◌+◌, true, false, ◌&&◌, is_some, List, [], ◌∷◌, ◌++◌, OnOk, OnErr};
ghost use Rattle.pal_lex.specs.Text.{limit};
ghost use Rattle.pal8_lex.specs.Runs.{first_kind, longer};
ghost use Rattle.pal8_lex.specs.Kinds.{takes_blank_after};
ghost use Rattle.pal8_lex.specs.Pieces.{Piece, after_blank, grown, head_by, is_blank, kind_by, open_by, string_by, takes_blank, with_byte, with_token};
ghost use Rattle.pal8_lex.specs.Rules.{effect_of};
ghost use Rattle.pal8_lex.specs.Drafting.{Present, present_of};
ghost use Rattle.pal8_lex.specs.Reading.{takes_room, takes_room_by};
ghost use Rattle.pal8_lex.specs.Steps.{has_string};

use crate::kinds::{head_again, head_with, takes_blank_after, takes_blank_before};
use crate::rules::{Effect, Head, Open, Shape, effect_of, is_blank};
use crate::runs::{first_kind, longer};
use crate::{Kind, Token};
use std::alloc::{AllocError, Global};
use std::marker::Model;

/// What is kept of a statement that isn't ended yet.
#[derive(Drop)]
pub struct Draft {
    tokens: Vec<Token>,
    string: Vec<u8>,
    state: Open,
    head: Head,
}

impl Model for Draft {
    ghost use Rattle.pal8_lex.specs.Drafting.{Present};

    ghost Value = { Present };

    ghost view = { λ d. record {
      tokens = d.tokens.items;
      string = d.string.items;
      state = d.state;
      head = d.head;
    } };
}

/// Whether a blank before a piece of this shape means something, as far as the piece decides it.
#[inline(always)]
fn takes_blank(shape: Shape) -> bool
    ensures { result ≡ takes_blank shape }
{
    match shape {
        Shape::Run | Shape::Quote | Shape::OpenString | Shape::ClosedString => true,
        Shape::Mark(kind) => takes_blank_before(kind),
        Shape::Blank | Shape::Comment | Shape::Title => false,
    }
}

/// Whether a token of this shape has a blank before it that means something.
#[inline(always)]
fn is_spaced(state: Open, shape: Shape) -> bool
    ensures { result ≡ (is_blank state && takes_blank shape) }
{
    is_blank(state) && takes_blank(shape)
}

/// Whether a piece of this shape is a string.
#[inline(always)]
fn has_string(shape: Shape) -> bool
    ensures { result ≡ has_string shape }
{
    matches!(shape, Shape::OpenString | Shape::ClosedString)
}

/// The token that a byte begins.
#[inline(always)]
fn kind_by(shape: Shape, byte: u8) -> Option<Kind>
    ensures { result ≡ kind_by shape byte [] }
{
    match shape {
        Shape::Run => Some(first_kind(byte)),
        Shape::Mark(kind) => Some(kind),
        Shape::Quote => Some(Kind::Bad),
        Shape::OpenString | Shape::ClosedString => Some(Kind::String),
        Shape::Blank | Shape::Comment | Shape::Title => None,
    }
}

/// What a blank makes of what it stands after.
#[inline(always)]
fn after_blank(state: Open) -> Open
    ensures { result ≡ after_blank state }
{
    match state {
        Open::Start => Open::Start,
        Open::Blank | Open::Run(_) | Open::Term | Open::Quote => Open::Blank,
        Open::String(_) | Open::Comment | Open::Title => Open::Blank,
    }
}

/// What stands after a piece that a byte begins.
#[inline(always)]
fn open_by(shape: Shape, byte: u8, before: Open) -> Open
    ensures { result ≡ open_by shape byte [] before }
{
    match shape {
        Shape::Run => Open::Run(0o100000000),
        Shape::Blank => after_blank(before),
        Shape::Mark(kind) => {
            if takes_blank_after(kind) {
                Open::Term
            } else {
                Open::Start
            }
        }
        Shape::Quote => Open::Quote,
        Shape::OpenString => Open::String(byte),
        Shape::ClosedString => Open::Term,
        Shape::Comment => Open::Comment,
        Shape::Title => Open::Title,
    }
}

/// The kind of the last token.
#[inline(always)]
fn last_kind(tokens: &[Token]) -> Kind
    ensures { (before : List Token) (last : Token) → tokens.now ≡ before ++ last ∷ []
        → result ≡ last.kind }
{
    match tokens.last() {
        Some(last) => last.kind,
        None => Kind::Bad,
    }
}

/// Makes another token of the last one, which is one byte longer.
#[inline(always)]
fn change_last(tokens: &mut [Token], kind: Kind, end: u64)
    ensures { (before : List Token) (last : Token) → tokens.old ≡ before ++ last ∷ []
        → tokens.new ≡ before ++ record {
          kind = kind;
          is_spaced = last.is_spaced;
          start = last.start;
          end = end;
        } ∷ [] }
{
    if let Some(last) = tokens.last_mut() {
        last.kind = kind;
        last.end = end;
    }
}

impl Draft {
    /// Nothing of a statement.
    pub fn new(alloc: Global) -> Draft
        ensures { result ≡ present_of [] }
    {
        Draft {
            tokens: Vec::new(alloc),
            string: Vec::new(alloc),
            state: Open::Start,
            head: Head::Empty,
        }
    }

    /// Begins the next statement. It keeps the room of this one.
    pub fn clear(&mut self)
        ensures { self.new ≡ present_of [] }
    {
        self.tokens.clear();
        self.string.clear();
        self.state = Open::Start;
        self.head = Head::Empty;
    }

    /// The tokens so far.
    #[inline]
    pub fn tokens(&self) -> &[Token]
        ensures { result.now ≡ self.now.tokens }
    {
        &self.tokens
    }

    /// The string so far.
    #[inline]
    pub fn string(&self) -> &[u8]
        ensures { result.now ≡ self.now.string }
    {
        &self.string
    }

    /// What the next byte stands after.
    #[inline(always)]
    pub fn state(&self) -> Open
        ensures { result ≡ self.now.state }
    {
        self.state
    }

    /// What stands after the tags.
    #[inline(always)]
    pub fn head(&self) -> Head
        ensures { result ≡ self.now.head }
    {
        self.head
    }

    /// Puts a byte, at this place, after the others. It ends no statement.
    #[inline(always)]
    pub fn put(&mut self, byte: u8, place: u64) -> Result<(), AllocError>
        ensures refused { OnErr result (self.new ≡ self.old) }
        ensures room { OnErr result (takes_room (effect_of self.old.state self.old.head byte) ≡ true) }
        ensures put { (before : List Piece) (at : ℕ) → place ≡ limit at → self.old ≡ present_of before
            → OnOk result (self.new ≡ present_of (with_byte (byte, at) before)) }
    {
        match effect_of(self.state, self.head, byte) {
            Effect::Begins(shape) => self.begin(shape, byte, place),
            Effect::Lengthens => {
                self.lengthen(byte, place);
                Ok(())
            }
            Effect::GoesOn => self.go_on(byte, place),
            Effect::Closes => {
                self.close(place);
                Ok(())
            }
            Effect::Completes(character) => {
                self.complete(character, place);
                Ok(())
            }
        }
    }

    /// Begins a piece.
    #[inline(always)]
    fn begin(&mut self, shape: Shape, byte: u8, place: u64) -> Result<(), AllocError>
        ensures refused { OnErr result (self.new ≡ self.old) }
        ensures room { OnErr result (takes_room_by shape ≡ true) }
        ensures begun { (before : List Piece) (at : ℕ) → place ≡ limit at → self.old ≡ present_of before
            → OnOk result (self.new
            ≡ present_of (record { shape = shape; first = (byte, at); others = [] } ∷ before)) }
    {
        let kind_shape = shape;
        let next_shape = shape;
        let is_spaced = is_spaced(self.state, shape);
        self.add(kind_by(kind_shape, byte), is_spaced, place)?;
        self.enter(next_shape, byte);
        Ok(())
    }

    /// Puts a token after the others, if there is one.
    #[inline(always)]
    fn add(&mut self, kind: Option<Kind>, is_spaced: bool, place: u64) -> Result<(), AllocError>
        ensures refused { OnErr result (self.new ≡ self.old) }
        ensures room { OnErr result (is_some kind ≡ true) }
        ensures added { (at : ℕ) → place ≡ limit at → OnOk result (self.new ≡ record {
          tokens = with_token kind is_spaced at (at + 1) self.old.tokens;
          string = self.old.string;
          state = self.old.state;
          head = head_by kind self.old.head;
        }) }
    {
        match kind {
            None => Ok(()),
            Some(kind) => {
                let again = kind;
                self.tokens.reserve(1)?;
                self.tokens.push_reserved(Token {
                    kind,
                    is_spaced,
                    start: place,
                    end: place.saturating_add(1),
                });
                self.head = head_with(again, self.head);
                Ok(())
            }
        }
    }

    /// Comes after the first byte of a piece.
    #[inline(always)]
    fn enter(&mut self, shape: Shape, byte: u8)
        ensures { self.new ≡ record {
          tokens = self.old.tokens;
          string = string_by shape [] self.old.string;
          state = open_by shape byte [] self.old.state;
          head = self.old.head;
        } }
    {
        let again = shape;
        self.state = open_by(shape, byte, self.state);
        if has_string(again) {
            self.string.clear();
        }
    }

    /// Goes on with a name or a number.
    #[inline(always)]
    pub fn lengthen(&mut self, byte: u8, place: u64)
        ensures { (newest : Piece) (older : List Piece) (at : ℕ) → place ≡ limit at
            → self.old ≡ present_of (newest ∷ older) → newest.shape ≡ Shape.Run
            → self.new ≡ present_of (grown Shape.Run (byte, at) newest ∷ older) }
    {
        if let Open::Run(weight) = self.state {
            let kind = longer(last_kind(&self.tokens), weight, byte);
            let again = kind;
            change_last(&mut self.tokens, kind, place.saturating_add(1));
            self.head = head_again(again, self.head);
            self.state = Open::Run(weight / 0o100);
        }
    }

    /// Goes on with a string.
    #[inline(always)]
    fn go_on(&mut self, byte: u8, place: u64) -> Result<(), AllocError>
        ensures refused { OnErr result (self.new ≡ self.old) }
        ensures string { (newest : Piece) (older : List Piece) (at : ℕ) → place ≡ limit at
            → self.old ≡ present_of (newest ∷ older) → newest.shape ≡ Shape.OpenString
            → OnOk result (self.new ≡ present_of (grown Shape.OpenString (byte, at) newest ∷ older)) }
    {
        self.string.push(byte % 0o200)?;
        change_last(&mut self.tokens, Kind::String, place.saturating_add(1));
        Ok(())
    }

    /// Ends a string by its delimiter.
    #[inline(always)]
    fn close(&mut self, place: u64)
        ensures { (newest : Piece) (older : List Piece) (at byte : ℕ) → place ≡ limit at
            → self.old ≡ present_of (newest ∷ older) → newest.shape ≡ Shape.OpenString
            → self.new ≡ present_of (grown Shape.ClosedString (byte, at) newest ∷ older) }
    {
        change_last(&mut self.tokens, Kind::String, place.saturating_add(1));
        self.state = Open::Term;
    }

    /// Makes a `"` a character.
    #[inline(always)]
    fn complete(&mut self, character: u8, place: u64)
        ensures { (newest : Piece) (older : List Piece) (at byte : ℕ) → place ≡ limit at
            → self.old ≡ present_of (newest ∷ older) → newest.shape ≡ Shape.Quote
            → self.new
            ≡ present_of (grown (Shape.Mark (Kind.Character character)) (byte, at) newest ∷ older) }
    {
        change_last(
            &mut self.tokens,
            Kind::Character(character),
            place.saturating_add(1),
        );
        self.state = Open::Term;
    }
}

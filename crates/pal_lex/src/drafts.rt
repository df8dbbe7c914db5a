ghost use Rattle.std.specs.Prelude.{◌≡◌, ℕ, Bool, true, false, if◌then◌else◌, ◌≤◌, length, Some, None, IfSome, List, [], ◌∷◌, ◌++◌, OnOk, OnErr};
ghost use Rattle.pal_lex.specs.Text.{limit};
ghost use Rattle.pal_lex.specs.Cutting.{Piece, Run, Mark, is_coded, is_operand, is_blank, sign_of, with_character, with_blank, with_sign};
ghost use Rattle.pal_lex.specs.Runs.{base};
ghost use Rattle.pal_lex.specs.GrowthSteps.{grown};
ghost use Rattle.pal_lex.specs.Drafting.{cut, cut_of, spoiled_cut};
ghost use Rattle.pal_lex.specs.Steps.{pending, PutsRun};

use crate::growing::run_of;
use crate::runs::{Radix, first_kind, grown};
use crate::{Kind, Term, Token, Tokens};
use std::alloc::{AllocError, Global};
use std::marker::Model;
use std::mem;

/// What the next byte of a stretch stands after.
#[derive(Clone, Copy)]
pub enum Tail {
    /// Nothing, or a sign beside which a blank means nothing.
    Sign,
    Dot,
    /// A blank, at this place, which counts once a token follows that is no such sign.
    Blank(u64),
    /// A name or a number. The next character of the name has this weight.
    Run(u32),
}

/// What is kept of a stretch that isn't ended yet.
#[derive(Drop)]
pub struct Draft {
    illegal: bool,
    tail: Tail,
    tokens: Vec<Token>,
}

impl Model for Draft {
    ghost use Rattle.pal_lex.specs.Drafting.{Cut};

    ghost Value = { Cut };

    ghost view = { λ d. record {
      illegal = d.illegal;
      tail = d.tail;
      tokens = d.tokens.items;
    } };
}

/// The sign of a byte, beside which a blank means nothing.
#[inline(always)]
fn sign_of(byte: u8) -> Option<Kind>
    ensures { result ≡ sign_of byte }
{
    match byte {
        b'+' => Some(Kind::Plus),
        b'-' => Some(Kind::Minus),
        b'=' => Some(Kind::Equals),
        b',' => Some(Kind::Comma),
        b'*' => Some(Kind::Star),
        _ => None,
    }
}

/// Puts a letter or a digit after the last token, a name or a number.
#[inline(always)]
fn lengthen(tokens: &mut [Token], radix: Radix, weight: u32, character: u8, end: u64)
    ensures { (before : List Token) (last : Token) → tokens.old ≡ before ++ last ∷ []
        → tokens.new ≡ before ++ record {
          kind = grown (base radix) weight character last.kind;
          start =
              last.start;
          end = end;
        } ∷ [] }
{
    if let Some(last) = tokens.last_mut() {
        last.kind = grown(last.kind, radix, weight, character);
        last.end = end;
    }
}

impl Draft {
    /// Nothing of a stretch.
    pub fn new(alloc: Global) -> Draft
        ensures { (radix : Radix) → result ≡ cut radix [] }
    {
        Draft {
            illegal: false,
            tail: Tail::Sign,
            tokens: Vec::new(alloc),
        }
    }

    /// Whether a byte of the stretch stands in no statement.
    pub fn is_illegal(&self) -> bool
        ensures { result ≡ self.now.illegal }
    {
        self.illegal
    }

    /// The tokens of the stretch, with no blank at its end.
    pub fn tokens(&self) -> &[Token]
        ensures { result.now ≡ self.now.tokens }
    {
        &self.tokens
    }

    /// Begins the next stretch, and gives the tokens of this one where they are kept. Else it keeps their room.
    pub fn take(&mut self, alloc: Global, keeps_tokens: bool) -> Tokens
        ensures tokens { result ≡ (if keeps_tokens then self.old.tokens else []) }
        ensures anew { (radix : Radix) → self.new ≡ cut radix [] }
    {
        self.illegal = false;
        self.tail = Tail::Sign;
        if keeps_tokens {
            return Tokens::new(mem::replace(&mut self.tokens, Vec::new(alloc)));
        }
        self.tokens.clear();
        Tokens::new(Vec::new(alloc))
    }

    /// Puts a live byte, at this place, after the stretch.
    #[inline(always)]
    pub fn put(&mut self, radix: Radix, byte: u8, place: u64) -> Result<(), AllocError>
        ensures refused { OnErr result (self.new ≡ self.old) }
        ensures put { (live : List (ℕ × ℕ)) (at : ℕ) → place ≡ limit at → self.old ≡ cut radix live
            → OnOk result (self.new ≡ cut radix ((byte, at) ∷ live)) }
    {
        if self.illegal {
            return Ok(());
        }
        match byte {
            b'A'..=b'Z' | b'0'..=b'9' => self.put_character(radix, byte, place),
            b' ' | b'\t' => {
                self.put_blank(place);
                Ok(())
            }
            b'.' => self.put_dot(place),
            _ => match sign_of(byte) {
                Some(sign) => self.put_sign(sign, place),
                None => {
                    self.spoil();
                    Ok(())
                }
            },
        }
    }

    /// Keeps no token of a stretch that has an illegal byte: nothing asks for them.
    fn spoil(&mut self)
        ensures { self.new ≡ spoiled_cut }
    {
        self.illegal = true;
        self.tail = Tail::Sign;
        self.tokens.clear();
    }

    /// Puts a token after the others, and a blank before it where one is pending.
    #[inline(always)]
    fn add(&mut self, token: Token, tail: Tail) -> Result<(), AllocError>
        ensures refused { OnErr result (self.new ≡ self.old) }
        ensures added { OnOk result (self.new ≡ record {
          illegal = self.old.illegal;
          tail = tail;
          tokens = self.old.tokens ++ pending self.old.tail ++ token ∷ [];
        }) }
    {
        self.tokens.reserve(2)?;
        if let Tail::Blank(place) = self.tail {
            self.tokens.push_reserved(Token {
                kind: Kind::Blank,
                start: place,
                end: place.saturating_add(1),
            });
        }
        self.tokens.push_reserved(token);
        self.tail = tail;
        Ok(())
    }

    #[inline(always)]
    fn put_character(&mut self, radix: Radix, byte: u8, place: u64) -> Result<(), AllocError>
        requires { is_coded byte ≡ true }
        ensures refused { OnErr result (self.new ≡ self.old) }
        ensures put { (before : List Piece) (at : ℕ) → place ≡ limit at
            → self.old ≡ cut_of (base radix) false before
            → OnOk result (self.new ≡ cut_of (base radix) false (with_character byte at before)) }
    {
        let end = place.saturating_add(1);
        if let Tail::Run(weight) = self.tail {
            lengthen(&mut self.tokens, radix, weight, byte, end);
            self.tail = Tail::Run(weight / 0o100);
            return Ok(());
        }
        let token = Token {
            kind: first_kind(radix, byte),
            start: place,
            end,
        };
        self.add(token, Tail::Run(0o100000000))
    }

    /// Puts a letter or a digit after the stretch. It also puts those that stand at the prefix of other bytes, as many as
    /// it likes. It answers how many of these, or nothing where memory ran out.
    #[inline(always)]
    pub fn put_run(&mut self, radix: Radix, first: u8, others: &[u8], place: u64) -> Option<usize>
        requires { is_coded first ≡ true }
        ensures range { IfSome result (λ more. more ≤ length others.now) }
        ensures refused { result ≡ None → self.new ≡ self.old }
        ensures put { (illegal : Bool) (before : List Piece) (at : ℕ) → place ≡ limit at
            → self.old ≡ cut_of (base radix) illegal before
            → PutsRun (base radix) illegal before first others.now at result self.old self.new }
    {
        if self.illegal {
            return Some(0);
        }
        if let Tail::Run(_) = self.tail {
            return match self.put_character(radix, first, place) {
                Ok(()) => Some(0),
                Err(_) => None,
            };
        }
        let run = run_of(radix, first, others, place);
        match self.add(run.token, Tail::Run(run.weight)) {
            Ok(()) => Some(run.more),
            Err(_) => None,
        }
    }

    #[inline(always)]
    fn put_blank(&mut self, place: u64)
        ensures { (base : ℕ) (before : List Piece) (at : ℕ) → place ≡ limit at
            → self.old ≡ cut_of base false before
            → self.new ≡ cut_of base false (with_blank at before) }
    {
        match self.tail {
            Tail::Sign => {}
            Tail::Blank(_) => {}
            Tail::Dot => self.tail = Tail::Blank(place),
            Tail::Run(_) => self.tail = Tail::Blank(place),
        }
    }

    #[inline(always)]
    fn put_dot(&mut self, place: u64) -> Result<(), AllocError>
        ensures refused { OnErr result (self.new ≡ self.old) }
        ensures put { (base : ℕ) (before : List Piece) (at : ℕ) → place ≡ limit at
            → self.old ≡ cut_of base false before
            → OnOk result (self.new ≡ cut_of base false (Mark (Kind.Term Term.Here) at ∷ before)) }
    {
        let token = Token {
            kind: Kind::Term(Term::Here),
            start: place,
            end: place.saturating_add(1),
        };
        self.add(token, Tail::Dot)
    }

    /// Puts a sign after the tokens. A blank before it means nothing.
    #[inline(always)]
    fn put_sign(&mut self, sign: Kind, place: u64) -> Result<(), AllocError>
        requires operand { is_operand sign ≡ false }
        requires blank { is_blank sign ≡ false }
        ensures refused { OnErr result (self.new ≡ self.old) }
        ensures put { (base : ℕ) (before : List Piece) (at : ℕ) → place ≡ limit at
            → self.old ≡ cut_of base false before
            → OnOk result (self.new ≡ cut_of base false (with_sign (Some sign) at before)) }
    {
        self.tokens.push(Token {
            kind: sign,
            start: place,
            end: place.saturating_add(1),
        })?;
        self.tail = Tail::Sign;
        Ok(())
    }
}

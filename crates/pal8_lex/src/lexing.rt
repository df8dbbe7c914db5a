ghost use Rattle.std.specs.Prelude.{◌≡◌, ℕ, true, Some, None, List, []};
ghost use Rattle.pal8_lex.specs.Statements.{is_string};
ghost use Rattle.pal8_lex.specs.Reading.{Answers, HasRead, anew};
ghost use Rattle.pal8_lex.specs.Steps.{GoesFurther, is_run};
ghost use Rattle.pal8_lex.specs.declared.rules.Open.TheVariants.{Comment};

use crate::Token;
use crate::drafts::Draft;
use crate::rules::{
    End, Open, as_read, end_of, ends_by, is_dropped, is_letter_or_digit, is_string,
};
use std::alloc::{AllocError, Global};
use std::marker::Model;

/// Reads the bytes of a text, and shows each statement where it ends. It keeps the tokens of the newest statement alone.
#[derive(Drop)]
pub struct Lexer {
    place: u64,
    line: u64,
    end: Option<End>,
    draft: Draft,
}

impl Model for Lexer {
    ghost use Rattle.pal8_lex.specs.Reading.{Progress};

    ghost Value = { Progress };

    ghost view = { λ l. record { place = l.place; line = l.line; end = l.end; draft = l.draft } };
}

impl Lexer {
    /// A lexer of no byte. It takes no memory.
    #[tactic(auto, unfolding(crate::specs::Reading::HasRead))]
    pub fn new(alloc: Global) -> Lexer
        ensures read { HasRead result [] }
        ensures none { result.end ≡ None }
    {
        Lexer {
            place: 0,
            line: 1,
            end: None,
            draft: Draft::new(alloc),
        }
    }

    /// Takes the next byte, and answers whether it ends a statement, which is then shown until the next byte that is there.
    ///
    /// CR, form feed, NUL and rubout are as if they weren't there. Where memory ran out the byte was not taken, and may be pushed
    /// again. The statement that was shown is then gone. Only a byte that begins a token, or one of a string, takes memory.
    #[inline(always)]
    pub fn push(&mut self, byte: u8) -> Result<bool, AllocError>
        ensures { (text : List ℕ) → HasRead self.old text → Answers text byte result self.new }
    {
        if self.go_further(byte) {
            return Ok(false);
        }
        self.push_any(byte)
    }

    /// Takes the next byte, whatever it does.
    #[tactic(auto, unfolding(crate::specs::Reading::HasRead))]
    #[inline(never)]
    fn push_any(&mut self, byte: u8) -> Result<bool, AllocError>
        ensures { (text : List ℕ) → HasRead self.old text → Answers text byte result self.new }
    {
        if is_dropped(byte) {
            self.place = self.place.saturating_add(1);
            return Ok(false);
        }
        self.begin_anew();
        let byte = as_read(byte);
        if ends_by(self.draft.state(), self.draft.head(), byte) {
            self.end = Some(end_of(byte));
            self.place = self.place.saturating_add(1);
            return Ok(true);
        }
        self.draft.put(byte, self.place)?;
        self.place = self.place.saturating_add(1);
        Ok(false)
    }

    /// The line of the newest statement, 1 and up, or 2^64 - 1 where it would be more.
    #[inline]
    pub fn line(&self) -> u64
        ensures { result ≡ self.now.line }
    {
        self.line
    }

    /// What ended the newest statement, or nothing where it goes on.
    #[inline]
    pub fn end(&self) -> Option<End>
        ensures { result ≡ self.now.end }
    {
        self.end
    }

    /// The tokens of the newest statement so far, without the blanks that mean nothing.
    #[inline]
    pub fn tokens(&self) -> &[Token]
        ensures { result.now ≡ self.now.draft.tokens }
    {
        self.draft.tokens()
    }

    /// The bytes of the newest statement's string so far, each modulo 0o200, without its delimiters; none where it has no string.
    #[inline]
    pub fn string(&self) -> &[u8]
        ensures { result.now ≡ self.now.draft.string }
    {
        self.draft.string()
    }

    /// Whether the newest statement's string has no second delimiter so far.
    #[inline]
    pub fn is_cut(&self) -> bool
        ensures { result ≡ is_string self.now.draft.state }
    {
        is_string(self.draft.state())
    }

    /// Takes a byte that goes on with a name, a number or a comment, and answers whether it does. Most bytes of a source do, and are read so in
    /// the least time.
    #[inline(always)]
    fn go_further(&mut self, byte: u8) -> bool
        ensures { GoesFurther byte result self.old self.new }
    {
        if self.end.is_some() {
            return false;
        }
        match self.draft.state() {
            Open::Comment => self.pass_comment(byte),
            Open::Run(_) => self.lengthen_run(byte),
            Open::Start | Open::Blank | Open::Term | Open::Quote => false,
            Open::String(_) | Open::Title => false,
        }
    }

    /// Takes a byte of a comment, unless it ends the line.
    #[inline(always)]
    fn pass_comment(&mut self, byte: u8) -> bool
        requires goes_on { self.old.end ≡ None }
        requires state { self.old.draft.state ≡ Comment }
        ensures { GoesFurther byte result self.old self.new }
    {
        if byte == b'\n' {
            return false;
        }
        self.place = self.place.saturating_add(1);
        true
    }

    /// Takes a letter or a digit after others.
    #[inline(always)]
    fn lengthen_run(&mut self, byte: u8) -> bool
        requires goes_on { self.old.end ≡ None }
        requires state { is_run self.old.draft.state ≡ true }
        ensures { GoesFurther byte result self.old self.new }
    {
        if !is_letter_or_digit(byte) {
            return false;
        }
        self.draft.lengthen(byte, self.place);
        self.place = self.place.saturating_add(1);
        true
    }

    /// Begins the next statement, where the newest one is ended.
    #[inline(always)]
    fn begin_anew(&mut self)
        ensures { self.new ≡ anew self.old }
    {
        if let Some(end) = self.end {
            if let End::Line = end {
                self.line = self.line.saturating_add(1);
            }
            self.end = None;
            self.draft.clear();
        }
    }
}

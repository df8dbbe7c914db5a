ghost use Rattle.std.specs.Prelude.{◌≡◌, ◌≤◌, ℕ, IfOk, is_some, None, List, [], ◌∷◌, length, slice_index};
ghost use Rattle.pal_lex.specs.Text.{text_of};
ghost use Rattle.pal_lex.specs.Text.{limit};
ghost use Rattle.pal8_lex.specs.Reading.{anew};
ghost use Rattle.pal8_asm.specs.Sources.{first_left, place_after, with_end};
ghost use Rattle.pal8_grammar.specs.SourceNames.{own_value};
ghost use Rattle.std.specs.Ordering.{nat_cmp};
ghost use Rattle.std.specs.BTreeMap.{get};
ghost use Rattle.pal8_asm.specs.Marks.{last_values, marks_of};
ghost use Rattle.pal8_asm.specs.Tapes.{without_clash, words_of_entries};
ghost use Rattle.pal8_asm.specs.Steps.{Closes, HasTaken, IsOnTheWay, ReadsOn, TakesByte};
ghost use Rattle.pal8_asm.specs.Assembling.{MakesWords, ReadsText, remainder_of};
ghost use Rattle.pal8_places.specs.Passing.{is_late};
ghost use Rattle.pal8_places.specs.declared.options.Options.{Options};

use crate::{AsmFault, Assembler, MadeWords, Mark, Place, push_byte, shown_statement};
use pal8_lex::{End, Lexer};
use pal8_places::Code;
use std::alloc::{AllocError, Global};
use std::collections::BTreeMap;
use word12::Word;

/// For how many words at most room is made before they are read.
const MOST_WORDS: usize = 100_000;

/// How many bytes a line with a word has, as a guess.
const LINE_LENGTH: usize = 10;

/// How many words a text has, as a guess by its length. Nothing but time rests on it.
fn word_guess(text: &[u8]) -> usize {
    text.len() / LINE_LENGTH
}

/// The line of what comes next.
fn next_line(lexer: &Lexer) -> u64
    ensures { result ≡ (anew lexer.now).line }
{
    let line = lexer.line();
    match lexer.end() {
        Some(End::Line) => line.saturating_add(1),
        Some(End::Semicolon | End::Open | End::Close | End::Dollar) | None => line,
    }
}

impl Assembler {
    /// Takes the next byte of a text, at this place.
    fn take_byte(&mut self, lexer: &mut Lexer, at: u64, byte: u8) -> Result<(), AsmFault>
        ensures { (options : Options) (here : List ℕ) → at ≡ limit (length here) → HasTaken options here lexer.old self.old
            → TakesByte options (byte ∷ here) result lexer.new self.new }
    {
        match push_byte(lexer, byte)? {
            Some(end) => self.take(at, shown_statement(lexer, end)),
            None => Ok(()),
        }
    }

    /// Takes the first of these bytes.
    fn take_first(&mut self, lexer: &mut Lexer, at: u64, bytes: &[u8]) -> Result<(), AsmFault>
        requires { 1 ≤ length bytes.now }
        ensures { (options : Options) (here : List ℕ) → at ≡ limit (length here) → HasTaken options here lexer.old self.old
            → TakesByte options (slice_index bytes.now 0 ∷ here) result lexer.new self.new }
    {
        self.take_byte(lexer, at, bytes[0])
    }

    /// Whether a `$` has ended the source.
    fn is_over(&self) -> bool
        ensures { result ≡ is_some self.now.end }
    {
        self.end.is_some()
    }

    /// Takes further bytes of a text, up to the `$` that ends its source.
    fn read_on(&mut self, lexer: &mut Lexer, at: &mut u64, text: &[u8]) -> Result<(), AsmFault>
        ensures { (options : Options) (whole : List ℕ) → IsOnTheWay options whole text.now lexer.old at.old self.old
            → ReadsOn options whole result lexer.new at.new self.new }
    {
        let mut rest = text;
        while let [_, others @ ..] = rest {
            if self.is_over() {
                return Ok(());
            }
            match self.take_first(lexer, *at, rest) {
                Ok(()) => {}
                Err(fault) => return Err(fault),
            }
            *at = at.saturating_add(1);
            rest = others;
        }
        Ok(())
    }

    /// The place of the `$` that ended a text, or the fault of its end, which has this place: a bracket is open, or there is no `$`.
    fn close(&self, end: Place) -> Result<Place, AsmFault>
        ensures { (text : List ℕ) → (self.now.end ≡ None → end ≡ place_after text)
            → Closes (with_end text (remainder_of self.now) self.now.brackets self.now.end) result self.now }
    {
        let is_closed = self.walk.brackets.is_empty();
        match self.end {
            Some(dollar) => {
                if is_closed {
                    return Ok(dollar);
                }
                Err(AsmFault::At(Code::PH, dollar))
            }
            None => {
                if is_closed {
                    return Err(AsmFault::At(Code::NE, end));
                }
                Err(AsmFault::At(Code::PH, end))
            }
        }
    }

    /// Makes room for the words of a text, if there is memory for that.
    fn make_room(&mut self, text: &[u8])
        ensures { self.new ≡ self.old }
    {
        self.entries.make_room(word_guess(text).min(MOST_WORDS));
    }

    /// Takes the bytes of a text up to the `$` that ends its source, and answers the place of that. It gives what its statements leave. The assembler
    /// has taken no statement yet.
    ///
    /// Its fault is the first of its statements in their order, or else PH where a bracket is open at the `$`. Without a `$` it is PH or NE with the
    /// place of the text's end (PAL8, in this project's profile).
    pub fn read(&mut self, alloc: Global, text: &[u8]) -> Result<Place, AsmFault>
        ensures { (options : Options) → remainder_of self.old ≡ first_left options → ReadsText options (text_of text.now) result self.new }
    {
        let mut lexer = Lexer::new(alloc);
        let mut at = 0;
        self.make_room(text);
        match self.read_on(&mut lexer, &mut at, text) {
            Ok(()) => {}
            Err(fault) => return Err(fault),
        }
        let line = next_line(&lexer);
        self.close(Place { line, start: at })
    }

    /// Makes the words that the statements left, by what names stand for at last, and gives the punched ones, each with its cell, in the order of
    /// the source. Its pools hold the values of the literals and links.
    ///
    /// Its fault is the first of a word, in their order: UA, DZ, II, RL, or PE or ZE where a page has no cell left. Else it is the first clash of a
    /// punched word with a pool's cell, by the later of the two statements (PAL8, in this project's profile).
    pub fn words(&self, alloc: Global) -> Result<MadeWords, AsmFault>
        ensures { MakesWords (without_clash (words_of_entries (own_value self.now.names.table) (is_late self.now.names) self.now.entries)) result }
    {
        let mut made = MadeWords::new(alloc)?;
        match self.entries.make(alloc, &self.walk.names, &mut made) {
            Ok(()) => {}
            Err(fault) => return Err(fault),
        }
        let clash = made.clash;
        match clash {
            Some(fault) => Err(AsmFault::At(fault.code, fault.place)),
            None => Ok(made),
        }
    }

    /// The marks of the punched words, in the order of the source.
    pub fn marks(&self, alloc: Global) -> Result<Vec<Mark>, AllocError>
        ensures { IfOk result (λ marks. marks.items ≡ marks_of self.now.entries) }
    {
        self.entries.marks(alloc)
    }

    /// What the source's own names stand for at last, by the numbers that their six sixbit codes make. A late definition counts as others do (PAL8,
    /// in this project's profile).
    pub fn last_values(&self, alloc: Global) -> Result<BTreeMap<u64, Word>, AllocError>
        ensures { IfOk result (λ values. (n : ℕ) → get nat_cmp values n ≡ last_values (own_value self.now.names.table) (is_late self.now.names) self.now.entries n) }
    {
        self.entries.last_values(alloc, &self.walk.names)
    }
}

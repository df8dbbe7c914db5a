ghost use Rattle.std.specs.Prelude.{◌≡◌, ℕ, ◌≤◌, ◌&&◌, not, true, false, length, take, None, Ok, Err, List, [], ◌∷◌};
ghost use Rattle.pal_lex.specs.Text.{is_ignored, is_end, is_over, line_after};
ghost use Rattle.pal_lex.specs.Steps.{has_cr, TakesByte};
ghost use Rattle.pal_lex.specs.Statements.{radix_by, statements, first_fault};
ghost use Rattle.pal_lex.specs.Joins.{is_lone_pause};
ghost use Rattle.pal_lex.specs.Cutting.{is_coded};
ghost use Rattle.pal_lex.specs.Progress.{setting};
ghost use Rattle.pal_lex.specs.Reading.{HasRead, HasPaused, HasFailed, Answers, Pauses, ReadsOn, Ends, EndsSource, BeginsNext};
ghost use Rattle.pal_lex.specs.JudgeSteps.{Judges, comment_after, dies, after_byte, after_statement, ended_statement, after_pause, pause_statement, next, after_fault};

use crate::characters::{LINE_FEED, before_cr, comment_after, dies, is_end, is_ignored};
use crate::drafts::Draft;
use crate::grammar::{has_bad_number, phrase_of_tokens};
use crate::language::{PAUSE, is_named};
use crate::phrases::Said;
use crate::runs::Radix;
use crate::{Body, LexFault, Statement, Tags, Token};
use std::alloc::Global;
use std::marker::Model;

#[derive(Clone, Copy)]
enum State {
    Reading,
    /// After the PAUSE that ends the present source.
    Paused,
    /// After the `$` that ends the source.
    Over,
    Failed(LexFault),
}

/// The radix after a statement.
fn radix_by(body: &Body, before: Radix) -> Radix
    ensures { result ≡ radix_by body.now before }
{
    match body {
        Body::Decimal => Radix::Decimal,
        Body::Octal => Radix::Octal,
        Body::Nothing | Body::Pause | Body::Origin(_) | Body::Define(..) => before,
        Body::Field(_) | Body::Reference { .. } | Body::Word(_) => before,
    }
}

/// Whether tokens are the word PAUSE alone.
fn is_lone_pause(tokens: &[Token]) -> bool
    ensures { result ≡ is_lone_pause tokens.now }
{
    match tokens {
        [token] => is_named(PAUSE, token.kind),
        _ => false,
    }
}

/// Whether a whole stretch is the word PAUSE alone.
fn is_pause(draft: &Draft) -> bool
    ensures { result ≡ (not draft.now.illegal && is_lone_pause draft.now.tokens) }
{
    !draft.is_illegal() && is_lone_pause(draft.tokens())
}

/// What a whole stretch says, or its fault.
fn judge(alloc: Global, draft: &Draft, line: u64) -> Result<Said, LexFault>
    ensures { Judges line draft.now.illegal draft.now.tokens result }
{
    if draft.is_illegal() {
        return Err(LexFault::IC(line));
    }
    if has_bad_number(draft.tokens()) {
        return Err(LexFault::NU(line));
    }
    let said = phrase_of_tokens(alloc, draft.tokens())?;
    match said {
        Some(said) => Ok(said),
        None => Err(LexFault::SY(line)),
    }
}

/// Reads a source byte by byte, and hands out its statements. It keeps the tokens of the present statement alone.
///
/// The source may be several, one after the other: PAUSE ends each but the last, and the next one goes on where it stood. In
/// each contract a text is the join of the sources so far, of which the present one begins after so many bytes.
#[derive(Drop)]
pub struct Lexer {
    alloc: Global,
    state: State,
    source: u64,
    may_pause: bool,
    comment: bool,
    place: u64,
    line: u64,
    radix: Radix,
    keeps_tokens: bool,
    draft: Draft,
}

impl Model for Lexer {
    ghost use Rattle.pal_lex.specs.Progress.{Progress};

    ghost Value = { Progress };

    ghost view = { λ l. record {
      state = l.state;
      source = l.source;
      may_pause = l.may_pause;
      comment = l.comment;
      place = l.place;
      line = l.line;
      radix = l.radix;
      keeps_tokens = l.keeps_tokens;
      draft = l.draft;
    } };
}

impl Lexer {
    /// A lexer of no byte of a single source. It hands out each statement with its tokens.
    pub fn new(alloc: Global) -> Lexer
        ensures read { HasRead result 0 [] }
        ensures setting { setting result ≡ record { keeps_tokens = true; source = 0; may_pause = false } }
    {
        Lexer::new_lexer(alloc, true, false)
    }

    /// A lexer of no byte of a single source that hands out each statement without its tokens. It takes less time and memory.
    pub fn without_tokens(alloc: Global) -> Lexer
        ensures read { HasRead result 0 [] }
        ensures setting { setting result ≡ record { keeps_tokens = false; source = 0; may_pause = false } }
    {
        Lexer::new_lexer(alloc, false, false)
    }

    /// A lexer of no byte of several sources, of which the first may pause. It hands out each statement with its tokens.
    pub fn several(alloc: Global) -> Lexer
        ensures read { HasRead result 0 [] }
        ensures setting { setting result ≡ record { keeps_tokens = true; source = 0; may_pause = true } }
    {
        Lexer::new_lexer(alloc, true, true)
    }

    /// The same without tokens.
    pub fn several_without_tokens(alloc: Global) -> Lexer
        ensures read { HasRead result 0 [] }
        ensures setting { setting result ≡ record { keeps_tokens = false; source = 0; may_pause = true } }
    {
        Lexer::new_lexer(alloc, false, true)
    }

    /// Takes the next byte, and hands out the statement that it ends, if it ends one.
    ///
    /// For the byte that ends a statement with a fault the answer is that fault, and for each later byte the same. After the `$`
    /// that ends the source, and after the PAUSE that ends one of several, the answer for each byte is nothing. Where memory ran
    /// out the byte was not taken, and may be pushed again.
    #[tactic(auto, unfolding(crate::specs::Statements::statements, crate::specs::Reading::HasRead, crate::specs::Reading::HasPaused, crate::specs::Reading::HasFailed))]
    #[inline(always)]
    pub fn push(&mut self, byte: u8) -> Result<Option<Statement>, LexFault>
        ensures answers { (seam : ℕ) (text : List ℕ) → HasRead self.old seam text
            → Answers seam text byte result self.old self.new }
        ensures over { (seam : ℕ) (text : List ℕ) → HasRead self.old seam text
            → first_fault (statements text) ≡ None → is_over text ≡ true → self.new ≡ self.old }
        ensures paused { (text : List ℕ) → HasPaused self.old text
            → (result ≡ Ok None) × (self.new ≡ self.old) }
        ensures failed { (fault : LexFault) → HasFailed self.old fault
            → (result ≡ Err fault) × (self.new ≡ self.old) }
        ensures setting { setting self.new ≡ setting self.old }
    {
        match self.state {
            State::Failed(fault) => Err(fault),
            State::Over => Ok(None),
            State::Paused => Ok(None),
            State::Reading => self.read(byte),
        }
    }

    /// Takes bytes from the beginning of these that end no statement, as many as it likes, and answers how many. It stops before
    /// a byte that ends a statement, and where memory runs out, which [`Lexer::push`] then answers. After the end of a source it
    /// takes all bytes for which [`Lexer::push`] answers nothing.
    #[tactic(auto, unfolding(crate::specs::Reading::HasRead, crate::specs::Reading::HasPaused, crate::specs::Reading::HasFailed))]
    pub fn read_on(&mut self, bytes: &[u8]) -> usize
        ensures range { result ≤ length bytes.now }
        ensures read { (seam : ℕ) (text : List ℕ) → HasRead self.old seam text
            → ReadsOn seam text bytes.now result self.new }
        ensures over { (seam : ℕ) (text : List ℕ) → HasRead self.old seam text
            → first_fault (statements text) ≡ None → is_over text ≡ true → self.new ≡ self.old }
        ensures paused { (text : List ℕ) → HasPaused self.old text
            → (result ≡ length bytes.now) × (self.new ≡ self.old) }
        ensures failed { (fault : LexFault) → HasFailed self.old fault
            → (result ≡ 0) × (self.new ≡ self.old) }
        ensures setting { setting self.new ≡ setting self.old }
    {
        match self.state {
            State::Failed(_) => 0,
            State::Over => bytes.len(),
            State::Paused => bytes.len(),
            State::Reading => self.take(bytes),
        }
    }

    /// Goes on with the next source, where PAUSE ended the one before; it may pause unless it is the last.
    ///
    /// For a source with neither PAUSE nor `$` the answer is NE, with its last line, and so for each later call. For one with a
    /// fault the answer is that fault. After the `$` that ends them all nothing comes.
    #[tactic(auto, unfolding(crate::specs::Statements::statements, crate::specs::Reading::HasRead, crate::specs::Reading::HasPaused, crate::specs::Reading::HasFailed))]
    pub fn next_source(&mut self, last: bool) -> Result<(), LexFault>
        ensures read { (seam : ℕ) (text : List ℕ) → HasRead self.old seam text
            → Ends text result × EndsSource result self.old self.new }
        ensures paused { (text : List ℕ) → HasPaused self.old text
            → BeginsNext text last result self.old self.new }
        ensures failed { (fault : LexFault) → HasFailed self.old fault
            → (result ≡ Err fault) × (self.new ≡ self.old) }
        ensures tokens { self.new.keeps_tokens ≡ self.old.keeps_tokens }
    {
        match self.state {
            State::Failed(fault) => Err(fault),
            State::Over => Ok(()),
            State::Paused => {
                self.begin(last);
                Ok(())
            }
            State::Reading => {
                self.state = State::Failed(LexFault::NE(self.line));
                Err(LexFault::NE(self.line))
            }
        }
    }

    /// Whether the source has its `$`, and no fault before it.
    #[tactic(auto, unfolding(crate::specs::Statements::statements, crate::specs::Reading::HasRead, crate::specs::Reading::HasPaused, crate::specs::Reading::HasFailed))]
    pub fn end(&self) -> Result<(), LexFault>
        ensures read { (seam : ℕ) (text : List ℕ) → HasRead self.now seam text → Ends text result }
        ensures paused { (text : List ℕ) → HasPaused self.now text
            → result ≡ Err (LexFault.NE (line_after text)) }
        ensures failed { (fault : LexFault) → HasFailed self.now fault → result ≡ Err fault }
    {
        match self.state {
            State::Reading => Err(LexFault::NE(self.line)),
            State::Paused => Err(LexFault::NE(self.line)),
            State::Over => Ok(()),
            State::Failed(fault) => Err(fault),
        }
    }

    #[tactic(auto, unfolding(crate::specs::Statements::statements, crate::specs::Reading::HasRead))]
    fn new_lexer(alloc: Global, keeps_tokens: bool, may_pause: bool) -> Lexer
        ensures read { HasRead result 0 [] }
        ensures setting { setting result
            ≡ record { keeps_tokens = keeps_tokens; source = 0; may_pause = may_pause } }
    {
        Lexer {
            alloc,
            state: State::Reading,
            source: 0,
            may_pause,
            comment: false,
            place: 0,
            line: 1,
            radix: Radix::Octal,
            keeps_tokens,
            draft: Draft::new(alloc),
        }
    }

    /// Begins the next source.
    fn begin(&mut self, last: bool)
        ensures { self.new ≡ next last self.old }
    {
        self.state = State::Reading;
        self.source = self.source.saturating_add(1);
        self.may_pause = !last;
        self.comment = false;
        self.place = 0;
    }

    /// Takes a byte of a source that goes on.
    #[tactic(auto, unfolding(crate::specs::Statements::statements, crate::specs::Reading::HasRead))]
    #[inline(always)]
    fn read(&mut self, byte: u8) -> Result<Option<Statement>, LexFault>
        requires { self.old.state ≡ State.Reading }
        ensures answers { (seam : ℕ) (text : List ℕ) → HasRead self.old seam text
            → Answers seam text byte result self.old self.new }
        ensures setting { setting self.new ≡ setting self.old }
    {
        if dies(self.comment, byte) {
            self.pass(byte);
            return Ok(None);
        }
        if is_end(byte) {
            return self.finish(byte);
        }
        self.draft.put(self.radix, byte, self.place)?;
        self.pass(byte);
        Ok(None)
    }

    /// Takes bytes of a source that goes on, while they end no statement.
    fn take(&mut self, bytes: &[u8]) -> usize
        requires { self.old.state ≡ State.Reading }
        ensures range { result ≤ length bytes.now }
        ensures read { (seam : ℕ) (text : List ℕ) → HasRead self.old seam text
            → ReadsOn seam text bytes.now result self.new }
        ensures setting { setting self.new ≡ setting self.old }
    {
        let mut taken = 0;
        loop {
            let (_, rest) = bytes.split_at(taken);
            let count = self.take_some(rest);
            if count == 0 {
                return taken;
            }
            taken += count;
        }
    }

    /// Takes a byte, a whole comment, or a whole name or number of a source that goes on, or nothing. What most lines have
    /// besides names and numbers is compiled for itself.
    #[inline(always)]
    fn take_some(&mut self, bytes: &[u8]) -> usize
        requires { self.old.state ≡ State.Reading }
        ensures range { result ≤ length bytes.now }
        ensures read { (seam : ℕ) (text : List ℕ) → HasRead self.old seam text
            → ReadsOn seam text bytes.now result self.new }
        ensures state { self.new.state ≡ State.Reading }
        ensures setting { setting self.new ≡ setting self.old }
    {
        if self.comment {
            return self.take_comment(bytes);
        }
        match bytes {
            [byte, others @ ..] => match *byte {
                b'A'..=b'Z' | b'0'..=b'9' => self.take_run(bytes, *byte, others),
                b'\t' => usize::from(self.take_byte(b'\t')),
                b' ' => usize::from(self.take_byte(b' ')),
                b'/' => usize::from(self.take_byte(b'/')),
                b'\r' => usize::from(self.take_byte(b'\r')),
                LINE_FEED => usize::from(self.take_byte(LINE_FEED)),
                _ => usize::from(self.take_byte(*byte)),
            },
            [] => 0,
        }
    }

    /// Takes a byte of a source that goes on, unless it ends a statement.
    #[tactic(auto, unfolding(crate::specs::Statements::statements, crate::specs::Reading::HasRead))]
    #[inline(always)]
    fn take_byte(&mut self, byte: u8) -> bool
        requires { self.old.state ≡ State.Reading }
        ensures read { (seam : ℕ) (text : List ℕ) → HasRead self.old seam text
            → TakesByte seam text byte result self.old self.new }
        ensures state { self.new.state ≡ State.Reading }
        ensures setting { setting self.new ≡ setting self.old }
    {
        if dies(self.comment, byte) {
            self.pass(byte);
            return true;
        }
        if is_end(byte) {
            return false;
        }
        match self.draft.put(self.radix, byte, self.place) {
            Ok(()) => {
                self.pass(byte);
                true
            }
            Err(_) => false,
        }
    }

    /// Takes what is left of a comment.
    #[inline(always)]
    fn take_comment(&mut self, bytes: &[u8]) -> usize
        requires reading { self.old.state ≡ State.Reading }
        requires comment { self.old.comment ≡ true }
        ensures range { result ≤ length bytes.now }
        ensures read { (seam : ℕ) (text : List ℕ) → HasRead self.old seam text
            → ReadsOn seam text bytes.now result self.new }
        ensures state { self.new.state ≡ State.Reading }
        ensures setting { setting self.new ≡ setting self.old }
    {
        let count = before_cr(bytes);
        self.place = self.place.saturating_add(count as u64);
        count
    }

    /// Takes a name or a number, or a part of it, or nothing.
    #[inline(always)]
    fn take_run(&mut self, bytes: &[u8], first: u8, others: &[u8]) -> usize
        requires reading { self.old.state ≡ State.Reading }
        requires bytes { bytes.now ≡ first ∷ others.now }
        requires live { self.old.comment ≡ false }
        requires coded { is_coded first ≡ true }
        ensures range { result ≤ length bytes.now }
        ensures read { (seam : ℕ) (text : List ℕ) → HasRead self.old seam text
            → ReadsOn seam text bytes.now result self.new }
        ensures state { self.new.state ≡ State.Reading }
        ensures setting { setting self.new ≡ setting self.old }
    {
        match self.draft.put_run(self.radix, first, others, self.place) {
            Some(more) => {
                let count = bytes.len() - (others.len() - more);
                self.place = self.place.saturating_add(count as u64);
                count
            }
            None => 0,
        }
    }

    /// Takes a byte that ends a statement.
    #[tactic(auto, unfolding(crate::specs::Statements::statements, crate::specs::Reading::HasRead))]
    #[inline(never)]
    fn finish(&mut self, byte: u8) -> Result<Option<Statement>, LexFault>
        requires reading { self.old.state ≡ State.Reading }
        requires live { dies self.old.comment byte ≡ false }
        requires end { is_end byte ≡ true }
        ensures answers { (seam : ℕ) (text : List ℕ) → HasRead self.old seam text
            → Answers seam text byte result self.old self.new }
        ensures setting { setting self.new ≡ setting self.old }
    {
        if self.may_pause && is_pause(&self.draft) {
            return Ok(Some(self.pause()));
        }
        match judge(self.alloc, &self.draft, self.line) {
            Ok(said) => Ok(Some(self.hand_out(said, byte))),
            Err(fault) => {
                let again = fault;
                self.fail(fault);
                Err(again)
            }
        }
    }

    /// Hands out a statement with what it says, and begins the next one.
    fn hand_out(&mut self, said: Said, byte: u8) -> Statement
        ensures statement { result ≡ ended_statement byte said self.old }
        ensures ended { self.new ≡ after_statement byte said.body self.old }
    {
        let line = self.line;
        let last = byte == b'$';
        let tokens = self.draft.take(self.alloc, self.keeps_tokens);
        self.radix = radix_by(&said.body, self.radix);
        if last {
            self.state = State::Over;
        }
        self.pass(byte);
        Statement {
            line,
            tags: said.tags,
            body: said.body,
            last,
            source: self.source,
            tokens,
        }
    }

    /// Hands out PAUSE, which ends the source.
    fn pause(&mut self) -> Statement
        ensures statement { result ≡ pause_statement self.old }
        ensures paused { self.new ≡ after_pause self.old }
    {
        let tokens = self.draft.take(self.alloc, self.keeps_tokens);
        self.state = State::Paused;
        Statement {
            line: self.line,
            tags: Tags::new(Vec::new(self.alloc)),
            body: Body::Pause,
            last: false,
            source: self.source,
            tokens,
        }
    }

    /// Fails for good, except for want of memory.
    fn fail(&mut self, fault: LexFault)
        ensures { self.new ≡ after_fault fault self.old }
    {
        match fault {
            LexFault::Memory => {}
            LexFault::IC(_) | LexFault::SY(_) | LexFault::NU(_) | LexFault::NE(_) => {
                self.state = State::Failed(fault);
            }
        }
    }

    /// Counts a byte.
    #[inline(always)]
    fn pass(&mut self, byte: u8)
        ensures { self.new ≡ after_byte byte self.old }
    {
        self.comment = comment_after(self.comment, byte);
        self.place = self.place.saturating_add(1);
        if byte == b'\r' {
            self.line = self.line.saturating_add(1);
        }
    }
}

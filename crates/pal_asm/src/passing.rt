//! The first pass over sources that are read in parts, and what stands between sources.
ghost use Rattle.std.specs.Prelude.{◌≡◌, ◌≤◌, ◌<◌, ◌+◌, ◌++◌, ℕ, Bool, true, false, None, Some, OnOk, Ok, List, [], ◌∷◌, length, take};
ghost use Rattle.pal_lex.specs.Text.{text_from, is_over};
ghost use Rattle.pal_lex.specs.Statements.{statements, first_fault};
ghost use Rattle.pal_lex.specs.Progress.{setting};
ghost use Rattle.pal_lex.specs.Reading.{HasRead, HasPaused, is_pause_body};
ghost use Rattle.pal_asm.specs.Places.{Source};
ghost use Rattle.pal_asm.specs.Passes.{IsFirst};
ghost use Rattle.pal_asm.specs.Passing.{StandsAfter, HasPassed, Settles, SettlesIn, PassesTo, EndsSource, BeginsSecondPass};
ghost use Rattle.pal_asm.specs.TextSteps.{is_pause_answer, PassesByte};

use crate::laws::{lexical_fault_is_told, no_lexical_fault, statements_stay};
use crate::{AsmFault, Assembler};
use pal_lex::laws::{byte_goes_on, join_goes_on, pause_joins};
use pal_lex::{Body, Lexer, Statement};

/// A pass over sources that are read in parts.
#[derive(Drop)]
pub struct Pass {
    pub lexer: Lexer,
    pub assembler: Assembler,
    /// A statement that the lexer handed out, and the assembler had no memory for.
    pub waiting: Option<Statement>,
    /// Whether nothing more of the present source is read: it has paused or ended, or the sources have.
    pub is_at_end: bool,
}

/// Whether a body is PAUSE.
pub(crate) fn is_pause_body(body: &Body) -> bool
    ensures { result ≡ is_pause_body body.now }
{
    matches!(body, Body::Pause)
}

/// Whether a statement was handed out that is PAUSE.
fn is_pause(answer: &Option<Statement>) -> bool
    ensures { result ≡ is_pause_answer answer.now }
{
    match answer {
        Some(statement) => is_pause_body(&statement.body),
        None => false,
    }
}

/// Takes characters from a place on that end no statement, and answers the place after them.
pub(crate) fn read_on(lexer: &mut Lexer, text: &[u8], offset: usize) -> usize
    requires { offset ≤ length text.now }
    ensures range { (offset ≤ result) × (result ≤ length text.now) }
    ensures read { (seam : ℕ) (before here : List ℕ)
        → HasRead lexer.old seam (text_from here (take offset text.now) ++ before)
        → HasRead lexer.new seam (text_from here (take result text.now) ++ before)
        × (statements (text_from here (take result text.now) ++ before)
        ≡ statements (text_from here (take offset text.now) ++ before)) }
    ensures paused { (cut : List ℕ) → HasPaused lexer.old cut → lexer.new ≡ lexer.old }
    ensures setting { setting lexer.new ≡ setting lexer.old }
{
    let (_, rest) = text.split_at(offset);
    offset + lexer.read_on(rest)
}

/// Hands the statement that waits, if one does, to the assembler.
pub fn settle(pass: &mut Pass) -> Result<(), AsmFault>
    ensures settles { (source : Source) → StandsAfter pass.old.waiting pass.old.assembler source
        → Settles source result pass.old pass.new }
    ensures stands { (prefix here : List ℕ) (several is_last : Bool)
        → HasPassed pass.old prefix several here is_last
        → SettlesIn prefix several here is_last result pass.new }
    ensures none { OnOk result (pass.new.waiting ≡ None) }
{
    join_goes_on();
    statements_stay();
    match &pass.waiting {
        None => Ok(()),
        Some(statement) => {
            pass.assembler.first(statement)?;
            pass.waiting = None;
            Ok(())
        }
    }
}

/// Lets a statement wait that was handed out, if one was; at PAUSE nothing more of the source is read.
fn keep(pass: &mut Pass, answer: Option<Statement>)
    ensures paused { is_pause_answer answer ≡ true → pass.new ≡ record pass.old { is_at_end = true } }
    ensures kept { is_pause_answer answer ≡ false → pass.new ≡ record pass.old { waiting = answer } }
{
    if is_pause(&answer) {
        pass.is_at_end = true;
    } else {
        pass.waiting = answer;
    }
}

/// Takes the next character, where no statement waits.
fn pass_byte(pass: &mut Pass, byte: u8) -> Result<(), AsmFault>
    requires { pass.old.waiting ≡ None }
    ensures { (prefix here : List ℕ) (several : Bool) → HasPassed pass.old prefix several here false
        → PassesByte prefix several here byte result pass.new }
{
    byte_goes_on();
    pause_joins();
    lexical_fault_is_told();
    let answer = pass.lexer.push(byte)?;
    keep(pass, answer);
    Ok(())
}

/// Takes characters from a place on up to the end of a statement, where no statement waits.
fn pass_statement(pass: &mut Pass, text: &[u8], offset: &mut usize) -> Result<(), AsmFault>
    requires none { pass.old.waiting ≡ None }
    requires range { offset.old < length text.now }
    ensures range { offset.new ≤ length text.now }
    ensures more { OnOk result (offset.old < offset.new) }
    ensures passes { (prefix here : List ℕ) (several : Bool)
        → HasPassed pass.old prefix several (text_from here (take offset.old text.now)) false
        → PassesTo prefix several here text.now offset.new result pass.new }
{
    *offset = read_on(&mut pass.lexer, text, *offset);
    if *offset < text.len() {
        pass_byte(pass, text[*offset])?;
        *offset += 1;
    }
    Ok(())
}

/// Takes characters from a place on. Where memory runs out the place shows how many were taken.
pub fn pass_text(pass: &mut Pass, text: &[u8], offset: &mut usize) -> Result<(), AsmFault>
    ensures none { OnOk result ((pass.new.waiting ≡ None) × (length text.now ≤ offset.new)) }
    ensures passes { (prefix here : List ℕ) (several : Bool)
        → HasPassed pass.old prefix several (text_from here (take offset.old text.now)) false
        → PassesTo prefix several here text.now offset.new result pass.new }
{
    join_goes_on();
    statements_stay();
    while *offset < text.len() {
        settle(pass)?;
        pass_statement(pass, text, offset)?;
    }
    settle(pass)
}

/// Goes on with the next source, after one that may pause, where no statement waits. It takes no memory.
pub fn end_source(pass: &mut Pass, last: bool) -> Result<(), AsmFault>
    ensures ends { EndsSource pass.old.lexer last result pass.new.lexer pass.new.is_at_end }
    ensures others { (pass.new.assembler ≡ pass.old.assembler) × (pass.new.waiting ≡ pass.old.waiting) }
{
    pass.lexer.next_source(last)?;
    pass.is_at_end = is_over(&pass.lexer);
    Ok(())
}

/// Whether a `$` has ended the sources.
fn is_over(lexer: &Lexer) -> bool
    ensures { (seam : ℕ) (text : List ℕ) → HasRead lexer.now seam text → first_fault (statements text) ≡ None
        → result ≡ is_over text }
{
    lexer.end().is_ok()
}

/// Goes from the first pass to the second, where all sources were read and no statement waits; a lexer of no byte goes on.
/// It takes no memory.
pub fn begin_second_pass(pass: &mut Pass, lexer: Lexer) -> Result<(), AsmFault>
    requires { pass.old.waiting ≡ None }
    ensures turns { (seam : ℕ) (text : List ℕ) → HasRead pass.old.lexer seam text
        → IsFirst pass.old.assembler (statements text) → BeginsSecondPass text result pass.new }
    ensures lexer { OnOk result ((pass.new.lexer ≡ lexer) × (pass.new.is_at_end ≡ false)) }
{
    no_lexical_fault();
    pass.lexer.end()?;
    pass.assembler.begin_second()?;
    pass.lexer = lexer;
    pass.is_at_end = false;
    Ok(())
}

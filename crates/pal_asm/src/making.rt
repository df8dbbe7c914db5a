//! The second pass over sources that are read in parts.
ghost use Rattle.std.specs.Prelude.{◌≡◌, ◌≤◌, ◌<◌, ◌++◌, ◌∷◌, ℕ, Bool, true, false, None, OnOk, Ok, List, length, take, vec_len, vec_capacity};
ghost use Rattle.pal_lex.specs.Text.{text_from};
ghost use Rattle.pal_asm.specs.Places.{Source};
ghost use Rattle.pal_asm.specs.Passes.{with_handed};
ghost use Rattle.pal_asm.specs.Passing.{HasMade, IsWithin, MakesTo};
ghost use Rattle.pal_asm.specs.TextSteps.{MakesAnswer, MakesByte};

use crate::AsmFault;
use crate::laws::{no_fault_before, no_lexical_fault};
use crate::passing::{Pass, is_pause_body, read_on};
use pal_lex::Statement;
use pal_lex::laws::{byte_goes_on, pause_is_bad, pause_joins};
use word12::{Cell, Word};

/// Puts a pair after others, if there is one, where there is room.
fn put_handed(pairs: &mut Vec<(Cell, Word)>, handed: Option<(Cell, Word)>)
    requires { vec_len pairs.old < vec_capacity pairs.old }
    ensures { pairs.new.items ≡ with_handed pairs.old.items handed }
{
    if let Some(pair) = handed {
        pairs.push_reserved(pair);
    }
}

/// Takes the statement that was handed out, if one was, where there is room for a pair; at PAUSE nothing more of the source
/// is read.
fn make_answer(
    pass: &mut Pass,
    pairs: &mut Vec<(Cell, Word)>,
    answer: &Option<Statement>,
) -> Result<(), AsmFault>
    requires { vec_len pairs.old < vec_capacity pairs.old }
    ensures { MakesAnswer answer.now result pass.old pairs.old.items pass.new pairs.new.items }
{
    match answer {
        None => Ok(()),
        Some(statement) => {
            if is_pause_body(&statement.body) {
                pass.is_at_end = true;
                return Ok(());
            }
            let handed = pass.assembler.second(statement)?;
            put_handed(pairs, handed);
            Ok(())
        }
    }
}

/// Takes the next character in the second pass.
fn make_byte(pass: &mut Pass, pairs: &mut Vec<(Cell, Word)>, byte: u8) -> Result<(), AsmFault>
    ensures { (whole : Source) (prefix here : List ℕ) (several : Bool)
        → HasMade whole pass.old pairs.old.items prefix several here false
        → IsWithin whole prefix several (byte ∷ here)
        → MakesByte whole prefix several here byte result pass.new pairs.new.items }
{
    byte_goes_on();
    pause_joins();
    pause_is_bad();
    no_lexical_fault();
    no_fault_before();
    pairs.reserve(1)?;
    let answer = pass.lexer.push(byte)?;
    make_answer(pass, pairs, &answer)
}

/// Takes characters from a place on up to the end of a statement in the second pass.
fn make_statement(
    pass: &mut Pass,
    pairs: &mut Vec<(Cell, Word)>,
    text: &[u8],
    offset: &mut usize,
) -> Result<(), AsmFault>
    requires { offset.old < length text.now }
    ensures more { OnOk result (offset.old < offset.new) }
    ensures makes { (whole : Source) (prefix here : List ℕ) (several : Bool)
        → HasMade whole pass.old pairs.old.items prefix several
        (text_from here (take offset.old text.now)) false
        → IsWithin whole prefix several (text_from here text.now)
        → MakesTo whole prefix several here text.now offset.new result pass.new pairs.new.items }
{
    *offset = read_on(&mut pass.lexer, text, *offset);
    if *offset < text.len() {
        make_byte(pass, pairs, text[*offset])?;
        *offset += 1;
    }
    Ok(())
}

/// Takes characters from a place on in the second pass. Where memory runs out the place shows how many were taken.
pub fn make_text(
    pass: &mut Pass,
    pairs: &mut Vec<(Cell, Word)>,
    text: &[u8],
    offset: &mut usize,
) -> Result<(), AsmFault>
    ensures range { OnOk result (length text.now ≤ offset.new) }
    ensures makes { (whole : Source) (prefix here : List ℕ) (several : Bool)
        → HasMade whole pass.old pairs.old.items prefix several
        (text_from here (take offset.old text.now)) false
        → IsWithin whole prefix several (text_from here text.now)
        → MakesTo whole prefix several here text.now offset.new result pass.new pairs.new.items }
{
    while *offset < text.len() {
        make_statement(pass, pairs, text, offset)?;
    }
    Ok(())
}

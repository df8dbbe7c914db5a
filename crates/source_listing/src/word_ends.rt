//! Which bytes of a text end words.
ghost use Rattle.std.specs.Prelude.{◌≡◌, ◌∷◌, ◌++◌, [], ℕ, List, false, None, IfOk, IfErr, OnOk};
ghost use Rattle.pal_lex.specs.Text.{text_of};
ghost use Rattle.pal_lex.specs.Statements.{statements};
ghost use Rattle.pal_lex.specs.Reading.{HasRead};
ghost use Rattle.pal_asm.specs.Places.{is_word};
ghost use Rattle.pal_asm.specs.Faults.{first_order};
ghost use Rattle.source_listing.specs.Rows.{word_ends, ends_word};
ghost use Rattle.host_sources.specs.declared.faults.SourceFault.TheVariants.{Memory};

use host_sources::laws::fine_by_bytes;
use host_sources::{SourceFault, statement_ended};
use pal_lex::{Body, Lexer};
use std::alloc::{AllocError, Global};

/// Whether each byte of a text with no fault that the first pass meets ends a word. The only fault is `Memory`.
pub(crate) fn word_ends(alloc: Global, text: &[u8]) -> Result<Vec<bool>, SourceFault>
    requires { first_order (statements (text_of text.now)) ≡ None }
    ensures ends { IfOk result (λ ends. ends.items ≡ word_ends (text_of text.now)) }
    ensures fault { IfErr result (λ fault. fault ≡ Memory) }
{
    fine_by_bytes();
    let mut lexer = Lexer::without_tokens(alloc);
    let mut ends = Vec::new(alloc);
    let mut taken = 0;
    while taken < text.len() {
        let word = ends_word(&mut lexer, text[taken])?;
        put_end(&mut ends, word)?;
        taken += 1;
    }
    Ok(ends)
}

/// Puts an end after others.
fn put_end(ends: &mut Vec<bool>, word: bool) -> Result<(), AllocError>
    ensures { OnOk result (ends.new.items ≡ ends.old.items ++ word ∷ []) }
{
    ends.push(word)?;
    Ok(())
}

/// Whether the next byte ends a word.
fn ends_word(lexer: &mut Lexer, byte: u8) -> Result<bool, SourceFault>
    ensures word { (text : List ℕ) → HasRead lexer.old 0 text → lexer.old.may_pause ≡ false
        → first_order (statements (byte ∷ text)) ≡ None
        → IfOk result (λ word. (word ≡ ends_word text byte) × HasRead lexer.new 0 (byte ∷ text)) }
    ensures setting { lexer.new.may_pause ≡ lexer.old.may_pause }
    ensures fault { IfErr result (λ fault. fault ≡ Memory) }
{
    match statement_ended(lexer, byte)? {
        Some(statement) => Ok(is_word(&statement.body)),
        None => Ok(false),
    }
}

/// Whether a body is a word.
fn is_word(body: &Body) -> bool
    ensures { result ≡ is_word body.now }
{
    matches!(body, Body::Reference { .. } | Body::Word(_))
}

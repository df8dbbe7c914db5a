//! The radix of a text.
ghost use Rattle.std.specs.Prelude.{◌≡◌, ℕ, ◌∷◌, List, false, None, IfOk, IfErr};
ghost use Rattle.pal_lex.specs.Text.{text_of};
ghost use Rattle.pal_lex.specs.Runs.{base};
ghost use Rattle.pal_lex.specs.Statements.{radix_after, statements};
ghost use Rattle.pal_lex.specs.Reading.{HasRead};
ghost use Rattle.pal_asm.specs.Faults.{first_order};
ghost use Rattle.host_sources.specs.RunSteps.{base_of};
ghost use Rattle.host_sources.specs.RadixSteps.{decimal_by, is_decimal};
ghost use Rattle.host_sources.specs.declared.faults.SourceFault.TheVariants.{Memory};

use crate::SourceFault;
use crate::reading::statement_ended;
use pal_asm::laws::{no_fault_before, statements_stay};
use pal_lex::{Body, Lexer};
use std::alloc::Global;

/// Whether numbers are decimal after a text with no fault that the first pass meets. The only fault is `Memory`.
pub(crate) fn is_decimal(alloc: Global, text: &[u8]) -> Result<bool, SourceFault>
    requires { first_order (statements (text_of text.now)) ≡ None }
    ensures radix { IfOk result (λ decimal. base_of decimal ≡ base (radix_after (statements (text_of text.now)))) }
    ensures fault { IfErr result (λ fault. fault ≡ Memory) }
{
    statements_stay();
    no_fault_before();
    let mut lexer = Lexer::without_tokens(alloc);
    let mut is_decimal = false;
    let mut taken = 0;
    while taken < text.len() {
        let next = take(&mut lexer, is_decimal, text[taken])?;
        is_decimal = next;
        taken += 1;
    }
    Ok(is_decimal)
}

/// Whether numbers are decimal after one byte more.
fn take(lexer: &mut Lexer, before: bool, byte: u8) -> Result<bool, SourceFault>
    ensures takes { (text : List ℕ) → HasRead lexer.old 0 text → lexer.old.may_pause ≡ false
        → first_order (statements (byte ∷ text)) ≡ None
        → before ≡ is_decimal (radix_after (statements text))
        → IfOk result (λ decimal. (decimal ≡ is_decimal (radix_after (statements (byte ∷ text))))
        × HasRead lexer.new 0 (byte ∷ text)) }
    ensures setting { lexer.new.may_pause ≡ lexer.old.may_pause }
    ensures fault { IfErr result (λ fault. fault ≡ Memory) }
{
    match statement_ended(lexer, byte)? {
        Some(statement) => Ok(decimal_by(&statement.body, before)),
        None => Ok(before),
    }
}

/// Whether numbers are decimal after a statement.
fn decimal_by(body: &Body, before: bool) -> bool
    ensures { result ≡ decimal_by body.now before }
{
    match body {
        Body::Decimal => true,
        Body::Octal => false,
        Body::Nothing | Body::Pause | Body::Origin(_) | Body::Define(..) => before,
        Body::Field(_) | Body::Reference { .. } | Body::Word(_) => before,
    }
}

//! The statements of a text without fault.
ghost use Rattle.std.specs.Prelude.{◌≡◌, ℕ, ◌∷◌, List, false, None, IfOk, IfErr};
ghost use Rattle.pal_lex.specs.Statements.{statements};
ghost use Rattle.pal_lex.specs.Reading.{HasRead};
ghost use Rattle.pal_asm.specs.Faults.{first_order};
ghost use Rattle.host_sources.specs.Reading.{IsEnded};
ghost use Rattle.host_sources.specs.declared.faults.SourceFault.TheVariants.{Memory};

use crate::SourceFault;
use crate::faults::unless_memory;
use pal_asm::laws::no_lexical_fault;
use pal_lex::{Lexer, Statement};

/// The statement that the next byte of a text ends, if it ends one, where the first pass meets no fault up to this byte. The
/// only fault of the call is `Memory`.
pub fn statement_ended(lexer: &mut Lexer, byte: u8) -> Result<Option<Statement>, SourceFault>
    ensures ended { (text : List ℕ) → HasRead lexer.old 0 text → lexer.old.may_pause ≡ false
        → first_order (statements (byte ∷ text)) ≡ None
        → IfOk result (λ ended. IsEnded text byte ended lexer.new) }
    ensures setting { lexer.new.may_pause ≡ lexer.old.may_pause }
    ensures fault { IfErr result (λ fault. fault ≡ Memory) }
{
    no_lexical_fault();
    match lexer.push(byte) {
        Ok(ended) => Ok(ended),
        Err(fault) => {
            unless_memory(fault)?;
            Ok(None)
        }
    }
}

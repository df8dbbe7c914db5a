ghost use Rattle.std.specs.Prelude.{◌≡◌};
ghost use Rattle.source_names.specs.Names.{is_taken};

use pal_lex::is_reserved_number;
use pal_sym::{SymbolName, Symbols};

/// Whether a name is a permanent symbol, or a word of the language.
pub fn is_taken(name: SymbolName) -> bool
    ensures { result ≡ is_taken name }
{
    Symbols::permanent(name).is_some() || is_reserved_number(name.number())
}

ghost use Rattle.std.specs.Prelude.{◌≡◌, ℕ, ◌<◌, IfSome};
ghost use Rattle.pal_sym.specs.Names.{name_of, name_number, code_at, is_name, all_coded};

use std::marker::Model;
use word12::sixbit;

/// The name of a symbol: a letter followed by letters and digits, of which the first six characters count (PAL III
/// Symbolic Assembler manual).
///
/// A contract sees the number of six digits to the base 64, which are the sixbit codes of those characters, with 0 for
/// each that is missing. So the order of names is alphabetical, with letters before digits.
#[derive(Clone, Copy, PartialEq, Eq, PartialOrd, Ord, Hash, Debug)]
pub struct SymbolName {
    number: u64,
}

impl Model for SymbolName {
    ghost Value = { ℕ };

    ghost view = { λ name. name.number };

    ghost inverse = { λ number. record { number = number } };
}

impl SymbolName {
    /// The name that a text spells, or nothing where the text isn't a letter followed by letters and digits.
    pub fn of(text: &[u8]) -> Option<SymbolName>
        ensures name { result ≡ name_of text.now }
    {
        if !is_name(text) {
            return None;
        }
        let code = |place| code_at(text, place);
        Some(SymbolName {
            number: 0o10000000000 * code(0)
                + 0o100000000 * code(1)
                + 0o1000000 * code(2)
                + 0o10000 * code(3)
                + 0o100 * code(4)
                + code(5),
        })
    }

    /// The name of a number, which six sixbit codes make.
    #[inline]
    pub fn from_number(number: u64) -> SymbolName
        ensures { result ≡ number }
    {
        SymbolName { number }
    }

    /// The number that its six sixbit codes make.
    #[inline]
    pub fn number(self) -> u64
        ensures { result ≡ self }
    {
        self.number
    }
}

/// Whether a text is a letter followed by letters and digits.
fn is_name(text: &[u8]) -> bool
    ensures { result ≡ is_name text.now }
{
    match text {
        [b'A'..=b'Z', others @ ..] => all_coded(others),
        _ => false,
    }
}

/// Whether each character is a letter or a digit.
fn all_coded(text: &[u8]) -> bool
    ensures { result ≡ all_coded text.now }
{
    let mut rest = text;
    while let [character, others @ ..] = rest {
        if sixbit(*character).is_none() {
            return false;
        }
        rest = others;
    }
    true
}

/// The sixbit code of a character, 0 to 63, where 0 is that of a missing one.
fn code_at(text: &[u8], place: usize) -> u64
    ensures code { result ≡ code_at text.now place }
    ensures range { result < 0o100 }
{
    match text.get(place) {
        Some(character) => u64::from(sixbit(*character).unwrap_or(0)),
        None => 0,
    }
}

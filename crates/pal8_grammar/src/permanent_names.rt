ghost use Rattle.std.specs.Prelude.{◌≡◌, ◌<◌, is_some, IfSome, IsTrue};
ghost use Rattle.std.specs.Ordering.{nat_cmp};
ghost use Rattle.std.specs.FinMap.{find};
ghost use Rattle.pal_lex.specs.Language as old;
ghost use Rattle.pal_lex.specs.Language.{operation_of};
ghost use Rattle.pal8_grammar.specs.Permanent.{is_one_of, is_reserved, permanent, soft_by, soft_names, standing_of};
ghost use Rattle.pal8_grammar.specs.NameSteps.{all_words};

use pal_lex::{is_reserved_number, name, operation_of_number};
use pal_sym::{SymbolName, Symbols};
use pal8_lex::Name;
use word12::Word;

/// How a permanent name stands to a source's own definitions.
#[derive(Clone, Copy)]
pub enum Standing {
    /// It begins a memory reference, and keeps its value.
    Operation,
    /// It keeps its value.
    Firm,
    /// It gives way to a source's own definition.
    Soft,
}

/// What a permanent name stands for.
#[derive(Clone, Copy)]
pub struct Meaning {
    pub value: Word,
    pub standing: Standing,
}

/// The soft names with their values. They are those of the PDP-8/E, its MQ, the Teletype, reader and punch, DECtape, DF32 and RF08 (Small
/// Computer Handbook; the choice of the list is this project's profile).
const SOFT: [(u64, u16); 42] = [
    (name!(b'I' b'O' b'T' 0 0 0), 0o6000),
    (name!(b'O' b'P' b'R' 0 0 0), 0o7000),
    (name!(b'B' b'S' b'W' 0 0 0), 0o7002),
    (name!(b'C' b'D' b'I' 0 0 0), 0o6203),
    (name!(b'M' b'Q' b'L' 0 0 0), 0o7421),
    (name!(b'M' b'Q' b'A' 0 0 0), 0o7501),
    (name!(b'S' b'W' b'P' 0 0 0), 0o7521),
    (name!(b'A' b'C' b'L' 0 0 0), 0o7701),
    (name!(b'S' b'K' b'O' b'N' 0 0), 0o6000),
    (name!(b'S' b'R' b'Q' 0 0 0), 0o6003),
    (name!(b'G' b'T' b'F' 0 0 0), 0o6004),
    (name!(b'R' b'T' b'F' 0 0 0), 0o6005),
    (name!(b'S' b'G' b'T' 0 0 0), 0o6006),
    (name!(b'C' b'A' b'F' 0 0 0), 0o6007),
    (name!(b'K' b'C' b'F' 0 0 0), 0o6030),
    (name!(b'K' b'I' b'E' 0 0 0), 0o6035),
    (name!(b'T' b'F' b'L' 0 0 0), 0o6040),
    (name!(b'T' b'S' b'K' 0 0 0), 0o6045),
    (name!(b'R' b'P' b'E' 0 0 0), 0o6010),
    (name!(b'R' b'C' b'C' 0 0 0), 0o6016),
    (name!(b'P' b'C' b'E' 0 0 0), 0o6020),
    (name!(b'D' b'T' b'R' b'A' 0 0), 0o6761),
    (name!(b'D' b'T' b'C' b'A' 0 0), 0o6762),
    (name!(b'D' b'T' b'X' b'A' 0 0), 0o6764),
    (name!(b'D' b'T' b'L' b'A' 0 0), 0o6766),
    (name!(b'D' b'T' b'S' b'F' 0 0), 0o6771),
    (name!(b'D' b'T' b'R' b'B' 0 0), 0o6772),
    (name!(b'D' b'T' b'L' b'B' 0 0), 0o6774),
    (name!(b'D' b'C' b'M' b'A' 0 0), 0o6601),
    (name!(b'D' b'M' b'A' b'R' 0 0), 0o6603),
    (name!(b'D' b'M' b'A' b'W' 0 0), 0o6605),
    (name!(b'D' b'C' b'E' b'A' 0 0), 0o6611),
    (name!(b'D' b'S' b'A' b'C' 0 0), 0o6612),
    (name!(b'D' b'E' b'A' b'L' 0 0), 0o6615),
    (name!(b'D' b'E' b'A' b'C' 0 0), 0o6616),
    (name!(b'D' b'F' b'S' b'E' 0 0), 0o6621),
    (name!(b'D' b'F' b'S' b'C' 0 0), 0o6622),
    (name!(b'D' b'M' b'A' b'C' 0 0), 0o6626),
    (name!(b'D' b'C' b'X' b'A' 0 0), 0o6641),
    (name!(b'D' b'X' b'A' b'L' 0 0), 0o6643),
    (name!(b'D' b'X' b'A' b'C' 0 0), 0o6645),
    (name!(b'D' b'M' b'M' b'T' 0 0), 0o6646),
];

/// The reserved names that PAL III lacks.
const RESERVED_NAMES: [u64; 17] = [
    name!(b'P' b'A' b'G' b'E' 0 0),
    name!(b'Z' b'B' b'L' b'O' b'C' b'K'),
    name!(b'T' b'E' b'X' b'T' 0 0),
    name!(b'F' b'I' b'L' b'E' b'N' b'A'),
    name!(b'D' b'E' b'V' b'I' b'C' b'E'),
    name!(b'R' b'E' b'L' b'O' b'C' 0),
    name!(b'E' b'N' b'P' b'U' b'N' b'C'),
    name!(b'N' b'O' b'P' b'U' b'N' b'C'),
    name!(b'E' b'J' b'E' b'C' b'T' 0),
    name!(b'X' b'L' b'I' b'S' b'T' 0),
    name!(b'I' b'F' b'D' b'E' b'F' 0),
    name!(b'I' b'F' b'N' b'D' b'E' b'F'),
    name!(b'I' b'F' b'Z' b'E' b'R' b'O'),
    name!(b'I' b'F' b'N' b'Z' b'R' b'O'),
    name!(b'E' b'X' b'P' b'U' b'N' b'G'),
    name!(b'F' b'I' b'X' b'T' b'A' b'B'),
    name!(b'F' b'I' b'X' b'M' b'R' b'I'),
];

/// Whether a name is one of the six operations.
pub(crate) fn is_operation(name: Name) -> bool
    ensures { result ≡ is_some (operation_of name) }
{
    operation_of_number(name.number()).is_some()
}

/// How one of PAL III's permanent names stands to definitions.
fn standing_of(name: Name) -> Standing
    ensures { result ≡ standing_of name }
{
    if is_operation(name) {
        Standing::Operation
    } else {
        Standing::Firm
    }
}

/// Whether a name stands for a form of statement and not for a value, or is `I` or `Z` (PAL8, in this project's profile).
pub fn is_reserved(name: Name) -> bool
    ensures { result ≡ is_reserved name }
{
    is_reserved_number(name.number()) || is_one_of(&RESERVED_NAMES, name.number())
}

/// Whether a number is one of a list.
fn is_one_of(list: &[u64], number: u64) -> bool
    ensures { result ≡ is_one_of list.now number }
{
    let mut rest = list;
    while let [other, others @ ..] = rest {
        if number == *other {
            return true;
        }
        rest = others;
    }
    false
}

/// What a permanent name stands for. PAL III's have the values that they have there, and the soft ones of PAL8 come after these. Any other
/// name has none (PAL8, in this project's profile).
#[tactic(auto, unfolding(crate::specs::Permanent::permanent))]
pub fn permanent(name: Name) -> Option<Meaning>
    ensures { result ≡ permanent name }
{
    match Symbols::permanent(SymbolName::from_number(name.number())) {
        Some(value) => Some(Meaning {
            value,
            standing: standing_of(name),
        }),
        None => soft(name),
    }
}

/// What a soft name stands for.
fn soft(name: Name) -> Option<Meaning>
    ensures { result ≡ soft_by (find nat_cmp name soft_names) }
{
    match word_in_list(&SOFT, name.number()) {
        Some(value) => Some(Meaning {
            value,
            standing: Standing::Soft,
        }),
        None => None,
    }
}

/// The word that stands beside a name in a list.
fn word_in_list(list: &[(u64, u16)], name: u64) -> Option<Word>
    requires { IsTrue (all_words list.now) }
    ensures value { result ≡ find nat_cmp name list.now }
    ensures range { IfSome result (λ word. word < 0o10000) }
{
    let mut rest = list;
    while let [entry, others @ ..] = rest {
        if entry.0 == name {
            return Some(Word::low(entry.1));
        }
        rest = others;
    }
    None
}

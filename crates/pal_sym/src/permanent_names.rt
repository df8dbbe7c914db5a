ghost use Rattle.std.specs.Prelude.{◌≡◌, ◌<◌, Option, IfSome, IsTrue};
ghost use Rattle.std.specs.Ordering.{nat_cmp};
ghost use Rattle.std.specs.FinMap.{find};
ghost use Rattle.pal_sym.specs.Permanent.{permanent};
ghost use Rattle.pal_sym.specs.Steps.{all_words};

use crate::SymbolName;
use pal_lex::name;
use word12::Word;

/// The permanent names with their values (PAL III Symbolic Assembler manual; the choice of the list is this project's
/// profile).
pub(crate) const PERMANENT: [(u64, u16); 53] = [
    (name!(b'A' b'N' b'D' 0 0 0), 0o0000),
    (name!(b'T' b'A' b'D' 0 0 0), 0o1000),
    (name!(b'I' b'S' b'Z' 0 0 0), 0o2000),
    (name!(b'D' b'C' b'A' 0 0 0), 0o3000),
    (name!(b'J' b'M' b'S' 0 0 0), 0o4000),
    (name!(b'J' b'M' b'P' 0 0 0), 0o5000),
    (name!(b'N' b'O' b'P' 0 0 0), 0o7000),
    (name!(b'I' b'A' b'C' 0 0 0), 0o7001),
    (name!(b'R' b'A' b'L' 0 0 0), 0o7004),
    (name!(b'R' b'T' b'L' 0 0 0), 0o7006),
    (name!(b'R' b'A' b'R' 0 0 0), 0o7010),
    (name!(b'R' b'T' b'R' 0 0 0), 0o7012),
    (name!(b'C' b'M' b'L' 0 0 0), 0o7020),
    (name!(b'C' b'M' b'A' 0 0 0), 0o7040),
    (name!(b'C' b'I' b'A' 0 0 0), 0o7041),
    (name!(b'C' b'L' b'L' 0 0 0), 0o7100),
    (name!(b'S' b'T' b'L' 0 0 0), 0o7120),
    (name!(b'C' b'L' b'A' 0 0 0), 0o7200),
    (name!(b'G' b'L' b'K' 0 0 0), 0o7204),
    (name!(b'S' b'T' b'A' 0 0 0), 0o7240),
    (name!(b'H' b'L' b'T' 0 0 0), 0o7402),
    (name!(b'O' b'S' b'R' 0 0 0), 0o7404),
    (name!(b'S' b'K' b'P' 0 0 0), 0o7410),
    (name!(b'S' b'N' b'L' 0 0 0), 0o7420),
    (name!(b'S' b'Z' b'L' 0 0 0), 0o7430),
    (name!(b'S' b'Z' b'A' 0 0 0), 0o7440),
    (name!(b'S' b'N' b'A' 0 0 0), 0o7450),
    (name!(b'S' b'M' b'A' 0 0 0), 0o7500),
    (name!(b'S' b'P' b'A' 0 0 0), 0o7510),
    (name!(b'L' b'A' b'S' 0 0 0), 0o7604),
    (name!(b'I' b'O' b'N' 0 0 0), 0o6001),
    (name!(b'I' b'O' b'F' 0 0 0), 0o6002),
    (name!(b'R' b'S' b'F' 0 0 0), 0o6011),
    (name!(b'R' b'R' b'B' 0 0 0), 0o6012),
    (name!(b'R' b'F' b'C' 0 0 0), 0o6014),
    (name!(b'P' b'S' b'F' 0 0 0), 0o6021),
    (name!(b'P' b'C' b'F' 0 0 0), 0o6022),
    (name!(b'P' b'P' b'C' 0 0 0), 0o6024),
    (name!(b'P' b'L' b'S' 0 0 0), 0o6026),
    (name!(b'K' b'S' b'F' 0 0 0), 0o6031),
    (name!(b'K' b'C' b'C' 0 0 0), 0o6032),
    (name!(b'K' b'R' b'S' 0 0 0), 0o6034),
    (name!(b'K' b'R' b'B' 0 0 0), 0o6036),
    (name!(b'T' b'S' b'F' 0 0 0), 0o6041),
    (name!(b'T' b'C' b'F' 0 0 0), 0o6042),
    (name!(b'T' b'P' b'C' 0 0 0), 0o6044),
    (name!(b'T' b'L' b'S' 0 0 0), 0o6046),
    (name!(b'C' b'D' b'F' 0 0 0), 0o6201),
    (name!(b'C' b'I' b'F' 0 0 0), 0o6202),
    (name!(b'R' b'D' b'F' 0 0 0), 0o6214),
    (name!(b'R' b'I' b'F' 0 0 0), 0o6224),
    (name!(b'R' b'I' b'B' 0 0 0), 0o6234),
    (name!(b'R' b'M' b'F' 0 0 0), 0o6244),
];

/// The permanent value of a name, if it has one. Each permanent name has three letters, and most others have more.
#[tactic(auto, unfolding(crate::specs::Permanent::permanent))]
pub(crate) fn permanent_value(name: SymbolName) -> Option<Word>
    ensures value { result ≡ permanent name }
    ensures range { IfSome result (λ word. word < 0o10000) }
{
    if name.number() % 0o1000000 != 0 {
        return None;
    }
    word_in_list(&PERMANENT, name.number())
}

/// The word that stands beside a name in a list.
fn word_in_list(list: &[(u64, u16)], name: u64) -> Option<Word>
    requires { IsTrue (all_words list.now) }
    ensures value { result ≡ find nat_cmp name list.now }
    ensures range { IfSome result (λ word. word < 0o10000) }
{
    let mut rest = list;
    while let [entry, others @ ..] = rest {
        if entry.0 == name {
            return Some(Word::low(entry.1));
        }
        rest = others;
    }
    None
}

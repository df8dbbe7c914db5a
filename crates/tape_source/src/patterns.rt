ghost use Rattle.std.specs.Prelude.{◌≡◌, ℕ, ◌++◌, OnOk, List};
ghost use Rattle.tape_source.specs.Lines.{with_lead};
ghost use Rattle.tape_source.specs.Patterns.{patterns, patterns_of, or_after, shown_name, names};
ghost use Rattle.tape_source.specs.Statements.{is_named};

use crate::statements::put_piece;
use std::alloc::AllocError;
use word12::Word;

/// Bits of a word that decide, what they are where a name is shown, the name, and its value.
type Pattern = (u16, u16, [u8; 3], u16);

/// The names that are shown for words of operation 6 and 7 (PAL III Symbolic Assembler manual).
const PATTERNS: [Pattern; 63] = [
    (0o7777, 0o6001, *b"ION", 0o6001),
    (0o7777, 0o6002, *b"IOF", 0o6002),
    (0o7777, 0o6011, *b"RSF", 0o6011),
    (0o7777, 0o6012, *b"RRB", 0o6012),
    (0o7777, 0o6014, *b"RFC", 0o6014),
    (0o7777, 0o6021, *b"PSF", 0o6021),
    (0o7777, 0o6022, *b"PCF", 0o6022),
    (0o7777, 0o6024, *b"PPC", 0o6024),
    (0o7777, 0o6026, *b"PLS", 0o6026),
    (0o7777, 0o6031, *b"KSF", 0o6031),
    (0o7777, 0o6032, *b"KCC", 0o6032),
    (0o7777, 0o6034, *b"KRS", 0o6034),
    (0o7777, 0o6036, *b"KRB", 0o6036),
    (0o7777, 0o6041, *b"TSF", 0o6041),
    (0o7777, 0o6042, *b"TCF", 0o6042),
    (0o7777, 0o6044, *b"TPC", 0o6044),
    (0o7777, 0o6046, *b"TLS", 0o6046),
    (0o7777, 0o6214, *b"RDF", 0o6214),
    (0o7777, 0o6224, *b"RIF", 0o6224),
    (0o7777, 0o6234, *b"RIB", 0o6234),
    (0o7777, 0o6244, *b"RMF", 0o6244),
    (0o7705, 0o6201, *b"CDF", 0o6201),
    (0o7706, 0o6202, *b"CIF", 0o6202),
    (0o7774, 0o6210, *b"010", 0o0010),
    (0o7774, 0o6220, *b"020", 0o0020),
    (0o7774, 0o6230, *b"030", 0o0030),
    (0o7774, 0o6240, *b"040", 0o0040),
    (0o7774, 0o6250, *b"050", 0o0050),
    (0o7774, 0o6260, *b"060", 0o0060),
    (0o7774, 0o6270, *b"070", 0o0070),
    (0o7777, 0o7000, *b"NOP", 0o7000),
    (0o7644, 0o7200, *b"CLA", 0o7200),
    (0o7645, 0o7241, *b"CLA", 0o7200),
    (0o7656, 0o7206, *b"CLA", 0o7200),
    (0o7657, 0o7247, *b"CLA", 0o7200),
    (0o7645, 0o7240, *b"STA", 0o7240),
    (0o7657, 0o7246, *b"STA", 0o7240),
    (0o7520, 0o7100, *b"CLL", 0o7100),
    (0o7641, 0o7040, *b"CMA", 0o7040),
    (0o7647, 0o7244, *b"CMA", 0o7040),
    (0o7657, 0o7256, *b"CMA", 0o7040),
    (0o7520, 0o7020, *b"CML", 0o7020),
    (0o7520, 0o7120, *b"STL", 0o7120),
    (0o7441, 0o7001, *b"IAC", 0o7001),
    (0o7441, 0o7041, *b"CIA", 0o7041),
    (0o7412, 0o7010, *b"RAR", 0o7010),
    (0o7412, 0o7012, *b"RTR", 0o7012),
    (0o7606, 0o7004, *b"RAL", 0o7004),
    (0o7616, 0o7016, *b"RAL", 0o7004),
    (0o7606, 0o7204, *b"GLK", 0o7204),
    (0o7616, 0o7216, *b"GLK", 0o7204),
    (0o7416, 0o7006, *b"RTL", 0o7006),
    (0o7510, 0o7500, *b"SMA", 0o7500),
    (0o7510, 0o7510, *b"SPA", 0o7510),
    (0o7450, 0o7440, *b"SZA", 0o7440),
    (0o7450, 0o7450, *b"SNA", 0o7450),
    (0o7430, 0o7420, *b"SNL", 0o7420),
    (0o7430, 0o7430, *b"SZL", 0o7430),
    (0o7570, 0o7410, *b"SKP", 0o7410),
    (0o7604, 0o7600, *b"CLA", 0o7200),
    (0o7604, 0o7604, *b"LAS", 0o7604),
    (0o7604, 0o7404, *b"OSR", 0o7404),
    (0o7402, 0o7402, *b"HLT", 0o7402),
];

/// Whether the names of a word's patterns make the word.
#[tactic(auto, unfolding(crate::specs::Patterns::patterns))]
pub fn is_named(word: Word) -> bool
    ensures { result ≡ is_named word }
{
    word.get() >= 0o6000 && value_of(&PATTERNS, word) == word.get()
}

/// The inclusive or of the values of the patterns that a word has.
fn value_of(list: &[Pattern], word: Word) -> u16
    ensures { result ≡ or_after 0 (patterns_of word list.now) }
{
    let bits = word.get();
    let mut value = 0;
    let mut rest = list;
    while let [pattern, others @ ..] = rest {
        if bits & pattern.0 == pattern.1 {
            value |= pattern.3;
        }
        rest = others;
    }
    value
}

/// Appends the names of the patterns that a word has, the first after a tab.
#[tactic(auto, unfolding(crate::specs::Patterns::patterns))]
pub fn put_names(text: &mut Vec<u8>, word: Word) -> Result<(), AllocError>
    ensures { OnOk result (text.new.items ≡ text.old.items ++ with_lead 9 (names (patterns_of word patterns))) }
{
    put_listed(text, &PATTERNS, word)
}

/// Appends the names of the patterns of a list that a word has, the first after a tab.
fn put_listed(text: &mut Vec<u8>, list: &[Pattern], word: Word) -> Result<(), AllocError>
    ensures { OnOk result (text.new.items ≡ text.old.items ++ with_lead 9 (names (patterns_of word list.now))) }
{
    let bits = word.get();
    let mut byte = b'\t';
    let mut rest = list;
    while let [pattern, others @ ..] = rest {
        if bits & pattern.0 == pattern.1 {
            put_piece(text, byte, shown_name(&pattern.2))?;
            byte = b' ';
        }
        rest = others;
    }
    Ok(())
}

/// A name, or a number without a zero in front.
fn shown_name(name: &[u8]) -> &[u8]
    ensures { result.now ≡ shown_name name.now }
{
    match name {
        [b'0', others @ ..] => others,
        _ => name,
    }
}

//! The names of the words that an 8/E does and an 8/I doesn't, as PAL8 has them.

ghost use Rattle.std.specs.Prelude.{◌≡◌};
ghost use Rattle.trace8e.specs.Names.{own_name};

use word12::Word;

/// The name of a word, if it is one of the 8/E's own, else an empty text.
#[tactic(auto, unfolding(crate::specs::Names::own_name))]
pub(crate) fn own_name(word: Word) -> &'static [u8]
    ensures { result.now ≡ own_name word }
{
    match word.get() {
        0o6000 => b"SKON",
        0o6003 => b"SRQ",
        0o6004 => b"GTF",
        0o6005 => b"RTF",
        0o6006 => b"SGT",
        0o6007 => b"CAF",
        0o6010 => b"RPE",
        0o6016 => b"RCC",
        0o6020 => b"PCE",
        0o6030 => b"KCF",
        0o6035 => b"KIE",
        0o6040 => b"TFL",
        0o6045 => b"TSK",
        0o7002 => b"BSW",
        0o7421 => b"MQL",
        0o7501 => b"MQA",
        0o7521 => b"SWP",
        0o7701 => b"ACL",
        _ => b"",
    }
}

//! The letters and the words of faults.
ghost use Rattle.std.specs.Prelude.{◌≡◌};
ghost use Rattle.pal8_tape.specs.FaultLines.{letters_of, words_of};

use pal8_places::Code;

/// The two letters of a fault.
pub(crate) fn letters_of(code: Code) -> &'static [u8]
    ensures { result.now ≡ letters_of code }
{
    match code {
        Code::IC => b"IC",
        Code::SY => b"SY",
        Code::NU => b"NU",
        Code::UA(_) => b"UA",
        Code::DT(_) => b"DT",
        Code::RD => b"RD",
        Code::IR => b"IR",
        Code::II => b"II",
        Code::FD => b"FD",
        Code::PG => b"PG",
        Code::PF => b"PF",
        Code::DZ => b"DZ",
        Code::PE | Code::PageClash(_) => b"PE",
        Code::ZE | Code::ZeroClash(_) => b"ZE",
        Code::RL => b"RL",
        Code::PH => b"PH",
        Code::NE => b"NE",
        Code::NW => b"NW",
    }
}

/// The words of a fault.
pub(crate) fn words_of(code: Code) -> &'static [u8]
    ensures { result.now ≡ words_of code }
{
    match code {
        Code::IC => b"illegal character",
        Code::SY => b"bad statement",
        Code::NU => b"bad number",
        Code::UA(_) => b"undefined name",
        Code::DT(_) => b"duplicate tag",
        Code::RD => b"redefinition",
        Code::IR => b"illegal reference",
        Code::II => b"illegal indirect",
        Code::FD => b"bad field",
        Code::PG => b"page above 37",
        Code::PF => b"past 7777",
        Code::DZ => b"division by zero",
        Code::PE | Code::PageClash(_) => b"page exceeded",
        Code::ZE | Code::ZeroClash(_) => b"page zero exceeded",
        Code::RL => b"RELOC by no whole page",
        Code::PH => b"unmatched bracket",
        Code::NE => b"no $",
        Code::NW => b"no word",
    }
}

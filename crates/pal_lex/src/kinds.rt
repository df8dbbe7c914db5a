ghost use Rattle.std.specs.Prelude.{◌≡◌};
ghost use Rattle.pal_lex.specs.Cutting.{is_blank};
ghost use Rattle.pal_lex.specs.Grammar.{is_sign, is_star, is_equals, is_comma, is_bad};

use crate::Kind;

pub fn is_blank(kind: Kind) -> bool
    ensures { result ≡ is_blank kind }
{
    matches!(kind, Kind::Blank)
}

/// Whether a token is `+` or `-`.
pub fn is_sign(kind: Kind) -> bool
    ensures { result ≡ is_sign kind }
{
    matches!(kind, Kind::Plus | Kind::Minus)
}

pub fn is_star(kind: Kind) -> bool
    ensures { result ≡ is_star kind }
{
    matches!(kind, Kind::Star)
}

pub fn is_equals(kind: Kind) -> bool
    ensures { result ≡ is_equals kind }
{
    matches!(kind, Kind::Equals)
}

pub fn is_comma(kind: Kind) -> bool
    ensures { result ≡ is_comma kind }
{
    matches!(kind, Kind::Comma)
}

/// Whether a token is a bad number.
pub fn is_bad(kind: Kind) -> bool
    ensures { result ≡ is_bad kind }
{
    matches!(kind, Kind::BadNumber)
}

ghost use Rattle.std.specs.Prelude.{◌≡◌};
ghost use Rattle.pal8_lex.specs.Kinds.{takes_blank_after, takes_blank_before, is_comma, head_of_one, head_with};
ghost use Rattle.pal8_lex.specs.Steps.{head_again};

use crate::Kind;
use crate::rules::Head;
use pal_lex::name;

const TEXT: u64 = name!(b'T' b'E' b'X' b'T' 0 0);

const EJECT: u64 = name!(b'E' b'J' b'E' b'C' b'T' 0);

const XLIST: u64 = name!(b'X' b'L' b'I' b'S' b'T' 0);

/// Whether a blank after such a token means something, as far as the token decides it.
#[inline(always)]
pub fn takes_blank_after(kind: Kind) -> bool
    ensures { result ≡ takes_blank_after kind }
{
    match kind {
        Kind::Name(_) | Kind::Number(_) | Kind::Character(_) | Kind::Here => true,
        Kind::Closing(_) | Kind::String | Kind::Bad => true,
        Kind::Operator(_) | Kind::Equals | Kind::Comma | Kind::Star | Kind::Opening(_) => false,
    }
}

/// Whether a blank before such a token means something, as far as the token decides it.
#[inline(always)]
pub fn takes_blank_before(kind: Kind) -> bool
    ensures { result ≡ takes_blank_before kind }
{
    match kind {
        Kind::Name(_) | Kind::Number(_) | Kind::Character(_) | Kind::Here => true,
        Kind::Opening(_) | Kind::String | Kind::Bad => true,
        Kind::Operator(_) | Kind::Equals | Kind::Comma | Kind::Star | Kind::Closing(_) => false,
    }
}

#[inline(always)]
pub fn is_comma(kind: Kind) -> bool
    ensures { result ≡ is_comma kind }
{
    matches!(kind, Kind::Comma)
}

/// What begins after the tags, where it is one token so far.
#[inline(always)]
pub fn head_of_one(kind: Kind) -> Head
    ensures { result ≡ head_of_one kind }
{
    match kind {
        Kind::Name(name) => match name.number() {
            TEXT => Head::Text,
            EJECT => Head::Listing,
            XLIST => Head::Listing,
            _ => Head::One,
        },
        Kind::Number(_) | Kind::Character(_) | Kind::Here | Kind::Operator(_) => Head::One,
        Kind::Equals | Kind::Comma | Kind::Star | Kind::Opening(_) => Head::One,
        Kind::Closing(_) | Kind::String | Kind::Bad => Head::One,
    }
}

/// What begins after the tags, with one token more.
#[inline(always)]
pub fn head_with(kind: Kind, before: Head) -> Head
    ensures { result ≡ head_with kind before }
{
    match before {
        Head::Empty => head_of_one(kind),
        Head::One | Head::Text | Head::Listing => {
            if is_comma(kind) {
                Head::Empty
            } else {
                Head::More
            }
        }
        Head::More => Head::More,
    }
}

/// What begins after the tags, where the newest token, no comma, is this one now.
#[inline(always)]
pub fn head_again(kind: Kind, before: Head) -> Head
    ensures { result ≡ head_again kind before }
{
    match before {
        Head::Empty => Head::Empty,
        Head::One | Head::Text | Head::Listing => head_of_one(kind),
        Head::More => Head::More,
    }
}

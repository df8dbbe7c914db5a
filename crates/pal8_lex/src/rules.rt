ghost use Rattle.std.specs.Prelude.{◌≡◌};
ghost use Rattle.pal8_lex.specs.Text.{is_dropped, as_read, capital};
ghost use Rattle.pal8_lex.specs.Rules.{is_letter_or_digit, is_space, is_end, ends_by, end_of, mark_of, shape_of_byte, shape_of, effect_of};
ghost use Rattle.pal8_lex.specs.Pieces.{is_blank};
ghost use Rattle.pal8_lex.specs.Statements.{is_string};

use crate::{Kind, Operator, Pool};

/// What ends a statement.
#[derive(Clone, Copy)]
pub enum End {
    /// `;`
    Semicolon,
    /// The end of a line.
    Line,
    /// `<`
    Open,
    /// `>`
    Close,
    /// `$`
    Dollar,
}

/// What the next byte of a statement stands after.
#[derive(Clone, Copy)]
pub enum Open {
    /// Nothing, or a sign or an opening: a blank means nothing.
    Start,
    /// A blank that means something, if the next token takes one before it.
    Blank,
    /// A name or a number, which may go on; the next character of the name has this weight.
    Run(u32),
    /// Any other token, after which a blank means something.
    Term,
    /// `"`
    Quote,
    /// A string's beginning, with this delimiter.
    String(u8),
    Comment,
    /// What EJECT or XLIST have after them, which means nothing.
    Title,
}

/// What stands in a statement after its tags, which are pairs of a token and `,`.
#[derive(Clone, Copy)]
pub enum Head {
    Empty,
    One,
    /// The name TEXT alone.
    Text,
    /// The name EJECT or XLIST alone.
    Listing,
    More,
}

/// What a piece of a statement is.
#[derive(Clone, Copy)]
pub enum Shape {
    /// Letters and digits.
    Run,
    Blank,
    /// A token of one byte, or a character.
    Mark(Kind),
    /// `"`
    Quote,
    /// A string with its first delimiter.
    OpenString,
    /// A string with both.
    ClosedString,
    Comment,
    Title,
}

/// What a byte does that ends no statement.
#[derive(Clone, Copy)]
pub enum Effect {
    /// It begins a piece.
    Begins(Shape),
    /// It goes on with a name or a number.
    Lengthens,
    /// It goes on with a string.
    GoesOn,
    /// It ends a string.
    Closes,
    /// It makes a `"` this character.
    Completes(u8),
}

/// Whether a byte is as if it weren't there.
#[inline(always)]
pub fn is_dropped(byte: u8) -> bool
    ensures { result ≡ is_dropped byte }
{
    matches!(byte, 0o015 | 0o014 | 0 | 0o177)
}

/// What a byte is read as: LF ends a line.
#[inline(always)]
pub fn as_read(byte: u8) -> u8
    ensures { result ≡ as_read byte }
{
    if byte == b'\n' { b'\r' } else { byte }
}

/// A small letter's capital, and any other byte itself.
#[inline(always)]
pub fn capital(byte: u8) -> u8
    ensures { result ≡ capital byte }
{
    match byte {
        b'a'..=b'z' => byte - 0o040,
        _ => byte,
    }
}

#[inline(always)]
pub fn is_letter_or_digit(byte: u8) -> bool
    ensures { result ≡ is_letter_or_digit byte }
{
    matches!(byte, b'A'..=b'Z' | b'a'..=b'z' | b'0'..=b'9')
}

#[inline(always)]
fn is_space(byte: u8) -> bool
    ensures { result ≡ is_space byte }
{
    matches!(byte, b' ' | b'\t')
}

/// Whether a byte ends a statement, where it is a token.
#[inline(always)]
fn is_end(byte: u8) -> bool
    ensures { result ≡ is_end byte }
{
    matches!(byte, b';' | b'\r' | b'<' | b'>' | b'$')
}

/// Whether a byte ends a statement that is so far.
#[inline(always)]
pub fn ends_by(state: Open, head: Head, byte: u8) -> bool
    ensures { result ≡ ends_by state head byte }
{
    match state {
        Open::Comment | Open::Quote | Open::String(_) => byte == b'\r',
        Open::Title => byte == b'\r' || byte == b';',
        Open::Start | Open::Blank | Open::Run(_) | Open::Term => match head {
            Head::Text => byte == b'\r',
            Head::Empty | Head::One | Head::Listing | Head::More => is_end(byte),
        },
    }
}

/// Which end a byte is.
#[inline(always)]
pub fn end_of(byte: u8) -> End
    ensures { result ≡ end_of byte }
{
    match byte {
        b'\r' => End::Line,
        b';' => End::Semicolon,
        b'<' => End::Open,
        b'>' => End::Close,
        _ => End::Dollar,
    }
}

/// The token that a byte is by itself.
#[inline(always)]
fn mark_of(byte: u8) -> Kind
    ensures { result ≡ mark_of byte }
{
    match byte {
        b'.' => Kind::Here,
        b'+' => Kind::Operator(Operator::Plus),
        b'-' => Kind::Operator(Operator::Minus),
        b'!' => Kind::Operator(Operator::Or),
        b'&' => Kind::Operator(Operator::And),
        b'^' => Kind::Operator(Operator::Times),
        b'%' => Kind::Operator(Operator::Divide),
        b'=' => Kind::Equals,
        b',' => Kind::Comma,
        b'*' => Kind::Star,
        b'(' => Kind::Opening(Pool::Own),
        b'[' => Kind::Opening(Pool::Zero),
        b')' => Kind::Closing(Pool::Own),
        b']' => Kind::Closing(Pool::Zero),
        _ => Kind::Bad,
    }
}

/// The piece that a byte begins, where it is a delimiter neither of a string nor of a title.
#[inline(always)]
fn shape_of_byte(byte: u8) -> Shape
    ensures { result ≡ shape_of_byte byte }
{
    if is_letter_or_digit(byte) {
        return Shape::Run;
    }
    match byte {
        b' ' => Shape::Blank,
        b'\t' => Shape::Blank,
        b'/' => Shape::Comment,
        b'"' => Shape::Quote,
        _ => Shape::Mark(mark_of(byte)),
    }
}

/// The piece that a byte begins.
#[inline(always)]
fn shape_of(head: Head, byte: u8) -> Shape
    ensures { result ≡ shape_of head byte }
{
    match head {
        Head::Text => {
            if is_space(byte) {
                Shape::Blank
            } else {
                Shape::OpenString
            }
        }
        Head::Listing => Shape::Title,
        Head::Empty | Head::One | Head::More => shape_of_byte(byte),
    }
}

/// What a byte does that ends no statement.
#[inline(always)]
pub fn effect_of(state: Open, head: Head, byte: u8) -> Effect
    ensures { result ≡ effect_of state head byte }
{
    match state {
        Open::Comment => Effect::Begins(Shape::Comment),
        Open::Title => Effect::Begins(Shape::Title),
        Open::Quote => Effect::Completes(if byte < 0o200 { byte + 0o200 } else { byte }),
        Open::String(delimiter) => {
            if byte == delimiter {
                Effect::Closes
            } else {
                Effect::GoesOn
            }
        }
        Open::Run(_) => {
            if is_letter_or_digit(byte) {
                Effect::Lengthens
            } else {
                Effect::Begins(shape_of(head, byte))
            }
        }
        Open::Start | Open::Blank | Open::Term => Effect::Begins(shape_of(head, byte)),
    }
}

/// Whether what comes next stands after a blank that means something.
#[inline(always)]
pub fn is_blank(state: Open) -> bool
    ensures { result ≡ is_blank state }
{
    matches!(state, Open::Blank)
}

/// Whether a string goes on.
#[inline(always)]
pub fn is_string(state: Open) -> bool
    ensures { result ≡ is_string state }
{
    matches!(state, Open::String(_))
}

ghost use Rattle.std.specs.Prelude.{◌≡◌, ◌≤◌, false, length, take};
ghost use Rattle.pal_lex.specs.Text.{is_ignored, is_end};
ghost use Rattle.pal_lex.specs.Steps.{has_cr};
ghost use Rattle.pal_lex.specs.JudgeSteps.{comment_after, dies};

pub(crate) const LINE_FEED: u8 = 0o012;

const FORM_FEED: u8 = 0o014;

const RUBOUT: u8 = 0o177;

/// Whether a byte is as if it weren't there.
#[inline(always)]
pub(crate) fn is_ignored(byte: u8) -> bool
    ensures { result ≡ is_ignored byte }
{
    matches!(byte, 0 | LINE_FEED | FORM_FEED | RUBOUT)
}

/// Whether a comment goes on after a byte.
#[inline(always)]
pub(crate) fn comment_after(comment: bool, byte: u8) -> bool
    ensures { result ≡ comment_after comment byte }
{
    match byte {
        b'\r' => false,
        b'/' => true,
        _ => comment,
    }
}

/// Whether a byte means nothing, where a comment goes on or not.
#[inline(always)]
pub(crate) fn dies(comment: bool, byte: u8) -> bool
    ensures { result ≡ dies comment byte }
{
    is_ignored(byte) || comment_after(comment, byte)
}

/// How many bytes at the prefix of these are no CR.
#[inline(always)]
pub(crate) fn before_cr(bytes: &[u8]) -> usize
    ensures range { result ≤ length bytes.now }
    ensures none { has_cr (take result bytes.now) ≡ false }
{
    let mut count = 0;
    while count < bytes.len() && bytes[count] != b'\r' {
        count += 1;
    }
    count
}

/// Whether a byte ends a statement, where it means something.
#[inline(always)]
pub(crate) fn is_end(byte: u8) -> bool
    ensures { result ≡ is_end byte }
{
    matches!(byte, b';' | b'\r' | b'$')
}

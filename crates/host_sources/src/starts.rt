//! Where a statement begins.
ghost use Rattle.std.specs.Prelude.{◌≡◌, ◌||◌, Option};
ghost use Rattle.pal_lex.specs.Text as spec;
ghost use Rattle.pal_lex.specs.Text.{text_of};
ghost use Rattle.host_sources.specs.Starts.{start_of};
ghost use Rattle.host_sources.specs.StartSteps.{comment_by};
ghost use Rattle.host_sources.specs.StartSteps.{start_by};

/// The place of the statement that a byte after a text ends; that of this byte, where the statement is empty.
pub(crate) fn statement_place(before: &[u8]) -> usize
    ensures { result ≡ start_of (text_of before.now) }
{
    let mut comment = false;
    let mut start = None;
    let mut taken = 0;
    while taken < before.len() {
        let byte = before[taken];
        comment = comment_after(comment, byte);
        start = start_after(start, comment, byte, taken);
        taken += 1;
    }
    start.unwrap_or(before.len())
}

/// Whether a comment goes on after a byte.
pub(crate) fn comment_after(comment: bool, byte: u8) -> bool
    ensures { result ≡ comment_by byte comment }
{
    match byte {
        b'\r' => false,
        b'/' => true,
        _ => comment,
    }
}

/// The place of the first byte of a statement so far that is no blank, with one byte more, by whether a comment goes on
/// after that.
fn start_after(start: Option<usize>, comment: bool, byte: u8, place: usize) -> Option<usize>
    ensures { result ≡ start_by start (spec.is_ignored byte || comment) byte place }
{
    if is_ignored(byte) || comment {
        return start;
    }
    if matches!(byte, b';' | b'\r' | b'$') {
        return None;
    }
    if start.is_some() || matches!(byte, b' ' | b'\t') {
        return start;
    }
    Some(place)
}

/// Whether a byte means nothing, by whether a comment goes on after it.
pub(crate) fn is_dead(comment: bool, byte: u8) -> bool
    ensures { result ≡ (spec.is_ignored byte || comment) }
{
    is_ignored(byte) || comment
}

/// Whether a byte is as if it weren't there.
fn is_ignored(byte: u8) -> bool
    ensures { result ≡ spec.is_ignored byte }
{
    matches!(byte, 0 | b'\n' | 0o014 | 0o177)
}

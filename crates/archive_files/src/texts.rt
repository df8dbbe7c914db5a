ghost use Rattle.std.specs.Prelude.{◌≡◌, ◌+◌, ◌<◌, ◌++◌, [], ◌∷◌, true, map, if◌then◌else◌, IfOk, OnOk};
ghost use Rattle.char_pack.specs.Texts.{text as text_in, is_storable, text_frames};
ghost use Rattle.archive_files.specs.Getting as spec;
ghost use Rattle.archive_files.specs.HostTexts.{file_text, with_returns};

use char_pack::{CONTROL_Z, Text};
use std::alloc::{AllocError, Global};
use word12::Word;

const CR: u8 = 0o015;

const LF: u8 = 0o012;

/// The top bit, which a character of a file has set.
const TOP_BIT: u8 = 0o200;

/// The text of words, with each line ended by LF alone.
pub fn host_text(alloc: Global, words: &[Word]) -> Result<Vec<u8>, AllocError>
    ensures { IfOk result (λ bytes. bytes.items ≡ spec.line_feeds (text_in words.now)) }
{
    let text: Vec<u8> = Text::new(words).collect(alloc)?;
    line_feeds(alloc, &text)
}

/// A text without each CR that stands directly before an LF.
fn line_feeds(alloc: Global, text: &[u8]) -> Result<Vec<u8>, AllocError>
    ensures { IfOk result (λ bytes. bytes.items ≡ spec.line_feeds text.now) }
{
    let mut lines = Vec::with_capacity(alloc, text.len())?;
    let mut rest = text;
    while let [byte, others @ ..] = rest {
        push_unless(&mut lines, *byte, *byte == CR && is_before_lf(others))?;
        rest = others;
    }
    Ok(lines)
}

/// Appends a byte that isn't left out.
fn push_unless(lines: &mut Vec<u8>, byte: u8, is_left_out: bool) -> Result<(), AllocError>
    ensures { OnOk result (lines.new.items ≡ lines.old.items ++ (if is_left_out then [] else byte ∷ [])) }
{
    if !is_left_out {
        lines.push(byte)?;
    }
    Ok(())
}

/// Whether an LF comes next.
fn is_before_lf(rest: &[u8]) -> bool
    ensures { result ≡ spec.is_before_lf rest.now }
{
    match rest {
        [] => false,
        [byte, ..] => *byte == LF,
    }
}

/// The frames of a text of the host in a file, with control Z after them.
pub fn text_frames(alloc: Global, text: &[u8]) -> Result<Vec<u8>, AllocError>
    requires { is_storable text.now ≡ true }
    ensures { IfOk result (λ frames. frames.items ≡ text_frames (file_text text.now)) }
{
    let mut frames = with_top_bits(alloc, text)?;
    frames.push(TOP_BIT + CONTROL_Z)?;
    Ok(frames)
}

/// The characters of a text of the host in a file, each with its top bit set.
fn with_top_bits(alloc: Global, text: &[u8]) -> Result<Vec<u8>, AllocError>
    requires { is_storable text.now ≡ true }
    ensures { IfOk result (λ frames. frames.items
        ≡ map (λ character. 0o200 + character) (file_text text.now)) }
{
    let mut frames = Vec::with_capacity(alloc, text.len())?;
    let mut rest = text;
    while let [byte, others @ ..] = rest {
        push_marked(&mut frames, *byte, *byte == CR && is_before_lf(others))?;
        rest = others;
    }
    Ok(frames)
}

/// Appends a character that isn't left out with its top bit set, where an LF is CR LF.
fn push_marked(frames: &mut Vec<u8>, byte: u8, is_left_out: bool) -> Result<(), AllocError>
    requires { byte < 0o200 }
    ensures { OnOk result (frames.new.items ≡ frames.old.items
        ++ map (λ character. 0o200 + character) (with_returns (if is_left_out then [] else byte ∷ []))) }
{
    if is_left_out {
        return Ok(());
    }
    if byte != LF {
        frames.push(TOP_BIT + byte)?;
        return Ok(());
    }
    frames.push(TOP_BIT + CR)?;
    frames.push(TOP_BIT + LF)?;
    Ok(())
}

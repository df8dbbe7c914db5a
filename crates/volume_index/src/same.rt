//! The lines that are of equal files.
ghost use Rattle.std.specs.Prelude.{◌≡◌, ◌++◌, ◌||◌, None, IfOk, OnOk};
ghost use Rattle.volume_index.specs.Same.{AreByDigest, IsSame, line_if};
ghost use Rattle.volume_index.specs.Steps as step;
ghost use Rattle.volume_index.specs.Steps.{near_text};

use crate::digests::digest_of;
use crate::text_lines::lines_of;
use std::alloc::{AllocError, Global};

/// Of the lines of an index those whose digest another line has too, in the order of their digests. Those of one digest stand together, in the
/// order that they have in the index (this project's profile).
pub fn same_lines(alloc: Global, text: &[u8]) -> Result<Vec<u8>, AllocError>
    ensures { IfOk result (λ same. IsSame text.now same.items) }
{
    let mut lines = lines_of(alloc, text)?;
    sort(&mut lines)?;
    let mut same = Vec::new(alloc);
    put_same(&lines, &mut same)?;
    Ok(same)
}

/// Puts lines in the order of their digests, those of one digest in the order that they have.
fn sort(lines: &mut Vec<Vec<u8>>) -> Result<(), AllocError>
    ensures { OnOk result (AreByDigest lines.old.items lines.new.items) }
{
    lines.sort_by_key(|line| digest_of(line))?;
    Ok(())
}

/// Appends the lines whose digest the line before or after has.
fn put_same(lines: &[Vec<u8>], out: &mut Vec<u8>) -> Result<(), AllocError>
    ensures { OnOk result (out.new.items ≡ out.old.items ++ near_text None lines.now) }
{
    let mut before = None;
    let mut rest = lines;
    while let [line, others @ ..] = rest {
        let digest = digest_of(line);
        put_if(
            is_before(before, digest) || is_next(others, digest),
            line,
            out,
        )?;
        before = Some(digest);
        rest = others;
    }
    Ok(())
}

/// Whether the line before has this digest.
fn is_before(before: Option<u128>, digest: u128) -> bool
    ensures { result ≡ step.is_before before digest }
{
    match before {
        Some(before) => before == digest,
        None => false,
    }
}

/// Whether the next line has this digest.
fn is_next(lines: &[Vec<u8>], digest: u128) -> bool
    ensures { result ≡ step.is_next lines.now digest }
{
    match lines {
        [line, ..] => digest_of(line) == digest,
        [] => false,
    }
}

/// Appends a line and its end, if that is wanted.
fn put_if(is_wanted: bool, line: &[u8], out: &mut Vec<u8>) -> Result<(), AllocError>
    ensures { OnOk result (out.new.items ≡ out.old.items ++ line_if is_wanted line.now) }
{
    if is_wanted {
        out.extend_from_slice(line)?;
        out.push(b'\n')?;
    }
    Ok(())
}

//! The lines of a text.
ghost use Rattle.std.specs.Prelude.{◌≡◌, ◌++◌, map, List, ℕ, IfOk, OnOk};
ghost use Rattle.volume_index.specs.TextLines.{lines_from, lines_of};
ghost use Rattle.volume_index.specs.Steps.{line_after};

use std::alloc::{AllocError, Global};

/// The lines of a text, without their ends.
pub(crate) fn lines_of(alloc: Global, text: &[u8]) -> Result<Vec<Vec<u8>>, AllocError>
    ensures { IfOk result (λ lines. map (λ line. line.items) lines.items ≡ lines_of text.now) }
{
    let mut lines = Vec::new(alloc);
    let mut line = Vec::new(alloc);
    let mut rest = text;
    while let [byte, others @ ..] = rest {
        line = take_byte(alloc, line, *byte, &mut lines)?;
        rest = others;
    }
    Ok(lines)
}

/// Takes the next byte of a line, and puts the line that it ends.
fn take_byte(
    alloc: Global,
    line: Vec<u8>,
    byte: u8,
    lines: &mut Vec<Vec<u8>>,
) -> Result<Vec<u8>, AllocError>
    ensures takes { IfOk result (λ next. (rest : List ℕ) → map (λ line. line.items) lines.new.items ++ lines_from next.items rest
        ≡ map (λ line. line.items) lines.old.items ++ line_after line.items byte rest) }
{
    if byte == b'\n' {
        lines.push(line)?;
        return Ok(Vec::new(alloc));
    }
    let mut next = line;
    next.push(byte)?;
    Ok(next)
}

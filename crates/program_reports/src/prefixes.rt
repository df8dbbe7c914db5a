//! Lines with what they are about before them.
ghost use Rattle.std.specs.Prelude.{◌≡◌, ◌++◌, IfOk, OnOk};
ghost use Rattle.program_reports.specs.Prefixes.{with_prefixes, prefixed_byte};

use std::alloc::{AllocError, Global};

/// A text with a prefix before each of its lines, which LF ends (this project's profile). Where a growth is refused the answer is that
/// error.
pub fn with_prefix(alloc: Global, prefix: &[u8], text: &[u8]) -> Result<Vec<u8>, AllocError>
    ensures { IfOk result (λ lines. lines.items ≡ with_prefixes prefix.now text.now) }
{
    let mut lines = Vec::new(alloc);
    let mut begins = true;
    for byte in text {
        put_byte(&mut lines, prefix, begins, *byte)?;
        begins = *byte == LF;
    }
    Ok(lines)
}

/// Appends a byte, with the prefix before it where a line begins.
fn put_byte(lines: &mut Vec<u8>, prefix: &[u8], begins: bool, byte: u8) -> Result<(), AllocError>
    ensures { OnOk result (lines.new.items ≡ lines.old.items ++ prefixed_byte prefix.now begins byte) }
{
    if begins {
        lines.extend_from_slice(prefix)?;
    }
    lines.push(byte)?;
    Ok(())
}

const LF: u8 = 0o012;

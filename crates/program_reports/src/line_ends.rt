//! The ends of the lines of a text of the host.
ghost use Rattle.std.specs.Prelude.{◌≡◌, ◌++◌, IfOk, OnOk};
ghost use Rattle.program_reports.specs.LineEnds.{with_line_feeds, line_end_of};

use std::alloc::{AllocError, Global};

/// A text of the host with LF at the end of each line, whether LF, CR LF or CR ends it there (this project's profile). Where a growth is
/// refused the answer is that error.
pub fn with_line_feeds(alloc: Global, bytes: &[u8]) -> Result<Vec<u8>, AllocError>
    ensures { IfOk result (λ text. text.items ≡ with_line_feeds bytes.now) }
{
    let mut text = Vec::new(alloc);
    let mut after_return = false;
    for byte in bytes {
        put_byte(&mut text, after_return, *byte)?;
        after_return = *byte == CR;
    }
    Ok(text)
}

/// Appends what a byte becomes, after a CR or not.
fn put_byte(text: &mut Vec<u8>, after_return: bool, byte: u8) -> Result<(), AllocError>
    ensures { OnOk result (text.new.items ≡ text.old.items ++ line_end_of after_return byte) }
{
    match byte {
        LF if after_return => Ok(()),
        CR => {
            text.push(LF)?;
            Ok(())
        }
        _ => {
            text.push(byte)?;
            Ok(())
        }
    }
}

const LF: u8 = 0o012;

const CR: u8 = 0o015;

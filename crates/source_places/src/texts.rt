//! The text of a source, as a file keeps it.
ghost use Rattle.std.specs.Prelude.{◌≡◌, ◌++◌, IfOk, OnOk};
ghost use Rattle.char_pack.specs.Texts.{host_text, line_ends};

use std::alloc::{AllocError, Global};

/// The text of bytes of the host: LF ends a line, and becomes CR LF; each CR is dropped (this project's profile).
pub fn host_text(alloc: Global, host: &[u8]) -> Result<Vec<u8>, AllocError>
    ensures { IfOk result (λ text. text.items ≡ host_text host.now) }
{
    let mut text = Vec::with_capacity(alloc, host.len())?;
    for byte in host {
        put_byte(&mut text, *byte)?;
    }
    Ok(text)
}

/// Appends what a byte of the host becomes.
fn put_byte(text: &mut Vec<u8>, byte: u8) -> Result<(), AllocError>
    ensures { OnOk result (text.new.items ≡ text.old.items ++ line_ends byte) }
{
    match byte {
        b'\r' => Ok(()),
        b'\n' => {
            text.extend_from_slice(b"\r\n")?;
            Ok(())
        }
        _ => {
            text.push(byte)?;
            Ok(())
        }
    }
}

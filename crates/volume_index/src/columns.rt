//! The columns of a line that are no names.
ghost use Rattle.std.specs.Prelude.{◌≡◌, ◌++◌, ◌<◌, decimal, OnOk};
ghost use Rattle.volume_index.specs.Columns.{hexadecimal, hex_digit, kind_text, volume_text};

use file_kind::FileKind;
use std::alloc::AllocError;

/// Appends a number.
pub fn put_number(text: &mut Vec<u8>, number: u64) -> Result<(), AllocError>
    ensures { OnOk result (text.new.items ≡ text.old.items ++ decimal number) }
{
    let mut digits = itoa::Buffer::new();
    text.extend_from_slice(digits.format(number).as_bytes())?;
    Ok(())
}

/// Appends which volume of a disk it is, from 1; `-` for a file of one volume.
pub fn put_volume(text: &mut Vec<u8>, volume: Option<u64>) -> Result<(), AllocError>
    ensures { OnOk result (text.new.items ≡ text.old.items ++ volume_text volume) }
{
    match volume {
        Some(volume) => put_number(text, volume),
        None => {
            text.push(b'-')?;
            Ok(())
        }
    }
}

/// Appends what a file holds.
pub fn put_kind(text: &mut Vec<u8>, kind: FileKind) -> Result<(), AllocError>
    ensures { OnOk result (text.new.items ≡ text.old.items ++ kind_text kind) }
{
    match kind {
        FileKind::Zeros => text.extend_from_slice(b"zeros")?,
        FileKind::Core(start) => {
            text.extend_from_slice(b"core-")?;
            text.extend_from_slice(&start.octal5())?;
        }
        FileKind::Bin => text.extend_from_slice(b"BIN")?,
        FileKind::Rim => text.extend_from_slice(b"RIM")?,
        FileKind::Text => text.extend_from_slice(b"text")?,
        FileKind::Unknown => text.extend_from_slice(b"unknown")?,
    }
    Ok(())
}

/// Appends bytes, two hexadecimal digits each.
pub fn put_hexadecimal(text: &mut Vec<u8>, bytes: &[u8]) -> Result<(), AllocError>
    ensures { OnOk result (text.new.items ≡ text.old.items ++ hexadecimal bytes.now) }
{
    let mut rest = bytes;
    while let [byte, others @ ..] = rest {
        text.extend_from_slice(&[hex_digit(*byte / 16), hex_digit(*byte % 16)])?;
        rest = others;
    }
    Ok(())
}

/// A hexadecimal digit.
fn hex_digit(number: u8) -> u8
    requires { number < 16 }
    ensures { result ≡ hex_digit number }
{
    if number < 10 {
        b'0' + number
    } else {
        b'a' + (number - 10)
    }
}

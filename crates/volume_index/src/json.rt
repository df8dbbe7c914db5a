//! The lines of an index as JSON objects.
ghost use Rattle.std.specs.Prelude.{◌≡◌, ◌≤◌, ◌++◌, IfOk, OnOk};
ghost use Rattle.volume_index.specs.Json.{opening, with_column_ends};
ghost use Rattle.volume_index.specs.Json as spec;

use std::alloc::{AllocError, Global};

/// Each of these lines of an index as a JSON object on a line of its own (RFC 8259).
pub fn json_lines(alloc: Global, lines: &[u8]) -> Result<Vec<u8>, AllocError>
    ensures { IfOk result (λ text. text.items ≡ spec.json_lines lines.now) }
{
    let mut text = Vec::new(alloc);
    let mut column: u8 = 0;
    let mut rest = lines;
    while let [byte, others @ ..] = rest {
        put_byte(&mut text, column, *byte)?;
        column = next_column(column, *byte);
        rest = others;
    }
    Ok(text)
}

/// Appends what stands for a byte of a column, 0 before a line.
fn put_byte(text: &mut Vec<u8>, column: u8, byte: u8) -> Result<(), AllocError>
    ensures { OnOk result (text.new.items ≡ text.old.items ++ (opening column ++ with_column_ends column byte)) }
{
    if column == 0 {
        text.extend_from_slice(b"{\"image\":\"")?;
    }
    put_shaped(text, column, byte)
}

fn put_shaped(text: &mut Vec<u8>, column: u8, byte: u8) -> Result<(), AllocError>
    ensures { OnOk result (text.new.items ≡ text.old.items ++ with_column_ends column byte) }
{
    if byte == b'\t' {
        return text.extend_from_slice(separator(column));
    }
    if byte == b'\n' {
        return text.extend_from_slice(b"\"}\n");
    }
    if byte == b'"' || byte == b'\\' {
        return text.extend_from_slice(&[b'\\', byte]);
    }
    text.extend_from_slice(&[byte])
}

/// What stands after a column.
fn separator(column: u8) -> &'static [u8]
    ensures { result.now ≡ spec.separator column }
{
    match column {
        1 => b"\",\"volume\":\"",
        2 => b"\",\"first\":",
        3 => b",\"length\":",
        4 => b",\"name\":\"",
        5 => b"\",\"date\":\"",
        6 => b"\",\"kind\":\"",
        _ => b"\",\"digest\":\"",
    }
}

/// The number of the column after a byte.
fn next_column(column: u8, byte: u8) -> u8
    requires { column ≤ 8 }
    ensures value { result ≡ spec.next_column column byte }
    ensures range { result ≤ 8 }
{
    if byte == b'\n' {
        return 0;
    }
    if byte == b'\t' {
        return (column + 1).min(8);
    }
    column.max(1)
}

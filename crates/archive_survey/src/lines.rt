//! The lines of what is found in a directory.
ghost use Rattle.std.specs.Prelude.{◌≡◌, ◌+◌, ◌≤◌, ◌++◌, ◌∷◌, [], codes, OnOk};
ghost use Rattle.arrayvec.specs.ArrayVec.{array_vec_len};
ghost use Rattle.archive_survey.specs.Lines.{extent_text, fault_line, part_line};

use crate::Part;
use name_spelling::put_spelled;
use os8_dir::DirFault;
use refusals::put_directory_fault;
use refusals::text_lines::{TextLine, put, put_number};
use std::alloc::AllocError;

/// Appends the line of a fault of a directory.
pub(crate) fn put_fault(fault: DirFault, out: &mut Vec<u8>) -> Result<(), AllocError>
    ensures { OnOk result (out.new.items ≡ out.old.items ++ fault_line fault) }
{
    let mut line = TextLine::new();
    put_directory_fault(&mut line, fault);
    put(&mut line, b"\n");
    out.extend_from_slice(line.as_slice())
}

/// Puts a block, how many from it on, and the line's end.
fn put_extent(line: &mut TextLine, place: u64, size: u64)
    requires { array_vec_len line.old ≤ 35 }
    ensures { line.new.items ≡ line.old.items ++ extent_text place size }
{
    put_number(line, place);
    put(line, b" ");
    put_number(line, size);
    put(line, b"\n");
}

/// Appends the line of a part.
pub(crate) fn put_part(part: &Part, out: &mut Vec<u8>) -> Result<(), AllocError>
    ensures { OnOk result (out.new.items ≡ out.old.items ++ part_line part.now) }
{
    let mut line = TextLine::new();
    match part {
        Part::Segment { number, count } => {
            put(&mut line, b"SEGMENT ");
            put_extent(&mut line, *number as u64, *count as u64);
        }
        Part::Fault(fault) => return put_fault(*fault, out),
        Part::File {
            name,
            place,
            size,
            ..
        } => {
            put(&mut line, b"FILE ");
            put_spelled(&mut line, *name);
            put(&mut line, b" ");
            put_extent(&mut line, u64::from(*place), u64::from(*size));
        }
        Part::Empty { place, size } => {
            put(&mut line, b"EMPTY ");
            put_extent(&mut line, u64::from(*place), u64::from(*size));
        }
    }
    out.extend_from_slice(line.as_slice())
}

/// Appends what stands before the line of an unsound entry.
pub(crate) fn put_unsound(out: &mut Vec<u8>) -> Result<(), AllocError>
    ensures { OnOk result (out.new.items ≡ out.old.items ++ codes "UNSOUND ") }
{
    out.extend_from_slice(b"UNSOUND ")
}

/// Appends the line of blocks that two entries claim.
pub(crate) fn put_twice(place: usize, size: usize, out: &mut Vec<u8>) -> Result<(), AllocError>
    ensures { OnOk result (out.new.items ≡ out.old.items ++ codes "TWICE " ++ extent_text place size) }
{
    let mut line = TextLine::new();
    put(&mut line, b"TWICE ");
    put_extent(&mut line, place as u64, size as u64);
    out.extend_from_slice(line.as_slice())
}

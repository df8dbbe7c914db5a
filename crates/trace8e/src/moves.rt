//! The line of a transfer's end.

ghost use Rattle.std.specs.Prelude.{◌≡◌, ◌++◌, OnOk};
ghost use Rattle.pdp8e.specs.Transfers.{moved_text};

use pdp8e::transfer_line;
use rk8e::Moved;
use std::alloc::AllocError;

/// Appends the line of a transfer that ended, if one did.
pub(crate) fn put_moved(lines: &mut Vec<u8>, moved: &Option<Moved>) -> Result<(), AllocError>
    ensures { OnOk result (lines.new.items ≡ lines.old.items ++ moved_text moved.now) }
{
    match moved {
        None => Ok(()),
        Some(moved) => lines.extend_from_slice(transfer_line(moved).as_slice()),
    }
}

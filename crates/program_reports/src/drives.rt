//! The lines for the file of the disk in a drive, which is refused.
ghost use Rattle.std.specs.Prelude.{◌≡◌, ◌+◌, ◌≤◌, ◌++◌};
ghost use Rattle.arrayvec.specs.ArrayVec.{array_vec_len};
ghost use Rattle.program_reports.specs.Program as spec;

use crate::programs::put_image;
use refusals::text_lines::{TextLine, put};
use volume_image::ImageFault;

/// Why the file of a drive's disk is refused.
#[derive(Clone, Copy)]
pub enum DriveRefusal {
    /// It could not be read.
    Unread,

    /// It could not be written.
    Unwritten,

    /// Another program, or another drive, holds it.
    Busy,

    /// Its bytes are those of no disk.
    Image(ImageFault),
}

/// Puts why the file of a drive's disk is refused into an empty line, and then the drive, 0 to 3, if it isn't 0 (this project's profile).
pub(crate) fn put_drive(text: &mut TextLine, drive: u8, why: DriveRefusal)
    requires { array_vec_len text.old ≡ 0 }
    ensures text { text.new.items ≡ text.old.items ++ (spec.refusal_of_drive why ++ spec.drive_text drive) }
    ensures short { array_vec_len text.new ≤ 60 }
{
    put_refusal(text, why);
    put_drive_number(text, drive);
}

/// Puts why the file of a drive's disk is refused into an empty line.
fn put_refusal(text: &mut TextLine, why: DriveRefusal)
    requires { array_vec_len text.old ≡ 0 }
    ensures text { text.new.items ≡ text.old.items ++ spec.refusal_of_drive why }
    ensures short { array_vec_len text.new ≤ 40 }
{
    match why {
        DriveRefusal::Unread => put(text, b"? HOST READ"),
        DriveRefusal::Unwritten => put(text, b"? HOST WRITE"),
        DriveRefusal::Busy => put(text, b"? HOST BUSY"),
        DriveRefusal::Image(fault) => put_image(text, fault),
    }
}

/// Puts a drive, if it isn't 0.
fn put_drive_number(text: &mut TextLine, drive: u8)
    requires { array_vec_len text.old ≤ 40 }
    ensures text { text.new.items ≡ text.old.items ++ spec.drive_text drive }
    ensures short { array_vec_len text.new ≤ array_vec_len text.old + 4 }
{
    if drive == 0 {
        return;
    }
    put(text, b" RK");
    put(text, &[b'0' + drive % 8]);
}

//! Why a file of the host is not read, or not written. Printing it takes no memory but for the file's name.
ghost use Rattle.std.specs.Prelude.{◌≡◌, Some};
ghost use Rattle.std.specs.Fmt.{DisplaysOnOk};
ghost use Rattle.outcome.specs.Reasons as spec;

use arrayvec::ArrayString;
use hosts::HostFault;
use shown_text::ShownText;
use std::fmt;

/// Why a file of the host is not read, or not written.
#[derive(Clone, Copy)]
pub enum Reason {
    /// A call failed by this fault.
    Fault(HostFault),

    /// A file of its name is there, and is to stay.
    Exists,

    /// It has no room for an image of another size.
    NoRoom,
}

impl Reason {
    /// What is said of the file (this project's profile).
    pub fn words(self) -> &'static str
        ensures { result.now ≡ spec.reason_words self }
    {
        match self {
            Reason::Fault(fault) => fault_words(fault),
            Reason::Exists => "a file of that name is there",
            Reason::NoRoom => "no room for an image of another size",
        }
    }

    /// The text of the note without the file's name, with the end of its line, where no memory is left for that.
    pub fn bare_text(self) -> ArrayString<80>
        ensures { result.bytes ≡ spec.bare_text self }
    {
        let mut text = ArrayString::new();
        text.push_str("note: ");
        text.push_str(self.words());
        text.push_str("\n");
        text
    }
}

fn fault_words(fault: HostFault) -> &'static str
    ensures { result.now ≡ spec.fault_words fault }
{
    match fault {
        HostFault::Failed => "input/output error",
        HostFault::Busy => "another program works on it",
        HostFault::Memory => "no memory is left",
        HostFault::Absent => "no such file",
        HostFault::Denied => "permission denied",
        HostFault::ReadOnly => "read-only file system",
        HostFault::Folder => "is a folder",
        HostFault::NoFolder => "a part of its path is no folder",
        HostFault::Full => "no space left",
        HostFault::Links => "too many links",
        HostFault::Large => "larger than the file system takes",
        HostFault::Changed => "changed while it was read",
        HostFault::Pipe => "is a pipe",
        HostFault::Owner => "its owner can't be kept",
    }
}

/// Writes the note on the file of a name.
pub(crate) fn write_on_reason<W: fmt::Write>(
    why: Reason,
    name: &str,
    f: &mut fmt::Formatter<W>,
) -> fmt::Result
    ensures { DisplaysOnOk W.write_str_gives f.old result (Some (spec.reason_text why name.now)) f.new }
{
    let words = why.words();
    let name = ShownText { text: name };
    write!(f, "note: {name}: {words}\n")
}

//! Why a file of the host is not read, or not written, on standard error.
ghost use Rattle.std.specs.Prelude.{◌≡◌};
ghost use Rattle.image_files.specs.Reasons as spec;
ghost use Rattle.image_files.specs.Reasons.{TellsFault, TellsFirst, TellsReason, TellsUnheld};

use crate::notes::{tell, tell_note};
use hosts::{FaultClass, Host, HostFault};
use outcome::{Content, Note, Reason};
use std::alloc::Global;

/// Prints why the file of a name is not read, or not written. Where memory is wanted for the name, it is left out.
pub fn tell_reason<H: Host>(host: &mut H, alloc: Global, name: &str, why: Reason)
    ensures { TellsReason why name.now (H.history host.old) (H.history host.new) }
{
    match tell_note(host, alloc, Note::OnReason(why, name)) {
        Ok(()) => {}
        Err(_) => tell(host, why.bare_text().as_str()),
    }
}

/// Prints the fault of a call on the file of a name, unless memory is wanted.
pub fn tell_fault<H: Host>(host: &mut H, alloc: Global, name: &str, fault: HostFault)
    ensures { TellsFault fault name.now (H.history host.old) (H.history host.new) }
{
    if is_want_of_memory(fault) {
        return;
    }
    tell_reason(host, alloc, name, Reason::Fault(fault));
}

/// Prints why the file of a name, which is for this, can't be held or made. That another program works on an image is printed later.
pub(crate) fn tell_unheld<H: Host>(
    host: &mut H,
    alloc: Global,
    content: Content,
    name: &str,
    fault: HostFault,
)
    ensures { TellsUnheld content fault name.now (H.history host.old) (H.history host.new) }
{
    if is_untold(content, fault) {
        return;
    }
    tell_reason(host, alloc, name, Reason::Fault(fault));
}

/// Prints why a file is not made that is to be the first of its name.
pub fn tell_first<H: Host>(host: &mut H, alloc: Global, name: &str, fault: HostFault)
    ensures { TellsFirst fault name.now (H.history host.old) (H.history host.new) }
{
    if is_want_of_memory(fault) {
        return;
    }
    tell_reason(host, alloc, name, reason_of_first(fault));
}

fn is_want_of_memory(fault: HostFault) -> bool
    ensures { result ≡ spec.is_want_of_memory fault }
{
    match fault.class() {
        FaultClass::Memory => true,
        FaultClass::Busy | FaultClass::Other => false,
    }
}

fn is_untold(content: Content, fault: HostFault) -> bool
    ensures { result ≡ spec.is_untold content fault }
{
    match fault.class() {
        FaultClass::Busy => is_told_later(content),
        FaultClass::Memory => true,
        FaultClass::Other => false,
    }
}

fn is_told_later(content: Content) -> bool
    ensures { result ≡ spec.is_told_later content }
{
    match content {
        Content::Image | Content::Disk(_) => true,
        Content::Tape | Content::Listing => false,
    }
}

fn reason_of_first(fault: HostFault) -> Reason
    ensures { result ≡ spec.reason_of_first fault }
{
    match fault.class() {
        FaultClass::Busy => Reason::Exists,
        FaultClass::Memory | FaultClass::Other => Reason::Fault(fault),
    }
}

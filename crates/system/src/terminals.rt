//! Which standard streams are terminals.

use hosts::Stream;
use std::io::{Input, IsTerminal};

/// A runtime of which is known whether the streams that it writes are terminals. It asks of the open streams, and opens nothing.
pub trait Outputs {
    fn is_output_terminal(&self) -> bool;

    fn is_errors_terminal(&self) -> bool;
}

impl Outputs for HostRuntime {
    fn is_output_terminal(&self) -> bool {
        self.stdout().is_terminal()
    }

    fn is_errors_terminal(&self) -> bool {
        self.stderr().is_terminal()
    }
}

/// Whether a standard stream is a terminal.
pub(crate) fn is_terminal<R: Input + Outputs>(rt: &R, stream: Stream) -> bool
where
    R::Reader: IsTerminal,
{
    match stream {
        Stream::Input => rt.reader().is_terminal(),
        Stream::Output => rt.is_output_terminal(),
        Stream::Errors => rt.is_errors_terminal(),
    }
}

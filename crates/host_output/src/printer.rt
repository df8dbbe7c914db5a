//! An output that is standard output of a host.
ghost use Rattle.std.specs.Prelude.{◌≡◌, List, None, Some, is_some, true};
ghost use Rattle.hosts.specs.Event.{Event};
ghost use Rattle.hosts.specs.Streams.{output_text};
ghost use Rattle.host_output.specs.Printing.{HasPrinted};

use hosts::{Host, PrintFault};
use std::io::{self, ErrorKind};
use std::marker::{Brand, Model, PhantomData};
use terminal8::Output;

/// The calls of a host before a writer of it was made. A function that makes a writer has a parameter of this bound, and a call of it at
/// `Brand` picks the calls so far in its proof. So it is known of the writer, whatever function has used it, which calls came since.
pub trait Before {
    ghost calls: { List Event };
}

impl Before for Brand {
    ghost use Rattle.std.specs.Prelude.{[]};

    ghost calls = { [] };
}

/// A host whose standard output is a writer. What is written to it is printed at once, and nothing else is asked of the host meanwhile. After
/// a print that failed nothing more is printed. A contract sees the host.
pub struct Printer<H: Host, B: Before> {
    host: H,

    /// Why its last write failed, if it did.
    fault: Option<PrintFault>,
    before: PhantomData<B>,
}

impl<H: Host, B: Before> Model for Printer<H, B> {
    ghost use Rattle.std.specs.Prelude.{◌≡◌, Option};
    ghost use Rattle.hosts.specs.declared.faults.PrintFault.{PrintFault};
    ghost use Rattle.host_output.specs.Printing.{HasPrinted};

    ghost Value = { H × Option PrintFault };

    ghost view = { λ it. (it.host, it.fault) };

    ghost invariant = { λ it. HasPrinted B.calls (H.history it.host) it.fault };
}

impl<H: Host, B: Before> Printer<H, B> {
    /// A writer that has written nothing.
    pub fn new(host: H) -> Printer<H, B>
        requires { H.history host ≡ B.calls }
        ensures { result ≡ (host, None) }
    {
        Printer {
            host,
            fault: None,
            before: PhantomData,
        }
    }

    /// Gives the host back, and why the last write failed, if it did.
    pub fn finish(self) -> (H, Option<PrintFault>)
        ensures host { result.0 ≡ self.0 }
        ensures fault { result.1 ≡ self.1 }
        ensures prints { HasPrinted B.calls (H.history self.0) result.1 }
    {
        let Printer {
            host,
            fault,
            before: _,
        } = self;
        (host, fault)
    }
}

impl<H: Host, B: Before> Output for Printer<H, B> {
    ghost contents = { λ it. Some (output_text (H.history it.0)) };

    ghost has_failed = { λ it. is_some it.1 ≡ true };

    fn put(&mut self, bytes: &[u8]) -> io::Result<()> {
        if self.fault.is_some() {
            return Err(io::Error::from(ErrorKind::Other));
        }
        match self.host.print(bytes) {
            Ok(()) => Ok(()),
            Err(fault) => {
                self.fault = Some(fault);
                Err(io::Error::from(ErrorKind::Other))
            }
        }
    }

    fn hand_on(&mut self) -> io::Result<()> {
        Ok(())
    }
}

ghost use Rattle.std.specs.Prelude.{◌≡◌};

use refusals::SessionFault;
use std::alloc::AllocError;
use std::io;

/// Why a run of a script ends before its last item is answered.
#[derive(Clone, Copy)]
pub(crate) enum Ending {
    /// The reader failed, or gave more than may be read.
    Reader,

    /// The writer failed.
    Writer,

    /// Memory ran out.
    Memory,
}

/// The fault that is answered, and of whose line is written.
impl From<Ending> for SessionFault {
    ghost use Rattle.system_session.specs.RunSteps.{fault_of};

    ghost from_gives = { λ ending fault. fault ≡ fault_of ending };

    fn from(ending: Ending) -> SessionFault {
        match ending {
            Ending::Reader => SessionFault::Reader,
            Ending::Writer => SessionFault::Writer,
            Ending::Memory => SessionFault::Memory,
        }
    }
}

/// The calls of a run answer the reader's fault and want of memory.
impl From<SessionFault> for Ending {
    ghost use Rattle.refusals.specs.declared.faults.SessionFault.TheVariants as fault;
    ghost use Rattle.system_session.specs.declared.endings.Ending.TheVariants.{Reader, Memory};

    ghost from_gives = { λ why ending. (why ≡ fault.Reader → ending ≡ Reader)
        × (why ≡ fault.Memory → ending ≡ Memory) };

    fn from(fault: SessionFault) -> Ending {
        match fault {
            SessionFault::Reader => Ending::Reader,
            _ => Ending::Memory,
        }
    }
}

impl From<AllocError> for Ending {
    ghost use Rattle.system_session.specs.declared.endings.Ending.TheVariants.{Memory};

    ghost from_gives = { λ _ ending. ending ≡ Memory };

    fn from(_error: AllocError) -> Ending {
        Ending::Memory
    }
}

impl From<io::Error> for Ending {
    ghost use Rattle.system_session.specs.declared.endings.Ending.TheVariants.{Writer};

    ghost from_gives = { λ _ ending. ending ≡ Writer };

    fn from(_error: io::Error) -> Ending {
        Ending::Writer
    }
}

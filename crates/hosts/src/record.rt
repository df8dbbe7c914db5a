//! A list of calls that only clauses read.
ghost use Rattle.std.specs.Prelude.{◌≡◌, List, [], ◌∷◌, true, false, MatchResult};
ghost use Rattle.std.specs.Borrow.{ftrue};
ghost use Rattle.hosts.specs.Faults.{fault_number};
ghost use Rattle.hosts.specs.Raw.{Raw};
ghost use Rattle.hosts.specs.RawSteps.{raw_of};

use crate::HostFault;
use crate::notes::fault_number;
use std::marker::{Model, PhantomData};

/// The calls of a host, of which no memory holds any.
#[derive(Drop)]
pub(crate) struct Record {
    marker: PhantomData<u8>,
    pub ghost events: { List Raw },
}

impl Model for Record {
    ghost also_owns = { λ _. ftrue };
}

impl Record {
    /// No call yet.
    pub(crate) fn new() -> Record
        ensures { result.events ≡ [] }
    {
        Record {
            marker: PhantomData,
        }
    }

    /// Which call it was, 1 if it succeeded, and a number; its name, and its bytes.
    pub(crate) fn note(&mut self, _numbers: &[u64], _name: &[u8], _bytes: &[u8])
        ensures { self.new.events ≡ raw_of _numbers.now _name.now _bytes.now ∷ self.old.events }
    {}

    /// A call that answers nothing, or why it failed.
    pub(crate) fn note_step(&mut self, call: u64, name: &str, done: &Result<(), HostFault>)
        ensures { MatchResult done.now
            (λ _. self.new.events ≡ (call, true, 0, name.now, []) ∷ self.old.events)
            (λ fault. self.new.events ≡ (call, false, fault_number fault, name.now, []) ∷ self.old.events) }
    {
        match done {
            Ok(()) => self.note(&[call, 1, 0], name.as_bytes(), &[]),
            Err(fault) => self.note_fault(call, name, fault),
        }
    }

    /// A call that failed, and why.
    pub(crate) fn note_fault(&mut self, call: u64, name: &str, fault: &HostFault)
        ensures { self.new.events ≡ (call, false, fault_number fault.now, name.now, []) ∷ self.old.events }
    {
        self.note(&[call, 0, fault_number(fault)], name.as_bytes(), &[]);
    }
}

//! IOTs of devices that aren't there.

ghost use Rattle.std.specs.Prelude.{◌≡◌, [], None, Some, IfSome};
ghost use Rattle.terminal8.specs.Absences as spec;
ghost use Rattle.terminal8.specs.Absences.{with_absence_if};

use arrayvec::ArrayVec;
use std::marker::Model;
use word12::{Cell, Word};

/// An IOT of a device that isn't there. It does nothing (Small Computer Handbook).
#[derive(Clone, Copy, PartialEq, Eq, Debug)]
pub struct Absence {
    /// Its word, 6000 to 6777. Bits 3 to 8 are the device.
    pub word: Word,
    /// The cell where it stands.
    pub cell: Cell,
}

impl Default for Absence {
    /// 6000 at the cell 00000, which stands where no IOT is found yet.
    fn default() -> Absence {
        Absence {
            word: Word::low(0o6000),
            cell: Cell::of(0),
        }
    }
}

/// The IOTs of devices that aren't there which a run did, in their order: the first of each device, of eight devices at most. A contract
/// sees these.
#[derive(Drop)]
pub struct Absences {
    list: ArrayVec<Absence, MOST>,
}

impl Model for Absences {
    ghost use Rattle.std.specs.Prelude.{List};
    ghost use Rattle.terminal8.specs.declared.absences.Absence.{Absence};

    ghost Value = { List Absence };

    ghost view = { λ a. a.list.items };
}

impl Absences {
    /// None were done.
    pub fn new() -> Absences
        ensures { result ≡ [] }
    {
        Absences {
            list: ArrayVec::new(),
        }
    }

    /// These IOTs, 8 at most.
    pub fn as_slice(&self) -> &[Absence]
        ensures { result.now ≡ self.now }
    {
        self.list.as_slice()
    }

    /// Adds what a step did, if it was such an IOT, and there is room and none of its device yet.
    #[inline]
    pub fn add(&mut self, absence: Option<Absence>)
        ensures { self.new ≡ with_absence_if absence self.old }
    {
        if let Some(absence) = absence {
            self.add_one(absence);
        }
    }

    fn add_one(&mut self, absence: Absence)
        ensures { self.new ≡ spec.with_absence absence self.old }
    {
        let is_known = has_device(device_of(absence.word), self.list.as_slice());
        if is_known || self.list.is_full() {
            return;
        }
        self.list.push(absence);
    }
}

/// The device of an IOT: bits 3 to 8 of its word.
fn device_of(word: Word) -> u16
    ensures { result ≡ spec.device_of word }
{
    word.get() / 0o10 % 0o100
}

/// Whether one of these is of the device.
fn has_device(device: u16, list: &[Absence]) -> bool
    ensures { result ≡ spec.has_device device list.now }
{
    match list {
        [] => false,
        [first, others @ ..] => device_of(first.word) == device || has_device(device, others),
    }
}

/// Of so many devices the first IOT counts.
const MOST: usize = 8;

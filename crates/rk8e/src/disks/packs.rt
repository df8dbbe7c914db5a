//! The packs in the drives, and what the operator does with them.

ghost use Rattle.std.specs.Prelude.{◌≡◌, None, Some};
ghost use Rattle.rk8e.specs.Packs.{is_changed_in};
ghost use Rattle.rk8e.specs.State.{drive_of, with_drive, with_lock, with_pack};

use super::Disk;
use crate::Pack;

impl Disk {
    /// Locks a drive, 0 to 3: no sector of it may be written.
    pub fn lock(&mut self, drive: u8)
        ensures { self.new ≡ with_drive self.old drive (with_lock (drive_of self.old drive)) }
    {
        match drive {
            0 => self.drive0.lock(),
            1 => self.drive1.lock(),
            2 => self.drive2.lock(),
            _ => self.drive3.lock(),
        }
    }

    /// Whether a drive, 0 to 3, is locked.
    pub fn is_locked(&self, drive: u8) -> bool
        ensures { result ≡ (drive_of self.now drive).locked }
    {
        match drive {
            0 => self.drive0.is_locked,
            1 => self.drive1.is_locked,
            2 => self.drive2.is_locked,
            _ => self.drive3.is_locked,
        }
    }

    /// Puts a pack into a drive, 0 to 3, in place of what it has. All else stays.
    pub fn put_pack(&mut self, drive: u8, pack: Pack)
        ensures { self.new ≡ with_drive self.old drive (with_pack (drive_of self.old drive) (Some pack)) }
    {
        match drive {
            0 => self.drive0.pack = Some(pack),
            1 => self.drive1.pack = Some(pack),
            2 => self.drive2.pack = Some(pack),
            _ => self.drive3.pack = Some(pack),
        }
    }

    /// Takes the pack out of a drive, 0 to 3, if it has one. All else stays.
    pub fn take_pack(&mut self, drive: u8) -> Option<Pack>
        ensures pack { result ≡ (drive_of self.old drive).pack }
        ensures disk { self.new ≡ with_drive self.old drive (with_pack (drive_of self.old drive) None) }
    {
        match drive {
            0 => self.drive0.pack.take(),
            1 => self.drive1.pack.take(),
            2 => self.drive2.pack.take(),
            _ => self.drive3.pack.take(),
        }
    }

    /// Whether a sector of the pack in a drive, 0 to 3, was written since the pack was read or marked as saved. Without a pack none
    /// was.
    pub fn is_changed(&self, drive: u8) -> bool
        ensures { result ≡ is_changed_in (drive_of self.now drive).pack }
    {
        match drive {
            0 => is_changed(&self.drive0.pack),
            1 => is_changed(&self.drive1.pack),
            2 => is_changed(&self.drive2.pack),
            _ => is_changed(&self.drive3.pack),
        }
    }
}

fn is_changed(pack: &Option<Pack>) -> bool
    ensures { result ≡ is_changed_in pack.now }
{
    match pack {
        Some(pack) => pack.is_changed(),
        None => false,
    }
}

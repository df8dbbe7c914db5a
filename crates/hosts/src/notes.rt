//! The numbers of the calls by which a `Record` notes them, as the definition `calls` lists them.
ghost use Rattle.std.specs.Prelude.{◌≡◌, suc, is_ok, if◌then◌else◌};
ghost use Rattle.hosts.specs.Faults.{fault_number, rename_number, link_number};

use crate::{HostFault, LinkFault, RenameFault};

pub(crate) const RESOLVE: u64 = 0;

pub(crate) const HOLD: u64 = 1;

pub(crate) const DROP_SECONDS: u64 = 2;

pub(crate) const LOOK: u64 = 3;

pub(crate) const TAKE_INPUT: u64 = 4;

pub(crate) const ALONE: u64 = 5;

pub(crate) const LEADS: u64 = 6;

pub(crate) const LOCK_BESIDE: u64 = 7;

pub(crate) const FREE: u64 = 8;

pub(crate) const THERE: u64 = 9;

pub(crate) const MAKE_FOLDER: u64 = 10;

pub(crate) const PRINT: u64 = 11;

pub(crate) const TELL: u64 = 12;

pub(crate) const TERMINAL: u64 = 13;

pub(crate) const SECONDS: u64 = 14;

pub(crate) const PAUSE: u64 = 15;

pub(crate) const WORD: u64 = 16;

pub(crate) const END_OF_WORDS: u64 = 17;

pub(crate) const MAKE_BESIDE: u64 = 18;

pub(crate) const OWN_BESIDE: u64 = 19;

pub(crate) const WRITE_BESIDE: u64 = 20;

pub(crate) const SYNC_BESIDE: u64 = 21;

pub(crate) const DROP_BESIDE: u64 = 22;

pub(crate) const RENAME: u64 = 23;

pub(crate) const LINK_NEW: u64 = 24;

pub(crate) const CLAIM: u64 = 25;

pub(crate) const DROP_CLAIM: u64 = 26;

pub(crate) const SYNC_FOLDER: u64 = 27;

pub(crate) const WRITE_OVER: u64 = 28;

pub(crate) const FINISH_OVER: u64 = 29;

pub(crate) const TIME_OF: u64 = 30;

pub(crate) const DATE_BESIDE: u64 = 31;

pub(crate) const SAME: u64 = 32;

pub(crate) const DROP_LEFTOVERS: u64 = 33;

/// 1 where a call succeeded, and else 0.
pub(crate) fn number<T, E>(done: &Result<T, E>) -> u64
    ensures { result ≡ (if is_ok done.now then 1 else 0) }
{
    match done {
        Ok(_) => 1,
        Err(_) => 0,
    }
}

/// Why a call failed.
pub(crate) fn fault_number(fault: &HostFault) -> u64
    ensures { result ≡ fault_number fault.now }
{
    match fault {
        HostFault::Failed => 0,
        HostFault::Busy => 1,
        HostFault::Memory => 2,
        HostFault::Absent => 3,
        HostFault::Denied => 4,
        HostFault::ReadOnly => 5,
        HostFault::Folder => 6,
        HostFault::NoFolder => 7,
        HostFault::Full => 8,
        HostFault::Links => 9,
        HostFault::Large => 10,
        HostFault::Changed => 11,
        HostFault::Pipe => 12,
        HostFault::Owner => 13,
    }
}

/// Why a file can't take a path.
pub(crate) fn rename_number(fault: &RenameFault) -> u64
    ensures { result ≡ rename_number fault.now }
{
    match fault {
        RenameFault::Mount => 0,
        RenameFault::Failed(why) => number_after(*why),
    }
}

fn number_after(fault: HostFault) -> u64
    ensures { result ≡ suc (fault_number fault) }
{
    match fault {
        HostFault::Failed => 1,
        HostFault::Busy => 2,
        HostFault::Memory => 3,
        HostFault::Absent => 4,
        HostFault::Denied => 5,
        HostFault::ReadOnly => 6,
        HostFault::Folder => 7,
        HostFault::NoFolder => 8,
        HostFault::Full => 9,
        HostFault::Links => 10,
        HostFault::Large => 11,
        HostFault::Changed => 12,
        HostFault::Pipe => 13,
        HostFault::Owner => 14,
    }
}

/// Why a file can't have a path as a further name.
pub(crate) fn link_number(fault: &LinkFault) -> u64
    ensures { result ≡ link_number fault.now }
{
    match fault {
        LinkFault::Exists => 0,
        LinkFault::NoLinks => 1,
        LinkFault::Failed(why) => number_after_two(*why),
    }
}

fn number_after_two(fault: HostFault) -> u64
    ensures { result ≡ suc (suc (fault_number fault)) }
{
    match fault {
        HostFault::Failed => 2,
        HostFault::Busy => 3,
        HostFault::Memory => 4,
        HostFault::Absent => 5,
        HostFault::Denied => 6,
        HostFault::ReadOnly => 7,
        HostFault::Folder => 8,
        HostFault::NoFolder => 9,
        HostFault::Full => 10,
        HostFault::Links => 11,
        HostFault::Large => 12,
        HostFault::Changed => 13,
        HostFault::Pipe => 14,
        HostFault::Owner => 15,
    }
}

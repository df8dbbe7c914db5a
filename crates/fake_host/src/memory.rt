//! The files and the streams of a host in memory.
ghost use Rattle.std.specs.Prelude.{◌≤◌, ◌+◌, length, IfOk};

use hosts::HostFault;
use std::alloc::{AllocError, Global};

/// One file, which every name leads to, the one beside it, and the streams.
#[derive(Drop)]
pub struct InMemory {
    pub(crate) alloc: Global,
    pub file: Option<Vec<u8>>,
    pub beside: Option<Vec<u8>>,
    pub input: Vec<u8>,
    pub output: Vec<u8>,
    pub errors: Vec<u8>,

    /// When the file was last changed, in seconds after the begin of 1970 in UTC, and the one beside it; 0 where no call has set that.
    pub time: u64,
    pub beside_time: u64,

    /// Whether a new file may take the path with nothing lost.
    pub is_alone: bool,

    /// Whether two names lead to one file.
    pub is_one: bool,

    /// Whether the path is a mount's.
    pub is_mount: bool,

    /// Whether a file can have further names.
    pub has_links: bool,

    /// How many calls pass until one fails, if one is to.
    pub calls_left: Option<u64>,
}

/// The first bytes of these, one more than are wanted at most.
pub(crate) fn first_of(alloc: Global, bytes: &[u8], most: usize) -> Result<Vec<u8>, HostFault>
    ensures { IfOk result (λ it. length it.items ≤ most + 1) }
{
    let first = if bytes.len() > most {
        &bytes[..most + 1]
    } else {
        bytes
    };
    let copy = Vec::from_slice(alloc, first)?;
    Ok(copy)
}

/// What stands after bytes were written over others from one on.
pub(crate) fn over(
    old: &[u8],
    at: usize,
    new: &[u8],
    laid: &mut Vec<u8>,
) -> Result<(), AllocError> {
    let (head, rest) = old.split_at(old.len().min(at));
    laid.extend_from_slice(head)?;
    for _ in laid.len()..at {
        laid.push(0)?;
    }
    laid.extend_from_slice(new)?;
    if rest.len() > new.len() {
        laid.extend_from_slice(&rest[new.len()..])?;
    }
    Ok(())
}

pub(crate) fn grow(stream: &mut Vec<u8>, bytes: &[u8]) -> Result<(), HostFault> {
    stream.extend_from_slice(bytes)?;
    Ok(())
}

impl InMemory {
    /// A file of these bytes and standard input, of which the call fails that this many pass before.
    pub fn new(
        alloc: Global,
        file: Option<Vec<u8>>,
        input: Vec<u8>,
        left: Option<u64>,
    ) -> InMemory {
        InMemory {
            alloc,
            file,
            beside: None,
            input,
            output: Vec::new(alloc),
            errors: Vec::new(alloc),
            time: 0,
            beside_time: 0,
            is_alone: true,
            is_one: false,
            is_mount: false,
            has_links: true,
            calls_left: left,
        }
    }

    /// Counts a call, and fails the one that is to.
    pub(crate) fn pass(&mut self) -> Result<(), HostFault> {
        match self.calls_left {
            None => Ok(()),
            Some(0) => {
                self.calls_left = None;
                Err(HostFault::Failed)
            }
            Some(more) => {
                self.calls_left = Some(more - 1);
                Ok(())
            }
        }
    }

    pub(crate) fn answer<T: Drop>(&mut self, it: T) -> Result<T, HostFault> {
        self.pass()?;
        Ok(it)
    }

    pub(crate) fn path_of(&mut self, alloc: Global, name: &str) -> Result<String, HostFault> {
        self.pass()?;
        let path = String::from_str(alloc, name)?;
        Ok(path)
    }

    pub(crate) fn file_bytes(&mut self, alloc: Global, most: usize) -> Result<Vec<u8>, HostFault>
        ensures { IfOk result (λ it. length it.items ≤ most + 1) }
    {
        if let Err(fault) = self.pass() {
            return Err(fault);
        }
        match &self.file {
            Some(file) => first_of(alloc, file, most),
            None => Err(HostFault::Absent),
        }
    }
}

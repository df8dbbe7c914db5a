//! The calls of a host, of which none is noted.
ghost use Rattle.std.specs.Prelude.{◌≤◌, ◌+◌, length, IfOk};

use crate::{HostFault, LinkFault, PrintFault, RenameFault, Stream};
use std::alloc::{AllocError, Global};

/// What makes the calls of a host: each method makes the call that `Host` describes under its name. That it is made can't be stated. So a
/// clause says no more than how long an answer is, and who implements this is read.
pub trait RawHost {
    fn resolve(&mut self, alloc: Global, name: &str) -> Result<String, HostFault>;

    fn hold(&mut self, alloc: Global, path: &str) -> Result<bool, HostFault>;

    fn drop_seconds(&mut self, path: &str) -> Result<(), HostFault>;

    fn drop_leftovers(&mut self, alloc: Global, name: &str) -> Result<usize, HostFault>;

    fn look_held(&mut self, alloc: Global, path: &str, most: usize) -> Result<Vec<u8>, HostFault>
        ensures { IfOk result (λ bytes. length bytes.items ≤ most + 1) };

    fn look(&mut self, alloc: Global, name: &str, most: usize) -> Result<Vec<u8>, HostFault>
        ensures { IfOk result (λ bytes. length bytes.items ≤ most + 1) };

    fn take_input(&mut self, alloc: Global, most: usize) -> Result<Vec<u8>, HostFault>
        ensures { IfOk result (λ bytes. length bytes.items ≤ most + 1) };

    fn is_alone(&mut self, path: &str) -> Result<bool, HostFault>;

    fn leads_to_held(&mut self, path: &str) -> bool;

    fn make_beside(&mut self, alloc: Global, path: &str) -> Result<(), HostFault>;

    fn own_beside(&mut self, path: &str) -> Result<(), HostFault>;

    fn lock_beside(&mut self, path: &str) -> Result<(), HostFault>;

    fn write_beside(&mut self, path: &str, bytes: &[u8]) -> Result<(), HostFault>;

    fn sync_beside(&mut self, path: &str) -> Result<(), HostFault>;

    fn date_beside(&mut self, path: &str, seconds: u64) -> Result<(), HostFault>;

    fn drop_beside(&mut self, path: &str) -> Result<(), HostFault>;

    fn rename(&mut self, path: &str) -> Result<(), RenameFault>;

    fn link_new(&mut self, path: &str) -> Result<(), LinkFault>;

    fn claim(&mut self, path: &str) -> Result<(), HostFault>;

    fn drop_claim(&mut self, path: &str) -> Result<(), HostFault>;

    fn sync_folder(&mut self, path: &str) -> Result<(), HostFault>;

    fn write_over(&mut self, path: &str, at: usize, bytes: &[u8]) -> Result<(), HostFault>;

    fn finish_over(&mut self, path: &str, size: usize) -> Result<(), HostFault>;

    fn free_path(&mut self, alloc: Global, name: &str) -> Result<String, HostFault>;

    fn is_there(&mut self, name: &str) -> bool;

    fn time_of(&mut self, name: &str) -> Result<u64, HostFault>;

    fn leads_to_same(&mut self, alloc: Global, one: &str, other: &str) -> Result<bool, HostFault>;

    fn make_folder(&mut self, name: &str) -> Result<(), HostFault>;

    fn print(&mut self, bytes: &[u8]) -> Result<(), PrintFault>;

    fn tell(&mut self, text: &str) -> Result<(), HostFault>;

    fn is_terminal(&mut self, stream: Stream) -> bool;

    fn seconds(&mut self) -> u64;

    fn pause(&mut self);

    fn word(&mut self, alloc: Global, place: usize) -> Result<Option<Vec<u8>>, AllocError>;
}

ghost use Rattle.std.specs.Prelude.{◌≡◌, ◌≤◌, ◌+◌, List, [], ◌∷◌, length, true, false, is_ok, IfOk, MatchResult};
ghost use Rattle.hosts.specs.declared.faults.HostFault.TheVariants.{Memory};
ghost use Rattle.hosts.specs.Event.{Event, Alter, Resolve, Hold, DropSeconds, Look, TakeInput, Alone, LockBeside, MakeBeside, OwnBeside, WriteBeside, SyncBeside, Claim, DropClaim, SyncFolder, WriteOver, FinishOver, Free, MakeFolder, Word, TimeOf, failed_call, resolve_call, hold_call, drop_seconds_call, look_call, input_call, alone_call, leads_call, make_call, own_call, lock_call, write_call, sync_call, date_call, drop_call, rename_call, link_call, claim_call, drop_claim_call, sync_folder_call, write_over_call, finish_over_call, free_call, there_call, folder_call, print_call, tell_call, terminal_call, seconds_call, pause_call, word_call, time_call, Same, same_call, failed_same, DropLeftovers, leftovers_call};
ghost use Rattle.hosts.specs.Faults.{fault_number, link_number, rename_number, pipe_number, stream_number};

use crate::{HostFault, LinkFault, PrintFault, RenameFault, Stream};
use std::alloc::{AllocError, Global};

/// What a program may ask of the system that it runs in. Each call adds itself, with its answer, to a history that no memory holds: a
/// contract that speaks of it says which calls were made, in which order. A path is what `resolve` or `free_path` gave; calls on a file
/// that is held, or on the one beside it, name its path.
pub trait Host {
    /// Each call so far with its answer, the newest first.
    ghost history: { Self → List Event };

    /// The path of the file that a name leads to, through links.
    fn resolve(&mut self, alloc: Global, name: &str) -> Result<String, HostFault>
        ensures { MatchResult result
            (λ path. history self.new ≡ resolve_call name.now path.bytes.items ∷ history self.old)
            (λ fault. history self.new ≡ failed_call Resolve name.now fault ∷ history self.old) };

    /// Holds the file of a path, so no other program writes it, until the program ends. It must still have that path once it is held. A pipe
    /// is refused before it is opened: `Pipe`. The answer says whether its file system has locks. The memory for the names beside it is taken here.
    fn hold(&mut self, alloc: Global, path: &str) -> Result<bool, HostFault>
        ensures { MatchResult result
            (λ has_lock. history self.new ≡ hold_call path.now has_lock ∷ history self.old)
            (λ fault. history self.new ≡ failed_call Hold path.now fault ∷ history self.old) };

    /// Takes away the names beside the held file's path that it has too, since the program that made it was ended before it could. The same
    /// of files there that are of its owner and that no program holds: those of writers that were ended.
    fn drop_seconds(&mut self, path: &str) -> Result<(), HostFault>
        ensures { MatchResult result
            (λ _. history self.new ≡ drop_seconds_call path.now ∷ history self.old)
            (λ fault. history self.new ≡ failed_call DropSeconds path.now fault ∷ history self.old) };

    /// Takes away the files beside that of a name which writers left there that were ended: those of its owner that no program holds. How many
    /// files these were.
    fn drop_leftovers(&mut self, alloc: Global, name: &str) -> Result<usize, HostFault>
        ensures { MatchResult result
            (λ count. history self.new ≡ leftovers_call name.now count ∷ history self.old)
            (λ fault. history self.new ≡ failed_call DropLeftovers name.now fault ∷ history self.old) };

    /// What the held file holds, or one byte more than `most` where it has more than these.
    fn look_held(&mut self, alloc: Global, path: &str, most: usize) -> Result<Vec<u8>, HostFault>
        ensures call { MatchResult result
            (λ bytes. history self.new ≡ look_call path.now bytes.items ∷ history self.old)
            (λ fault. history self.new ≡ failed_call Look path.now fault ∷ history self.old) }
        ensures most { IfOk result (λ bytes. length bytes.items ≤ most + 1) };

    /// What a file holds that is not held, or one byte more than `most` where it has more than these.
    fn look(&mut self, alloc: Global, name: &str, most: usize) -> Result<Vec<u8>, HostFault>
        ensures call { MatchResult result
            (λ bytes. history self.new ≡ look_call name.now bytes.items ∷ history self.old)
            (λ fault. history self.new ≡ failed_call Look name.now fault ∷ history self.old) }
        ensures most { IfOk result (λ bytes. length bytes.items ≤ most + 1) };

    /// What standard input gives to its end, or one byte more than `most` where it gives more than these.
    fn take_input(&mut self, alloc: Global, most: usize) -> Result<Vec<u8>, HostFault>
        ensures call { MatchResult result
            (λ bytes. history self.new ≡ input_call bytes.items ∷ history self.old)
            (λ fault. history self.new ≡ failed_call TakeInput [] fault ∷ history self.old) }
        ensures most { IfOk result (λ bytes. length bytes.items ≤ most + 1) };

    /// Whether a new file may take the path of the held one with nothing lost: it is no folder or device, and has no further name.
    fn is_alone(&mut self, path: &str) -> Result<bool, HostFault>
        ensures { MatchResult result
            (λ is. history self.new ≡ alone_call path.now is ∷ history self.old)
            (λ fault. history self.new ≡ failed_call Alone path.now fault ∷ history self.old) };

    /// Whether the path still leads to the file that is held.
    fn leads_to_held(&mut self, path: &str) -> bool
        ensures { history self.new ≡ leads_call path.now result ∷ history self.old };

    /// Makes an empty file beside a path, by a name that nobody can guess. Where the path is that of the held file, only its own user may
    /// open it, and no memory is taken.
    fn make_beside(&mut self, alloc: Global, path: &str) -> Result<(), HostFault>
        ensures { MatchResult result
            (λ _. history self.new ≡ make_call path.now ∷ history self.old)
            (λ fault. history self.new ≡ failed_call (Alter MakeBeside) path.now fault ∷ history self.old) };

    /// Gives the file beside it the owner and the permissions of the held one.
    fn own_beside(&mut self, path: &str) -> Result<(), HostFault>
        ensures { MatchResult result
            (λ _. history self.new ≡ own_call path.now ∷ history self.old)
            (λ fault. history self.new ≡ failed_call (Alter OwnBeside) path.now fault ∷ history self.old) };

    /// Takes the lock of the file beside it, if its file system has locks.
    fn lock_beside(&mut self, path: &str) -> Result<(), HostFault>
        ensures { MatchResult result
            (λ _. history self.new ≡ lock_call path.now ∷ history self.old)
            (λ fault. history self.new ≡ failed_call LockBeside path.now fault ∷ history self.old) };

    /// Writes bytes to the file beside it, all of them.
    fn write_beside(&mut self, path: &str, bytes: &[u8]) -> Result<(), HostFault>
        ensures { MatchResult result
            (λ _. history self.new ≡ write_call path.now bytes.now ∷ history self.old)
            (λ fault. history self.new ≡ failed_call (Alter WriteBeside) path.now fault ∷ history self.old) };

    /// Has the disk hold what the file beside it holds.
    fn sync_beside(&mut self, path: &str) -> Result<(), HostFault>
        ensures { MatchResult result
            (λ _. history self.new ≡ sync_call path.now ∷ history self.old)
            (λ fault. history self.new ≡ failed_call (Alter SyncBeside) path.now fault ∷ history self.old) };

    /// Has the file beside it be last changed so many seconds after the begin of 1970 in UTC, as `stat` then says. Its bytes stay.
    fn date_beside(&mut self, path: &str, seconds: u64) -> Result<(), HostFault>
        ensures { history self.new ≡ date_call path.now (is_ok result) seconds ∷ history self.old };

    /// Takes away the file beside it, or the name that it has there too.
    fn drop_beside(&mut self, path: &str) -> Result<(), HostFault>
        ensures { MatchResult result
            (λ _. history self.new ≡ drop_call path.now true 0 ∷ history self.old)
            (λ fault. history self.new ≡ drop_call path.now false (fault_number fault) ∷ history self.old) };

    /// Gives the file beside it the path, in place of any file there; it is held then.
    fn rename(&mut self, path: &str) -> Result<(), RenameFault>
        ensures { MatchResult result
            (λ _. history self.new ≡ rename_call path.now true 0 ∷ history self.old)
            (λ fault. history self.new ≡ rename_call path.now false (rename_number fault) ∷ history self.old) };

    /// Gives the file beside it the path as a further name, if no file has that.
    fn link_new(&mut self, path: &str) -> Result<(), LinkFault>
        ensures { MatchResult result
            (λ _. history self.new ≡ link_call path.now true 0 ∷ history self.old)
            (λ fault. history self.new ≡ link_call path.now false (link_number fault) ∷ history self.old) };

    /// Makes an empty file of the path, if no file has that, and takes its lock.
    fn claim(&mut self, path: &str) -> Result<(), HostFault>
        ensures { MatchResult result
            (λ _. history self.new ≡ claim_call path.now ∷ history self.old)
            (λ fault. history self.new ≡ failed_call (Alter Claim) path.now fault ∷ history self.old) };

    /// Takes away the empty file of the path.
    fn drop_claim(&mut self, path: &str) -> Result<(), HostFault>
        ensures { MatchResult result
            (λ _. history self.new ≡ drop_claim_call path.now ∷ history self.old)
            (λ fault. history self.new ≡ failed_call (Alter DropClaim) path.now fault ∷ history self.old) };

    /// Has the disk hold the names of the folder that a path is in. No memory is taken.
    fn sync_folder(&mut self, path: &str) -> Result<(), HostFault>
        ensures { MatchResult result
            (λ _. history self.new ≡ sync_folder_call path.now ∷ history self.old)
            (λ fault. history self.new ≡ failed_call (Alter SyncFolder) path.now fault ∷ history self.old) };

    /// Writes bytes over the held file, all of them, from the byte `at` on.
    fn write_over(&mut self, path: &str, at: usize, bytes: &[u8]) -> Result<(), HostFault>
        ensures { MatchResult result
            (λ _. history self.new ≡ write_over_call path.now at bytes.now ∷ history self.old)
            (λ fault. history self.new ≡ failed_call (Alter WriteOver) path.now fault ∷ history self.old) };

    /// Cuts the held file after so many bytes, and has the disk hold it; a device stays as it is.
    fn finish_over(&mut self, path: &str, size: usize) -> Result<(), HostFault>
        ensures { MatchResult result
            (λ _. history self.new ≡ finish_over_call path.now size ∷ history self.old)
            (λ fault. history self.new ≡ failed_call (Alter FinishOver) path.now fault ∷ history self.old) };

    /// The path that a name leads to which no file has, by 40 links at most: `Busy` where a file is at the end of them.
    fn free_path(&mut self, alloc: Global, name: &str) -> Result<String, HostFault>
        ensures { MatchResult result
            (λ path. history self.new ≡ free_call name.now path.bytes.items ∷ history self.old)
            (λ fault. history self.new ≡ failed_call Free name.now fault ∷ history self.old) };

    /// Whether a name is there, as that of a link too.
    fn is_there(&mut self, name: &str) -> bool
        ensures { history self.new ≡ there_call name.now result ∷ history self.old };

    /// When the file of a name was last changed, through links, in seconds after the begin of 1970 in UTC; 0 where that was before.
    fn time_of(&mut self, name: &str) -> Result<u64, HostFault>
        ensures { MatchResult result
            (λ seconds. history self.new ≡ time_call name.now seconds ∷ history self.old)
            (λ fault. history self.new ≡ failed_call TimeOf name.now fault ∷ history self.old) };

    /// Whether two names lead, through links, to one plain file or one block device, or to one path that no file has. A device of
    /// characters, a pipe or a terminal is never one file with another, since nothing in it is lost.
    fn leads_to_same(&mut self, alloc: Global, one: &str, other: &str) -> Result<bool, HostFault>
        ensures { MatchResult result
            (λ is. history self.new ≡ same_call one.now other.now is ∷ history self.old)
            (λ fault. history self.new ≡ failed_same one.now other.now fault ∷ history self.old) };

    /// Makes a folder, unless there is one of that name.
    fn make_folder(&mut self, name: &str) -> Result<(), HostFault>
        ensures { MatchResult result
            (λ _. history self.new ≡ folder_call name.now ∷ history self.old)
            (λ fault. history self.new ≡ failed_call MakeFolder name.now fault ∷ history self.old) };

    /// Writes bytes to standard output, all of them.
    fn print(&mut self, bytes: &[u8]) -> Result<(), PrintFault>
        ensures { MatchResult result
            (λ _. history self.new ≡ print_call true 0 bytes.now ∷ history self.old)
            (λ fault. history self.new ≡ print_call false (pipe_number fault) bytes.now ∷ history self.old) };

    /// Writes a text to standard error.
    fn tell(&mut self, text: &str) -> Result<(), HostFault>
        ensures { history self.new ≡ tell_call (is_ok result) text.now ∷ history self.old };

    /// Whether a stream is a terminal.
    fn is_terminal(&mut self, stream: Stream) -> bool
        ensures { history self.new ≡ terminal_call result (stream_number stream) ∷ history self.old };

    /// How many seconds have passed since the first such call.
    fn seconds(&mut self) -> u64
        ensures { history self.new ≡ seconds_call result ∷ history self.old };

    /// Lets the twentieth part of a second pass.
    fn pause(&mut self)
        ensures { history self.new ≡ pause_call ∷ history self.old };

    /// The bytes of the word at a place of the command line, where the program's own name is at 0, or none after the last word.
    fn word(&mut self, alloc: Global, place: usize) -> Result<Option<Vec<u8>>, AllocError>
        ensures { MatchResult result
            (λ found. history self.new ≡ word_call place found ∷ history self.old)
            (λ _. history self.new ≡ failed_call Word [] Memory ∷ history self.old) };
}

//! The words of a command line: what they ask for is done, or why they ask for nothing is printed.
ghost use Rattle.std.specs.Prelude.{◌≡◌, map};
ghost use Rattle.byte_reader.specs.Readings.{reading};
ghost use Rattle.program.specs.Words as spec;
ghost use Rattle.program.specs.Words.{RefusesWords, RunsWords, ShowsText, WantsMemory};

use crate::doing::run_task;
use crate::refused_words::refused_text;
use byte_reader::ByteReader;
use clap::error::ErrorKind;
use command_line::task;
use command_refusals::TaskFault;
use hosts::Host;
use image_files::{Rooms, end, print};
use outcome::Ending;
use std::alloc::{AllocError, Global};

/// The exit status where words are refused.
const MISUSE: u8 = 2;

/// Does what the words of a command line ask for, the program's own name first, and gives the exit status. Where they ask for nothing, why is
/// printed on standard error, and the status is 2. Help and the version, where they are asked for, go to standard output with status 0
/// (this project's profile). A person may type the input at a terminal.
pub fn run_words<H: Host, I: ByteReader>(
    host: H,
    alloc: Global,
    rooms: Rooms,
    words: &[&str],
    input: &mut I,
    is_typed: bool,
) -> (H, u8)
    ensures { RunsWords (map (λ given. given.now) words.now) is_typed (reading I.remaining I.has_failed input.old input.new) (H.history host) (H.history result.0) result.1 }
{
    match task(alloc, words) {
        Ok(task) => run_task(host, alloc, rooms, input, is_typed, task),
        Err(fault) => {
            let mut host = host;
            let status = refuse_words(&mut host, alloc, rooms, words, &fault);
            (host, status)
        }
    }
}

/// Prints why words ask for nothing, or the help that they ask for, and gives the exit status. A word is shown there with escapes where it
/// isn't graphic.
fn refuse_words<H: Host>(
    host: &mut H,
    alloc: Global,
    rooms: Rooms,
    words: &[&str],
    fault: &TaskFault,
) -> u8
    ensures { RefusesWords fault.now (H.history host.old) (H.history host.new) result }
{
    match fault {
        TaskFault::Memory => want_memory(host, rooms, AllocError),
        TaskFault::Words(error) => match refused_text(alloc, words, fault) {
            Ok(text) => show_text(host, rooms, is_request(error.kind()), text.as_str()),
            Err(error) => want_memory(host, rooms, error),
        },
        TaskFault::Refused(_, _) => match refused_text(alloc, words, fault) {
            Ok(text) => show_text(host, rooms, false, text.as_str()),
            Err(error) => want_memory(host, rooms, error),
        },
    }
}

/// Prints that memory is wanted, and gives the exit status.
fn want_memory<H: Host>(host: &mut H, rooms: Rooms, error: AllocError) -> u8
    ensures { WantsMemory (H.history host.old) (H.history host.new) result }
{
    end(host, rooms, &None, false, Err(Ending::from(error)))
}

/// Prints help that is asked for on standard output, or another text on standard error, and gives the exit status.
fn show_text<H: Host>(host: &mut H, rooms: Rooms, is_request: bool, text: &str) -> u8
    ensures { ShowsText is_request (H.history host.old) (H.history host.new) result }
{
    if is_request {
        let work = print(host, text.as_bytes());
        return end(host, rooms, &None, false, work);
    }
    let _ = host.tell(text);
    MISUSE
}

/// Whether help or the version is asked for.
fn is_request(kind: ErrorKind) -> bool
    ensures { result ≡ spec.is_request kind }
{
    match kind {
        ErrorKind::DisplayHelp | ErrorKind::DisplayVersion => true,
        _ => false,
    }
}

//! The program over any host: what the words that it was started with ask for.
ghost use Rattle.std.specs.Prelude.{◌≡◌, map};
ghost use Rattle.byte_reader.specs.Readings.{reading};
ghost use Rattle.program.specs.GivenWords.{RunsGiven, RunsProgram};

use crate::given_words::{texts_of, words_of};
use crate::words::run_words;
use byte_reader::ByteReader;
use hosts::{Host, Stream};
use image_files::{Rooms, end};
use outcome::{Ending, no_memory_line};
use std::alloc::Global;

/// Does what the words of the command line ask for, as `run_words` has it. The exit status is 0, 1 after a fault, 141 where
/// nobody reads standard output, and 2 for words that are refused (this project's profile). The memory for the last line is taken before
/// anything else. The keys of a Teletype, or a script, are read from the input.
pub fn run_program<H: Host, I: ByteReader>(host: H, alloc: Global, input: &mut I) -> (H, u8)
    ensures { RunsProgram (reading I.remaining I.has_failed input.old input.new) (H.history host) (H.history result.0) result.1 }
{
    let mut host = host;
    let Ok(rooms) = Rooms::new(alloc) else {
        let _ = host.print(no_memory_line());
        return (host, 1);
    };
    match words_of(&mut host, alloc) {
        Ok(words) => run_given(host, alloc, rooms, &words, input),
        Err(ending) => {
            let status = end(&mut host, rooms, &None, false, Err(ending));
            (host, status)
        }
    }
}

/// Does what the words of a command line ask for, and gives the exit status. Memory may be wanted for them first.
fn run_given<H: Host, I: ByteReader>(
    host: H,
    alloc: Global,
    rooms: Rooms,
    words: &[String],
    input: &mut I,
) -> (H, u8)
    ensures { RunsGiven (map (λ word. word.bytes.items) words.now) (reading I.remaining I.has_failed input.old input.new) (H.history host) (H.history result.0) result.1 }
{
    let mut host = host;
    match texts_of(alloc, words) {
        Ok(texts) => {
            let is_typed = host.is_terminal(Stream::Input);
            run_words(host, alloc, rooms, &texts, input, is_typed)
        }
        Err(error) => {
            let status = end(&mut host, rooms, &None, false, Err(Ending::from(error)));
            (host, status)
        }
    }
}

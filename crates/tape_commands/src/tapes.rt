//! Tapes whose words are listed.
ghost use Rattle.tape_commands.specs.Tapes.{GivesLines, ListsTape};

use crate::kinds::refuse_frames;
use crate::programs::given_program;
use hosts::Host;
use image_files::print;
use outcome::Ending;
use program_tasks::TapeForm;
use std::alloc::Global;
use tape_reports::tape_lines;

/// Lists a tape; where none is named that of standard input. No file changes.
pub fn list_tape<H: Host>(
    host: &mut H,
    alloc: Global,
    tape: &Option<TapeForm>,
) -> Result<(), Ending>
    ensures { ListsTape tape.now (H.history host.old) result (H.history host.new) }
{
    let program = given_program(host, alloc, tape)?;
    let text = lines_of(host, alloc, &program.frames)?;
    print(host, &text)
}

/// The lines of a tape. What frames are is printed where they are none.
fn lines_of<H: Host>(host: &mut H, alloc: Global, frames: &[u8]) -> Result<Vec<u8>, Ending>
    ensures { GivesLines frames.now (H.history host.old) result (H.history host.new) }
{
    match tape_lines(alloc, frames) {
        Ok(text) => Ok(text),
        Err(fault) => Err(refuse_frames(host, alloc, frames, Ending::from(fault))),
    }
}

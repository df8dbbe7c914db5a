//! Sources to a tape.
ghost use Rattle.std.specs.Prelude.{◌≡◌, get_or, IfOk, IfErr};
ghost use Rattle.pal_lex.specs.Text.{text_of};
ghost use Rattle.source_places.specs.Places.{place_in};
ghost use Rattle.pal8_asm.specs.Assembling.{Assembles, IsAssembled};
ghost use Rattle.pal8_tape.specs.Joins.{bytes_in, counts_of, joined_bytes};
ghost use Rattle.pal8_tape.specs.Answers.{IsTape, IsTold, result_of};
ghost use Rattle.pal8_tape.specs.Marks as marks;
ghost use Rattle.pal8_tape.specs.Places as places;
ghost use Rattle.pal8_tape.specs.declared.faults.SourceFault.TheVariants.{Memory};

use crate::laws::has_words;
use crate::marks::fault_mark;
use crate::places::place_by;
use crate::{Fault, Join, SourceFault, join_all};
use pal8_asm::{AsmFault, Place, assemble};
use pal8_places::{Code, Options};
use std::alloc::{AllocError, Global};
use word12::{Cell, Word};

/// The frames of the BIN tape that sources of the host are assembled to as one, or their first fault, with its place.
///
/// LF ends a line of a source, and CR, form feed, NUL and rubout are as if they weren't there. Each source but the last goes on in the next one, at its
/// first PAUSE that is selected and has no tag, or at its end. They are read by these options. The tape has the words in the order of the sources. After
/// them come the literals and links of each page, by rising cell (PAL8, the assembler of OS/8, in this project's profile). Where memory runs out the
/// answer is `Memory`.
pub fn tape_of(alloc: Global, options: Options, sources: &[&[u8]]) -> Result<Vec<u8>, SourceFault>
    ensures tape { IfOk result (λ tape. IsTape options sources.now tape.items) }
    ensures fault { IfErr result (λ fault. IsTold options sources.now fault) }
{
    let join = join_all(alloc, options, sources)?;
    match assemble(alloc, options, &join.text) {
        Ok(pairs) => {
            let frames = frames_of(alloc, options, sources, &pairs)?;
            Ok(frames)
        }
        Err(fault) => Err(with_place(alloc, options, sources, &join, fault)),
    }
}

/// The frames of the tape of the pairs of sources.
pub fn frames_of(
    alloc: Global,
    options: Options,
    sources: &[&[u8]],
    pairs: &[(Cell, Word)],
) -> Result<Vec<u8>, AllocError>
    requires { IsAssembled (result_of options (bytes_in sources.now)) pairs.now }
    ensures { IfOk result (λ frames. IsTape options sources.now frames.items) }
{
    has_words();
    let frames = bin_tape::tape_of(alloc, pairs)?;
    Ok(frames)
}

/// A fault of sources with its place, by the join of these and the first fault of that. Where memory ran out it is `Memory`.
pub fn with_place(
    alloc: Global,
    options: Options,
    sources: &[&[u8]],
    join: &Join,
    fault: AsmFault,
) -> SourceFault
    requires text { join.now.text.items ≡ joined_bytes options (bytes_in sources.now) }
    requires counts { join.now.counts.items ≡ counts_of options (bytes_in sources.now) }
    requires fault { Assembles options (text_of join.now.text.items) (Err fault) }
    ensures { IsTold options sources.now result }
{
    match fault {
        AsmFault::Memory => SourceFault::Memory,
        AsmFault::At(code, at) => match at_token(alloc, options, sources, join, code, at) {
            Ok(fault) => SourceFault::At(fault),
            Err(memory) => memory,
        },
    }
}

/// A fault of the statement of a join that has a place, at the token that it is about. The only fault of the call is `Memory`.
pub(crate) fn at_token(
    alloc: Global,
    options: Options,
    sources: &[&[u8]],
    join: &Join,
    code: Code,
    at: Place,
) -> Result<Fault, SourceFault>
    ensures fault { IfOk result (λ fault. fault ≡ record {
      code = code;
      line = at.line;
      place = places.place_by sources.now (place_in join.now.counts.items (marks.fault_mark options join.now.text.items code at.start));
      byte = get_or join.now.text.items (marks.fault_mark options join.now.text.items code at.start) 0;
    }) }
    ensures memory { IfErr result (λ fault. fault ≡ Memory) }
{
    let mark = fault_mark(alloc, options, &join.text, &code, at.start)?;
    Ok(at_mark(sources, join, code, at.line, mark as usize))
}

/// A fault of sources that is at a byte of their join, by its number from 0.
fn at_mark(sources: &[&[u8]], join: &Join, code: Code, line: u64, at: usize) -> Fault
    ensures { result ≡ record { code = code; line = line; place = places.place_by sources.now (place_in join.now.counts.items at); byte = get_or join.now.text.items at 0 } }
{
    let byte = match join.text.get(at) {
        Some(byte) => *byte,
        None => 0,
    };
    Fault {
        code,
        line,
        place: place_by(sources, &join.counts, at),
        byte,
    }
}

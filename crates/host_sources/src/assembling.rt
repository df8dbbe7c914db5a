//! Sources to a tape.
ghost use Rattle.std.specs.Prelude.{◌≡◌, IfOk, IfErr};
ghost use Rattle.pal_lex.specs.Text.{text_of};
ghost use Rattle.pal_asm.specs.Texts.{IsFaultOf};
ghost use Rattle.host_sources.specs.Sources.{texts_of, newest_first, counts_of};
ghost use Rattle.host_sources.specs.Answers.{IsAssembled, IsAssemblyOf, IsMarked, IsTold};
ghost use Rattle.host_sources.specs.declared.faults.SourceFault.TheVariants.{Memory};

use crate::joins::{Join, join_all};
use crate::locating::fault_end;
use crate::marks::fault_mark;
use crate::unknowns::name_of_fault;
use crate::{Fault, SourceFault};
use bin_tape::tape_of;
use pal_asm::laws::has_words;
use pal_asm::{AsmFault, Code, assemble};
use source_places::{About, Place, place_of};
use std::alloc::Global;
use word12::{Cell, Word};

/// Sources that are assembled as one, and have no fault.
#[derive(Drop)]
pub struct Assembly {
    /// The text that they join to.
    pub join: Join,
    /// Its words with their cells, in the order of the text.
    pub pairs: Vec<(Cell, Word)>,
}

/// Sources of the host, assembled as one; or their first fault, with its place. A fault UA has the first name of the statement that stands
/// for nothing there, and IC has the character.
///
/// A source is taken as its text stands in a file of a volume: LF ends a line, with a CR before it or not. Each source but
/// the last goes on in the next one at its first PAUSE that stands alone. No source at all is an empty one (PAL III
/// Symbolic Assembler manual, and this project's profile of it). `Memory` is answered where memory runs out.
pub fn assembly_of(alloc: Global, sources: &[&[u8]]) -> Result<Assembly, SourceFault>
    ensures assembly { IfOk result (λ assembly. IsAssemblyOf sources.now assembly) }
    ensures fault { IfErr result (λ fault. IsTold sources.now fault) }
{
    let join = join_all(alloc, sources)?;
    match assemble(alloc, &join.text) {
        Ok(pairs) => Ok(Assembly { join, pairs }),
        Err(fault) => Err(fault_of_join(alloc, sources, &join, fault)),
    }
}

/// The frames of the BIN tape that sources of the host are assembled to as one; or their first fault, as [`assembly_of`]
/// reports it.
pub fn assemble_sources(alloc: Global, sources: &[&[u8]]) -> Result<Vec<u8>, SourceFault>
    ensures tape { IfOk result (λ tape. IsAssembled sources.now tape.items) }
    ensures fault { IfErr result (λ fault. IsTold sources.now fault) }
{
    has_words();
    let assembly = assembly_of(alloc, sources)?;
    let frames = tape_of(alloc, &assembly.pairs)?;
    Ok(frames)
}

/// A fault of a join of sources, with its place and what it is about.
fn fault_of_join(alloc: Global, sources: &[&[u8]], join: &Join, fault: AsmFault) -> SourceFault
    requires text { text_of join.now.text.items ≡ newest_first sources.now }
    requires counts { join.now.counts.items ≡ counts_of (texts_of sources.now) }
    requires fault { IsFaultOf (newest_first sources.now) fault }
    ensures { IsTold sources.now result }
{
    match fault {
        AsmFault::Memory => SourceFault::Memory,
        AsmFault::At(code, line) => match fault_spot(alloc, sources, join, code) {
            Ok((place, about)) => SourceFault::At(Fault {
                code,
                line,
                place,
                about,
            }),
            Err(memory) => memory,
        },
    }
}

/// The place of the fault of a join of sources, and what it is about. The only fault of the call is `Memory`.
fn fault_spot(
    alloc: Global,
    sources: &[&[u8]],
    join: &Join,
    code: Code,
) -> Result<(Place, About), SourceFault>
    requires text { text_of join.now.text.items ≡ newest_first sources.now }
    requires counts { join.now.counts.items ≡ counts_of (texts_of sources.now) }
    ensures spot { IfOk result (λ spot. IsMarked sources.now code spot.0 spot.1) }
    ensures fault { IfErr result (λ fault. fault ≡ Memory) }
{
    let met = fault_end(alloc, &join.text)?;
    let name = name_of_fault(alloc, &join.text, met, code)?;
    let mark = fault_mark(alloc, &join.text, met, code, name)?;
    let place = place_of(alloc, sources, &join.counts, mark.at)?;
    Ok((place, mark.about))
}

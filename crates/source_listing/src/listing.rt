//! Sources to a listing.
ghost use Rattle.std.specs.Prelude.{◌≡◌, ◌++◌, ℕ, List, IfOk, IfErr, OnOk};
ghost use Rattle.host_sources.specs.Answers.{IsAssembled, IsAssemblyOf, IsTold};
ghost use Rattle.host_sources.specs.declared.faults.SourceFault.TheVariants.{Memory};
ghost use Rattle.source_listing.specs.Listings.{lines_text, mentions_of, AreSymbols, IsListed};
ghost use Rattle.source_listing.specs.References.{AreByName};

use crate::crossing::put_cross;
use crate::references::{Mention, mentions, sort};
use crate::rows::put_rows;
use crate::spots::all_spots;
use crate::tables::put_table;
use crate::word_ends::word_ends;
use bin_tape::tape_of;
use host_sources::{Assembly, SourceFault, assembly_of, names_of};
use pal_asm::laws::has_words;
use std::alloc::Global;

/// What a listing has after its lines.
#[derive(Clone, Copy, PartialEq, Eq, Debug)]
pub enum ListingForm {
    /// Each symbol with its last value.
    Symbols,
    /// The same with the lines of the statements that name it.
    Cross,
}

/// Sources that are assembled as one, and listed.
#[derive(Drop)]
pub struct Listing {
    /// The listing.
    pub text: Vec<u8>,
    /// The frames of the BIN tape.
    pub tape: Vec<u8>,
}

/// The listing of sources of the host that are assembled as one, and their tape; or their first fault, with the place of the statement
/// that has it.
///
/// Each line of each source stands after the cell and the word of the first of its words, five digits and four, or after as
/// many blanks. Its further words stand below it. After an empty line come the names that the sources define, in their
/// order, each with its last value. In a cross reference each also has the lines of the statements that name it. Each line
/// stands after the number of its source where there are several (PAL III Symbolic Assembler manual and PAL8, and this
/// project's profile of them). `Memory` is answered where memory runs out.
pub fn list_sources(
    alloc: Global,
    sources: &[&[u8]],
    form: ListingForm,
) -> Result<Listing, SourceFault>
    ensures listing { IfOk result (λ listing. IsListed form sources.now listing.text.items) }
    ensures tape { IfOk result (λ listing. IsAssembled sources.now listing.tape.items) }
    ensures fault { IfErr result (λ fault. IsTold sources.now fault) }
{
    has_words();
    let assembly = assembly_of(alloc, sources)?;
    let tape = tape_of(alloc, &assembly.pairs)?;
    let mut text = lines(alloc, sources, &assembly)?;
    put_symbols(alloc, &mut text, sources, &assembly, form)?;
    Ok(Listing { text, tape })
}

/// The lines of sources with their words, and an empty line. The only fault is `Memory`.
fn lines(alloc: Global, sources: &[&[u8]], assembly: &Assembly) -> Result<Vec<u8>, SourceFault>
    requires { IsAssemblyOf sources.now assembly.now }
    ensures lines { IfOk result (λ text. text.items ≡ lines_text sources.now) }
    ensures fault { IfErr result (λ fault. fault ≡ Memory) }
{
    let join = &assembly.join;
    let ends = word_ends(alloc, &join.text)?;
    let mut text = Vec::new(alloc);
    put_rows(
        alloc,
        &mut text,
        sources,
        &join.counts,
        &ends,
        &assembly.pairs,
    )?;
    text.extend_from_slice(b"\n")?;
    Ok(text)
}

/// Puts the symbols of sources. The only fault is `Memory`.
fn put_symbols(
    alloc: Global,
    text: &mut Vec<u8>,
    sources: &[&[u8]],
    assembly: &Assembly,
    form: ListingForm,
) -> Result<(), SourceFault>
    requires { IsAssemblyOf sources.now assembly.now }
    ensures symbols { OnOk result ((symbols : List ℕ) × AreSymbols form sources.now symbols
        × (text.new.items ≡ text.old.items ++ symbols)) }
    ensures fault { IfErr result (λ fault. fault ≡ Memory) }
{
    let names = names_of(alloc, &assembly.join.text)?;
    match form {
        ListingForm::Symbols => {
            put_table(text, &names.symbols)?;
            Ok(())
        }
        ListingForm::Cross => {
            let found = sorted_mentions(alloc, sources, assembly)?;
            put_cross(text, sources.len() > 1, &names.symbols, &found)?;
            Ok(())
        }
    }
}

/// The names in the statements of sources, by their names. The only fault is `Memory`.
fn sorted_mentions(
    alloc: Global,
    sources: &[&[u8]],
    assembly: &Assembly,
) -> Result<Vec<Mention>, SourceFault>
    requires { IsAssemblyOf sources.now assembly.now }
    ensures sorted { IfOk result (λ found. AreByName (mentions_of sources.now) found.items) }
    ensures fault { IfErr result (λ fault. fault ≡ Memory) }
{
    let join = &assembly.join;
    let spots = all_spots(alloc, sources, &join.counts)?;
    let mut found = mentions(alloc, &join.text, &spots)?;
    sort(&mut found)?;
    Ok(found)
}

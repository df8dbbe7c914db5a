//! Sources to a listing.
ghost use Rattle.std.specs.Prelude.{◌≡◌, ◌++◌, ℕ, List, IfOk, IfErr, OnOk};
ghost use Rattle.std.specs.Borrow.{Bor};
ghost use Rattle.pal8_tape.specs.declared.faults.SourceFault.TheVariants.{Memory};
ghost use Rattle.pal_lex.specs.Text.{text_of};
ghost use Rattle.pal8_asm.specs.Marks.{HasParts};
ghost use Rattle.pal8_tape.specs.Joins.{bytes_in, counts_of, joined_bytes};
ghost use Rattle.pal8_tape.specs.Answers.{IsTape, IsTold};
ghost use Rattle.pal8_listing.specs.Listings.{IsListed, symbols_text};
ghost use Rattle.pal8_listing.specs.Steps.{AreByName};
ghost use Rattle.pal8_listing.specs.Uses.{mentions};

use crate::crossing::{later_starts, put_cross};
use crate::mentions::{Mention, mentions};
use crate::names::{put_names, put_pool};
use crate::rows::put_rows;
use crate::uses::sort;
use crate::words::listed_words;
use pal8_asm::{Parts, assemble_parts};
use pal8_places::Options;
use pal8_tape::{Join, JoinFault, SourceFault, frames_of, join_all, with_place};
use source_listing::{Listing, ListingForm, split};
use std::alloc::Global;

/// The listing of sources of the host that are assembled as one, and their tape; or their first fault, with its place.
///
/// Each line of each source stands after the cell and the word of the first of the statements that begin in it. These have five digits and four, and
/// where there are none as many blanks stand. Further words stand below the line. `@` stands right after a word that is a memory reference through a
/// link. A statement that isn't selected, a word that isn't punched, and what stands after PAUSE have blanks. After an empty line come the cells of
/// the pools with their values, by rising cell, if there are any. After another one come the source's own names, in their order, each with its last
/// value. Sources are read by these options (PAL8, the assembler of OS/8, in this project's profile). `Memory` is answered where memory runs out.
pub fn list_sources(
    alloc: Global,
    options: Options,
    sources: &[&[u8]],
    form: ListingForm,
) -> Result<Listing, SourceFault>
    ensures listing { IfOk result (λ listing. IsListed form options sources.now listing.text.items) }
    ensures tape { IfOk result (λ listing. IsTape options sources.now listing.tape.items) }
    ensures fault { IfErr result (λ fault. IsTold options sources.now fault) }
{
    let join = join_all(alloc, options, sources)?;
    match assemble_parts(alloc, options, &join.text) {
        Ok(parts) => {
            let listing = listing_of(alloc, options, sources, &join, &parts, form)?;
            Ok(listing)
        }
        Err(fault) => Err(with_place(alloc, options, sources, &join, fault)),
    }
}

/// The listing and the tape of sources with these parts.
fn listing_of(
    alloc: Global,
    options: Options,
    sources: &[&[u8]],
    join: &Join,
    parts: &Parts,
    form: ListingForm,
) -> Result<Listing, SourceFault>
    requires text { join.now.text.items ≡ joined_bytes options (bytes_in sources.now) }
    requires counts { join.now.counts.items ≡ counts_of options (bytes_in sources.now) }
    requires parts { HasParts options (text_of (joined_bytes options (bytes_in sources.now))) parts.now }
    ensures listing { IfOk result (λ listing. IsListed form options sources.now listing.text.items) }
    ensures tape { IfOk result (λ listing. IsTape options sources.now listing.tape.items) }
    ensures fault { IfErr result (λ fault. fault ≡ Memory) }
{
    let tape = frames_of(alloc, options, sources, &parts.pairs)?;
    let text = text_of(alloc, options, sources, join, parts, form)?;
    Ok(Listing { text, tape })
}

/// The listing of sources with these parts.
fn text_of(
    alloc: Global,
    options: Options,
    sources: &[&[u8]],
    join: &Join,
    parts: &Parts,
    form: ListingForm,
) -> Result<Vec<u8>, SourceFault>
    requires text { join.now.text.items ≡ joined_bytes options (bytes_in sources.now) }
    requires counts { join.now.counts.items ≡ counts_of options (bytes_in sources.now) }
    requires parts { HasParts options (text_of (joined_bytes options (bytes_in sources.now))) parts.now }
    ensures listing { IfOk result (λ text. IsListed form options sources.now text.items) }
    ensures fault { IfErr result (λ fault. fault ≡ Memory) }
{
    let (pairs, pool) = split(&parts.pairs, parts.word_count);
    let words = listed_words(alloc, pairs, &parts.marks)?;
    let mut text = Vec::new(alloc);
    put_rows(alloc, &mut text, sources, &join.counts, &join.text, &words)?;
    put_pool(&mut text, pool)?;
    text.extend_from_slice(b"\n")?;
    put_symbols(alloc, &mut text, options, join, parts, form)?;
    Ok(text)
}

/// Puts the names of sources with their last values, and in a cross reference with the lines that use them. The only fault is `Memory`.
fn put_symbols(
    alloc: Global,
    text: &mut Vec<u8>,
    options: Options,
    join: &Join,
    parts: &Parts,
    form: ListingForm,
) -> Result<(), SourceFault>
    ensures symbols { (sources : List (Bor (List ℕ))) → join.now.text.items ≡ joined_bytes options (bytes_in sources)
        → join.now.counts.items ≡ counts_of options (bytes_in sources) → OnOk result (text.new.items ≡ text.old.items
        ++ symbols_text form options sources parts.now.names.entries) }
    ensures fault { IfErr result (λ fault. fault ≡ Memory) }
{
    match form {
        ListingForm::Symbols => {
            put_names(text, &parts.names)?;
            Ok(())
        }
        ListingForm::Cross => {
            let starts = later_starts(alloc, &join.counts, &join.text)?;
            let found = sorted_mentions(alloc, options, &join.text)?;
            put_cross(text, &starts, &found, &parts.names)?;
            Ok(())
        }
    }
}

/// The names in the statements of a text that are read by these options, by their names.
fn sorted_mentions(alloc: Global, options: Options, text: &[u8]) -> Result<Vec<Mention>, JoinFault>
    ensures { IfOk result (λ found. AreByName (mentions options (text_of text.now)) found.items) }
{
    let mut found = mentions(alloc, options, text)?;
    sort(&mut found)?;
    Ok(found)
}

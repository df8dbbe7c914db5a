//! A text whose statement with the fault is made harmless.
ghost use Rattle.std.specs.Prelude.{◌≡◌, ◌++◌, ℕ, ◌∷◌, [], Some, nat_eq, take, option_map, IfOk, IfErr};
ghost use Rattle.pal_lex.specs.Text.{text_of};
ghost use Rattle.pal_lex.specs.Text as spec;
ghost use Rattle.host_sources.specs.Places as places;
ghost use Rattle.host_sources.specs.Mending as mending;
ghost use Rattle.host_sources.specs.MendSteps.{comma_by, erased_byte, Mends};
ghost use Rattle.host_sources.specs.Steps.{IsMetAt};
ghost use Rattle.host_sources.specs.declared.locating.Passed.TheVariants.{Refused};
ghost use Rattle.host_sources.specs.declared.faults.SourceFault.TheVariants.{Memory};

use crate::SourceFault;
use crate::locating::is_refused;
use crate::runs::{Wanted, first_run, is_end};
use crate::starts::{comment_after, is_dead, statement_place};
use source_places::first_bytes;
use std::alloc::{AllocError, Global};

/// A text whose first statement with a fault, which a byte of it ends, is read as its first tag, if that has no fault itself, and the word 0.
/// There is none where the statement has a word that says how what follows is read. The only fault of the call is `Memory`.
pub(crate) fn mend_text(
    alloc: Global,
    text: &[u8],
    end: usize,
) -> Result<Option<Vec<u8>>, SourceFault>
    requires { IsMetAt text.now (Refused end) }
    ensures mended { IfOk result (λ next. Mends (text_of text.now) next) }
    ensures fault { IfErr result (λ fault. fault ≡ Memory) }
{
    let before = first_bytes(text, end);
    match first_run(alloc, before, &Wanted::Reading)? {
        Some(_) => Ok(None),
        None => {
            let from = body_place(alloc, before)?;
            let next = erase_bytes(alloc, text, from, end)?;
            Ok(Some(next))
        }
    }
}

/// Where the statement that a byte after a text ends goes on after its first tag, if that has no fault.
fn body_place(alloc: Global, before: &[u8]) -> Result<usize, SourceFault>
    ensures place { (byte : ℕ) → IfOk result (λ place. place ≡ mending.body_place (byte ∷ text_of before.now)) }
    ensures fault { IfErr result (λ fault. fault ≡ Memory) }
{
    let start = statement_place(before);
    match comma_end(before) {
        Some(count) => {
            let place = after_tag(alloc, first_bytes(before, count), start)?;
            Ok(place)
        }
        None => Ok(start),
    }
}

/// The place after the beginning of a statement, if it is a tag without fault, else where the statement begins.
fn after_tag(alloc: Global, tag: &[u8], start: usize) -> Result<usize, SourceFault>
    ensures place { IfOk result (λ place. place ≡ mending.after_tag (Some (text_of tag.now)) start) }
    ensures fault { IfErr result (λ fault. fault ≡ Memory) }
{
    let alone = with_end(alloc, tag)?;
    if is_refused(alloc, &alone)? {
        return Ok(start);
    }
    Ok(tag.len())
}

/// A text with `;` after it.
fn with_end(alloc: Global, text: &[u8]) -> Result<Vec<u8>, AllocError>
    ensures { IfOk result (λ new. new.items ≡ text.now ++ 0o73 ∷ []) }
{
    let mut new = Vec::new(alloc);
    new.extend_from_slice(text)?;
    new.push(b';')?;
    Ok(new)
}

/// How many bytes there are up to the first `,` of the statement that goes on after a text.
fn comma_end(before: &[u8]) -> Option<usize>
    ensures { option_map (λ count. text_of (take count before.now)) result ≡ mending.up_to_comma (text_of before.now) }
{
    let mut comment = false;
    let mut comma = None;
    let mut taken = 0;
    while taken < before.len() {
        let byte = before[taken];
        comment = comment_after(comment, byte);
        let dead = is_dead(comment, byte);
        comma = comma_after(comma, dead, byte, taken + 1);
        taken += 1;
    }
    comma
}

/// The same after one byte more, which means something or not, and ends at a place.
fn comma_after(comma: Option<usize>, dead: bool, byte: u8, place: usize) -> Option<usize>
    ensures { result ≡ comma_by comma dead (spec.is_end byte) (nat_eq byte 0o54) place }
{
    if dead {
        return comma;
    }
    if is_end(byte) {
        return None;
    }
    if comma.is_some() || byte != b',' {
        return comma;
    }
    Some(place)
}

/// A text with `0` and then blanks for the bytes from a place up to another one.
fn erase_bytes(alloc: Global, text: &[u8], from: usize, end: usize) -> Result<Vec<u8>, AllocError>
    ensures { IfOk result (λ new. text_of new.items ≡ mending.with_erasure from end (text_of text.now)) }
{
    let mut new = Vec::with_capacity(alloc, text.len())?;
    let mut taken = 0;
    while taken < text.len() {
        new.push(erased_byte(text[taken], from, end, taken))?;
        taken += 1;
    }
    Ok(new)
}

/// A byte at a place of such a text.
fn erased_byte(byte: u8, from: usize, end: usize, at: usize) -> u8
    ensures { result ≡ erased_byte from end at byte }
{
    if at < from || end <= at {
        return byte;
    }
    if at == from {
        return b'0';
    }
    b' '
}

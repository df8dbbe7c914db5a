//! Where the bytes of a join stand.
ghost use Rattle.std.specs.Prelude.{◌≡◌, ◌+◌, ◌<◌, slice_index_or, IfOk};
ghost use Rattle.source_listing.specs.SpotSteps.{byte_spots, all_spots, no_spot};

use crate::rows::{own_ends, split};
use std::alloc::{AllocError, Global};

/// A line of one of several sources.
#[derive(Clone, Copy)]
pub struct Spot {
    /// The source, from 1.
    pub source: usize,
    /// Its line, from 1.
    pub line: usize,
}

/// The source and the line of each byte of the join of sources that have so many bytes each in it.
pub(crate) fn all_spots(
    alloc: Global,
    sources: &[&[u8]],
    counts: &[usize],
) -> Result<Vec<Spot>, AllocError>
    ensures { IfOk result (λ spots. spots.items ≡ all_spots 1 sources.now counts.now) }
{
    let mut spots = Vec::new(alloc);
    let mut number = 1;
    let mut counts = counts;
    let mut rest = sources;
    while let [source, others @ ..] = rest {
        let here = byte_spots(alloc, number, source)?;
        spots.extend_from_slice(own_ends(counts, &here))?;
        counts = split(counts, 1).1;
        number += 1;
        rest = others;
    }
    Ok(spots)
}

/// The source and the line of each byte of a source's text.
fn byte_spots(alloc: Global, number: usize, source: &[u8]) -> Result<Vec<Spot>, AllocError>
    ensures { IfOk result (λ spots. spots.items ≡ byte_spots number 1 source.now) }
{
    let mut spots = Vec::new(alloc);
    let mut line = 1;
    let mut rest = source;
    while let [byte, others @ ..] = rest {
        let spot = Spot {
            source: number,
            line,
        };
        match *byte {
            b'\r' => {}
            b'\n' => {
                spots.push(spot)?;
                spots.push(spot)?;
                line += 1;
            }
            _ => spots.push(spot)?,
        }
        rest = others;
    }
    Ok(spots)
}

/// The spot of a byte.
pub(crate) fn spot_at(spots: &[Spot], place: usize) -> Spot
    ensures { result ≡ slice_index_or spots.now place no_spot }
{
    if place < spots.len() {
        return spots[place];
    }
    Spot { source: 0, line: 0 }
}

//! The whole texts among blocks.
ghost use Rattle.std.specs.Prelude.{◌≡◌, ◌≤◌, ◌++◌, ◌*◌, ◌/◌, false, length, IfOk, OnOk};
ghost use Rattle.char_pack.specs.declared.packing.TheConstants.{BLOCK_FRAMES};
ghost use Rattle.block_scan.specs.Pieces.{AreInside, blocks_in, piece_before, open_after, texts_among, texts_from};

use crate::laws::pieces_are_texts;
use crate::passages::{Passage, passage_of};
use char_pack::BLOCK_FRAMES;
use std::alloc::{AllocError, Global};

/// A text: its first block, and how many blocks it has.
#[derive(Clone, Copy, PartialEq, Eq, Debug)]
pub struct TextPiece {
    pub place: usize,
    pub size: usize,
}

/// Where a text may have begun, and whether it has had a graphic character.
#[derive(Clone, Copy)]
pub struct Stretch {
    pub first: usize,
    pub has_graphic: bool,
}

/// The whole texts among blocks of 384 frames, in order of their blocks. They are the longest stretches of blocks that a text goes through
/// up to the one in which it ends (OS/8 Software Support Manual; which characters may stand in a text is this project's profile).
pub fn texts_in(alloc: Global, frames: &[u8]) -> Result<Vec<TextPiece>, AllocError>
    ensures pieces { IfOk result (λ pieces. pieces.items ≡ texts_among frames.now) }
    ensures inside { IfOk result (λ pieces. AreInside (length frames.now / BLOCK_FRAMES) pieces.items) }
{
    pieces_are_texts();
    texts_of(alloc, frames.len() / BLOCK_FRAMES, frames)
}

/// Those among so many blocks.
fn texts_of(alloc: Global, count: usize, frames: &[u8]) -> Result<Vec<TextPiece>, AllocError>
    requires { BLOCK_FRAMES * count ≤ length frames.now }
    ensures { IfOk result (λ pieces. pieces.items ≡ texts_from (record { first = 0; has_graphic = false }) 0 (blocks_in count frames.now)) }
{
    let mut pieces = Vec::new(alloc);
    let mut stretch = Stretch {
        first: 0,
        has_graphic: false,
    };
    let mut rest = frames;
    for block in 0..count {
        let (here, following) = rest.split_at(BLOCK_FRAMES);
        let way = passage_of(stretch.has_graphic, here);
        let next = block + 1;
        put_found(stretch, next, way, &mut pieces)?;
        stretch = stretch_after(stretch, next, way);
        rest = following;
    }
    Ok(pieces)
}

/// Adds the text that ends in the block before the next one, where a text may have reached it so.
fn put_found(
    stretch: Stretch,
    next: usize,
    way: Passage,
    pieces: &mut Vec<TextPiece>,
) -> Result<(), AllocError>
    requires { stretch.first ≤ next }
    ensures { OnOk result (pieces.new.items ≡ pieces.old.items ++ piece_before stretch next way) }
{
    match way {
        Passage::Ends(true) => {
            pieces.push(TextPiece {
                place: stretch.first,
                size: next - stretch.first,
            })?;
            Ok(())
        }
        Passage::Ends(false) | Passage::Goes(_) | Passage::Breaks => Ok(()),
    }
}

/// How a text may reach the next block.
fn stretch_after(stretch: Stretch, next: usize, way: Passage) -> Stretch
    requires { stretch.first ≤ next }
    ensures value { result ≡ open_after stretch next way }
    ensures order { result.first ≤ next }
{
    match way {
        Passage::Goes(seen) => Stretch {
            first: stretch.first,
            has_graphic: seen,
        },
        Passage::Ends(_) | Passage::Breaks => Stretch {
            first: next,
            has_graphic: false,
        },
    }
}

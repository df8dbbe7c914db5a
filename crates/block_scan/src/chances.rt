//! At which blocks a tape may begin.
ghost use Rattle.std.specs.Prelude.{◌≡◌, ◌*◌, ◌<◌, ◌≤◌, length, drop, IfOk};
ghost use Rattle.char_pack.specs.declared.packing.TheConstants.{BLOCK_FRAMES};
ghost use Rattle.block_scan.specs.Chances.{AreChances, IsChance};

use crate::tails::{no_tails, tails_of};
use char_pack::BLOCK_FRAMES;
use std::alloc::{AllocError, Global};

/// Whether frames may be a BIN tape, and a RIM tape.
#[derive(Clone, Copy)]
pub struct Chance {
    pub bin: bool,
    pub rim: bool,
}

/// Whether a tape begins at each of so many blocks, from the last to the first. The frames are walked through once.
pub(crate) fn chances_of(
    alloc: Global,
    frames: &[u8],
    count: usize,
) -> Result<Vec<Chance>, AllocError>
    requires { BLOCK_FRAMES * count ≤ length frames.now }
    ensures { IfOk result (λ chances. AreChances frames.now count chances.items) }
{
    let mut chances = Vec::new(alloc);
    let (_, remainder) = frames.split_at(BLOCK_FRAMES * count);
    let mut tails = tails_of(remainder, no_tails());
    let mut block = count;
    while block > 0 {
        block -= 1;
        let (_, following) = frames.split_at(BLOCK_FRAMES * block);
        let (here, _) = following.split_at(BLOCK_FRAMES);
        tails = tails_of(here, tails);
        chances.push(Chance {
            bin: tails.bin.if_heeded.is_tape,
            rim: tails.rim.is_tape,
        })?;
    }
    Ok(chances)
}

/// Whether a tape begins at one of these blocks.
pub(crate) fn chance_at(chances: &[Chance], frames: &[u8], count: usize, block: usize) -> Chance
    requires chances { AreChances frames.now count chances.now }
    requires inside { block < count }
    ensures { IsChance (drop (BLOCK_FRAMES * block) frames.now) result }
{
    chances[count - 1 - block]
}

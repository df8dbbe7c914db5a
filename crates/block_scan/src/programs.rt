//! The programs among blocks: core images, BIN tapes and RIM tapes.
ghost use Rattle.std.specs.Prelude.{◌≡◌, ◌+◌, ◌-◌, ◌*◌, ◌/◌, ◌<◌, ◌≤◌, ◌↔◌, false, length, IsTrue, IfOk, MatchOption};
ghost use Rattle.word12.specs.declared.sizes.TheConstants.{BLOCK};
ghost use Rattle.char_pack.specs.Packing.{frames as frames_in};
ghost use Rattle.char_pack.specs.declared.packing.TheConstants.{BLOCK_FRAMES};
ghost use Rattle.block_scan.specs.Chances.{AreChances, IsChance, RulesOut};
ghost use Rattle.block_scan.specs.Programs as spec;
ghost use Rattle.block_scan.specs.Programs.{AreProgramsOf, Begins, BeginsNone, Heads, HeadsNone, IsFewest};

use crate::chances::{Chance, chance_at, chances_of};
use crate::kinds::{ProgramKind, is_program};
use crate::laws::longer_programs;
use bin_tape::laws::longer_tape;
use char_pack::{BLOCK_FRAMES, Frames, frame_count};
use std::alloc::{AllocError, Global};
use word12::{BLOCK, Word};

/// A program: what it is kept as, its first block, and how many blocks it has.
#[derive(Clone, Copy, PartialEq, Eq, Debug)]
pub struct Program {
    pub kind: ProgramKind,
    pub place: usize,
    pub size: usize,
}

/// What begins at a block.
#[derive(Clone, Copy)]
struct Extent {
    kind: ProgramKind,
    size: usize,
}

/// The programs among the blocks of a volume, in order of their blocks. Each is the fewest blocks from one on that are a core image, a BIN
/// tape with its check sum, or a RIM tape, the first of these. The next one is looked for where it ends. A block that has nothing but
/// leader begins none (PAL III Symbolic Assembler manual, Small Computer Handbook and OS/8 Software Support Manual; the order is this
/// project's profile).
pub fn programs_in(alloc: Global, words: &[Word]) -> Result<Vec<Program>, AllocError>
    ensures { IfOk result (λ programs. AreProgramsOf words.now programs.items) }
{
    let frames = frames_of(alloc, words)?;
    programs_of(alloc, words, &frames, words.len() / BLOCK)
}

/// The frames of words.
fn frames_of(alloc: Global, words: &[Word]) -> Result<Vec<u8>, AllocError>
    ensures { IfOk result (λ bytes. bytes.items ≡ frames_in words.now) }
{
    Frames::new(words).collect(alloc)
}

/// The programs among so many blocks of words, which have these frames.
fn programs_of(
    alloc: Global,
    words: &[Word],
    frames: &[u8],
    count: usize,
) -> Result<Vec<Program>, AllocError>
    requires count { count ≡ length words.now / BLOCK }
    requires frames { frames.now ≡ frames_in words.now }
    ensures { IfOk result (λ programs. AreProgramsOf words.now programs.items) }
{
    let _size = frame_count(words);
    let chances = chances_of(alloc, frames, count)?;
    let mut programs = Vec::new(alloc);
    let mut block = 0;
    while block < count {
        let (_, words_following) = words.split_at(BLOCK * block);
        let (_, frames_following) = frames.split_at(BLOCK_FRAMES * block);
        let chance = chance_at(&chances, frames, count, block);
        match beginning(
            alloc,
            chance,
            words_following,
            frames_following,
            count - block,
        ) {
            None => block += 1,
            Some(extent) => {
                programs.push(Program {
                    kind: extent.kind,
                    place: block,
                    size: extent.size,
                })?;
                block += extent.size;
            }
        }
    }
    Ok(programs)
}

/// What begins with the first of so many blocks.
fn beginning(
    alloc: Global,
    chance: Chance,
    words: &[Word],
    frames: &[u8],
    count: usize,
) -> Option<Extent>
    requires some { 0 < count }
    requires chance { IsChance frames.now chance }
    requires words { BLOCK * count ≤ length words.now }
    requires frames { BLOCK_FRAMES * count ≤ length frames.now }
    ensures { MatchOption result (BeginsNone words.now frames.now count)
        (λ extent. Begins words.now frames.now count extent.kind extent.size) }
{
    if is_blank(frames) {
        return None;
    }
    rule_out(chance, words, frames, count);
    if let Some(size) = fewest_blocks(alloc, ProgramKind::Core, words, frames, count) {
        return Some(Extent {
            kind: ProgramKind::Core,
            size,
        });
    }
    if let Some(size) = fewest_tape(alloc, chance.bin, ProgramKind::Bin, words, frames, count) {
        return Some(Extent {
            kind: ProgramKind::Bin,
            size,
        });
    }
    if let Some(size) = fewest_tape(alloc, chance.rim, ProgramKind::Rim, words, frames, count) {
        return Some(Extent {
            kind: ProgramKind::Rim,
            size,
        });
    }
    None
}

/// Whether the first block has nothing but leader.
fn is_blank(frames: &[u8]) -> bool
    requires { BLOCK_FRAMES ≤ length frames.now }
    ensures { result ≡ spec.is_blank frames.now }
{
    let (block, _) = frames.split_at(BLOCK_FRAMES);
    are_leader(block)
}

/// Whether frames are those of a leader.
fn are_leader(frames: &[u8]) -> bool
    ensures { result ≡ spec.are_leader frames.now }
{
    let mut rest = frames;
    while let [frame, others @ ..] = rest {
        if *frame != 0 && *frame != 0o200 {
            return false;
        }
        rest = others;
    }
    true
}

/// A law: where frames have no chance to be a tape, no number of blocks at their head is one.
fn rule_out(chance: Chance, words: &[Word], frames: &[u8], count: usize)
    requires { IsChance frames.now chance }
    ensures { RulesOut words.now frames.now count chance }
{
    longer_tape();
}

/// The least number of blocks, of so many at most, that are a tape of a kind, where there may be one.
fn fewest_tape(
    alloc: Global,
    has_chance: bool,
    kind: ProgramKind,
    words: &[Word],
    frames: &[u8],
    count: usize,
) -> Option<usize>
    requires some { 0 < count }
    requires words { BLOCK * count ≤ length words.now }
    requires frames { BLOCK_FRAMES * count ≤ length frames.now }
    requires chance { has_chance ≡ false → HeadsNone words.now frames.now count kind }
    ensures { MatchOption result (HeadsNone words.now frames.now count kind) (IsFewest words.now frames.now count kind) }
{
    if !has_chance {
        return None;
    }
    fewest_blocks(alloc, kind, words, frames, count)
}

/// The least number of blocks, of so many at most, that are a program of a kind.
fn fewest_blocks(
    alloc: Global,
    kind: ProgramKind,
    words: &[Word],
    frames: &[u8],
    count: usize,
) -> Option<usize>
    requires some { 0 < count }
    requires words { BLOCK * count ≤ length words.now }
    requires frames { BLOCK_FRAMES * count ≤ length frames.now }
    ensures { MatchOption result (HeadsNone words.now frames.now count kind) (IsFewest words.now frames.now count kind) }
{
    longer_programs();
    if !heads(alloc, kind, words, frames, count) {
        return None;
    }
    let mut low = 0;
    let mut high = count;
    while low + 1 < high {
        let middle = low + (high - low) / 2;
        if heads(alloc, kind, words, frames, middle) {
            high = middle;
        } else {
            low = middle;
        }
    }
    Some(high)
}

/// Whether so many blocks are a program of a kind.
fn heads(alloc: Global, kind: ProgramKind, words: &[Word], frames: &[u8], size: usize) -> bool
    requires words { BLOCK * size ≤ length words.now }
    requires frames { BLOCK_FRAMES * size ≤ length frames.now }
    ensures { IsTrue result ↔ Heads kind words.now frames.now size }
{
    let (words, _) = words.split_at(BLOCK * size);
    let (frames, _) = frames.split_at(BLOCK_FRAMES * size);
    is_program(alloc, kind, words, frames)
}

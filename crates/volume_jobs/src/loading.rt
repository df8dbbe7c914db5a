//! A job that loads, a block a turn.
ghost use Rattle.std.specs.Prelude.{◌≡◌, ◌+◌, ◌<◌, ◌≤◌, ◌++◌, ℕ, List, length, take, nat_eq, false, IsErrOf};
ghost use Rattle.word12.specs.declared.sizes.TheConstants.{BLOCK};
ghost use Rattle.char_pack.specs.Packing.{frames};
ghost use Rattle.char_pack.specs.declared.packing.TheConstants.{BLOCK_FRAMES};
ghost use Rattle.core_load.specs.Load.{IsLoaded};
ghost use Rattle.os8_dir.specs.Files.{files_of};
ghost use Rattle.os8_files.specs.Holds.{without_hold};
ghost use Rattle.volume_jobs.specs.declared.faults.JobFault.TheVariants as fault;
ghost use Rattle.volume_jobs.specs.Steps.{BeginsLoading, TurnsLoading, LoadsOn, TakesFrames, ReadsBlock, EndsTape};
ghost use Rattle.pal_blocks.specs.Blocks.{block_at};
ghost use Rattle.volume_jobs.specs.Reading.{HasWords, HasTaken, IsLoading};
ghost use Rattle.volume_jobs.specs.Settled.{LoadingFits};

use crate::faults::is_memory;
use crate::{Job, JobFault, Turned, Work};
use bin_tape::TapeFault;
use bin_tape::laws::{no_fault, one_fault};
use char_pack::{BLOCK_FRAMES, frame_at};
use core_load::{Core, Loader};
use os8_dir::Name;
use os8_files::{FileFault, FileService, Hold};
use std::alloc::Global;
use volume_image::BlockStore;
use word12::{BLOCK, Word};

/// What a job that loads keeps between its turns.
pub struct Loading {
    /// Its file, which is held.
    pub hold: Hold,
    /// How many blocks were read.
    pub blocks_read: usize,
    /// How many frames of the next block were taken, before want of memory broke a turn off.
    pub offset: usize,
    pub loader: Loader,
}

impl Loading {
    /// Begins to load a file, which is held from now on. The turns that the job may take are one for each block of the
    /// file, and one more (this project's profile).
    pub(crate) fn begin<S: BlockStore>(
        alloc: Global,
        files: &mut FileService<S>,
        name: Name,
    ) -> Result<(Loading, usize), FileFault>
        ensures { BeginsLoading files.old name result files.new }
    {
        let hold = files.hold(&name)?;
        let blocks = files.lookup(&name).unwrap_or(0);
        Ok((
            Loading {
                hold,
                blocks_read: 0,
                offset: 0,
                loader: Loader::new(alloc),
            },
            blocks + 1,
        ))
    }

    /// A turn that reads the next block of the file, by one read. Where memory runs out it is as if the turn had not come, but
    /// that it keeps how far into the block it came.
    fn read_turn<S: BlockStore>(
        &mut self,
        files: &mut FileService<S>,
        left: usize,
    ) -> Result<(), JobFault>
        requires running { files.old.stopped ≡ false }
        requires more { 2 ≤ left }
        requires there { (words : List ℕ) × HasWords (files_of files.old.blocks) self.old.hold words
            × IsLoading words self.old left }
        requires range { (self.old.offset ≤ BLOCK_FRAMES) × (self.old.blocks_read + left ≤ 18446744073709551615) }
        ensures turn { (words : List ℕ) → HasWords (files_of files.old.blocks) self.old.hold words
            → IsLoading words self.old left
            → LoadsOn words files.old self.old left result files.new self.new }
        ensures same { (self.new.hold ≡ self.old.hold) × (self.new.offset ≤ BLOCK_FRAMES) }
        ensures done { self.new.blocks_read ≤ self.old.blocks_read + 1 }
        ensures memory { IsErrOf result fault.Memory → self.new.blocks_read ≡ self.old.blocks_read }
    {
        let name = self.hold.name();
        let mut block = [Word::ZERO; BLOCK];
        files.read_block(&name, self.blocks_read, &mut block)?;
        self.take_block(&block, left == 2)
    }

    /// The last turn: the tape is laid over core, and the file is held once less.
    fn lay<S: BlockStore>(self, files: &mut FileService<S>, core: &mut Core)
        requires { (words : List ℕ) × IsLoading words self 1 }
        ensures core { (words : List ℕ) → IsLoading words self 1 → IsLoaded (frames words) core.old core.new }
        ensures files { files.new ≡ record files.old { holds = without_hold self.hold files.old.holds } }
    {
        let Loading {
            hold,
            blocks_read: _,
            offset: _,
            loader,
        } = self;
        files.release(hold);
        loader.lay(core);
    }

    /// Ends the job: the file is held once less.
    pub(crate) fn let_go<S: BlockStore>(self, files: &mut FileService<S>)
        ensures { files.new ≡ record files.old { holds = without_hold self.hold files.old.holds } }
    {
        let Loading {
            hold,
            blocks_read: _,
            offset: _,
            loader,
        } = self;
        drop(loader);
        files.release(hold);
    }

    /// Takes the next block of the file, where it is the last or not.
    fn take_block(&mut self, block: &[Word], last: bool) -> Result<(), JobFault>
        requires block { length block.now ≡ BLOCK }
        requires offset { self.old.offset ≤ BLOCK_FRAMES }
        requires done { self.old.blocks_read < 18446744073709551615 }
        ensures block { (words : List ℕ) (left : ℕ) → IsLoading words self.old left
            → block.now ≡ block_at self.old.blocks_read words → 2 ≤ left → last ≡ nat_eq left 2
            → ReadsBlock words self.old left result self.new }
        ensures same { (self.new.hold ≡ self.old.hold) × (self.new.offset ≤ BLOCK_FRAMES) }
        ensures done { self.new.blocks_read ≤ self.old.blocks_read + 1 }
        ensures memory { IsErrOf result fault.Memory → self.new.blocks_read ≡ self.old.blocks_read }
    {
        no_fault();
        one_fault();
        take_frames(&mut self.loader, block, &mut self.offset)?;
        self.offset = 0;
        self.blocks_read += 1;
        if last {
            return self.end();
        }
        Ok(())
    }

    /// Whether the whole file is a tape.
    fn end(&self) -> Result<(), JobFault>
        ensures ends { (given : List ℕ) → HasTaken self.now.loader given → EndsTape given result }
        ensures other { IsErrOf result fault.Memory → ⊥ }
    {
        no_fault();
        one_fault();
        match self.loader.end() {
            Ok(()) => Ok(()),
            Err(fault) => Err(JobFault::Tape(fault)),
        }
    }
}

/// A turn of a job that loads, with so many turns left. It answers, and hands the job back where it isn't at its end. Turn k
/// reads block k of the file, by one read; the last turn lays the tape over core. A fault of the tape ends the job at the
/// turn that meets it, a missing trailer at that of the last block (this project's profile).
pub(crate) fn loading_turn<S: BlockStore>(
    files: &mut FileService<S>,
    core: &mut Core,
    job: Loading,
    left: usize,
) -> (Result<Turned, JobFault>, Option<Job>)
    requires there { files.old.stopped ≡ false → (words : List ℕ)
        × HasWords (files_of files.old.blocks) job.hold words × IsLoading words job left }
    requires fits { LoadingFits job left }
    ensures { TurnsLoading files.old core.old job left result.0 result.1 files.new core.new }
{
    if files.is_stopped() {
        job.let_go(files);
        return (Err(JobFault::File(FileFault::Stopped)), None);
    }
    if left < 2 {
        let name = job.hold.name();
        job.lay(files, core);
        return (Ok(Turned::Loaded(name)), None);
    }
    let mut job = job;
    match job.read_turn(files, left) {
        Ok(()) => (
            Ok(Turned::Working),
            Some(Job {
                work: Work::Loading(job),
                turns: left - 1,
            }),
        ),
        Err(fault) => {
            if is_memory(&fault) {
                return (
                    Err(fault),
                    Some(Job {
                        work: Work::Loading(job),
                        turns: left,
                    }),
                );
            }
            job.let_go(files);
            (Err(fault), None)
        }
    }
}

/// Takes the frames of a block from an offset on. Where memory runs out the offset shows how many were taken.
fn take_frames(loader: &mut Loader, block: &[Word], offset: &mut usize) -> Result<(), TapeFault>
    requires block { length block.now ≡ BLOCK }
    requires offset { offset.old ≤ BLOCK_FRAMES }
    ensures takes { (before : List ℕ) → HasTaken loader.old (before ++ take offset.old (frames block.now))
        → TakesFrames before block.now result loader.new offset.new }
    ensures range { offset.new ≤ BLOCK_FRAMES }
{
    while *offset < BLOCK_FRAMES {
        loader.push(frame_at(block, *offset))?;
        *offset += 1;
    }
    Ok(())
}

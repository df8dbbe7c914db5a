//! What a job that assembles keeps, from its start to its end.
ghost use Rattle.std.specs.Prelude.{◌≡◌, ◌≤◌, ◌<◌, length, None, false, IsErrOf};
ghost use Rattle.word12.specs.declared.sizes.TheConstants.{MOST_SOURCES};
ghost use Rattle.os8_dir.specs.Entries.{IsNamed};
ghost use Rattle.os8_dir.specs.Files.{files_of};
ghost use Rattle.volume_jobs.specs.Sources.{names_of, AssemblyFits, AssemblyStands};
ghost use Rattle.volume_jobs.specs.Steps.{without_holds, BeginsAssembly, ReadsSource};
ghost use Rattle.volume_jobs.specs.State.{words_in};

use crate::JobFault;
use crate::places::{Places, hold_all, name_at, release_all};
use os8_dir::Name;
use os8_files::laws::counted_holds;
use os8_files::{FileFault, FileService};
use pal_blocks::{Assembling, Due};
use std::alloc::Global;
use volume_image::BlockStore;
use word12::{BLOCK, Word};

/// What a job that assembles keeps between its turns.
pub struct Assembly {
    /// The file that the sources are assembled to.
    pub to: Name,
    /// The sources in their order, which are held.
    pub holds: Places,
    pub assembling: Assembling,
}

impl Assembly {
    /// Begins to assemble files to another one. Each is held from now on, as often as it is named. The turns that the job may
    /// take are two for each block of them, and one more (this project's profile). Where one isn't there it is `NotFound`; then
    /// comes `Busy` with the target, where that is held or among them. Where it is refused, names are held as often as before.
    pub(crate) fn begin<S: BlockStore>(
        alloc: Global,
        files: &mut FileService<S>,
        to: Name,
        from: &[Name],
    ) -> Result<(Assembly, usize), JobFault>
        requires running { files.old.stopped ≡ false }
        requires named { IsNamed to }
        requires some { 0 < length from.now }
        requires few { length from.now ≤ MOST_SOURCES }
        ensures { BeginsAssembly files.old to from.now result files.new }
    {
        counted_holds();
        let mut holds: Places = [None, None, None, None, None, None, None, None];
        let mut blocks = Vec::new(alloc);
        match hold_all(files, from, &mut holds, &mut blocks) {
            Err(fault) => {
                release_all(files, holds);
                Err(fault)
            }
            Ok(total) => {
                if files.is_held(to) {
                    release_all(files, holds);
                    return Err(JobFault::File(FileFault::Busy(to)));
                }
                let assembling = Assembling::new(alloc, blocks);
                Ok((
                    Assembly {
                        to,
                        holds,
                        assembling,
                    },
                    2 * total + 1,
                ))
            }
        }
    }

    /// Reads the next block of the sources, by one read, and takes it. Where memory runs out it is as if the turn had not come.
    pub(crate) fn read<S: BlockStore>(
        &mut self,
        alloc: Global,
        files: &mut FileService<S>,
        left: usize,
    ) -> Result<(), JobFault>
        requires running { files.old.stopped ≡ false }
        requires more { 2 ≤ left }
        requires fits { AssemblyFits self.old left }
        requires stands { AssemblyStands files.old.blocks self.old left }
        ensures turn { ReadsSource (words_in (files_of files.old.blocks) (names_of self.old.holds))
            files.old left result files.new self.new }
        ensures same { (self.new.to ≡ self.old.to) × (self.new.holds ≡ self.old.holds) }
    {
        let Due {
            source,
            block: number,
        } = self.assembling.due();
        let name = name_at(&self.holds, source);
        let mut block = [Word::ZERO; BLOCK];
        files.read_block(&name, number, &mut block)?;
        self.assembling.take(alloc, &block)?;
        Ok(())
    }

    /// Ends the job: its sources are held once less each.
    pub(crate) fn let_go<S: BlockStore>(self, files: &mut FileService<S>)
        ensures { files.new ≡ record files.old { holds = without_holds self.holds files.old.holds } }
    {
        let Assembly {
            to: _,
            holds,
            assembling,
        } = self;
        drop(assembling);
        release_all(files, holds);
    }
}

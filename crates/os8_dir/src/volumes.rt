ghost use Rattle.std.specs.Prelude.{◌≡◌, ℕ, ◌+◌, ◌<◌, ◌≤◌, [], ◌∷◌, length, is_ok, if◌then◌else◌, OnOk, IfOk, IfErr};
ghost use Rattle.word12.specs.declared.sizes.TheConstants.{MOST_BLOCKS};
ghost use Rattle.volume_image.specs.Volume.{next_count};
ghost use Rattle.os8_dir.specs.Reading.{GivesReading, word, block, directory_of, with_links, with_segment, is_device};
ghost use Rattle.os8_dir.specs.Reads.{segments_to_fault, segments_judged, ReadsSegments};
ghost use Rattle.os8_dir.specs.Found.{IsDirectory};
ghost use Rattle.os8_dir.specs.Steps.{LeavesRead};
ghost use Rattle.os8_dir.specs.declared.faults.DirFault.TheVariants.{Device};

use crate::drafts::Draft;
use crate::{DirFault, Directory};
use std::alloc::Global;
use volume_image::{Block, BlockStore};
use word12::{BLOCK, Word};

/// Reads a block; the only fault is that the device failed.
fn read_block<S: BlockStore>(
    store: &mut S,
    number: usize,
    words: &mut Block,
) -> Result<(), DirFault>
    requires { number < length (S.contents store.old) }
    ensures ok { OnOk result (words.new ≡ block (S.contents store.old) number) }
    ensures err { IfErr result (λ fault. fault ≡ Device) }
    ensures same { S.contents store.new ≡ S.contents store.old }
    ensures reads { S.reads store.new ≤ S.reads store.old + 1 }
    ensures count { S.reads store.new ≡ next_count (S.reads store.old) }
    ensures failed_reads { S.failed_reads store.new
        ≡ (if is_ok result then S.failed_reads store.old else S.failed_reads store.old + 1) }
    ensures failed_writes { S.failed_writes store.new ≡ S.failed_writes store.old }
    ensures writes { S.writes store.new ≡ S.writes store.old }
{
    store.read(number, words)?;
    Ok(())
}

impl Directory {
    /// Reads the directory of a volume: up to six segments in blocks 1 to 6. Each is read at most once, and none after the first
    /// that has a fault (OS/8 Software Support Manual; the faults and their order are this project's profile). No block is written.
    pub fn read<S: BlockStore>(alloc: Global, store: &mut S) -> Result<Directory, DirFault>
        ensures reading { GivesReading (λ d. d) result (directory_of (S.contents store.old)) }
        ensures directory { IfOk result (IsDirectory (length (S.contents store.old))) }
        ensures same { S.contents store.new ≡ S.contents store.old }
        ensures reads { S.reads store.new ≤ S.reads store.old + 6 }
        ensures segments { ReadsSegments (segments_judged (S.contents store.old)) result
            (S.reads store.old) (S.reads store.new) }
        ensures failed_reads { S.failed_reads store.new
            ≡ (if is_device result then S.failed_reads store.old + 1 else S.failed_reads store.old) }
        ensures failed_writes { S.failed_writes store.new ≡ S.failed_writes store.old }
        ensures writes { S.writes store.new ≡ S.writes store.old }
    {
        let volume = store.blocks();
        let mut words = [Word::ZERO; BLOCK];
        read_block(store, 1, &mut words)?;
        let mut draft = Draft::head(alloc, volume, &words)?;
        draft.add_segment(volume, 1, &words)?;
        let link = usize::from(words[2].get());
        draft.add_links(store, volume, link)?;
        Ok(draft.finish())
    }
}

impl Draft {
    /// Reads a block and adds the segment that it holds; gives its link.
    fn add_linked<S: BlockStore>(
        &mut self,
        store: &mut S,
        volume: usize,
        number: usize,
    ) -> Result<usize, DirFault>
        requires volume { volume ≡ length (S.contents store.old) }
        requires most { volume ≤ MOST_BLOCKS }
        requires inside { number < volume }
        ensures reading { LeavesRead result self.new
            (with_segment volume self.old number (block (S.contents store.old) number)) }
        ensures link { IfOk result (λ link. link ≡ word (block (S.contents store.old) number) 2) }
        ensures same { S.contents store.new ≡ S.contents store.old }
        ensures reads { S.reads store.new ≤ S.reads store.old + 1 }
        ensures count { S.reads store.new ≡ next_count (S.reads store.old) }
        ensures failed_reads { S.failed_reads store.new
            ≡ (if is_device result then S.failed_reads store.old + 1 else S.failed_reads store.old) }
        ensures failed_writes { S.failed_writes store.new ≡ S.failed_writes store.old }
        ensures writes { S.writes store.new ≡ S.writes store.old }
    {
        let mut words = [Word::ZERO; BLOCK];
        read_block(store, number, &mut words)?;
        self.add_segment(volume, number, &words)?;
        let link = usize::from(words[2].get());
        Ok(link)
    }

    /// Adds the segments from a link of the first segment on.
    fn add_links<S: BlockStore>(
        &mut self,
        store: &mut S,
        volume: usize,
        first_link: usize,
    ) -> Result<(), DirFault>
        requires volume { volume ≡ length (S.contents store.old) }
        requires least { 8 ≤ volume }
        requires most { volume ≤ MOST_BLOCKS }
        ensures reading { LeavesRead result self.new
            (with_links 5 self.old (S.contents store.old) (1 ∷ []) 1 first_link) }
        ensures same { S.contents store.new ≡ S.contents store.old }
        ensures reads { S.reads store.new ≤ S.reads store.old + 5 }
        ensures segments { ReadsSegments
            (segments_to_fault 5 self.old (S.contents store.old) (1 ∷ []) first_link) result (S.reads store.old)
            (S.reads store.new) }
        ensures failed_reads { S.failed_reads store.new
            ≡ (if is_device result then S.failed_reads store.old + 1 else S.failed_reads store.old) }
        ensures failed_writes { S.failed_writes store.new ≡ S.failed_writes store.old }
        ensures writes { S.writes store.new ≡ S.writes store.old }
    {
        let mut seen = [false, true, false, false, false, false, false];
        let mut from = 1;
        let mut link = first_link;
        let mut left: usize = 5;
        while left > 0 && link > 0 {
            if link > 6 || seen[link] {
                return Err(DirFault::BadLink(from));
            }
            let next = self.add_linked(store, volume, link)?;
            seen[link] = true;
            from = link;
            link = next;
            left -= 1;
        }
        if link > 0 {
            return Err(DirFault::BadLink(from));
        }
        Ok(())
    }
}

//! The putting of whole files.
ghost use Rattle.std.specs.Prelude.{◌≡◌, ◌*◌, ◌<◌, length, None};
ghost use Rattle.word12.specs.declared.sizes.TheConstants.{BLOCK};
ghost use Rattle.os8_dir.specs.Entries.{IsNamed};
ghost use Rattle.os8_files.specs.Puts.{PutsFile, PutsFileWith, blocks_filled};
ghost use Rattle.os8_files.specs.Steps.{IsBeginning, FillsFile};

use crate::{FileFault, FileService, Tentative};
use os8_dir::Name;
use os8_dir::laws::rooms;
use std::alloc::Global;
use volume_image::BlockStore;
use word12::{BLOCK, Word};

impl<S: BlockStore> FileService<S> {
    /// Makes a file of whole blocks of words, at least one, whose information words are 0, in place of an older one of the name
    /// (this project's profile). Where it is held it is `Busy`; then come `NoRoom` with the blocks of the largest empty, and
    /// `DirectoryFull` where the new list is too long. Each of its blocks is written once, and each of blocks 1 to 6 whose words
    /// change; nothing is read. While a file is written it can't be called.
    pub fn put(&mut self, alloc: Global, name: Name, words: &[Word]) -> Result<(), FileFault>
        requires named { IsNamed name }
        requires some { 0 < blocks_filled words.now }
        requires whole { BLOCK * blocks_filled words.now ≡ length words.now }
        requires none { self.old.tentative ≡ None }
        ensures call { PutsFile self.old name words.now result self.new }
        ensures none { self.new.tentative ≡ None }
    {
        put_file(self, alloc, name, words, &[], words.len() / BLOCK)
    }

    /// The same with information words: the first of those given are the file's, and missing ones are 0 (OS/8 Software Support
    /// Manual).
    pub fn put_with(
        &mut self,
        alloc: Global,
        name: Name,
        words: &[Word],
        info: &[Word],
    ) -> Result<(), FileFault>
        requires named { IsNamed name }
        requires some { 0 < blocks_filled words.now }
        requires whole { BLOCK * blocks_filled words.now ≡ length words.now }
        requires none { self.old.tentative ≡ None }
        ensures call { PutsFileWith self.old name info.now words.now result self.new }
        ensures none { self.new.tentative ≡ None }
    {
        put_file(self, alloc, name, words, info, words.len() / BLOCK)
    }
}

/// Begins a file, writes its blocks, and closes it or gives it up.
fn put_file<S: BlockStore>(
    files: &mut FileService<S>,
    alloc: Global,
    name: Name,
    words: &[Word],
    info: &[Word],
    blocks: usize,
) -> Result<(), FileFault>
    requires named { IsNamed name }
    requires some { 0 < blocks }
    requires whole { BLOCK * blocks ≡ length words.now }
    requires count { blocks ≡ blocks_filled words.now }
    requires none { files.old.tentative ≡ None }
    ensures call { PutsFileWith files.old name info.now words.now result files.new }
    ensures none { files.new.tentative ≡ None }
{
    rooms();
    let mut tentative = files.enter(name, blocks)?;
    match fill(files, &mut tentative, words, blocks) {
        Ok(()) => files.close(alloc, tentative, info),
        Err(fault) => {
            files.give_up(tentative);
            Err(fault)
        }
    }
}

/// Writes the blocks of a file that was begun.
fn fill<S: BlockStore>(
    files: &mut FileService<S>,
    tentative: &mut Tentative,
    words: &[Word],
    blocks: usize,
) -> Result<(), FileFault>
    requires whole { BLOCK * blocks ≡ length words.now }
    requires beginning { IsBeginning files.old tentative.old blocks }
    ensures call { FillsFile files.old words.now blocks result files.new }
    ensures token { tentative.new ≡ tentative.old }
{
    let mut rest = words;
    let mut written = 0;
    while written < blocks {
        let (prefix, following) = rest.split_at(BLOCK);
        let mut block = [Word::ZERO; BLOCK];
        block.copy_from_slice(prefix);
        files.write(tentative, &block)?;
        rest = following;
        written += 1;
    }
    Ok(())
}

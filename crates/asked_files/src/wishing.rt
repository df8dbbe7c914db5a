//! Which files of a volume the words of a command choose.
ghost use Rattle.std.specs.Prelude.{◌≡◌, ◌++◌, IfOk, OnOk, map};
ghost use Rattle.archive_many.specs.Wishing.{file_of, found_files};
ghost use Rattle.asked_files.specs.Wishing.{AreWished};

use archive_many::{OpenVolume, VolumeFile, Wish, wishes_of};
use outcome::Ending;
use std::alloc::{AllocError, Global};

/// What words ask for of a volume.
pub fn wishes_on(alloc: Global, words: &[String], volume: &OpenVolume) -> Result<Vec<Wish>, Ending>
    ensures { AreWished (map (λ word. word.bytes.items) words.now) volume.now result }
{
    let files = volume.files(alloc)?;
    let wishes = wishes_of(alloc, &files, false, words, &[])?;
    Ok(wishes)
}

/// The files that are asked for.
pub fn files_of(alloc: Global, wishes: &[Wish]) -> Result<Vec<VolumeFile>, AllocError>
    ensures { IfOk result (λ files. files.items ≡ found_files wishes.now) }
{
    let mut files = Vec::new(alloc);
    let mut rest = wishes;
    while let [wish, others @ ..] = rest {
        add_file(wish, &mut files)?;
        rest = others;
    }
    Ok(files)
}

/// Appends the file that is asked for, if one is.
fn add_file(wish: &Wish, files: &mut Vec<VolumeFile>) -> Result<(), AllocError>
    ensures { OnOk result (files.new.items ≡ files.old.items ++ file_of wish.now) }
{
    match wish {
        Wish::File(file) => {
            files.push(*file)?;
            Ok(())
        }
        Wish::BadWord(_) | Wish::NotFound(_) | Wish::Block(_) => Ok(()),
    }
}

//! Files that are held at places, in their order.
ghost use Rattle.std.specs.Prelude.{◌≡◌, ◌≤◌, ◌<◌, ℕ, Option, Some, None, [], ◌∷◌, length, get_or, slice_set, false};
ghost use Rattle.word12.specs.declared.sizes.TheConstants.{MOST_SOURCES};
ghost use Rattle.os8_dir.specs.Files.{files_of};
ghost use Rattle.os8_files.specs.Mounted.{MountState};
ghost use Rattle.volume_jobs.specs.Sources.{names_of, AreFirst};
ghost use Rattle.volume_jobs.specs.Steps.{without_holds, HasHeld, TakesNext, TakesAll};

use crate::JobFault;
use os8_dir::Name;
use os8_files::laws::counted_holds;
use os8_files::{FileService, Hold};
use std::mem;
use volume_image::BlockStore;
use word12::MOST_SOURCES;

/// The places of the sources of a job.
pub(crate) type Places = [Option<Hold>; MOST_SOURCES];

/// Holds files, in their order at the first places, and counts the blocks of each, and all. Where it is refused, what was
/// held by then stays at its places.
pub(crate) fn hold_all<S: BlockStore>(
    files: &mut FileService<S>,
    names: &[Name],
    places: &mut [Option<Hold>],
    blocks: &mut Vec<usize>,
) -> Result<usize, JobFault>
    requires running { files.old.stopped ≡ false }
    requires size { length places.old ≡ 8 }
    requires free { (place : ℕ) → get_or places.old place None ≡ None }
    requires few { length names.now ≤ MOST_SOURCES }
    requires none { blocks.old.items ≡ [] }
    ensures all { TakesAll (files_of files.old.blocks) names.now result places.new blocks.new.items }
    ensures held { HasHeld files.old places.new files.new }
    ensures size { length places.new ≡ 8 }
{
    let mut total = 0;
    for place in 0..names.len() {
        let count = hold_next(files, names[place], places, place, blocks)?;
        total += count;
    }
    Ok(total)
}

/// Holds a file at an empty place, and counts its blocks.
fn hold_next<S: BlockStore>(
    files: &mut FileService<S>,
    name: Name,
    places: &mut [Option<Hold>],
    place: usize,
    blocks: &mut Vec<usize>,
) -> Result<usize, JobFault>
    requires running { files.old.stopped ≡ false }
    requires inside { place < length places.old }
    requires free { get_or places.old place None ≡ None }
    ensures next { TakesNext (files_of files.old.blocks) name places.old place blocks.old.items result
        places.new blocks.new.items }
    ensures held { (first : MountState) → HasHeld first places.old files.old
        → HasHeld first places.new files.new }
    ensures size { length places.new ≡ length places.old }
{
    counted_holds();
    let hold = files.hold(&name)?;
    put_hold(places, place, hold);
    let count = files.lookup(&name).unwrap_or(0);
    blocks.reserve(1)?;
    blocks.push_reserved(count);
    Ok(count)
}

fn put_hold(places: &mut [Option<Hold>], place: usize, hold: Hold)
    requires inside { place < length places.old }
    requires free { get_or places.old place None ≡ None }
    ensures { places.new ≡ slice_set places.old place (Some hold) }
{
    match mem::replace(&mut places[place], Some(hold)) {
        None => {}
        Some(_hold) => unreachable!(),
    }
}

/// The name of the file that a place holds.
pub(crate) fn name_at(places: &[Option<Hold>], place: usize) -> Name
    requires first { AreFirst places.now }
    requires inside { place < length (names_of places.now) }
    ensures { result ≡ get_or (names_of places.now) place 0 }
{
    match &places[place] {
        Some(hold) => hold.name(),
        None => unreachable!(),
    }
}

/// Lets the files at all places go.
pub(crate) fn release_all<S: BlockStore>(files: &mut FileService<S>, places: Places)
    requires { length places ≡ 8 }
    ensures { files.new ≡ record files.old { holds = without_holds places files.old.holds } }
{
    let mut places = places;
    release_each(files, &mut places);
    let [first, second, third, fourth, fifth, sixth, seventh, eighth] = places;
    let_none_go(first);
    let_none_go(second);
    let_none_go(third);
    let_none_go(fourth);
    let_none_go(fifth);
    let_none_go(sixth);
    let_none_go(seventh);
    let_none_go(eighth);
}

fn let_none_go(hold: Option<Hold>)
    requires { hold ≡ None }
{
    match hold {
        None => {}
        Some(_hold) => unreachable!(),
    }
}

fn release_each<S: BlockStore>(files: &mut FileService<S>, places: &mut [Option<Hold>])
    ensures files { files.new ≡ record files.old { holds = without_holds places.old files.old.holds } }
    ensures none { (place : ℕ) (hold : Option ℕ) → place < length places.old
        → get_or places.new place hold ≡ None }
{
    for place in 0..places.len() {
        release_at(files, places, place);
    }
}

/// Lets the file at a place go, if there is one.
fn release_at<S: BlockStore>(files: &mut FileService<S>, places: &mut [Option<Hold>], place: usize)
    requires { place < length places.old }
    ensures files { files.new ≡ record
        files.old { holds = without_holds (get_or places.old place None ∷ []) files.old.holds } }
    ensures rest { places.new ≡ slice_set places.old place None }
{
    match places[place].take() {
        None => {}
        Some(hold) => files.release(hold),
    }
}

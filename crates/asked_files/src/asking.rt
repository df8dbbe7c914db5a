//! Which files of a volume names and first blocks mean.
ghost use Rattle.std.specs.Prelude.{◌≡◌, [], ◌∷◌, ◌++◌, map, OnOk};
ghost use Rattle.archive_files.specs.Asking.{AtBlock, OfName, target_of};
ghost use Rattle.asked_files.specs.Asking.{AreNamed};

use archive_files::Asked;
use outcome::Ending;
use program_tasks::DeleteForm;
use std::alloc::{AllocError, Global};

/// The files of some names, and then those of some first blocks.
pub fn files_named(alloc: Global, form: &DeleteForm) -> Result<Vec<Asked>, Ending>
    ensures { AreNamed form.now result }
{
    let mut files = Vec::new(alloc);
    add_names(alloc, &form.names, &mut files)?;
    add_places(&form.places, &mut files)?;
    Ok(files)
}

fn add_names(alloc: Global, names: &[String], files: &mut Vec<Asked>) -> Result<(), AllocError>
    ensures { OnOk result (map target_of files.new.items ≡ map target_of files.old.items ++ map (λ name. OfName name.bytes.items) names.now) }
{
    let mut rest = names;
    while let [name, others @ ..] = rest {
        add_name(alloc, name.as_str(), files)?;
        rest = others;
    }
    Ok(())
}

fn add_name(alloc: Global, name: &str, files: &mut Vec<Asked>) -> Result<(), AllocError>
    ensures { OnOk result (map target_of files.new.items ≡ map target_of files.old.items ++ OfName name.now ∷ []) }
{
    let text = String::from_str(alloc, name)?;
    files.push(Asked::Name(text))?;
    Ok(())
}

fn add_places(places: &[usize], files: &mut Vec<Asked>) -> Result<(), AllocError>
    ensures { OnOk result (map target_of files.new.items ≡ map target_of files.old.items ++ map AtBlock places.now) }
{
    let mut rest = places;
    while let [place, others @ ..] = rest {
        add_place(*place, files)?;
        rest = others;
    }
    Ok(())
}

/// The file at a first block, after the others.
pub fn add_place(place: usize, files: &mut Vec<Asked>) -> Result<(), AllocError>
    ensures { OnOk result (map target_of files.new.items ≡ map target_of files.old.items ++ AtBlock place ∷ []) }
{
    files.push(Asked::At(place))?;
    Ok(())
}

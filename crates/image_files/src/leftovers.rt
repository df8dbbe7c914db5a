//! Names of files that a writer which was ended may have left beside another.
ghost use Rattle.std.specs.Prelude.{◌≡◌, ◌++◌, ◌&&◌, [], ◌∷◌, IfOk, OnOk, map, not};
ghost use Rattle.image_files.specs.Leftovers as spec;
ghost use Rattle.image_files.specs.Leftovers.{ChoosesImages};

use outcome::Ending;
use std::alloc::{AllocError, Global};

/// What the name of such a file has between that of the other file and its own end.
const MARK: &[u8] = b".pdp8-";

/// The names of images among several, without those of leftovers. One alone is asked for, whatever it is.
pub fn images_among(alloc: Global, names: &[String]) -> Result<Vec<String>, Ending>
    ensures { ChoosesImages (map (λ name. name.bytes.items) names.now) result }
{
    let images = images_in(alloc, names, is_one(names))?;
    Ok(images)
}

fn is_one(names: &[String]) -> bool
    ensures { result ≡ spec.is_one (map (λ name. name.bytes.items) names.now) }
{
    match names {
        [_] => true,
        _ => false,
    }
}

/// The names without those of leftovers, unless there is one alone.
fn images_in(alloc: Global, names: &[String], is_one: bool) -> Result<Vec<String>, AllocError>
    ensures { IfOk result (λ images. map (λ image. image.bytes.items) images.items ≡ spec.images_in is_one (map (λ name. name.bytes.items) names.now)) }
{
    let mut images = Vec::new(alloc);
    let mut rest = names;
    while let [name, others @ ..] = rest {
        take_image(alloc, &mut images, name.as_str(), is_one)?;
        rest = others;
    }
    Ok(images)
}

/// Adds a name, unless it is that of a leftover among others.
fn take_image(
    alloc: Global,
    images: &mut Vec<String>,
    name: &str,
    is_one: bool,
) -> Result<(), AllocError>
    ensures { OnOk result (map (λ image. image.bytes.items) images.new.items ≡ map (λ image. image.bytes.items) images.old.items ++ spec.image_named (spec.is_leftover name.now && not is_one) name.now) }
{
    if is_leftover(name.as_bytes()) && !is_one {
        return Ok(());
    }
    add_image(alloc, images, name)
}

fn add_image(alloc: Global, images: &mut Vec<String>, name: &str) -> Result<(), AllocError>
    ensures { OnOk result (map (λ image. image.bytes.items) images.new.items ≡ map (λ image. image.bytes.items) images.old.items ++ name.now ∷ []) }
{
    let name = String::from_str(alloc, name)?;
    images.push(name)?;
    Ok(())
}

/// Whether the last part of a name is one that the program gives to a file beside another: a dot, a name, the mark, and an end.
pub fn is_leftover(name: &[u8]) -> bool
    ensures { result ≡ spec.is_leftover name.now }
{
    let part = last_part(name);
    is_hidden(part) && has_mark(part)
}

/// What stands after the last slash of a name.
fn last_part(name: &[u8]) -> &[u8]
    ensures { result.now ≡ spec.part_after name.now name.now }
{
    let mut part = name;
    let mut rest = name;
    while let [byte, others @ ..] = rest {
        if *byte == b'/' {
            part = others;
        }
        rest = others;
    }
    part
}

fn is_hidden(part: &[u8]) -> bool
    ensures { result ≡ spec.is_hidden part.now }
{
    match part {
        [byte, ..] => *byte == b'.',
        [] => false,
    }
}

fn has_mark(part: &[u8]) -> bool
    ensures { result ≡ spec.has_mark part.now }
{
    let mut rest = part;
    while let [_, others @ ..] = rest {
        if rest.starts_with(MARK) {
            return true;
        }
        rest = others;
    }
    false
}

//! The command that lists those files of the volume in an image file whose names are like words. No file changes.
ghost use Rattle.std.specs.Prelude.{◌≡◌, ◌++◌, length, map, OnOk};
ghost use Rattle.image_files.specs.Answers.{Answers, AreLines};
ghost use Rattle.show_commands.specs.Listing.{ListsSome, ListsWished, ListsWords, refusal_lines};

use crate::dated_lists::list_chosen;
use archive_files::ArchiveFault;
use archive_many::{Wish, first_unfound, list_like};
use asked_files::{put_refusal, wishes_on};
use hosts::Host;
use image_files::{end_sound, look_at, open_volume, part_after, print, refuse_image};
use outcome::Ending;
use program_tasks::ListForm;
use std::alloc::{AllocError, Global};

/// Lists the files of the one volume that is meant whose names are like the words, as `list_files` or `list_places` has them. A word that is like
/// none is printed before the list, and why.
pub fn list_some<H: Host>(host: &mut H, alloc: Global, form: &ListForm) -> Result<(), Ending>
    ensures { ListsSome form.now (H.history host.old) result (H.history host.new) }
{
    let image = look_at(host, alloc, &form.image)?;
    let volume = open_volume(host, alloc, &image)?;
    let wishes = wishes_on(alloc, &form.names, &volume)?;
    list_wished(host, alloc, form, &image, &wishes)
}

/// Lists the files of an image that the words choose, where they ask for these.
fn list_wished<H: Host>(
    host: &mut H,
    alloc: Global,
    form: &ListForm,
    image: &[u8],
    wishes: &[Wish],
) -> Result<(), Ending>
    ensures { ListsWished form.now image.now wishes.now (H.history host.old) result (H.history host.new) }
{
    let lines = lines_of(host, alloc, form, image)?;
    let text = with_refusals(alloc, &form.names, wishes, &lines)?;
    let all_found = first_unfound(wishes).is_none();
    part_after(all_found, print(host, &text))?;
    end_sound(all_found)
}

/// The lines of the files that are listed, and of the free blocks. Where the image is refused, what may help is printed.
fn lines_of<H: Host>(
    host: &mut H,
    alloc: Global,
    form: &ListForm,
    image: &[u8],
) -> Result<Vec<u8>, Ending>
    ensures { Answers (ListsWords form.now image.now) (length image.now) (H.history host.old) result (H.history host.new) }
{
    match lines_in(alloc, form, image) {
        Ok(lines) => Ok(lines),
        Err(fault) => Err(refuse_image(host, image.len(), fault)),
    }
}

fn lines_in(alloc: Global, form: &ListForm, image: &[u8]) -> Result<Vec<u8>, ArchiveFault>
    ensures { ListsWords form.now image.now result }
{
    if form.is_long {
        return list_chosen(alloc, image, form.year, &form.names);
    }
    list_like(alloc, image, &form.names)
}

/// Lines after those of the words that ask for no file.
fn with_refusals(
    alloc: Global,
    words: &[String],
    wishes: &[Wish],
    lines: &[u8],
) -> Result<Vec<u8>, Ending>
    ensures { AreLines (refusal_lines (map (λ word. word.bytes.items) words.now) wishes.now ++ lines.now) result }
{
    let mut text = Vec::new(alloc);
    put_refusals(alloc, words, wishes, &mut text)?;
    text.extend_from_slice(lines)?;
    Ok(text)
}

/// Appends the line of each word that asks for no file.
fn put_refusals(
    alloc: Global,
    words: &[String],
    wishes: &[Wish],
    out: &mut Vec<u8>,
) -> Result<(), AllocError>
    ensures { OnOk result (out.new.items ≡ out.old.items ++ refusal_lines (map (λ word. word.bytes.items) words.now) wishes.now) }
{
    let mut rest = wishes;
    while let [wish, others @ ..] = rest {
        put_refusal(alloc, words, wish, out)?;
        rest = others;
    }
    Ok(())
}

ghost use Rattle.std.specs.Prelude.{◌≡◌, Some, false, ◌∷◌, [], length, map};
ghost use Rattle.image_kind.specs.declared.kinds.Form.TheVariants.{Disk};
ghost use Rattle.index_commands.specs.Indexing.{ChecksWord, EndsIndex, GivesIndex, Indexes, IndexesAll, IndexesAmong, IndexesImage, IndexesImages, IndexesInColumns, IndexesNext, IndexesVolume, IndexesVolumes, IndexesWith, ending_of_refusal};
ghost use Rattle.index_commands.specs.Indexing as spec;
ghost use Rattle.index_commands.specs.Volumes.{body_of, layouts_in, layouts_of};

use crate::columns::{Columns, LineShape};
use crate::found::{Found, print_same, take_lines};
use crate::passed_over::refuse_volume;
use crate::volumes::{body_in, number_of, volume_at};
use archive_many::{ChoiceFault, choose_files};
use disk_layouts::Layout;
use host_progress::Progress;
use hosts::Host;
use image_files::{ImageReading, image_named, images_among, look_image, part_after, refuse_image};
use image_kind::{Form, judged_kind};
use outcome::Ending;
use std::alloc::Global;
use volume_index::{IndexStyle, index_volume};

/// Prints the index of the volumes in image files: a line for each file of each that is wanted, images as they are given and files as they
/// lie. Images are read one at a time, and no file changes. Where no layout is given, each file's length and directory show which volumes it
/// has. What is refused is said on standard error, the rest goes on, and the command ends with a refusal. Where the word that chooses files is
/// no name and no pattern, nothing is read. Where the lines of equal files are wanted, just these are printed, when all images are read. At a
/// terminal the columns line up. A terminal on standard error shows the progress, where standard output goes elsewhere (this project's
/// profile).
pub fn index_images<H: Host>(
    host: &mut H,
    alloc: Global,
    style: &IndexStyle,
    shape: LineShape,
    images: &[String],
    reading: ImageReading,
) -> Result<(), Ending>
    ensures { Indexes style.now shape reading (map (λ image. image.bytes.items) images.now) (H.history host.old) result (H.history host.new) }
{
    check_word(host, alloc, style.find.as_bytes())?;
    index_among(host, alloc, style, shape, images, reading)
}

/// Prints the index of all image files, without those that a writer which was ended may have left.
fn index_among<H: Host>(
    host: &mut H,
    alloc: Global,
    style: &IndexStyle,
    shape: LineShape,
    names: &[String],
    reading: ImageReading,
) -> Result<(), Ending>
    ensures { IndexesAmong style.now shape reading (map (λ image. image.bytes.items) names.now) (H.history host.old) result (H.history host.new) }
{
    let images = images_among(alloc, names)?;
    index_in_columns(host, alloc, style, shape, &images, reading)
}

/// Prints the index of all image files, in columns that line up at a terminal.
fn index_in_columns<H: Host>(
    host: &mut H,
    alloc: Global,
    style: &IndexStyle,
    shape: LineShape,
    images: &[String],
    reading: ImageReading,
) -> Result<(), Ending>
    ensures { IndexesInColumns style.now shape reading (map (λ image. image.bytes.items) images.now) (H.history host.old) result (H.history host.new) }
{
    let columns = Columns::choose(host, alloc, shape, images)?;
    index_with(host, alloc, &columns, style, images, reading)
}

/// Prints the index of all image files in these columns.
fn index_with<H: Host>(
    host: &mut H,
    alloc: Global,
    columns: &Columns,
    style: &IndexStyle,
    images: &[String],
    reading: ImageReading,
) -> Result<(), Ending>
    ensures { IndexesWith style.now reading (map (λ image. image.bytes.items) images.now) columns.now (H.history host.old) result (H.history host.new) }
{
    let found = index_all(host, alloc, columns, style, images, reading)?;
    end_index(host, alloc, columns, &found)
}

/// Prints the lines of equal files, where these are wanted, and ends the command.
fn end_index<H: Host>(
    host: &mut H,
    alloc: Global,
    columns: &Columns,
    found: &Found,
) -> Result<(), Ending>
    ensures { EndsIndex columns.now found.now.is_refused found.now.lines.items (H.history host.old) result (H.history host.new) }
{
    let same = print_same(host, alloc, columns, &found.lines);
    part_after(!found.is_refused, same)?;
    ending_of_refusal(found.is_refused)
}

/// How the command ends, by whether an image was refused.
fn ending_of_refusal(is_refused: bool) -> Result<(), Ending>
    ensures { result ≡ ending_of_refusal is_refused }
{
    if is_refused {
        return Err(Ending::Failure);
    }
    Ok(())
}

/// Takes the index of all image files, with the progress.
fn index_all<H: Host>(
    host: &mut H,
    alloc: Global,
    columns: &Columns,
    style: &IndexStyle,
    images: &[String],
    reading: ImageReading,
) -> Result<Found, Ending>
    ensures { IndexesAll columns.now style.now reading (map (λ image. image.bytes.items) images.now) (H.history host.old) result (H.history host.new) }
{
    let mut progress = Progress::begin(host, images.len());
    let found = index_each(host, alloc, columns, style, images, reading, &mut progress);
    progress.end(host);
    found
}

/// Refuses a word that is no name and no pattern.
fn check_word<H: Host>(host: &mut H, alloc: Global, word: &[u8]) -> Result<(), Ending>
    ensures { ChecksWord word.now (H.history host.old) result (H.history host.new) }
{
    match choose_files(alloc, &[], word) {
        Err(ChoiceFault::BadName) => {
            let _ = host.tell(
                "error: --find takes a name, or a pattern of letters, digits, * and ?\n",
            );
            Err(Ending::Misuse)
        }
        _ => Ok(()),
    }
}

/// Takes the index of each image file.
fn index_each<H: Host>(
    host: &mut H,
    alloc: Global,
    columns: &Columns,
    style: &IndexStyle,
    images: &[String],
    reading: ImageReading,
    progress: &mut Progress,
) -> Result<Found, Ending>
    ensures indexes { IndexesImages columns.now style.now reading progress.old.is_told 0 progress.old.all (map (λ image. image.bytes.items) images.now) false [] (H.history host.old) result (H.history host.new) }
    ensures told { progress.new.is_told ≡ progress.old.is_told }
{
    let mut done = 0;
    let mut found = Found::none(alloc);
    let mut rest = images;
    while let [image, others @ ..] = rest {
        found = index_next(
            host,
            alloc,
            columns,
            style,
            image.as_str(),
            reading,
            progress,
            done,
            found,
        )?;
        done += 1;
        rest = others;
    }
    Ok(found)
}

/// Takes the index of an image file after so many others.
fn index_next<H: Host>(
    host: &mut H,
    alloc: Global,
    columns: &Columns,
    style: &IndexStyle,
    name: &str,
    reading: ImageReading,
    progress: &mut Progress,
    done: usize,
    found: Found,
) -> Result<Found, Ending>
    ensures indexes { IndexesNext columns.now style.now reading progress.old.is_told done progress.old.all name.now found.is_refused found.lines.items (H.history host.old) result (H.history host.new) }
    ensures told { progress.new.is_told ≡ progress.old.is_told }
    ensures all { progress.new.all ≡ progress.old.all }
{
    progress.tell(host, done);
    let (file, reading) = image_named(reading, name);
    index_image(host, alloc, columns, style, file, reading, found)
}

/// Reads an image file, and takes the index of its volumes.
fn index_image<H: Host>(
    host: &mut H,
    alloc: Global,
    columns: &Columns,
    style: &IndexStyle,
    name: &str,
    reading: ImageReading,
    found: Found,
) -> Result<Found, Ending>
    ensures { IndexesImage columns.now style.now reading name.now found.is_refused found.lines.items (H.history host.old) result (H.history host.new) }
{
    match look_image(host, alloc, name, reading) {
        Ok(file) => index_file(
            host,
            alloc,
            columns,
            style,
            name.as_bytes(),
            &file,
            reading.layout,
            reading.is_plain,
            found,
        ),
        Err(ending) => refuse_volume(host, alloc, name.as_bytes(), None, ending, found),
    }
}

/// Takes the index of the volumes in a file of these bytes.
fn index_file<H: Host>(
    host: &mut H,
    alloc: Global,
    columns: &Columns,
    style: &IndexStyle,
    name: &[u8],
    file: &[u8],
    layout: Option<Layout>,
    is_plain: bool,
    found: Found,
) -> Result<Found, Ending>
    ensures { IndexesVolumes columns.now style.now name.now (body_of layout is_plain file.now) (layouts_in layout is_plain file.now) found.is_refused found.lines.items (H.history host.old) result (H.history host.new) }
{
    if let Some(given) = layout {
        return index_alone(host, alloc, columns, style, name, file, Some(given), found);
    }
    let kind = judged_kind(is_plain, file);
    let bytes = body_in(kind, file);
    match kind {
        None => index_alone(host, alloc, columns, style, name, bytes, None, found),
        Some(kind) => index_form(host, alloc, columns, style, name, bytes, kind.form, found),
    }
}

/// Takes the index of the volumes in bytes of this form.
fn index_form<H: Host>(
    host: &mut H,
    alloc: Global,
    columns: &Columns,
    style: &IndexStyle,
    name: &[u8],
    bytes: &[u8],
    form: Form,
    found: Found,
) -> Result<Found, Ending>
    ensures { IndexesVolumes columns.now style.now name.now bytes.now (layouts_of form) found.is_refused found.lines.items (H.history host.old) result (H.history host.new) }
{
    match form {
        Form::Volume => index_alone(host, alloc, columns, style, name, bytes, None, found),
        Form::Dectape => index_alone(
            host,
            alloc,
            columns,
            style,
            name,
            bytes,
            Some(Layout::Dectape),
            found,
        ),
        Form::Disk => index_disk(host, alloc, columns, style, name, bytes, found),
    }
}

/// Takes the index of the one volume that lies so in bytes.
fn index_alone<H: Host>(
    host: &mut H,
    alloc: Global,
    columns: &Columns,
    style: &IndexStyle,
    name: &[u8],
    bytes: &[u8],
    layout: Option<Layout>,
    found: Found,
) -> Result<Found, Ending>
    ensures { IndexesVolumes columns.now style.now name.now bytes.now (layout ∷ []) found.is_refused found.lines.items (H.history host.old) result (H.history host.new) }
{
    let after = index_one(host, alloc, columns, style, name, bytes, layout, found)?;
    Ok(after)
}

/// Takes the index of both volumes of a disk.
fn index_disk<H: Host>(
    host: &mut H,
    alloc: Global,
    columns: &Columns,
    style: &IndexStyle,
    name: &[u8],
    bytes: &[u8],
    found: Found,
) -> Result<Found, Ending>
    ensures { IndexesVolumes columns.now style.now name.now bytes.now (layouts_of Disk) found.is_refused found.lines.items (H.history host.old) result (H.history host.new) }
{
    let first = index_one(
        host,
        alloc,
        columns,
        style,
        name,
        bytes,
        Some(Layout::First),
        found,
    )?;
    let second = index_one(
        host,
        alloc,
        columns,
        style,
        name,
        bytes,
        Some(Layout::Second),
        first,
    )?;
    Ok(second)
}

/// Takes the index of a volume that lies so in bytes.
fn index_one<H: Host>(
    host: &mut H,
    alloc: Global,
    columns: &Columns,
    style: &IndexStyle,
    name: &[u8],
    bytes: &[u8],
    layout: Option<Layout>,
    found: Found,
) -> Result<Found, Ending>
    ensures { IndexesVolume columns.now style.now name.now bytes.now layout found.is_refused found.lines.items (H.history host.old) result (H.history host.new) }
{
    let number = number_of(layout);
    match lines_of(host, alloc, style, name, bytes, layout) {
        Ok(lines) => take_lines(host, alloc, columns, &lines, found),
        Err(ending) => refuse_volume(host, alloc, name, number, ending, found),
    }
}

/// The lines of the volume that lies so in bytes. Where it is refused, what may help is printed.
fn lines_of<H: Host>(
    host: &mut H,
    alloc: Global,
    style: &IndexStyle,
    name: &[u8],
    bytes: &[u8],
    layout: Option<Layout>,
) -> Result<Vec<u8>, Ending>
    ensures { GivesIndex style.now name.now bytes.now layout (H.history host.old) result (H.history host.new) }
{
    match layout {
        None => match index_volume(alloc, style, name, None, bytes) {
            Ok(lines) => Ok(lines),
            Err(fault) => Err(refuse_image(host, bytes.len(), fault)),
        },
        Some(layout) => lines_at(host, alloc, style, name, bytes, layout),
    }
}

/// The lines of the volume that lies in bytes as in a disk or a DECtape.
fn lines_at<H: Host>(
    host: &mut H,
    alloc: Global,
    style: &IndexStyle,
    name: &[u8],
    bytes: &[u8],
    layout: Layout,
) -> Result<Vec<u8>, Ending>
    ensures { GivesIndex style.now name.now bytes.now (Some layout) (H.history host.old) result (H.history host.new) }
{
    let image = volume_at(alloc, bytes, layout)?;
    match index_volume(alloc, style, name, number_of(Some(layout)), &image) {
        Ok(lines) => Ok(lines),
        Err(fault) => Err(refuse_image(host, image.len(), fault)),
    }
}

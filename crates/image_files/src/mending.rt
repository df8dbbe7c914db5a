//! How image files are read that may have faults. Those are mended in memory, and no file changes.
ghost use Rattle.std.specs.Prelude.{◌≡◌, ℕ, List};
ghost use Rattle.hosts.specs.Streams.{output, changes_at};
ghost use Rattle.image_files.specs.Mending.{Mends, TellsLines};
ghost use Rattle.image_files.specs.Reading.{LooksIf, LooksImage, LooksLeniently, file_named, reading_named, reading_of};

use crate::judging::judge_file;
use crate::notes::tell;
use crate::reading::look_file;
use disk_layouts::Layout;
use hosts::Host;
use image_kind::{MendedFile, mend_file, mended_text};
use outcome::Ending;
use program_tasks::{ImageForm, volume_named};
use std::alloc::Global;

/// How image files are read.
#[derive(Clone, Copy, PartialEq, Eq, Debug)]
pub struct ImageReading {
    /// Where the volume lies in each, if that is given.
    pub layout: Option<Layout>,

    /// Whether each is one volume from its first byte.
    pub is_plain: bool,

    /// Whether the faults of a file are mended in memory.
    pub is_lenient: bool,
}

impl ImageReading {
    /// How the image file that is asked for is read.
    pub fn of(form: &ImageForm) -> ImageReading
        ensures { result ≡ reading_of form.now }
    {
        ImageReading {
            layout: form.layout,
            is_plain: form.is_plain,
            is_lenient: form.is_lenient,
        }
    }
}

/// The image file that a name means where images are read so, and how it is read: the name may say which volume is meant (this project's
/// profile).
pub fn image_named(reading: ImageReading, name: &str) -> (&str, ImageReading)
    ensures file { result.0.now ≡ file_named reading name.now }
    ensures reading { result.1 ≡ reading_named reading name.now }
{
    let (file, layout) = volume_named(reading.layout, name);
    let ImageReading {
        layout: _,
        is_plain,
        is_lenient,
    } = reading;
    (
        file,
        ImageReading {
            layout,
            is_plain,
            is_lenient,
        },
    )
}

/// The bytes of an image file that is only looked at. Where that is asked for its faults are mended in memory, and each is printed on
/// standard error. One that may be read in two ways is refused. No file changes, and standard output gets nothing (this project's profile).
pub fn look_image<H: Host>(
    host: &mut H,
    alloc: Global,
    name: &str,
    reading: ImageReading,
) -> Result<Vec<u8>, Ending>
    ensures looks { LooksImage reading name.now (H.history host.old) result (H.history host.new) }
    ensures files { (path : List ℕ) → changes_at path (H.history host.new) ≡ changes_at path (H.history host.old) }
    ensures output { output (H.history host.new) ≡ output (H.history host.old) }
{
    let file = look_if(host, alloc, name, reading)?;
    judge_file(host, alloc, name, reading.layout, reading.is_plain, &file)?;
    Ok(file)
}

/// The bytes of an image file, with its faults mended where that is asked for.
fn look_if<H: Host>(
    host: &mut H,
    alloc: Global,
    name: &str,
    reading: ImageReading,
) -> Result<Vec<u8>, Ending>
    ensures { LooksIf reading.is_lenient reading.layout reading.is_plain name.now (H.history host.old) result (H.history host.new) }
{
    if reading.is_lenient {
        return look_leniently(host, alloc, name, reading.layout, reading.is_plain);
    }
    look_file(host, alloc, name)
}

/// The bytes of an image file with its faults mended.
fn look_leniently<H: Host>(
    host: &mut H,
    alloc: Global,
    name: &str,
    given: Option<Layout>,
    is_plain: bool,
) -> Result<Vec<u8>, Ending>
    ensures { LooksLeniently given is_plain name.now (H.history host.old) result (H.history host.new) }
{
    let file = look_file(host, alloc, name)?;
    mended_bytes(host, alloc, name, given, is_plain, file)
}

/// The bytes of a mended file, of which each fault is printed.
fn mended_bytes<H: Host>(
    host: &mut H,
    alloc: Global,
    name: &str,
    given: Option<Layout>,
    is_plain: bool,
    file: Vec<u8>,
) -> Result<Vec<u8>, Ending>
    ensures { Mends given is_plain name.now file.items (H.history host.old) result (H.history host.new) }
{
    let it = mend_file(alloc, given, is_plain, file)?;
    let lines = mended_text(alloc, name, &it)?;
    tell_lines(host, lines.as_str());
    let MendedFile {
        bytes,
        wide: _,
        zeros: _,
        cut: _,
    } = it;
    Ok(bytes)
}

/// Prints lines on standard error, if there are any.
fn tell_lines<H: Host>(host: &mut H, lines: &str)
    ensures { TellsLines lines.now (H.history host.old) (H.history host.new) }
{
    match lines.as_bytes() {
        [] => {}
        [_, ..] => tell(host, lines),
    }
}

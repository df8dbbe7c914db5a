//! How the lines of an index are printed, and its columns at a terminal.
ghost use Rattle.std.specs.Prelude.{◌≡◌, ◌∷◌, [], IfOk, map};
ghost use Rattle.index_commands.specs.Columns.{ChoosesColumns, Shows, longest};
ghost use Rattle.index_commands.specs.Columns as spec;

use crate::aligning::align;
use hosts::{Host, Stream};
use image_files::print;
use outcome::Ending;
use std::alloc::{AllocError, Global};
use volume_index::json_lines;

/// How wide the columns after the image's name are: a volume's number, a block, a length, a name, a date, and what a file holds.
const WIDTHS: [usize; 6] = [1, 4, 4, 9, 10, 10];

/// Which lines of an index are printed, and how.
#[derive(Clone, Copy, PartialEq, Eq, Debug)]
pub struct LineShape {
    /// Whether each is a JSON object (RFC 8259).
    pub is_json: bool,

    /// Whether only those of equal files are printed, when the lines of all images are known.
    pub is_same: bool,
}

/// How the lines are printed, whether their columns line up, and how wide they are then.
#[derive(Drop)]
pub struct Columns {
    pub shape: LineShape,
    pub are_aligned: bool,
    pub widths: Vec<usize>,
}

impl Columns {
    /// Those of an index of so many images: they line up at a terminal, where the lines are no objects.
    pub(crate) fn choose<H: Host>(
        host: &mut H,
        alloc: Global,
        shape: LineShape,
        images: &[String],
    ) -> Result<Columns, Ending>
        ensures { ChoosesColumns shape (map (λ image. image.bytes.items) images.now) (H.history host.old) result (H.history host.new) }
    {
        let is_terminal = host.is_terminal(Stream::Output);
        let are_aligned = is_terminal && !shape.is_json;
        let widths = widths_of(alloc, images)?;
        Ok(Columns {
            shape,
            are_aligned,
            widths,
        })
    }

    /// Prints lines as objects, or with columns that line up, where that is chosen.
    pub(crate) fn print<H: Host>(
        &self,
        host: &mut H,
        alloc: Global,
        lines: &[u8],
    ) -> Result<(), Ending>
        ensures { Shows self.now lines.now (H.history host.old) result (H.history host.new) }
    {
        if self.shape.is_json {
            let text = json_lines(alloc, lines)?;
            return print(host, &text);
        }
        if self.are_aligned {
            let text = align(alloc, lines, &self.widths)?;
            return print(host, &text);
        }
        print(host, lines)
    }
}

/// The widths of the columns of these images.
fn widths_of(alloc: Global, images: &[String]) -> Result<Vec<usize>, AllocError>
    ensures { IfOk result (λ widths. widths.items ≡ spec.widths_of (map (λ image. image.bytes.items) images.now)) }
{
    let mut widths = Vec::new(alloc);
    widths.push(longest(images))?;
    widths.extend_from_slice(&WIDTHS)?;
    Ok(widths)
}

/// How many bytes the longest name has.
fn longest(images: &[String]) -> usize
    ensures { result ≡ longest (map (λ image. image.bytes.items) images.now) }
{
    let mut most = 0;
    let mut rest = images;
    while let [image, others @ ..] = rest {
        most = larger(most, image.len());
        rest = others;
    }
    most
}

/// The larger of two.
fn larger(a: usize, b: usize) -> usize
    ensures { result ≡ spec.larger a b }
{
    if a < b { b } else { a }
}

//! What an index has so far, beside the lines that are printed.
ghost use Rattle.std.specs.Prelude.{◌≡◌, false, true, [], OnOk};
ghost use Rattle.index_commands.specs.Found.{FindsSame, KeepsLines, ShowsGroups, ShowsSame, TakesLines};

use crate::columns::Columns;
use hosts::Host;
use image_files::part_after;
use outcome::Ending;
use std::alloc::Global;
use volume_index::same_lines;

/// What an index has so far, beside the lines that are printed.
#[derive(Drop)]
pub struct Found {
    /// Whether a volume is refused.
    pub is_refused: bool,

    /// The lines that wait until all are known.
    pub lines: Vec<u8>,
}

impl Found {
    /// That of no image.
    pub(crate) fn none(alloc: Global) -> Found
        ensures refused { result.is_refused ≡ false }
        ensures lines { result.lines.items ≡ [] }
    {
        Found {
            is_refused: false,
            lines: Vec::new(alloc),
        }
    }

    /// The same with a volume that is refused.
    pub(crate) fn with_refusal(self) -> Found
        ensures refused { result.is_refused ≡ true }
        ensures lines { result.lines.items ≡ self.lines.items }
    {
        Found {
            is_refused: true,
            lines: self.lines,
        }
    }

    /// The same with lines that wait.
    fn with_lines(self, lines: &[u8]) -> Result<Found, Ending>
        ensures { KeepsLines self.is_refused self.lines.items lines.now result }
    {
        let Found {
            is_refused,
            lines: kept,
        } = self;
        let mut all = kept;
        all.extend_from_slice(lines)?;
        Ok(Found {
            is_refused,
            lines: all,
        })
    }
}

/// Prints the lines of a volume; or they wait, where those of equal files are wanted.
pub(crate) fn take_lines<H: Host>(
    host: &mut H,
    alloc: Global,
    columns: &Columns,
    lines: &[u8],
    found: Found,
) -> Result<Found, Ending>
    ensures { TakesLines columns.now.shape.is_same columns.now found.is_refused found.lines.items lines.now (H.history host.old) result (H.history host.new) }
{
    if columns.shape.is_same {
        return found.with_lines(lines);
    }
    part_after(!found.is_refused, columns.print(host, alloc, lines))?;
    Ok(found)
}

/// Prints those of the lines that waited which are of equal files, where these are wanted.
pub(crate) fn print_same<H: Host>(
    host: &mut H,
    alloc: Global,
    columns: &Columns,
    lines: &[u8],
) -> Result<(), Ending>
    ensures { ShowsSame columns.now.shape.is_same columns.now lines.now (H.history host.old) result (H.history host.new) }
{
    if columns.shape.is_same {
        return print_groups(host, alloc, columns, lines);
    }
    Ok(())
}

/// Prints those of these lines which are of equal files.
fn print_groups<H: Host>(
    host: &mut H,
    alloc: Global,
    columns: &Columns,
    lines: &[u8],
) -> Result<(), Ending>
    ensures { ShowsGroups columns.now lines.now (H.history host.old) result (H.history host.new) }
{
    let same = same_in(alloc, lines)?;
    columns.print(host, alloc, &same)
}

/// The lines of equal files among these.
fn same_in(alloc: Global, lines: &[u8]) -> Result<Vec<u8>, Ending>
    ensures { FindsSame lines.now result }
{
    let same = same_lines(alloc, lines)?;
    Ok(same)
}

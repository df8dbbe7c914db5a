//! Where a byte stands in its line.
ghost use Rattle.std.specs.Prelude.{◌≡◌, ◌≤◌, ◌+◌, ◌<◌};
ghost use Rattle.index_commands.specs.TextColumns.{cells_after, goes_on, places_after};

/// Stands between two cells.
pub(crate) const TAB: u8 = 0o011;

/// Ends a line.
const LF: u8 = 0o012;

/// How many cells of its line are before the next byte, after so many and this one.
pub(crate) fn cells_after(cells: usize, byte: u8) -> usize
    requires { cells < 0xffff_ffff_ffff_ffff }
    ensures is { result ≡ cells_after cells byte }
    ensures within { result ≤ cells + 1 }
{
    match byte {
        TAB => cells + 1,
        LF => 0,
        _ => cells,
    }
}

/// How many places of a terminal the next byte's cell has taken, after so many and this byte.
pub(crate) fn places_after(places: usize, byte: u8) -> usize
    requires { places < 0xffff_ffff_ffff_ffff }
    ensures is { result ≡ places_after places byte }
    ensures within { result ≤ places + 1 }
{
    match byte {
        TAB => 0,
        LF => 0,
        _ if goes_on(byte) => places,
        _ => places + 1,
    }
}

/// Whether a byte goes on a character of several.
fn goes_on(byte: u8) -> bool
    ensures { result ≡ goes_on byte }
{
    byte / 0o100 == 2
}

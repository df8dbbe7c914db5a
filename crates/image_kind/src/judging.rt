//! What a file is taken for, and whether new bytes of it are taken for the same.
ghost use Rattle.std.specs.Prelude.{◌≡◌};
ghost use Rattle.image_kind.specs.Judging as judging;
ghost use Rattle.image_kind.specs.Keeping as spec;

use crate::margins::{Margins, margins_with, may_be};
use crate::volumes::{Volumes, volumes_with};
use crate::{ImageKind, Readings, kind_of, readings_of};
use disk_layouts::Layout;

/// What a file was taken for when it was read.
#[derive(Clone, Copy, PartialEq, Eq, Debug)]
pub struct Judgment {
    /// Where its volume lies, if that is given.
    pub layout: Option<Layout>,

    /// Whether it is taken as one volume from its first byte.
    pub is_plain: bool,

    /// Its kind, if it is known.
    pub kind: Option<ImageKind>,
}

/// What a file is taken for. Nothing is judged where it is taken as one volume from its first byte (this project's profile).
pub fn judged_kind(is_plain: bool, file: &[u8]) -> Option<ImageKind>
    ensures { result ≡ judging.judged_kind is_plain file.now }
{
    if is_plain {
        return None;
    }
    kind_of(file)
}

/// The two that a file may be read as, if it has no one reading at the layout that is given. A plain volume has one (this project's profile).
pub fn two_readings(
    given: Option<Layout>,
    is_plain: bool,
    file: &[u8],
) -> Option<(ImageKind, ImageKind)>
    ensures { result ≡ spec.two_readings given is_plain file.now }
{
    if is_plain {
        return None;
    }
    two_of(given, readings_of(file))
}

/// Both readings, if the file may be read at the layout that is given as the second too.
fn two_of(given: Option<Layout>, readings: Readings) -> Option<(ImageKind, ImageKind)>
    ensures { result ≡ spec.two_of given readings }
{
    let one = readings.first?;
    let other = readings.other?;
    if may_be(given, other.form) {
        return Some((one, other));
    }
    None
}

/// Whether a file with these bytes is read as it was, and in no other way: the same volumes are meant, in the same place (this project's
/// profile).
pub fn keeps_kind(judgment: Judgment, file: &[u8]) -> bool
    ensures { result ≡ spec.keeps_kind judgment file.now }
{
    let Judgment {
        layout: given,
        is_plain,
        kind,
    } = judgment;
    is_same_reading(given, kind, judged_kind(is_plain, file))
        && two_readings(given, is_plain, file).is_none()
}

/// Whether the same volumes are meant in files of these two kinds, in the same place.
fn is_same_reading(given: Option<Layout>, one: Option<ImageKind>, other: Option<ImageKind>) -> bool
    ensures { result ≡ spec.is_same_reading given one other }
{
    number_of(volumes_with(given, one)) == number_of(volumes_with(given, other))
        && is_same_place(margins_with(given, one), margins_with(given, other))
}

/// Whether two margins are the same.
fn is_same_place(one: Margins, other: Margins) -> bool
    ensures { result ≡ spec.is_same_place one other }
{
    one.before == other.before && one.after == other.after
}

/// Which volumes are meant, as a number.
fn number_of(volumes: Volumes) -> u8
    ensures { result ≡ spec.number_of volumes }
{
    match volumes {
        Volumes::One(None) => 0,
        Volumes::One(Some(Layout::First)) => 1,
        Volumes::One(Some(Layout::Second)) => 2,
        Volumes::One(Some(Layout::Dectape)) => 3,
        Volumes::Both => 4,
    }
}

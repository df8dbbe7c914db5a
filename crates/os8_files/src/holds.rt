//! The list of holds.
ghost use Rattle.std.specs.Prelude.{◌≡◌, ◌≤◌, length, OnOk, OnErr};
ghost use Rattle.os8_files.specs.Holds.{with_hold};
ghost use Rattle.os8_files.specs.Steps.{place_of as place_among, first_of as first_among};

use os8_dir::Name;
use std::alloc::AllocError;

/// Adds a hold of a name in its place. Where there is no memory for it the list is as before.
pub(crate) fn add_hold(holds: &mut Vec<Name>, name: Name) -> Result<(), AllocError>
    ensures ok { OnOk result (holds.new.items ≡ with_hold name holds.old.items) }
    ensures err { OnErr result (holds.new.items ≡ holds.old.items) }
{
    let place = place_of(holds, name);
    holds.insert(place, name)?;
    Ok(())
}

/// How many holds of lower names the list begins with.
fn place_of(holds: &[Name], name: Name) -> usize
    ensures value { result ≡ place_among name holds.now }
    ensures range { result ≤ length holds.now }
{
    match holds {
        [] => 0,
        [held, following @ ..] => {
            if *held < name {
                1 + place_of(following, name)
            } else {
                0
            }
        }
    }
}

/// How many holds stand before the first of a name; all where there is none.
pub(crate) fn first_of(holds: &[Name], name: Name) -> usize
    ensures value { result ≡ first_among name holds.now }
    ensures range { result ≤ length holds.now }
{
    match holds {
        [] => 0,
        [held, following @ ..] => {
            if *held == name {
                0
            } else {
                1 + first_of(following, name)
            }
        }
    }
}

//! A drive, and how its functions begin and end.

ghost use Rattle.std.specs.Prelude.{◌≡◌, ◌≤◌};
ghost use Rattle.rk8e.specs.State.{new_drive, with_lock, at_rest, cleared_drive};
ghost use Rattle.rk8e.specs.Go.{arm_time, begin_on, distance, with_function};
ghost use Rattle.rk8e.specs.Time.{drive_after, is_over};
ghost use Rattle.rk8e.specs.Transfer.{core_after, end_on, pack_after};

use crate::controls::{Control, IS_DONE, LOCK_ERROR, NOT_READY, is_write};
use crate::{Moved, Pack};
use core_load::Core;
use std::marker::Model;

/// The cylinder with the greatest number.
const LAST_CYLINDER: u8 = 202;

/// The instructions that a seek takes at least.
const LEAST_SEEK: u32 = 10;

/// A drive: its pack, its lock, its arm, and the function under way.
#[derive(Drop)]
pub(crate) struct Drive {
    pub(crate) pack: Option<Pack>,
    pub(crate) is_locked: bool,
    pub(crate) cylinder: u8,
    pub(crate) function: u8,
    pub(crate) time_left: Option<u32>,
}

impl Model for Drive {
    ghost use Rattle.rk8e.specs.State.{DriveState};

    ghost Value = { DriveState };

    ghost view = { λ d. record {
      pack = d.pack;
      locked = d.is_locked;
      cylinder = d.cylinder;
      function = d.function;
      time_left = d.time_left;
    } };
}

impl Drive {
    /// A drive at rest, with no pack.
    pub(crate) fn new() -> Drive
        ensures { result ≡ new_drive }
    {
        Drive {
            pack: None,
            is_locked: false,
            cylinder: 0,
            function: 0,
            time_left: None,
        }
    }

    /// The drive is locked.
    pub(crate) fn lock(&mut self)
        ensures { self.new ≡ with_lock self.old }
    {
        self.is_locked = true;
    }

    /// No function is under way any more.
    pub(crate) fn rest(&mut self)
        ensures { self.new ≡ at_rest self.old }
    {
        self.time_left = None;
    }

    /// The arm goes to cylinder 0, and no function is under way any more.
    pub(crate) fn clear(&mut self)
        ensures { self.new ≡ cleared_drive self.old }
    {
        self.cylinder = 0;
        self.time_left = None;
    }

    /// So many instructions pass.
    pub(crate) fn pass(&mut self, count: u32)
        ensures { self.new ≡ drive_after count self.old }
    {
        if let Some(time) = self.time_left {
            self.time_left = Some(time.saturating_sub(count));
        }
    }

    /// Whether the function under way ends now.
    fn is_over(&self) -> bool
        ensures { result ≡ is_over self.now.time_left }
    {
        match self.time_left {
            Some(time) => time == 0,
            None => false,
        }
    }

    /// A function is under way.
    fn begin(&mut self, function: u8, cylinder: u8, time: u32)
        ensures { self.new ≡ with_function self.old function cylinder time }
    {
        self.function = function;
        self.cylinder = cylinder;
        self.time_left = Some(time);
    }
}

/// How many cylinders lie between two.
fn distance(a: u8, b: u8) -> u32
    ensures value { result ≡ distance a b }
    ensures range { result ≤ 255 }
{
    u32::from(if a < b { b - a } else { a - b })
}

/// How long the arm takes to a cylinder.
fn arm_time(control: &Control, drive: &Drive, cylinder: u8) -> u32
    ensures value { result ≡ arm_time control.now drive.now cylinder }
    ensures range { result ≤ 255000000 }
{
    control.seek_time * distance(drive.cylinder, cylinder)
}

/// A function begins on the drive, or is refused.
#[tactic(auto, unfolding(crate::specs::Go::begin_on))]
pub(crate) fn begin(control: &mut Control, drive: &mut Drive, function: u8, cylinder: u8)
    ensures control { control.new ≡ (begin_on control.old drive.old function cylinder).0 }
    ensures drive { drive.new ≡ (begin_on control.old drive.old function cylinder).1 }
{
    if drive.pack.is_none() || drive.time_left.is_some() || cylinder > LAST_CYLINDER {
        control.set_status(IS_DONE + NOT_READY);
        return;
    }
    if is_write(function) && drive.is_locked {
        control.set_status(IS_DONE + LOCK_ERROR);
        return;
    }
    if function == 2 {
        drive.lock();
        control.set_status(IS_DONE);
        return;
    }
    let time = arm_time(control, drive, cylinder);
    if function == 3 {
        drive.begin(function, cylinder, time.max(LEAST_SEEK));
        control.set_status(IS_DONE);
        return;
    }
    drive.begin(function, cylinder, time + control.disk_time);
    control.is_busy = true;
}

/// The function of the drive of this number ends, if no time is left of it.
#[tactic(auto, unfolding(crate::specs::Transfer::end_on))]
pub(crate) fn end_on(
    control: &mut Control,
    number: u8,
    drive: &mut Drive,
    core: &mut Core,
) -> Option<Moved>
    ensures control { control.new ≡ (end_on control.old number drive.old core.old).control }
    ensures drive { drive.new ≡ (end_on control.old number drive.old core.old).drive }
    ensures core { core.new ≡ (end_on control.old number drive.old core.old).core }
    ensures moved { result ≡ (end_on control.old number drive.old core.old).moved }
{
    if !drive.is_over() {
        return None;
    }
    drive.rest();
    if drive.function == 3 {
        control.end_seek(number);
        return None;
    }
    let moved = control.transfer(drive.function);
    move_words(control, drive.function, &mut drive.pack, core);
    control.end_transfer();
    moved
}

/// The words of a transfer move.
fn move_words(control: &Control, function: u8, pack: &mut Option<Pack>, core: &mut Core)
    ensures pack { pack.new ≡ pack_after control.now function pack.old core.old }
    ensures core { core.new ≡ core_after control.now function pack.old core.old }
{
    match pack {
        Some(pack) => {
            if is_write(function) {
                pack.write_sector(control, core);
            } else if function <= 1 {
                pack.read_sector(control, core);
            }
        }
        None => {}
    }
}

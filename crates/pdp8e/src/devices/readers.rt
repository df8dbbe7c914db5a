//! The reader of paper tape.

ghost use Rattle.std.specs.Prelude.{◌≡◌, is_some, Some, false, true};
ghost use Rattle.pdp8e.specs.Devices.{new_reader, reader_cleared, reader_ended, first_frame, other_frames, frame_on, rest_of};

use std::collections::VecDeque;
use std::marker::Model;

/// The frames of a tape that are still to be read. A contract sees the list of them.
#[derive(Drop)]
pub(super) struct Tape {
    frames: VecDeque<u8>,
}

impl Model for Tape {
    ghost use Rattle.std.specs.Prelude.{ℕ, List};

    ghost Value = { List ℕ };

    ghost view = { λ t. t.frames.items };
}

impl Tape {
    /// A tape of these frames.
    fn new(frames: Vec<u8>) -> Tape
        ensures { result ≡ frames.items }
    {
        Tape {
            frames: VecDeque::from_vec(frames),
        }
    }

    /// Whether a frame is left.
    fn has_frame(&self) -> bool
        ensures { result ≡ is_some (first_frame self.now) }
    {
        !self.frames.is_empty()
    }

    /// Takes the next frame, if one is left.
    fn take_frame(&mut self) -> Option<u8>
        ensures frame { result ≡ first_frame self.old }
        ensures others { self.new ≡ other_frames self.old }
    {
        self.frames.pop_front()
    }
}

/// The reader: its tape, whether a frame is asked for, its buffer and its flag.
#[derive(Drop)]
pub(super) struct Reader {
    tape: Option<Tape>,
    pub(super) is_asked: bool,
    pub(super) buffer: u8,
    pub(super) flag: bool,
}

impl Model for Reader {
    ghost use Rattle.pdp8e.specs.Devices.{ReaderState};

    ghost Value = { ReaderState };

    ghost view = { λ r. record {
      tape = r.tape;
      asked = r.is_asked;
      buffer = r.buffer;
      flag = r.flag;
    } };
}

impl Reader {
    /// A reader without a tape.
    pub(super) fn new() -> Reader
        ensures { result ≡ new_reader }
    {
        Reader {
            tape: None,
            is_asked: false,
            buffer: 0,
            flag: false,
        }
    }

    /// A tape of these frames is put into it.
    pub(super) fn put_tape(&mut self, frames: Vec<u8>)
        ensures { self.new ≡ record self.old { tape = Some frames.items } }
    {
        self.tape = Some(Tape::new(frames));
    }

    /// Buffer and flag become 0, and a frame that was asked for doesn't come. The tape stays where it is.
    pub(super) fn clear(&mut self)
        ensures { self.new ≡ reader_cleared self.old }
    {
        self.is_asked = false;
        self.buffer = 0;
        self.flag = false;
    }

    /// The next frame is asked for, and the flag becomes 0.
    pub(super) fn ask(&mut self)
        ensures { self.new ≡ record self.old { asked = true; flag = false } }
    {
        self.is_asked = true;
        self.flag = false;
    }

    /// A frame that was asked for comes, if the tape has one.
    pub(super) fn end(&mut self)
        ensures { self.new ≡ reader_ended self.old }
    {
        if !self.is_asked {
            return;
        }
        self.is_asked = false;
        if let Some(frame) = frame_of(&mut self.tape) {
            self.buffer = frame;
            self.flag = true;
        }
    }

    /// Whether the flag is 1 after the beginning of the next step.
    pub(super) fn will_flag(&self) -> bool
        ensures { result ≡ (reader_ended self.now).flag }
    {
        self.flag || (self.is_asked && has_frame(&self.tape))
    }
}

/// Takes the next frame of a tape, if there is one.
fn frame_of(tape: &mut Option<Tape>) -> Option<u8>
    ensures frame { result ≡ frame_on tape.old }
    ensures others { tape.new ≡ rest_of tape.old }
{
    match tape {
        Some(tape) => tape.take_frame(),
        None => None,
    }
}

/// Whether a frame is left on a tape.
fn has_frame(tape: &Option<Tape>) -> bool
    ensures { result ≡ is_some (frame_on tape.now) }
{
    match tape {
        Some(tape) => tape.has_frame(),
        None => false,
    }
}

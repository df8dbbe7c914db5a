ghost use Rattle.std.specs.Prelude.{◌≡◌, ℕ, ◌%◌, ◌≤◌, length, List, [], ◌∷◌, ◌++◌, nat_eq, if◌then◌else◌, ◌≢◌, MatchResult};
ghost use Rattle.std.specs.Bool.{OnTrue};
ghost use Rattle.bin_tape.specs.Frames.{heeded_frames, ignore_count};
ghost use Rattle.bin_tape.specs.Items.{Item};
ghost use Rattle.bin_tape.specs.Fault.{IsFault};
ghost use Rattle.bin_tape.specs.Prefix.{ReadsItems};

use crate::TapeFault;
use crate::prefixes::{Prefix, Taken};
use std::marker::Model;
use word12::{Cell, Word};

/// What a frame brings.
#[derive(Clone, Copy, PartialEq, Eq, Debug)]
pub enum Tape {
    Nothing,
    /// A word for a cell: the last one but one, which a later word shows to be no check sum.
    Word(Cell, Word),
    /// The trailer: the frames are a tape.
    End,
}

impl Tape {
    ghost use Rattle.bin_tape.specs.Handed.{word_in};

    /// The word that is handed out, with its cell.
    #[inline]
    pub fn word(self) -> Option<(Cell, Word)>
        ensures { result ≡ word_in self }
    {
        match self {
            Tape::Word(cell, word) => Some((cell, word)),
            Tape::Nothing => None,
            Tape::End => None,
        }
    }
}

#[derive(Clone, Copy)]
enum State {
    Reading(Prefix),
    Ended,
    Failed(TapeFault),
}

/// A frame that begins or ends a stretch that is ignored.
const IGNORE: u8 = 0o377;

/// Reads a tape frame by frame, and takes no memory. A copy goes on from where it was made.
#[derive(Clone, Copy)]
pub struct TapeReader {
    place: u64,
    ignoring: bool,
    state: State,
}

impl Model for TapeReader {
    ghost use Rattle.bin_tape.specs.Progress.{Progress};

    ghost Value = { Progress };

    ghost view = { λ r. record {
      place = r.place;
      ignoring = r.ignoring;
      state = r.state;
    } };

    ghost inverse = { λ p. record {
      place = p.place;
      ignoring = p.ignoring;
      state = p.state;
    } };
}

impl TapeReader {
    ghost use Rattle.bin_tape.specs.Reading.{HasRead, Counts, Answers, IsWhole, words_in};
    ghost use Rattle.bin_tape.specs.ReadSteps.{AnswersFrame};
    ghost use Rattle.bin_tape.specs.Map.{IsTable};
    ghost use Rattle.bin_tape.specs.MapSteps.{HasReadTo};

    /// A reader of no frame.
    pub fn new() -> TapeReader
        ensures { HasRead result [] [] }
    {
        TapeReader {
            place: 0,
            ignoring: false,
            state: State::Reading(Prefix::new()),
        }
    }

    /// Takes the next frame. A word is handed out once a later word shows that it is no check sum.
    ///
    /// For the frame that closes what may be a tape the answer is its fault, and for each later frame the same. After the end
    /// the answer for each frame is `Nothing`.
    pub fn push(&mut self, frame: u8) -> Result<Tape, TapeFault>
        ensures read { (frames : List ℕ) (out : List (ℕ × ℕ)) → HasRead self.old frames out
            → HasRead self.new (frames ++ frame ∷ []) (out ++ words_in result) }
        ensures answer { (frames : List ℕ) (out : List (ℕ × ℕ)) → HasRead self.old frames out
            → Answers frames out frame result }
    {
        let place = self.place;
        let kept = self.count(frame);
        match self.state {
            State::Failed(fault) => Err(fault),
            State::Ended => Ok(Tape::Nothing),
            State::Reading(prefix) => {
                if kept {
                    self.take(prefix, frame, place)
                } else {
                    Ok(Tape::Nothing)
                }
            }
        }
    }

    /// Whether the frames so far are a tape.
    pub fn end(&self) -> Result<(), TapeFault>
        ensures { (frames : List ℕ) (out : List (ℕ × ℕ)) → HasRead self.now frames out
            → MatchResult result (λ _. IsWhole frames out) (λ fault. IsFault frames fault) }
    {
        match self.state {
            State::Reading(_) => Err(TapeFault::NoTrailer),
            State::Ended => Ok(()),
            State::Failed(fault) => Err(fault),
        }
    }

    /// Takes words and origins from the beginning of these frames, and answers the frames that are left. Each word is put into
    /// its cell once a later one shows that it is no check sum.
    pub(crate) fn take_pairs<'a>(
        &mut self,
        frames: &'a [u8],
        words: &mut [Option<Word>],
    ) -> &'a [u8]
        requires { IsTable words.old }
        ensures read { (whole : List ℕ) → HasReadTo whole frames.now self.old words.old
            → HasReadTo whole result.now self.new words.new }
        ensures left { length result.now ≤ length frames.now }
    {
        if self.ignoring {
            return frames;
        }
        match self.state {
            State::Failed(_) | State::Ended => frames,
            State::Reading(mut prefix) => {
                if !prefix.is_between_pairs() {
                    return frames;
                }
                let rest = prefix.take_pairs(frames, words);
                self.place = self
                    .place
                    .saturating_add((frames.len() - rest.len()) as u64);
                self.state = State::Reading(prefix);
                rest
            }
        }
    }

    /// Counts a frame, and answers whether it is heeded.
    fn count(&mut self, frame: u8) -> bool
        ensures counts { (frames : List ℕ) → Counts self.old.place self.old.ignoring frames
            → Counts self.new.place self.new.ignoring (frames ++ frame ∷ []) }
        ensures kept { (frames : List ℕ) → Counts self.old.place self.old.ignoring frames
            → heeded_frames (frames ++ frame ∷ []) ≡ heeded_frames frames ++ (if result then frame ∷ [] else []) }
        ensures is_kept { OnTrue result ((frame ≢ 0o377) × ((frames : List ℕ)
            → Counts self.old.place self.old.ignoring frames → ignore_count frames % 2 ≡ 0)) }
        ensures same { self.new.state ≡ self.old.state }
    {
        self.place = self.place.saturating_add(1);
        if frame == IGNORE {
            self.ignoring = !self.ignoring;
            return false;
        }
        !self.ignoring
    }

    /// Takes a heeded frame after a prefix.
    fn take(&mut self, prefix: Prefix, frame: u8, place: u64) -> Result<Tape, TapeFault>
        requires { frame ≢ 0o377 }
        ensures comes { (items : List Item) (part : List ℕ) → ReadsItems prefix items part
            → AnswersFrame items part frame place result self.new.state }
        ensures same { self.new ≡ record self.old { state = self.new.state } }
    {
        match prefix.take(frame, place) {
            Ok(Taken::More(later)) => {
                self.state = State::Reading(later);
                Ok(Tape::Nothing)
            }
            Ok(Taken::Handed(later, cell, word)) => {
                self.state = State::Reading(later);
                Ok(Tape::Word(cell, word))
            }
            Ok(Taken::End) => {
                self.state = State::Ended;
                Ok(Tape::End)
            }
            Err(fault) => {
                let again = fault;
                self.state = State::Failed(fault);
                Err(again)
            }
        }
    }
}

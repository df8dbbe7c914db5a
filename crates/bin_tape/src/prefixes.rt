ghost use Rattle.std.specs.Prelude.{◌≡◌, ◌≢◌, ℕ, ◌+◌, ◌*◌, ◌<◌, ◌≤◌, ◌↔◌, List, [], ◌∷◌, None, true, length};
ghost use Rattle.std.specs.Bool.{MatchBool};
ghost use Rattle.bin_tape.specs.Items as item;
ghost use Rattle.bin_tape.specs.Items.{Item, Leader, Field, Origin, IsPrefix, has_origin};
ghost use Rattle.bin_tape.specs.Tape.{IsPart};
ghost use Rattle.bin_tape.specs.Prefix.{ReadsItems, IsLast};
ghost use Rattle.bin_tape.specs.PrefixSteps.{TakesFrame, TakesWord};
ghost use Rattle.bin_tape.specs.Map.{IsTable};
ghost use Rattle.bin_tape.specs.MapSteps.{HoldsWords, ReadsTo};
ghost use Rattle.bin_tape.specs.Items.{words_of, words_but_last};

use crate::TapeFault;
use word12::{Cell, Word};

/// What a reader keeps of the heeded frames so far.
#[derive(Clone, Copy)]
pub struct Prefix {
    /// The cell of the next word.
    next: Cell,
    /// The origin and word frames, added up.
    sum: Word,
    has_origin: bool,
    /// Whether the newest item is a word.
    ends_in_word: bool,
    last: Option<LastWord>,
    /// The first frame of a pair.
    first: Option<u8>,
}

/// The last word, which may turn out to be the check sum.
#[derive(Clone, Copy)]
pub struct LastWord {
    cell: Cell,
    word: Word,
    /// The origin and word frames before it, added up.
    sum: Word,
}

/// What a heeded frame gives.
pub enum Taken {
    More(Prefix),
    /// The same, and the word before the newest one is no check sum.
    Handed(Prefix, Cell, Word),
    End,
}

impl Prefix {
    /// The prefix of no frame.
    pub fn new() -> Prefix
        ensures { ReadsItems result [] [] }
    {
        Prefix {
            next: Cell::at(0, Word::ZERO),
            sum: Word::ZERO,
            has_origin: false,
            ends_in_word: false,
            last: None,
            first: None,
        }
    }

    /// Takes a heeded frame, which stands at this place.
    pub fn take(self, frame: u8, place: u64) -> Result<Taken, TapeFault>
        requires { frame ≢ 0o377 }
        ensures { (items : List Item) (part : List ℕ) → ReadsItems self items part
            → TakesFrame items part frame place result }
    {
        match self.first {
            Some(first) => self.take_second(first, frame, place),
            None => self.take_first(frame, place),
        }
    }

    /// Whether the frame that comes next may begin a word: there is an origin, and no pair is begun.
    #[inline(always)]
    pub fn is_between_pairs(&self) -> bool
        ensures first { result ≡ true → self.now.first ≡ None }
        ensures origin { result ≡ true → self.now.has_origin ≡ true }
    {
        match self.first {
            Some(_) => false,
            None => self.has_origin,
        }
    }

    /// Takes words and origins from the beginning of these frames, and answers the frames that are left. Each word is put into
    /// its cell once a later one shows that it is no check sum.
    pub fn take_pairs<'a>(&mut self, frames: &'a [u8], words: &mut [Option<Word>]) -> &'a [u8]
        requires { IsTable words.old }
        ensures reads { (whole : List ℕ) → ReadsTo whole frames.now self.old words.old
            → ReadsTo whole result.now self.new words.new }
        ensures left { length result.now ≤ length frames.now }
    {
        let mut prefix = *self;
        let mut rest = frames;
        while let [first, second, later @ ..] = rest {
            if !prefix.take_pair(*first, *second, words) {
                break;
            }
            rest = later;
        }
        *self = prefix;
        rest
    }

    /// Takes a word or an origin, if these two frames are one.
    #[inline(always)]
    fn take_pair(&mut self, first: u8, second: u8, words: &mut [Option<Word>]) -> bool
        requires { IsTable words.old }
        ensures { (whole later : List ℕ) → ReadsTo whole (first ∷ second ∷ later) self.old words.old
            → MatchBool result (ReadsTo whole later self.new words.new)
            (ReadsTo whole (first ∷ second ∷ later) self.new words.new) }
    {
        if second >= 0o100 {
            return false;
        }
        if first < 0o100 {
            put_last(self.last, words);
            *self = self.with_word(first, second);
            return true;
        }
        if first < 0o200 {
            *self = self.with_origin(first - 0o100, second);
            return true;
        }
        false
    }

    /// Takes the second frame of a pair.
    fn take_second(self, first: u8, frame: u8, place: u64) -> Result<Taken, TapeFault>
        requires { self.first ≡ Some first }
        ensures { (items : List Item) (part : List ℕ) → ReadsItems self items part
            → TakesFrame items part frame place result }
    {
        if frame >= 0o100 {
            return Err(TapeFault::BadFrame(place));
        }
        if first < 0o100 {
            return Ok(self.taken_word(first, frame));
        }
        if first < 0o200 {
            return Ok(Taken::More(self.with_origin(first - 0o100, frame)));
        }
        Err(TapeFault::BadFrame(place))
    }

    /// Takes a word, by its two frames. The word before it is no check sum.
    fn taken_word(self, high: u8, low: u8) -> Taken
        requires high { high < 0o100 }
        requires low { low < 0o100 }
        ensures { (items : List Item) → ReadsItems self items (high ∷ []) → TakesWord items high low result }
    {
        let last = self.last;
        let later = self.with_word(high, low);
        match last {
            None => Taken::More(later),
            Some(last) => Taken::Handed(later, last.cell, last.word),
        }
    }

    /// Takes a frame that begins an item.
    fn take_first(self, frame: u8, place: u64) -> Result<Taken, TapeFault>
        requires first { self.first ≡ None }
        requires frame { frame ≢ 0o377 }
        ensures { (items : List Item) (part : List ℕ) → ReadsItems self items part
            → TakesFrame items part frame place result }
    {
        match frame {
            0o000 if !self.has_origin => Ok(Taken::More(self.with_leader())),
            0o000..=0o077 if !self.has_origin => Err(TapeFault::NoOrigin),
            0o000..=0o177 => Ok(Taken::More(self.with_frame(frame))),
            0o200 if !self.has_origin => Ok(Taken::More(self.with_leader())),
            0o200 => self.take_trailer(place),
            _ if frame >= 0o300 && frame % 8 == 0 => {
                Ok(Taken::More(self.with_field((frame - 0o300) / 8)))
            }
            _ => Err(TapeFault::BadFrame(place)),
        }
    }

    /// Takes a trailer frame, after an origin.
    fn take_trailer(self, place: u64) -> Result<Taken, TapeFault>
        requires first { self.first ≡ None }
        requires origin { self.has_origin ≡ true }
        ensures { (items : List Item) (part : List ℕ) → ReadsItems self items part
            → TakesFrame items part 0o200 place result }
    {
        if !self.ends_in_word {
            return Err(TapeFault::BadFrame(place));
        }
        match self.last {
            None => Err(TapeFault::BadFrame(place)),
            Some(last) => {
                if last.word == last.sum {
                    Ok(Taken::End)
                } else {
                    Err(TapeFault::CheckSum {
                        found: last.word,
                        computed: last.sum,
                    })
                }
            }
        }
    }

    /// One leader frame more.
    fn with_leader(self) -> Prefix
        ensures { (items : List Item) (frame : ℕ) → ReadsItems self items [] → IsPrefix (Leader frame ∷ items)
            → ReadsItems result (Leader frame ∷ items) [] }
    {
        Prefix {
            ends_in_word: false,
            ..self
        }
    }

    /// The first frame of a pair more.
    fn with_frame(self, frame: u8) -> Prefix
        ensures { (items : List Item) → ReadsItems self items [] → IsPart items (frame ∷ [])
            → ReadsItems result items (frame ∷ []) }
    {
        Prefix {
            first: Some(frame),
            ..self
        }
    }

    /// One field setting more.
    fn with_field(self, field: u8) -> Prefix
        requires { field < 8 }
        ensures { (items : List Item) → ReadsItems self items []
            → ReadsItems result (Field field ∷ items) [] }
    {
        Prefix {
            next: Cell::at(field, self.next.address()),
            ends_in_word: false,
            ..self
        }
    }

    /// One origin more, by the low six bits of its frames.
    #[inline(always)]
    fn with_origin(self, high: u8, low: u8) -> Prefix
        requires high { high < 0o100 }
        requires low { low < 0o100 }
        ensures { (items : List Item) (part : List ℕ) → ReadsItems self items part
            → ReadsItems result (Origin high low ∷ items) [] }
    {
        Prefix {
            next: Cell::at(self.next.field(), pair(high, low)),
            sum: self
                .sum
                .plus(Word::low(0o100 + u16::from(high) + u16::from(low))),
            has_origin: true,
            ends_in_word: false,
            last: self.last,
            first: None,
        }
    }

    /// One word more, by its two frames.
    #[inline(always)]
    fn with_word(self, high: u8, low: u8) -> Prefix
        requires high { high < 0o100 }
        requires low { low < 0o100 }
        ensures { (items : List Item) (part : List ℕ) → ReadsItems self items part → has_origin items ≡ true
            → ReadsItems result (item.Word high low ∷ items) [] }
    {
        let word = pair(high, low);
        Prefix {
            next: Cell::at(self.next.field(), self.next.address().plus(Word::ONE)),
            sum: self.sum.plus(Word::low(u16::from(high) + u16::from(low))),
            has_origin: self.has_origin,
            ends_in_word: true,
            last: Some(LastWord {
                cell: self.next,
                word,
                sum: self.sum,
            }),
            first: None,
        }
    }
}

/// Puts the last word into its cell.
#[inline(always)]
fn put_last(last: Option<LastWord>, words: &mut [Option<Word>])
    requires { IsTable words.old }
    ensures { (items : List Item) → IsLast last items → HoldsWords words.old (words_but_last items)
        → HoldsWords words.new (words_of items) }
{
    if let Some(last) = last {
        words[last.cell.index()] = Some(last.word);
    }
}

/// The word of twelve bits that two frames of six bits spell.
#[inline(always)]
fn pair(high: u8, low: u8) -> Word
    requires high { high < 0o100 }
    requires low { low < 0o100 }
    ensures value { result ≡ 0o100 * high + low }
    ensures range { result < 0o10000 }
{
    Word::low(0o100 * u16::from(high) + u16::from(low))
}

//! What frames are for a reading of a tape that comes to them, one frame after the other from the last to the first.
ghost use Rattle.std.specs.Prelude.{◌≡◌};
ghost use Rattle.block_scan.specs.TailSteps as spec;

/// What frames are for a reading of a BIN tape that comes to the second frame of a pair there.
#[derive(Clone, Copy)]
pub enum Second {
    /// They make no tape.
    Nothing,

    /// The trailer comes next. So the pair is the check sum, and this is its second frame.
    Trailer(u8),

    /// They make a tape where what was added up before them comes to 0 with this, modulo 0o10000.
    Sum(u16),
}

/// What frames are for a reading of a BIN tape that comes to them.
#[derive(Clone, Copy)]
pub struct BinTail {
    /// The first is a trailer frame.
    pub is_trailer: bool,

    /// After an origin and between pairs they make a tape, where what was added up before them comes to 0 with this, modulo 0o10000.
    pub sum: Option<u16>,

    /// After the first frame of a pair.
    pub second: Second,

    /// Before the first origin they make a tape.
    pub is_tape: bool,
}

/// What frames are for a reading of a BIN tape that heeds the first of them, and for one that ignores it.
#[derive(Clone, Copy)]
pub struct BinTails {
    pub if_heeded: BinTail,
    pub if_ignored: BinTail,
}

/// Whether frames make a RIM tape, by how many frames of an address with its word stand before them.
#[derive(Clone, Copy)]
pub struct RimTail {
    pub is_tape: bool,
    pub after_pairs: bool,
    pub after_one: bool,
    pub after_two: bool,
    pub after_three: bool,
}

/// What frames are for a reading of a tape that comes to them.
#[derive(Clone, Copy)]
pub struct Tails {
    pub bin: BinTails,
    pub rim: RimTail,
}

/// What no frames are.
pub(crate) fn no_tails() -> Tails
    ensures { result ≡ spec.no_tails }
{
    Tails {
        bin: BinTails {
            if_heeded: no_tail(),
            if_ignored: no_tail(),
        },
        rim: RimTail {
            is_tape: false,
            after_pairs: false,
            after_one: false,
            after_two: false,
            after_three: false,
        },
    }
}

fn no_tail() -> BinTail
    ensures { result ≡ spec.no_tail }
{
    BinTail {
        is_trailer: false,
        sum: None,
        second: Second::Nothing,
        is_tape: false,
    }
}

/// What frames are, by what those after them are.
pub(crate) fn tails_of(frames: &[u8], after: Tails) -> Tails
    ensures { result ≡ spec.tails_of frames.now after }
{
    let mut tails = after;
    let mut rest = frames;
    while let [others @ .., frame] = rest {
        tails = tails_with(*frame, tails);
        rest = others;
    }
    tails
}

/// The same with one frame more before them.
fn tails_with(frame: u8, tails: Tails) -> Tails
    ensures { result ≡ spec.tails_with frame tails }
{
    Tails {
        bin: bin_with(frame, tails.bin),
        rim: rim_with(frame, tails.rim),
    }
}

/// A frame 0377 begins or ends a stretch that is ignored.
fn bin_with(frame: u8, tails: BinTails) -> BinTails
    ensures { result ≡ spec.bin_with frame tails }
{
    if frame == 0o377 {
        return BinTails {
            if_heeded: tails.if_ignored,
            if_ignored: tails.if_heeded,
        };
    }
    BinTails {
        if_heeded: tail_with(frame, tails.if_heeded),
        if_ignored: tails.if_ignored,
    }
}

fn tail_with(frame: u8, tail: BinTail) -> BinTail
    ensures { result ≡ spec.tail_with frame tail }
{
    BinTail {
        is_trailer: frame == 0o200,
        sum: sum_with(frame, tail),
        second: second_with(frame, tail),
        is_tape: is_tape_with(frame, tail),
    }
}

/// After an origin a frame begins a pair, or is a field setting.
fn sum_with(frame: u8, tail: BinTail) -> Option<u16>
    ensures { result ≡ spec.sum_with frame tail }
{
    if frame < 0o200 {
        return pair_sum(frame, tail.second);
    }
    if is_field(frame) {
        return tail.sum;
    }
    None
}

/// What the first frame of a pair leads to.
fn pair_sum(frame: u8, second: Second) -> Option<u16>
    ensures { result ≡ spec.pair_sum frame second }
{
    match second {
        Second::Nothing => None,
        Second::Trailer(low) => check_sum(frame, low),
        Second::Sum(sum) => Some(sum_of(sum, frame)),
    }
}

/// What a check sum of these two frames takes from what was added up. An origin is none.
fn check_sum(high: u8, low: u8) -> Option<u16>
    ensures { result ≡ spec.check_sum high low }
{
    if high < 0o100 {
        return Some(0o10000 - (0o100 * u16::from(high) + u16::from(low)) % 0o10000);
    }
    None
}

/// A sum with one frame more, modulo 0o10000.
fn sum_of(sum: u16, frame: u8) -> u16
    ensures { result ≡ spec.sum_of sum frame }
{
    (sum % 0o10000 + u16::from(frame)) % 0o10000
}

/// What the second frame of a pair leads to.
fn second_with(frame: u8, tail: BinTail) -> Second
    ensures { result ≡ spec.second_with frame tail }
{
    if frame < 0o100 {
        return second_of(frame, tail.sum, tail.is_trailer);
    }
    Second::Nothing
}

fn second_of(frame: u8, sum: Option<u16>, is_trailer: bool) -> Second
    ensures { result ≡ spec.second_of frame sum is_trailer }
{
    match sum {
        Some(sum) => Second::Sum(sum_of(sum, frame)),
        None => {
            if is_trailer {
                return Second::Trailer(frame);
            }
            Second::Nothing
        }
    }
}

/// Before the first origin a frame is one of the leader, a field setting, or begins that origin.
fn is_tape_with(frame: u8, tail: BinTail) -> bool
    ensures { result ≡ spec.is_tape_with frame tail }
{
    if frame == 0 || frame == 0o200 || is_field(frame) {
        return tail.is_tape;
    }
    if frame < 0o100 {
        return false;
    }
    if frame < 0o200 {
        return is_zero(pair_sum(frame, tail.second));
    }
    false
}

/// Whether a sum comes to 0.
fn is_zero(sum: Option<u16>) -> bool
    ensures { result ≡ spec.is_zero sum }
{
    match sum {
        Some(sum) => sum % 0o10000 == 0,
        None => false,
    }
}

/// Whether a frame is a field setting.
fn is_field(frame: u8) -> bool
    ensures { result ≡ spec.is_field frame }
{
    frame >= 0o300 && frame % 8 == 0
}

fn rim_with(frame: u8, tail: RimTail) -> RimTail
    ensures { result ≡ spec.rim_with frame tail }
{
    if frame < 0o100 {
        return RimTail {
            is_tape: false,
            after_pairs: false,
            after_one: tail.after_two,
            after_two: tail.after_three,
            after_three: tail.after_pairs,
        };
    }
    if frame < 0o200 {
        return rim_of(tail.after_one, tail.after_one);
    }
    if frame == 0o200 {
        return rim_of(tail.is_tape, true);
    }
    rim_of(false, false)
}

/// What frames are that do not go on with an address or its word.
fn rim_of(is_tape: bool, after_pairs: bool) -> RimTail
    ensures { result ≡ spec.rim_of is_tape after_pairs }
{
    RimTail {
        is_tape,
        after_pairs,
        after_one: false,
        after_two: false,
        after_three: false,
    }
}

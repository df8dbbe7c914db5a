//! What stands at a place among frames.
ghost use Rattle.std.specs.Prelude.{◌≡◌, ◌≢◌, ℕ, ◌+◌, ◌<◌, ◌≤◌, length, replicate, slice_index, take, List, [], ◌∷◌, ◌++◌, IfErr, IfOk};
ghost use Rattle.rim_tape.specs.Tape.{IsOpen};
ghost use Rattle.rim_tape.specs.Fault.{IsFault};
ghost use Rattle.rim_tape.specs.ReadSteps.{Goes, HasBits, HasReadTo, HasWord, mark_of};

use crate::RimFault;
use word12::{Cell, Word};

/// A frame of the leader, and of the trailer.
const TRAILER: u8 = 0o200;

/// Channel 7, which marks the first frame of an address.
const ADDRESS: u8 = 0o100;

/// How many frames the leader has.
pub fn leader_length(frames: &[u8]) -> usize
    ensures within { result ≤ length frames.now }
    ensures leader { take result frames.now ≡ replicate result 0o200 }
    ensures first { slice_index frames.now result ≢ 0o200 }
{
    for (place, frame) in frames.iter().enumerate() {
        if *frame != TRAILER {
            return place;
        }
    }
    frames.len()
}

/// The word with its cell that comes at a place, after others or the leader; none where the trailer comes.
pub fn next(frames: &[u8], place: usize) -> Result<Option<(Cell, Word)>, RimFault>
    requires { place ≤ length frames.now }
    ensures { (pairs : List (ℕ × ℕ)) → HasReadTo frames.now place pairs → Goes frames.now place pairs result }
{
    if place < frames.len() && frames[place] == TRAILER {
        return Ok(None);
    }
    let address = word_at(frames, place, ADDRESS)?;
    let word = word_at(frames, place + 2, 0)?;
    Ok(Some((Cell::at(0, address), word)))
}

/// The word of the two frames at a place, the first of which has this mark.
fn word_at(frames: &[u8], place: usize, mark: u8) -> Result<Word, RimFault>
    requires within { place ≤ length frames.now }
    requires mark { mark ≤ 0o100 }
    ensures word { IfOk result (λ word. HasWord frames.now place mark word) }
    ensures fault { (pairs : List (ℕ × ℕ)) (part : List ℕ) → IsOpen (take place frames.now) pairs part
        → mark ≡ mark_of part → length part < 3 → (slice_index frames.now place ≡ 0o200 → 0 < length part)
        → IfErr result (λ fault. IsFault frames.now fault) }
{
    let high = bits_at(frames, place, mark)?;
    let low = bits_at(frames, place + 1, 0)?;
    Ok(Word::low(0o100 * u16::from(high) + u16::from(low)))
}

/// The low six bits of the frame at a place, which has this mark beside them.
fn bits_at(frames: &[u8], place: usize, mark: u8) -> Result<u8, RimFault>
    requires within { place ≤ length frames.now }
    requires mark { mark ≤ 0o100 }
    ensures bits { IfOk result (λ bits. HasBits frames.now place mark bits) }
    ensures fault { (pairs : List (ℕ × ℕ)) (part : List ℕ) → IsOpen (take place frames.now) pairs part
        → mark ≡ mark_of part → (slice_index frames.now place ≡ 0o200 → 0 < length part)
        → IfErr result (λ fault. IsFault frames.now fault) }
{
    if place == frames.len() {
        return Err(RimFault::NoTrailer);
    }
    let frame = frames[place];
    if frame < mark || mark + 0o100 <= frame {
        return Err(RimFault::BadFrame { place, frame });
    }
    Ok(frame - mark)
}

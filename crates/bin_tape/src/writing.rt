ghost use Rattle.std.specs.Prelude.{◌≡◌, ℕ, ◌+◌, ◌/◌, ◌%◌, ◌<◌, List, [], ◌∷◌, ◌++◌, length, IfOk, IfErr, OnOk};
ghost use Rattle.word12.specs.declared.sizes.TheConstants.{CORE};
ghost use Rattle.bin_tape.specs.Items.{Item};
ghost use Rattle.bin_tape.specs.Pairs.{ArePairs};
ghost use Rattle.bin_tape.specs.Writing.{tape_of, tape_with, leader, with_field, with_origin, with_pair, word_item, next_field, is_next};
ghost use Rattle.bin_tape.specs.WriteSteps.{HoldsFrames};

use crate::TapeFault;
use std::alloc::{AllocError, Global};
use word12::{Cell, Word};

/// The leader of a tape that is written, and its trailer.
const LEADER: [u8; 16] = [0o200; 16];

/// The frames of a tape that gives these cells these words, one after the other.
///
/// They are 16 leader frames, the frames of each pair, the check sum, and 16 trailer frames. A pair has a field
/// setting where the field changes, which is 0 at first. It has an origin where it is the first or isn't at the
/// next address of the same field. Then it has its word. Memory is taken once, for five frames a pair.
pub fn tape_of(alloc: Global, pairs: &[(Cell, Word)]) -> Result<Vec<u8>, AllocError>
    requires { 0 < length pairs.now }
    ensures tape { IfOk result (λ frames. frames.items ≡ tape_of pairs.now) }
    ensures pairs { OnOk result (ArePairs pairs.now) }
{
    let mut tape = Writer::new(alloc, pairs.len())?;
    let mut before = None;
    for &(cell, word) in pairs {
        tape.put_pair(before, cell, word)?;
        before = Some(cell);
    }
    let frames = tape.finish()?;
    Ok(frames)
}

/// The frames of [`tape_of`]. The only fault is `Memory`.
pub fn write_tape(alloc: Global, pairs: &[(Cell, Word)]) -> Result<Vec<u8>, TapeFault>
    requires { 0 < length pairs.now }
    ensures tape { IfOk result (λ frames. frames.items ≡ tape_of pairs.now) }
    ensures pairs { OnOk result (ArePairs pairs.now) }
    ensures fault { IfErr result (λ fault. fault ≡ TapeFault.Memory) }
{
    let frames = tape_of(alloc, pairs)?;
    Ok(frames)
}

/// The frames of some items, without check sum and trailer.
#[derive(Drop)]
struct Writer {
    frames: Vec<u8>,
    /// The origin and word frames, added up.
    sum: Word,
}

impl Writer {
    /// The leader, with room for so many pairs.
    fn new(alloc: Global, pairs: usize) -> Result<Writer, AllocError>
        ensures { IfOk result (λ tape. HoldsFrames tape.frames.items tape.sum leader) }
    {
        let room = pairs.saturating_mul(5).saturating_add(34);
        let mut frames = Vec::with_capacity(alloc, room)?;
        frames.extend_from_slice(&LEADER)?;
        Ok(Writer {
            frames,
            sum: Word::ZERO,
        })
    }

    /// Puts a cell's word after a word for the cell before.
    fn put_pair(&mut self, before: Option<Cell>, cell: Cell, word: Word) -> Result<(), AllocError>
        ensures put { (items : List Item) → HoldsFrames self.old.frames.items self.old.sum items
            → OnOk result (HoldsFrames self.new.frames.items self.new.sum
            (with_pair before cell word items)) }
        ensures pair { (cell < CORE) × (word < 0o10000) }
    {
        let again = before;
        self.put_field(before, cell)?;
        self.put_origin(again, cell)?;
        self.put_word(word)
    }

    /// Puts a field setting where the field changes.
    fn put_field(&mut self, before: Option<Cell>, cell: Cell) -> Result<(), AllocError>
        ensures { (items : List Item) → HoldsFrames self.old.frames.items self.old.sum items
            → OnOk result (HoldsFrames self.new.frames.items self.new.sum (with_field before cell items)) }
    {
        let field = cell.field();
        if field == next_field(before) {
            return Ok(());
        }
        self.frames.push(0o300 + 8 * field)?;
        Ok(())
    }

    /// Puts an origin where the cell isn't the next.
    fn put_origin(&mut self, before: Option<Cell>, cell: Cell) -> Result<(), AllocError>
        ensures { (items : List Item) → HoldsFrames self.old.frames.items self.old.sum items
            → OnOk result (HoldsFrames self.new.frames.items self.new.sum (with_origin before cell items)) }
    {
        if is_next(before, cell) {
            return Ok(());
        }
        let address = cell.address();
        self.put_frames(0o100 + high(address), low(address))
    }

    /// Puts a word.
    fn put_word(&mut self, word: Word) -> Result<(), AllocError>
        ensures { (items : List Item) → HoldsFrames self.old.frames.items self.old.sum items
            → OnOk result (HoldsFrames self.new.frames.items self.new.sum (word_item word ∷ items)) }
    {
        self.put_frames(high(word), low(word))
    }

    /// Puts the two frames of an origin or a word.
    fn put_frames(&mut self, first: u8, second: u8) -> Result<(), AllocError>
        ensures frames { OnOk result (self.new.frames.items ≡ self.old.frames.items ++ first ∷ second ∷ []) }
        ensures sum { OnOk result (self.new.sum ≡ (self.old.sum + (first + second)) % 0o10000) }
    {
        self.frames.push(first)?;
        self.frames.push(second)?;
        self.sum = self
            .sum
            .plus(Word::low(u16::from(first) + u16::from(second)));
        Ok(())
    }

    /// The whole tape: the check sum and the trailer come after what there is.
    fn finish(mut self) -> Result<Vec<u8>, AllocError>
        ensures { (items : List Item) → HoldsFrames self.frames.items self.sum items
            → IfOk result (λ frames. frames.items ≡ tape_with items) }
    {
        let sum = self.sum;
        self.put_word(sum)?;
        self.frames.extend_from_slice(&LEADER)?;
        Ok(self.frames)
    }
}

/// The field that words go to after a word for this cell, or after none.
fn next_field(before: Option<Cell>) -> u8
    ensures { result ≡ next_field before }
{
    match before {
        None => 0,
        Some(before) => before.field(),
    }
}

/// Whether a word for the cell needs no origin after a word for the cell before.
fn is_next(before: Option<Cell>, cell: Cell) -> bool
    ensures { result ≡ is_next before cell }
{
    match before {
        None => false,
        Some(before) => {
            cell.field() == before.field() && cell.address().get() == before.address().get() + 1
        }
    }
}

/// The high six bits.
fn high(word: Word) -> u8
    ensures value { result ≡ word / 0o100 }
    ensures range { result < 0o100 }
{
    (word.get() / 0o100) as u8
}

/// The low six bits.
fn low(word: Word) -> u8
    ensures value { result ≡ word % 0o100 }
    ensures range { result < 0o100 }
{
    (word.get() % 0o100) as u8
}

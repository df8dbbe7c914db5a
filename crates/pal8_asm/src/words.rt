ghost use Rattle.std.specs.Prelude.{◌≡◌, ◌+◌, ◌/◌, ◌%◌, ◌<◌, ◌≤◌, List, IfOk, OnOk, Result, Ok, length, vec_len, vec_capacity};
ghost use Rattle.word12.specs.declared.sizes.TheConstants.{FIELD, PAGE};
ghost use Rattle.pal8_grammar.specs.declared.steps.Step.{Step};
ghost use Rattle.pal8_grammar.specs.SourceNames.{is_other, own_value};
ghost use Rattle.pal8_pools.specs.Asks.{Ask};
ghost use Rattle.pal8_pools.specs.Pooled.{Holds};
ghost use Rattle.pal8_pools.specs.Clashes.{with_word};
ghost use Rattle.pal8_values.specs.Words.{AskResult, word_value};
ghost use Rattle.pal8_values.specs.Answering.{IsFault};
ghost use Rattle.pal8_asm.specs.Sources.{with_values};
ghost use Rattle.pal8_asm.specs.Kept.{cut, entry_of, total};
ghost use Rattle.pal8_asm.specs.Tapes.{TapeWords, clash_code, clash_fault, first_of, late_after, late_fault, late_value, nothing_made, spot_of, with_entries, with_entry, with_word_entry};
ghost use Rattle.pal8_asm.specs.Making.{IsMakingIn};
ghost use Rattle.pal8_asm.specs.Steps.{GivesAt, IsFaultAt, IsJudgedLate, MakesIn, entry_in, late_of};
ghost use Rattle.pal8_asm.specs.declared.faults.Fault.{Fault};

use crate::entries::{Head, Late, Stand};
use crate::late::{LateValues, late_value, put_known};
use crate::{AsmFault, Fault, Place};
use pal8_grammar::Step;
use pal8_places::{Code, KnownNames};
use pal8_pools::{Pools, WordCells};
use pal8_values::laws::words_ask_near;
use pal8_values::{Frames, Spot, ValueFault, word_value};
use std::alloc::{AllocError, Global};
use word12::{Cell, PAGE, Word};

/// Where a word stands.
fn spot_of(head: Head) -> Spot
    ensures value { (steps : List Step) → result ≡ spot_of (entry_of head steps) }
    ensures range { (result.field < 8) × (result.location < 0o10000) × (result.here < 0o10000) }
{
    Spot {
        field: head.cell.field(),
        location: head.cell.address().get(),
        here: head.here.get(),
        is_punched: head.is_punched,
        may_link: head.may_link,
        zero_stay: head.zero_stay,
        page_stay: head.page_stay,
    }
}

/// The page of a word in its field.
fn page_of(spot: Spot) -> u8
    requires { spot.location < 0o10000 }
    ensures value { result ≡ spot.location / PAGE }
    ensures range { result < 0o40 }
{
    (spot.location / PAGE) as u8
}

/// The fault of a word on a pool's cell.
fn clash_code(cell: Cell) -> Code
    ensures { result ≡ clash_code cell }
{
    if cell.address().get() < PAGE {
        Code::ZeroClash(cell)
    } else {
        Code::PageClash(cell)
    }
}

/// The first clash, after a word at this place with its lowest one.
fn first_clash(before: Option<Fault>, place: Place, cell: Option<Cell>) -> Option<Fault>
    ensures { result ≡ first_of before (clash_fault place cell) }
{
    let again = before;
    match before {
        Some(_) => again,
        None => match cell {
            Some(cell) => Some(Fault {
                code: clash_code(cell),
                place,
            }),
            None => None,
        },
    }
}

/// The fault of a value in a statement that has this place.
fn fault_at(fault: ValueFault, place: Place) -> AsmFault
    ensures { (whole : AskResult) → IsFault whole fault → IsFaultAt place whole result }
{
    match fault {
        ValueFault::UA(name) => AsmFault::At(Code::UA(name), place),
        ValueFault::PF => AsmFault::At(Code::PF, place),
        ValueFault::DZ => AsmFault::At(Code::DZ, place),
        ValueFault::IR => AsmFault::At(Code::IR, place),
        ValueFault::II => AsmFault::At(Code::II, place),
        ValueFault::PE => AsmFault::At(Code::PE, place),
        ValueFault::ZE => AsmFault::At(Code::ZE, place),
        ValueFault::RL => AsmFault::At(Code::RL, place),
        ValueFault::Memory => AsmFault::Memory,
    }
}

/// Whether a name keeps another value than this one.
fn is_other(fixed: Option<Word>, value: Word) -> bool
    ensures { result ≡ is_other fixed value }
{
    match fixed {
        Some(known) => known != value,
        None => false,
    }
}

/// The word of a value, or the fault of its statement.
fn word_at(
    alloc: Global,
    names: &KnownNames,
    frames: &mut Frames,
    pools: &mut Pools,
    stand: Stand,
    steps: &[Step],
) -> Result<Word, AsmFault>
    requires field { stand.spot.field < 8 }
    requires location { stand.spot.location < 0o10000 }
    requires here { stand.spot.here < 0o10000 }
    ensures { (asks punched : List Ask) → Holds pools.old asks punched
        → GivesAt stand.place (word_value (own_value names.now.table) stand.spot steps.now asks punched) result pools.new }
{
    match word_value(frames, pools, alloc, &names.table, stand.spot, steps) {
        Ok(word) => Ok(word),
        Err(fault) => Err(fault_at(fault, stand.place)),
    }
}

/// Puts a word with its cell after others, where there is room, if it is punched.
fn put_word(pairs: &mut Vec<(Cell, Word)>, is_punched: bool, cell: Cell, word: Word)
    requires { vec_len pairs.old + 1 ≤ vec_capacity pairs.old }
    ensures { pairs.new.items ≡ with_word is_punched cell word pairs.old.items }
{
    if is_punched {
        pairs.push_reserved((cell, word));
    }
}

/// The words that are made, and what they asked for.
#[derive(Drop)]
pub struct MadeWords {
    pub pools: Pools,
    /// The cells that have a punched word.
    pub cells: WordCells,
    /// The first punched word on a pool's cell.
    pub clash: Option<Fault>,
    /// The punched words with their cells, in the order of the source.
    pub pairs: Vec<(Cell, Word)>,
}

impl MadeWords {
    /// No word.
    pub fn new(alloc: Global) -> Result<MadeWords, AllocError>
        ensures { IfOk result (λ made. IsMakingIn (Ok nothing_made) made) }
    {
        let cells = WordCells::new(alloc)?;
        Ok(MadeWords {
            pools: Pools::new(alloc),
            cells,
            clash: None,
            pairs: Vec::new(alloc),
        })
    }
}

/// Room for the steps of a word and for its open literals, which is kept from one word to the next.
#[derive(Drop)]
struct Room {
    frames: Frames,
    steps: Vec<Step>,
}

/// A word that is to be made, or a late definition, with the steps of its value.
#[derive(Clone, Copy)]
struct WordSource<'s> {
    head: &'s Head,
    steps: &'s [Step],
}

/// Makes a word after others, and looks for the first one on a pool's cell.
fn make_word(
    alloc: Global,
    names: &KnownNames,
    frames: &mut Frames,
    made: &mut MadeWords,
    source: WordSource<'_>,
) -> Result<(), AsmFault>
    ensures { (whole : Result TapeWords Fault) → IsMakingIn whole made.old
        → MakesIn (with_word_entry (own_value names.now.table) (entry_in source.entry) source.entry.steps.now whole) result made.new }
{
    words_ask_near();
    made.pairs.reserve(1)?;
    let WordSource { head, steps } = source;
    let head = *head;
    let again = head;
    let spot = spot_of(again);
    let own = made.pools.count(spot.field, page_of(spot));
    let zero = made.pools.count(spot.field, 0);
    let stand = Stand {
        place: head.place,
        spot,
    };
    let word = match word_at(alloc, names, frames, &mut made.pools, stand, steps) {
        Ok(word) => word,
        Err(fault) => return Err(fault),
    };
    put_word(&mut made.pairs, head.is_punched, head.cell, word);
    let found = made
        .cells
        .put(&made.pools, head.cell, head.is_punched, own, zero);
    made.clash = first_clash(made.clash, head.place, found);
    Ok(())
}

/// Makes a word after others, in whose steps names have their values by late definitions.
fn make_known(
    alloc: Global,
    names: &KnownNames,
    late: &LateValues,
    room: &mut Room,
    made: &mut MadeWords,
    source: WordSource<'_>,
) -> Result<(), AsmFault>
    ensures { (whole : Result TapeWords Fault) → IsMakingIn whole made.old
        → MakesIn (with_word_entry (own_value names.now.table) (entry_in source.entry) (with_values (late_of late.now) source.entry.steps.now) whole)
        result made.new }
{
    let WordSource { head, steps } = source;
    if late.is_empty() {
        let own = WordSource { head, steps };
        return make_word(alloc, names, &mut room.frames, made, own);
    }
    room.steps.clear();
    room.steps.reserve(steps.len())?;
    put_known(&mut room.steps, late, steps);
    let known = WordSource {
        head,
        steps: &room.steps,
    };
    make_word(alloc, names, &mut room.frames, made, known)
}

/// Judges a late definition.
fn judge_late(names: &KnownNames, head: Head, late: Late, steps: &[Step]) -> Result<(), AsmFault>
    ensures { IsJudgedLate (late_fault (entry_of head steps.now) late (late_value (own_value names.now.table) (entry_of head steps.now) late)) result }
{
    let again = late;
    let place = head.place;
    match late_value(names, head, late, steps) {
        Ok(value) => {
            if is_other(again.kept_value, value) {
                return Err(AsmFault::At(Code::RD, place));
            }
            Ok(())
        }
        Err(fault) => Err(fault_at(fault, place)),
    }
}

/// Makes a word after others, or judges a late definition, which has its value from there on.
fn make_one(
    alloc: Global,
    names: &KnownNames,
    late: &mut LateValues,
    room: &mut Room,
    made: &mut MadeWords,
    source: WordSource<'_>,
) -> Result<(), AsmFault>
    ensures made { (whole : Result TapeWords Fault) → IsMakingIn whole made.old
        → MakesIn (with_entry (own_value names.now.table) (late_of late.old) (entry_in source.entry) whole) result made.new }
    ensures late { OnOk result (late_of late.new ≡ late_after (own_value names.now.table) (entry_in source.entry) (late_of late.old)) }
{
    let WordSource { head, steps } = source;
    let again = *head;
    let entry = *head;
    match head.late {
        Some(definition) => {
            match judge_late(names, again, definition, steps) {
                Ok(()) => {}
                Err(fault) => return Err(fault),
            }
            late.put_entry(names, entry, steps)?;
            Ok(())
        }
        None => {
            let word = WordSource { head, steps };
            make_known(alloc, names, late, room, made, word)
        }
    }
}

/// Makes the words of these heads, whose steps lie one after the other, after others.
pub(crate) fn make_all(
    alloc: Global,
    names: &KnownNames,
    late: &mut LateValues,
    made: &mut MadeWords,
    heads: &[Head],
    steps: &[Step],
) -> Result<(), AsmFault>
    requires { total heads.now ≤ length steps.now }
    ensures { (whole : Result TapeWords Fault) → IsMakingIn whole made.old
        → MakesIn (with_entries (own_value names.now.table) (late_of late.old) (cut heads.now steps.now) whole) result made.new }
{
    let mut room = Room {
        frames: Frames::new(alloc),
        steps: Vec::new(alloc),
    };
    let mut heads = heads;
    let mut steps = steps;
    while let [head, others @ ..] = heads {
        let (own, following) = steps.split_at(head.count);
        let source = WordSource { head, steps: own };
        match make_one(alloc, names, late, &mut room, made, source) {
            Ok(()) => {}
            Err(fault) => return Err(fault),
        }
        heads = others;
        steps = following;
    }
    Ok(())
}

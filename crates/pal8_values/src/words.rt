ghost use Rattle.std.specs.Prelude.{◌≡◌, ◌<◌, ◌≤◌, ◌+◌, ◌*◌, ◌%◌, ℕ, List};
ghost use Rattle.pal8_lex.specs.declared.tokens.Pool.TheVariants.{Own};
ghost use Rattle.word12.specs.declared.sizes.TheConstants.{FIELD, PAGE};
ghost use Rattle.pal8_grammar.specs.SourceNames.{own_value};
ghost use Rattle.pal8_pools.specs.Asks.{Ask};
ghost use Rattle.pal8_pools.specs.Pooled.{Holds};
ghost use Rattle.pal8_values.specs.Words.{full, is_through, is_torn, page_of, page_start, stay_at, value_of, with_ask, with_link, with_close, with_step, word_value};
ghost use Rattle.pal8_values.specs.Steps.{Takes};
ghost use Rattle.pal8_values.specs.Answering.{Gives};

use crate::sums::{Spot, Sum, empty, offset_of, reference_word, with_plain, with_value};
use crate::{Frame, Frames, ValueFault};
use pal8_grammar::{SourceNames, Step};
use pal8_lex::Pool;
use pal8_pools::{PoolFault, Pools};
use std::alloc::Global;
use word12::{PAGE, Word};

/// The page whose pool a literal asks at a location.
fn page_of(pool: Pool, location: u16) -> u8
    requires { location < 0o10000 }
    ensures page { result ≡ page_of pool location }
    ensures range { result < 0o40 }
{
    match pool {
        Pool::Own => (location / PAGE) as u8,
        Pool::Zero => 0,
    }
}

/// The fault of a page that is full.
fn full(page: u8) -> ValueFault
    ensures { result ≡ full page }
{
    if page == 0 {
        ValueFault::ZE
    } else {
        ValueFault::PE
    }
}

/// In which stay a page is asked.
fn stay_at(spot: Spot, page: u8) -> u32
    ensures { result ≡ stay_at spot page }
{
    if page == 0 {
        spot.zero_stay
    } else {
        spot.page_stay
    }
}

/// Whether the page of the place has the cells of a pool at other offsets than its own page.
fn is_torn(pool: Pool, spot: Spot) -> bool
    ensures { result ≡ is_torn pool spot }
{
    match pool {
        Pool::Own => {
            (spot.location >= PAGE || spot.here >= PAGE) && spot.location % PAGE != spot.here % PAGE
        }
        Pool::Zero => false,
    }
}

/// The first place of the page on which a literal's cell is reached.
fn page_start(pool: Pool, here: u16) -> u16
    requires { here < 0o10000 }
    ensures value { result ≡ page_start pool here }
    ensures range { result ≤ 0o7600 }
{
    match pool {
        Pool::Own => here / PAGE * PAGE,
        Pool::Zero => 0,
    }
}

/// The address by which a pool's cell is reached from a place.
fn address_at(pool: Pool, here: u16, address: Word) -> Word
    requires { here < 0o10000 }
    ensures { (cell field : ℕ) → FIELD * field + address ≡ cell → result ≡ page_start pool here + cell % PAGE }
{
    Word::low(page_start(pool, here) + address.get() % PAGE)
}

/// Asks a pool for a cell with a value, and gives its address.
fn ask(
    pools: &mut Pools,
    alloc: Global,
    spot: Spot,
    pool: Pool,
    value: Word,
) -> Result<Word, ValueFault>
    requires field { spot.field < 8 }
    requires place { spot.location < 0o10000 }
    requires here { spot.here < 0o10000 }
    ensures { (asks punched : List Ask) → Holds pools.old asks punched
        → Gives (with_ask spot pool value asks punched) result pools.new }
{
    if is_torn(pool, spot) {
        return Err(ValueFault::RL);
    }
    let page = page_of(pool, spot.location);
    let stay = stay_at(spot, page);
    match pools.ask(alloc, spot.field, page, value, stay, spot.is_punched) {
        Ok(address) => Ok(address_at(pool, spot.here, address)),
        Err(PoolFault::Full) => Err(full(page)),
        Err(PoolFault::Memory) => Err(ValueFault::Memory),
    }
}

/// The word of a memory reference whose address is out of reach: it goes through a link.
fn word_through_link(
    pools: &mut Pools,
    alloc: Global,
    spot: Spot,
    operation: Word,
    address: Word,
) -> Result<Word, ValueFault>
    requires field { spot.field < 8 }
    requires place { spot.location < 0o10000 }
    requires here { spot.here < 0o10000 }
    ensures { (asks punched : List Ask) → Holds pools.old asks punched
        → Gives (with_link operation (with_ask spot Own address asks punched)) result pools.new }
{
    let cell = match ask(pools, alloc, spot, Pool::Own, address) {
        Ok(cell) => cell,
        Err(fault) => return Err(fault),
    };
    let offset = Word::low(cell.get() % PAGE + 0o200);
    Ok(reference_word(operation, true, offset))
}

/// Whether a reference is indirect: by `I`, or by the word of its operation.
fn is_through(sum: Sum) -> bool
    ensures { result ≡ is_through sum }
{
    sum.is_indirect || sum.operation.and(Word::low(0o400)).get() != 0
}

/// What a value is where it ends.
fn value_of(pools: &mut Pools, alloc: Global, spot: Spot, sum: Sum) -> Result<Word, ValueFault>
    requires field { spot.field < 8 }
    requires place { spot.location < 0o10000 }
    requires here { spot.here < 0o10000 }
    ensures { (asks punched : List Ask) → Holds pools.old asks punched
        → Gives (value_of spot sum asks punched) result pools.new }
{
    if !sum.is_reference {
        return Ok(sum.total);
    }
    let again = sum;
    let is_indirect = is_through(again);
    match offset_of(spot.here, sum.total) {
        Some(offset) => Ok(reference_word(sum.operation, is_indirect, offset)),
        None => {
            if is_indirect {
                return Err(ValueFault::II);
            }
            if !spot.may_link {
                return Err(ValueFault::IR);
            }
            word_through_link(pools, alloc, spot, sum.operation, sum.total)
        }
    }
}

/// Ends the innermost literal.
fn close(
    frames: &mut Frames,
    pools: &mut Pools,
    alloc: Global,
    spot: Spot,
    sum: Sum,
) -> Result<Sum, ValueFault>
    requires field { spot.field < 8 }
    requires place { spot.location < 0o10000 }
    requires here { spot.here < 0o10000 }
    ensures { (asks punched : List Ask) → Holds pools.old asks punched
        → Takes (with_close spot frames.old sum asks punched) result frames.new pools.new }
{
    match frames.pop() {
        None => Ok(sum),
        Some(frame) => {
            let value = match value_of(pools, alloc, spot, sum) {
                Ok(value) => value,
                Err(fault) => return Err(fault),
            };
            let cell = match ask(pools, alloc, spot, frame.pool, value) {
                Ok(cell) => cell,
                Err(fault) => return Err(fault),
            };
            with_value(cell, frame.sum)
        }
    }
}

/// Takes a step. A number and a sign are most of them, and are taken on a short way.
fn take(
    frames: &mut Frames,
    pools: &mut Pools,
    alloc: Global,
    names: &SourceNames,
    spot: Spot,
    step: Step,
    sum: Sum,
) -> Result<Sum, ValueFault>
    requires field { spot.field < 8 }
    requires place { spot.location < 0o10000 }
    requires here { spot.here < 0o10000 }
    ensures { (asks punched : List Ask) → Holds pools.old asks punched
        → Takes (with_step (own_value names.now) spot step (record { sum = sum; frames = frames.old; asks = asks; punched = punched })) result frames.new pools.new }
{
    let again = step;
    match step {
        Step::Open(pool) => {
            frames.push(Frame { pool, sum })?;
            Ok(empty())
        }
        Step::Close => close(frames, pools, alloc, spot, sum),
        Step::Number(word) => with_value(word, sum),
        Step::Sign(sign) => Ok(Sum { sign, ..sum }),
        Step::Operation(_) | Step::Alone | Step::Indirect | Step::Name(_) => {
            with_plain(names, spot, again, sum)
        }
        Step::Permanent(_, _) | Step::Here => with_plain(names, spot, again, sum),
    }
}

/// The word of steps where one stands, by what names stand for: its location and its place are below 0o10000. Its literals and links ask pools for
/// their cells, which hold what was asked before. The asks come in the order of the terms, those in a literal before its own, that of a link last. A
/// word that isn't punched asks, too.
///
/// Its fault is the first from the left. It is UA, DZ, II, or IR for a link that may not be made. It is RL where an own literal or a link would ask and
/// the place and the location are apart by no whole pages. Or it is PE or ZE where a page has no cell left. Memory is taken for the pools, and for literals within others (PAL8, in this
/// project's profile).
pub fn word_value(
    frames: &mut Frames,
    pools: &mut Pools,
    alloc: Global,
    names: &SourceNames,
    spot: Spot,
    steps: &[Step],
) -> Result<Word, ValueFault>
    requires field { spot.field < 8 }
    requires place { spot.location < 0o10000 }
    requires here { spot.here < 0o10000 }
    ensures { (asks punched : List Ask) → Holds pools.old asks punched
        → Gives (word_value (own_value names.now) spot steps.now asks punched) result pools.new }
{
    frames.clear();
    let mut sum = empty();
    let mut rest = steps;
    while let [step, others @ ..] = rest {
        sum = match take(frames, pools, alloc, names, spot, *step, sum) {
            Ok(next) => next,
            Err(fault) => return Err(fault),
        };
        rest = others;
    }
    value_of(pools, alloc, spot, sum)
}

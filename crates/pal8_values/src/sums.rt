ghost use Rattle.std.specs.Prelude.{◌≡◌, ◌<◌, IfSome, false};
ghost use Rattle.pal8_grammar.specs.SourceNames.{own_value};
ghost use Rattle.pal8_values.specs.Sums.{direct, direct_by, early_value, empty, indirect_bit, is_undivided, join_values, meaning_or, offset_of, here_of, reference_word, with_known, with_place, with_plain, with_value};
ghost use Rattle.pal8_values.specs.Answering.{Answers};

use crate::ValueFault;
use pal8_grammar::{SourceNames, Step};
use pal8_lex::{Name, Operator};
use word12::{PAGE, Word};

/// The bit of a memory reference that stands for its own page.
const OWN_PAGE: u16 = 0o200;

/// Where a statement stands.
#[derive(Clone, Copy)]
pub struct Spot {
    /// The field of its words, 0 to 7.
    pub field: u8,
    /// The address of its first word. From 0o10000 on it is past 7777.
    pub location: u16,
    /// The place, which is what `.` stands for: where that word runs. Without `RELOC` it is the location.
    pub here: u16,
    /// Whether its words go to the tape.
    pub is_punched: bool,
    /// Whether a link may be made for a reference whose address is out of reach.
    pub may_link: bool,
    /// In which stay page zero is asked for literals, and in which the page of the location. They are 0 where no stays count.
    pub zero_stay: u32,
    pub page_stay: u32,
}

/// The value of the terms so far: the address of a memory reference, or an expression.
#[derive(Clone, Copy)]
pub struct Sum {
    pub is_reference: bool,
    pub is_indirect: bool,
    /// The sign before the next term.
    pub sign: Operator,
    /// The word of the reference's operation, else 0.
    pub operation: Word,
    pub total: Word,
}

/// No term yet.
pub fn empty() -> Sum
    ensures { result ≡ empty }
{
    Sum {
        is_reference: false,
        operation: Word::ZERO,
        is_indirect: false,
        total: Word::ZERO,
        sign: Operator::Plus,
    }
}

/// Whether a sign has no meaning before a value.
fn is_undivided(sign: Operator, value: Word) -> bool
    ensures { result ≡ is_undivided sign value }
{
    match sign {
        Operator::Divide => value.get() == 0,
        Operator::Plus | Operator::Minus | Operator::Or | Operator::And | Operator::Times => false,
    }
}

/// The product modulo 0o10000.
fn product(before: Word, value: Word) -> Word
    ensures value { result ≡ join_values Operator.Times before value }
    ensures range { result < 0o10000 }
{
    let product = u32::from(before.get()) * u32::from(value.get());
    Word::low((product % 0o10000) as u16)
}

/// Two values joined. A quotient by 0 is no value.
fn join_values(sign: Operator, before: Word, value: Word) -> Word
    requires { is_undivided sign value ≡ false }
    ensures value { result ≡ join_values sign before value }
    ensures range { result < 0o10000 }
{
    match sign {
        Operator::Plus => before.plus(value),
        Operator::Minus => before.minus(value),
        Operator::Or => before.or(value),
        Operator::And => before.and(value),
        Operator::Times => product(before, value),
        Operator::Divide => Word::low(before.get() / value.get()),
    }
}

/// One term more.
pub fn with_value(value: Word, sum: Sum) -> Result<Sum, ValueFault>
    ensures { Answers (with_value value sum) result }
{
    let before = sum;
    let again = sum;
    if is_undivided(sum.sign, value) {
        return Err(ValueFault::DZ);
    }
    Ok(Sum {
        total: join_values(before.sign, before.total, value),
        ..again
    })
}

/// A name more.
fn with_name(names: &SourceNames, name: Name, sum: Sum) -> Result<Sum, ValueFault>
    ensures { Answers (with_known name (own_value names.now name) sum) result }
{
    match names.own_value(name) {
        Some(value) => with_value(value, sum),
        None => Err(ValueFault::UA(name.number())),
    }
}

/// What `.` stands for: the place, if neither that nor the location is past 7777.
pub fn here_of(spot: Spot) -> Option<Word>
    ensures { result ≡ here_of spot }
{
    if spot.location > 0o7777 {
        return None;
    }
    Word::new(spot.here)
}

/// The place more.
fn with_place(spot: Spot, sum: Sum) -> Result<Sum, ValueFault>
    ensures { Answers (with_place (here_of spot) sum) result }
{
    match here_of(spot) {
        Some(place) => with_value(place, sum),
        None => Err(ValueFault::PF),
    }
}

/// A permanent name more, with the value that it has where the source gives it none.
fn with_permanent(names: &SourceNames, name: Name, value: Word, sum: Sum) -> Result<Sum, ValueFault>
    ensures { Answers (with_value (meaning_or value (own_value names.now name)) sum) result }
{
    match names.own_value(name) {
        Some(known) => with_value(known, sum),
        None => with_value(value, sum),
    }
}

/// Takes a step that neither opens nor closes a literal.
pub fn with_plain(names: &SourceNames, spot: Spot, step: Step, sum: Sum) -> Result<Sum, ValueFault>
    ensures { Answers (with_plain (own_value names.now) spot step sum) result }
{
    match step {
        Step::Operation(word) => Ok(Sum {
            is_reference: true,
            operation: word,
            is_indirect: false,
            ..sum
        }),
        Step::Alone => Ok(Sum {
            is_reference: false,
            operation: Word::ZERO,
            is_indirect: false,
            ..sum
        }),
        Step::Indirect => Ok(Sum {
            is_indirect: true,
            ..sum
        }),
        Step::Name(name) => with_name(names, name, sum),
        Step::Permanent(name, value) => with_permanent(names, name, value, sum),
        Step::Number(word) => with_value(word, sum),
        Step::Here => with_place(spot, sum),
        Step::Sign(sign) => Ok(Sum { sign, ..sum }),
        Step::Open(_) | Step::Close => Ok(sum),
    }
}

/// What stands in a memory reference at a place for an address, if it can be reached.
pub fn offset_of(here: u16, address: Word) -> Option<Word>
    ensures value { result ≡ offset_of here address }
    ensures range { IfSome result (λ offset. offset < 0o400) }
{
    let number = address.get();
    if number < PAGE {
        return Some(Word::low(number));
    }
    if number / PAGE == here / PAGE {
        return Some(Word::low(number % PAGE + OWN_PAGE));
    }
    None
}

fn indirect_bit(is_indirect: bool) -> Word
    ensures value { result ≡ indirect_bit is_indirect }
    ensures range { result < 0o10000 }
{
    if is_indirect {
        Word::low(0o400)
    } else {
        Word::ZERO
    }
}

/// The word of a memory reference.
pub fn reference_word(operation: Word, is_indirect: bool, offset: Word) -> Word
    ensures value { result ≡ reference_word operation is_indirect offset }
    ensures range { result < 0o10000 }
{
    operation.or(indirect_bit(is_indirect)).or(offset)
}

/// The value of terms where no link can be made.
fn direct(here: u16, sum: Sum) -> Result<Word, ValueFault>
    ensures { Answers (direct here sum.is_reference sum) result }
{
    if !sum.is_reference {
        return Ok(sum.total);
    }
    match offset_of(here, sum.total) {
        Some(offset) => Ok(reference_word(sum.operation, sum.is_indirect, offset)),
        None => Err(ValueFault::IR),
    }
}

/// The value of steps without literals at a place, by the names so far. Else it is the first fault from the left: UA, PF where `.` stands
/// and the location is past 7777, DZ, or at last IR. It takes no memory (PAL8, in this project's profile).
pub fn early_value(names: &SourceNames, spot: Spot, steps: &[Step]) -> Result<Word, ValueFault>
    ensures { Answers (early_value (own_value names.now) spot steps.now) result }
{
    let mut sum = empty();
    let mut rest = steps;
    while let [step, others @ ..] = rest {
        sum = match with_plain(names, spot, *step, sum) {
            Ok(next) => next,
            Err(fault) => return Err(fault),
        };
        rest = others;
    }
    direct(spot.here, sum)
}

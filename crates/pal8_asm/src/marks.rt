//! What a listing shows of words: where they begin, and which may be links.
ghost use Rattle.std.specs.Prelude.{◌≡◌, ◌++◌, ◌≤◌, IfOk, OnOk, length};
ghost use Rattle.pal8_asm.specs.Kept.{cut, entry_of, total};
ghost use Rattle.pal8_asm.specs.Marks.{begins_direct, has_indirect_bit, is_direct, is_first_indirect, is_indirect, mark_in, marks_of};

use crate::entries::Head;
use pal8_grammar::Step;
use std::alloc::{AllocError, Global};
use word12::Word;

/// A punched word in a listing.
#[derive(Clone, Copy)]
pub struct Mark {
    /// The line of the text in which its statement begins.
    pub line: u64,
    /// Whether it is a memory reference without `I`, and its operation's word hasn't the bit of `I`.
    pub is_direct: bool,
}

/// Whether a word has the bit of `I`. A memory reference without `I` whose word has it is made through a link (PAL8, in this project's profile).
pub fn has_indirect_bit(word: Word) -> bool
    ensures { result ≡ has_indirect_bit word }
{
    word.and(Word::low(0o400)).get() != 0
}

/// Whether a memory reference begins, by an operation without the bit of `I`.
fn begins_direct(step: Step) -> bool
    ensures { result ≡ begins_direct step }
{
    match step {
        Step::Operation(word) => !has_indirect_bit(word),
        Step::Alone | Step::Indirect | Step::Name(_) | Step::Permanent(_, _) => false,
        Step::Number(_) | Step::Here | Step::Sign(_) | Step::Open(_) | Step::Close => false,
    }
}

fn is_indirect(step: Step) -> bool
    ensures { result ≡ is_indirect step }
{
    match step {
        Step::Indirect => true,
        Step::Operation(_) | Step::Alone | Step::Name(_) | Step::Permanent(_, _) => false,
        Step::Number(_) | Step::Here | Step::Sign(_) | Step::Open(_) | Step::Close => false,
    }
}

/// Whether `I` comes first.
fn is_first_indirect(steps: &[Step]) -> bool
    ensures { result ≡ is_first_indirect steps.now }
{
    match steps {
        [first, ..] => is_indirect(*first),
        [] => false,
    }
}

/// Whether steps are those of a memory reference without `I`.
fn is_direct(steps: &[Step]) -> bool
    ensures { result ≡ is_direct steps.now }
{
    match steps {
        [first, others @ ..] => begins_direct(*first) && !is_first_indirect(others),
        [] => false,
    }
}

/// Puts the mark of a word after others, if it is punched.
fn put_mark(marks: &mut Vec<Mark>, head: Head, steps: &[Step]) -> Result<(), AllocError>
    ensures { OnOk result (marks.new.items ≡ marks.old.items ++ mark_in (entry_of head steps.now)) }
{
    if head.is_punched && head.late.is_none() {
        marks.push(Mark {
            line: head.place.line,
            is_direct: is_direct(steps),
        })?;
    }
    Ok(())
}

/// The marks of the punched words among these, whose steps lie one after the other.
pub(crate) fn marks_of(
    alloc: Global,
    heads: &[Head],
    steps: &[Step],
) -> Result<Vec<Mark>, AllocError>
    requires { total heads.now ≤ length steps.now }
    ensures { IfOk result (λ marks. marks.items ≡ marks_of (cut heads.now steps.now)) }
{
    let mut marks = Vec::new(alloc);
    let mut heads = heads;
    let mut steps = steps;
    while let [head, others @ ..] = heads {
        let (own, later) = steps.split_at(head.count);
        put_mark(&mut marks, *head, own)?;
        heads = others;
        steps = later;
    }
    Ok(marks)
}

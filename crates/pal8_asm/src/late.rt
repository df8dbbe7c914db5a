ghost use Rattle.std.specs.Prelude.{◌≡◌, ◌<◌, ◌+◌, ◌++◌, ◌≤◌, OnOk, IfOk, IfSome, if◌then◌else◌, nat_eq, true, ℕ, List, Some, None, length, vec_len, vec_capacity};
ghost use Rattle.std.specs.Ordering.{nat_cmp};
ghost use Rattle.std.specs.BTreeMap.{get};
ghost use Rattle.pal_sym.specs.Values.{if_none};
ghost use Rattle.pal8_grammar.specs.SourceNames.{own_value, with_own};
ghost use Rattle.pal8_values.specs.Answering.{Answers};
ghost use Rattle.pal8_places.specs.Passing.{is_late};
ghost use Rattle.pal8_asm.specs.Kept.{cut, entry_of, total};
ghost use Rattle.pal8_asm.specs.Steps.{late_of};
ghost use Rattle.pal8_asm.specs.Sources.{number_or, resolved_step, with_values};
ghost use Rattle.pal8_asm.specs.Tapes.{is_last_late, late_after, late_spot, late_value, late_values, with_known};

use crate::entries::{Head, Late, number_or};
use pal8_grammar::Step;
use pal8_lex::Name;
use pal8_places::KnownNames;
use pal8_values::{Spot, ValueFault, early_value};
use std::alloc::{AllocError, Global};
use std::collections::BTreeMap;
use word12::Word;

/// The values of late definitions, which names have in words.
#[derive(Drop)]
pub struct LateValues {
    values: BTreeMap<u64, Word>,
}

/// Where a late definition stands.
fn late_spot(head: Head, late: Late) -> Spot
    ensures { (steps : List Step) → result ≡ late_spot (entry_of head steps) late }
{
    let location = if late.is_past {
        0o10000
    } else {
        head.cell.address().get()
    };
    Spot {
        field: head.cell.field(),
        location,
        here: head.here.get(),
        is_punched: head.is_punched,
        may_link: head.may_link,
        zero_stay: head.zero_stay,
        page_stay: head.page_stay,
    }
}

/// The value of a late definition by the other definitions.
pub fn late_value(
    names: &KnownNames,
    head: Head,
    late: Late,
    steps: &[Step],
) -> Result<Word, ValueFault>
    ensures { Answers (late_value (own_value names.now.table) (entry_of head steps.now) late) result }
{
    early_value(&names.table, late_spot(head, late), steps)
}

/// Whether the last definition of an entry's name is late.
fn is_last_late(names: &KnownNames, late: Option<Late>) -> bool
    ensures { result ≡ is_last_late (is_late names.now) late }
{
    match late {
        Some(late) => names.late.contains(&late.name.number()),
        None => false,
    }
}

/// What a name stands for by a late definition, or the step.
fn known_step(late: &LateValues, step: Step) -> Step
    ensures { result ≡ resolved_step (late_of late.now) step }
{
    let again = step;
    match step {
        Step::Name(name) => number_or(again, late.value(name)),
        Step::Permanent(name, _) => number_or(again, late.value(name)),
        Step::Operation(_) | Step::Alone | Step::Indirect | Step::Number(_) => again,
        Step::Here | Step::Sign(_) | Step::Open(_) | Step::Close => again,
    }
}

/// Puts the steps of a word after others, where there is room. Names that have a value by a late definition stand for it.
pub fn put_known(to: &mut Vec<Step>, late: &LateValues, steps: &[Step])
    requires { vec_len to.old + length steps.now ≤ vec_capacity to.old }
    ensures { to.new.items ≡ to.old.items ++ with_values (late_of late.now) steps.now }
{
    let mut rest = steps;
    while let [step, others @ ..] = rest {
        to.push_reserved(known_step(late, *step));
        rest = others;
    }
}

impl LateValues {
    /// No value. It takes no memory.
    pub fn new(alloc: Global) -> LateValues
        ensures { (n : ℕ) → late_of result n ≡ None }
    {
        LateValues {
            values: BTreeMap::new(alloc),
        }
    }

    /// Whether no name has a value.
    pub(crate) fn is_empty(&self) -> bool
        ensures { result ≡ true → (n : ℕ) → late_of self.now n ≡ None }
    {
        self.values.is_empty()
    }

    /// The value of a name.
    fn value(&self, name: Name) -> Option<Word>
        ensures value { result ≡ late_of self.now name }
        ensures range { IfSome result (λ word. word < 0o10000) }
    {
        match self.values.get(&name.number()) {
            Some(value) => {
                let word = *value;
                let _number = word.get();
                Some(word)
            }
            None => None,
        }
    }

    /// Puts a value of a name.
    fn put_value(&mut self, name: Name, value: Word) -> Result<(), AllocError>
        ensures { OnOk result (late_of self.new ≡ with_own name value (late_of self.old)) }
    {
        self.values.insert(name.number(), value)?;
        Ok(())
    }

    /// Puts the value of a late definition, if it has one.
    fn put(
        &mut self,
        names: &KnownNames,
        head: Head,
        late: Late,
        steps: &[Step],
    ) -> Result<(), AllocError>
        ensures { OnOk result (late_of self.new ≡ with_known late.name (late_value (own_value names.now.table) (entry_of head steps.now) late) (late_of self.old)) }
    {
        let again = late;
        match late_value(names, head, late, steps) {
            Ok(value) => {
                self.put_value(again.name, value)?;
                Ok(())
            }
            Err(ValueFault::UA(_) | ValueFault::PF | ValueFault::DZ | ValueFault::IR) => Ok(()),
            Err(ValueFault::II | ValueFault::PE | ValueFault::ZE | ValueFault::RL) => Ok(()),
            Err(ValueFault::Memory) => Err(AllocError),
        }
    }

    /// Puts the value of an entry, if it is a late definition and has one.
    pub fn put_entry(
        &mut self,
        names: &KnownNames,
        head: Head,
        steps: &[Step],
    ) -> Result<(), AllocError>
        ensures { OnOk result (late_of self.new ≡ late_after (own_value names.now.table) (entry_of head steps.now) (late_of self.old)) }
    {
        let again = head;
        match head.late {
            Some(late) => self.put(names, again, late, steps),
            None => Ok(()),
        }
    }

    /// Puts the value of an entry, if it is a late definition of a name whose last definition is late.
    fn put_last(&mut self, names: &KnownNames, head: Head, steps: &[Step]) -> Result<(), AllocError>
        ensures { OnOk result (late_of self.new ≡ (if is_last_late (is_late names.now) head.late
            then late_after (own_value names.now.table) (entry_of head steps.now) (late_of self.old) else late_of self.old)) }
    {
        if is_last_late(names, head.late) {
            return self.put_entry(names, head, steps);
        }
        Ok(())
    }

    /// Puts the values that names have at last by late definitions, which are some of these entries.
    pub fn find(
        &mut self,
        names: &KnownNames,
        heads: &[Head],
        steps: &[Step],
    ) -> Result<(), AllocError>
        requires { total heads.now ≤ length steps.now }
        ensures { OnOk result (late_of self.new ≡ late_values (own_value names.now.table) (is_late names.now) (cut heads.now steps.now) (late_of self.old)) }
    {
        let mut heads = heads;
        let mut steps = steps;
        while let [head, others @ ..] = heads {
            let (own, later) = steps.split_at(head.count);
            self.put_last(names, *head, own)?;
            heads = others;
            steps = later;
        }
        Ok(())
    }

    /// What the source's own names stand for at last: those of late definitions by their values, which are these, and the others by the table.
    pub(crate) fn with_own(self, names: &KnownNames) -> Result<BTreeMap<u64, Word>, AllocError>
        ensures { IfOk result (λ values. (n : ℕ) → get nat_cmp values n ≡ if_none (late_of self n) (own_value names.now.table n)) }
    {
        let mut values = self.values;
        for (name, value) in names.table.own_values() {
            put_if_new(&mut values, *name, *value)?;
        }
        Ok(values)
    }
}

/// Puts a value of a name that has none.
fn put_if_new(values: &mut BTreeMap<u64, Word>, name: u64, value: Word) -> Result<(), AllocError>
    ensures { OnOk result ((n : ℕ) → get nat_cmp values.new n ≡ if_none (get nat_cmp values.old n) (if nat_eq name n then Some value else None)) }
{
    if !values.contains_key(&name) {
        values.insert(name, value)?;
    }
    Ok(())
}

ghost use Rattle.std.specs.Prelude.{◌≡◌, ◌+◌, ◌*◌, ◌%◌, ◌<◌, ◌≤◌, ◌++◌, [], ◌∷◌, OnOk, IfOk, IfSome, Ok, Some, None, ℕ, Result, length, replicate, vec_len, vec_capacity};
ghost use Rattle.word12.specs.declared.sizes.TheConstants.{FIELD, CORE};
ghost use Rattle.pal8_grammar.specs.SourceNames.{names_of, own_value};
ghost use Rattle.pal8_asm.specs.Tapes.{TapeWords, late_values, with_entries as with_entries_made};
ghost use Rattle.std.specs.Ordering.{nat_cmp};
ghost use Rattle.std.specs.BTreeMap.{get};
ghost use Rattle.pal8_places.specs.Passing.{is_late, open_of};
ghost use Rattle.pal8_asm.specs.Marks.{last_values, marks_of};
ghost use Rattle.pal8_asm.specs.Making.{IsMakingIn};
ghost use Rattle.pal8_asm.specs.Steps.{MakesIn, entry_meaning, with_content};
ghost use Rattle.pal8_asm.specs.declared.faults.Fault.{Fault};
ghost use Rattle.pal8_grammar.specs.declared.steps.Step.{Step};
ghost use Rattle.pal8_places.specs.Places.{text_size};
ghost use Rattle.pal8_asm.specs.Sources.{Entry, entry_at, entry_with, fixed_value, late_at, next_spot, number, number_or, with_values, resolved_step, text_words, with_entries, with_late_by, with_late_entry, word_each, words_in};

use crate::late::LateValues;
use crate::marks::{Mark, marks_of};
use crate::words::{MadeWords, make_all};
use crate::{AsmFault, Place};
use pal8_grammar::{Body, SourceNames, Step};
use pal8_lex::Name;
use pal8_places::{KnownNames, Options, has_later};
use pal8_values::{Spot, here_of};
use std::alloc::{AllocError, Global};
use std::collections::BTreeMap;
use std::marker::Model;
use word12::{Cell, Word};

/// How many steps a word has, as a guess.
const STEPS: usize = 3;

/// A word that is to be made, or a late definition.
#[derive(Clone, Copy)]
pub struct Head {
    /// The place of its statement in the text.
    pub place: Place,
    pub cell: Cell,
    /// What `.` is there.
    pub here: Word,
    pub is_punched: bool,
    pub may_link: bool,
    pub zero_stay: u32,
    pub page_stay: u32,
    /// How many steps its value has.
    pub count: usize,
    /// Of a late definition what it defines; a word has none.
    pub late: Option<Late>,
}

/// A late definition.
#[derive(Clone, Copy)]
pub struct Late {
    pub name: Name,
    /// The value that its name keeps, if it is fixed.
    pub kept_value: Option<Word>,
    /// Whether `.` is past 7777 there.
    pub is_past: bool,
}

/// Where a word stands, and the place of its statement in the text.
#[derive(Clone, Copy)]
pub struct Stand {
    pub place: Place,
    pub spot: Spot,
}

/// What a statement says: its body, with the steps of its value, and its string.
#[derive(Clone, Copy)]
pub struct Content<'s> {
    pub body: Body,
    pub steps: &'s [Step],
    pub string: &'s [u8],
}

/// The words that are to be made, in the order of the source.
#[derive(Drop)]
pub struct Entries {
    heads: Vec<Head>,
    steps: Vec<Step>,
}

impl Model for Entries {
    ghost use Rattle.std.specs.Prelude.{◌≡◌, List, length};
    ghost use Rattle.pal8_asm.specs.Sources.{Entry};
    ghost use Rattle.pal8_asm.specs.Kept.{cut, total};

    ghost Value = { List Entry };

    ghost view = { λ e. cut e.heads.items e.steps.items };

    ghost invariant = { λ e. total e.heads.items ≡ length e.steps.items };
}

/// A step, or the number in its place.
pub(crate) fn number_or(step: Step, value: Option<Word>) -> Step
    ensures { result ≡ number_or step value }
{
    match value {
        Some(word) => Step::Number(word),
        None => step,
    }
}

/// What a name stands for by now, in a word or in a late definition.
fn meaning(names: &KnownNames, is_late: bool, name: Name) -> Option<Word>
    ensures value { result ≡ entry_meaning names.now is_late name }
    ensures range { IfSome result (λ word. word < 0o10000) }
{
    if is_late {
        return names.table.own_value(name);
    }
    names.open_value(name)
}

/// A step, whose name stands for its value by now, if the source has defined it.
fn resolved_step(names: &KnownNames, is_late: bool, step: Step) -> Step
    ensures { result ≡ resolved_step (entry_meaning names.now is_late) step }
{
    let again = step;
    match step {
        Step::Name(name) => number_or(again, meaning(names, is_late, name)),
        Step::Permanent(name, _) => number_or(again, meaning(names, is_late, name)),
        Step::Operation(_) | Step::Alone | Step::Indirect | Step::Number(_) => again,
        Step::Here | Step::Sign(_) | Step::Open(_) | Step::Close => again,
    }
}

/// The next address, after 7777 0.
fn next_address(address: u16) -> u16
    ensures { result ≡ (address + 1) % 0o10000 }
{
    Word::low(address).plus(Word::ONE).get()
}

/// Where the next word stands.
fn next_spot(spot: Spot) -> Spot
    ensures { result ≡ next_spot spot }
{
    Spot {
        location: next_address(spot.location),
        here: next_address(spot.here),
        ..spot
    }
}

/// Where the next word of a statement stands.
fn next_stand(stand: Stand) -> Stand
    ensures { result ≡ record { place = stand.place; spot = next_spot stand.spot } }
{
    Stand {
        place: stand.place,
        spot: next_spot(stand.spot),
    }
}

/// The cell of a word that stands there.
fn cell_of(spot: Spot) -> Cell
    requires { spot.field < 8 }
    ensures { result ≡ FIELD * spot.field + spot.location % 0o10000 }
{
    Cell::at(spot.field, Word::low(spot.location))
}

/// Puts steps after others, where there is room.
fn put_steps(to: &mut Vec<Step>, names: &KnownNames, is_late: bool, steps: &[Step])
    requires { vec_len to.old + length steps.now ≤ vec_capacity to.old }
    ensures { to.new.items ≡ to.old.items ++ with_values (entry_meaning names.now is_late) steps.now }
{
    let mut rest = steps;
    while let [step, others @ ..] = rest {
        to.push_reserved(resolved_step(names, is_late, *step));
        rest = others;
    }
}

/// The value that a name keeps, if it is fixed.
fn fixed_value(names: &SourceNames, name: Name) -> Option<Word>
    ensures { result ≡ fixed_value (names_of names.now) name }
{
    if names.is_fixed(name) {
        return names.value(name);
    }
    None
}

/// A late definition of a name.
fn late_at(names: &SourceNames, spot: Spot, name: Name) -> Late
    ensures { result ≡ late_at spot name (names_of names.now) }
{
    Late {
        name,
        kept_value: fixed_value(names, name),
        is_past: here_of(spot).is_none(),
    }
}

impl Entries {
    /// No word. It takes no memory.
    pub fn new(alloc: Global) -> Entries
        ensures { result ≡ [] }
    {
        Entries {
            heads: Vec::new(alloc),
            steps: Vec::new(alloc),
        }
    }

    /// Makes room for so many words, if there is memory for that; else room is made as they come.
    pub(crate) fn make_room(&mut self, count: usize)
        ensures { self.new ≡ self.old }
    {
        let _ = self.heads.reserve(count);
        let _ = self.steps.reserve(count.saturating_mul(STEPS));
    }

    /// Puts a word or a late definition after the others, which stays to be made.
    fn push(
        &mut self,
        names: &KnownNames,
        late: Option<Late>,
        is_late: bool,
        stand: Stand,
        steps: &[Step],
    ) -> Result<(), AllocError>
        requires { stand.spot.field < 8 }
        ensures { OnOk result (self.new ≡ self.old
            ++ entry_with late stand.place stand.spot (with_values (entry_meaning names.now is_late) steps.now) ∷ []) }
    {
        let spot = stand.spot;
        self.heads.reserve(1)?;
        self.steps.reserve(steps.len())?;
        put_steps(&mut self.steps, names, is_late, steps);
        self.heads.push_reserved(Head {
            place: stand.place,
            cell: cell_of(spot),
            here: Word::low(spot.here),
            is_punched: spot.is_punched,
            may_link: spot.may_link,
            zero_stay: spot.zero_stay,
            page_stay: spot.page_stay,
            count: steps.len(),
            late,
        });
        Ok(())
    }

    /// Puts a number after the others.
    fn push_number(
        &mut self,
        names: &KnownNames,
        stand: Stand,
        word: Word,
    ) -> Result<(), AllocError>
        requires { stand.spot.field < 8 }
        ensures { OnOk result (self.new ≡ self.old ++ entry_at stand.place stand.spot (number word) ∷ []) }
    {
        self.push(names, None, false, stand, &[Step::Number(word)])
    }

    /// Puts so many zeros after the others.
    fn push_zeros(&mut self, names: &KnownNames, stand: Stand, count: u16) -> Result<(), AllocError>
        requires { stand.spot.field < 8 }
        ensures { OnOk result (self.new ≡ with_entries stand.place stand.spot (replicate count (number 0)) self.old) }
    {
        let mut at = stand;
        let mut left = count;
        while left > 0 {
            self.push_number(names, at, Word::ZERO)?;
            at = next_stand(at);
            left -= 1;
        }
        Ok(())
    }

    /// Puts the words of a text after the others.
    fn push_text(
        &mut self,
        options: Options,
        names: &KnownNames,
        stand: Stand,
        string: &[u8],
    ) -> Result<(), AllocError>
        requires { stand.spot.field < 8 }
        ensures { OnOk result (self.new ≡ with_entries stand.place stand.spot (text_words options string.now) self.old) }
    {
        let mut at = stand;
        let mut rest = string;
        while let [first, second, others @ ..] = rest {
            let word = Word::low(0o100 * u16::from(*first % 0o100) + u16::from(*second % 0o100));
            self.push_number(names, at, word)?;
            at = next_stand(at);
            rest = others;
        }
        let word = match rest {
            [first, ..] => Word::low(0o100 * u16::from(*first % 0o100)),
            [] => {
                if options.is_without_zero {
                    return Ok(());
                }
                Word::ZERO
            }
        };
        self.push_number(names, at, word)
    }

    /// Puts a word of each step after the others.
    fn push_each(
        &mut self,
        names: &KnownNames,
        stand: Stand,
        steps: &[Step],
    ) -> Result<(), AllocError>
        requires { stand.spot.field < 8 }
        ensures { OnOk result (self.new ≡ with_entries stand.place stand.spot (word_each (with_values (open_of names.now) steps.now)) self.old) }
    {
        let mut at = stand;
        let mut rest = steps;
        while let [step, others @ ..] = rest {
            self.push(names, None, false, at, &[*step])?;
            at = next_stand(at);
            rest = others;
        }
        Ok(())
    }

    /// Puts the words of a statement after the others, from where it stands on: of a value, of so many zeros, of a string, or of a name.
    fn push_body(
        &mut self,
        options: Options,
        names: &KnownNames,
        stand: Stand,
        content: Content<'_>,
        size: u16,
    ) -> Result<(), AllocError>
        requires { stand.spot.field < 8 }
        ensures { OnOk result (self.new ≡ with_entries stand.place stand.spot
            (words_in options content.entry.body (open_of names.now) content.entry.steps.now content.entry.string.now size) self.old) }
    {
        match content.body {
            Body::Word => self.push(names, None, false, stand, content.steps),
            Body::Zeros => self.push_zeros(names, stand, size),
            Body::Text => self.push_text(options, names, stand, content.string),
            Body::FileName | Body::Device => self.push_each(names, stand, content.steps),
            Body::Nothing | Body::Origin | Body::Define(_) | Body::Decimal | Body::Octal => Ok(()),
            Body::Field | Body::NextPage | Body::Page | Body::Listing => Ok(()),
            Body::IfZero | Body::IfNotZero | Body::IfDefined(_) | Body::IfUndefined(_) => Ok(()),
            Body::NoPunch | Body::Punch | Body::Relocate | Body::Unrelocate => Ok(()),
            Body::Expunge | Body::FixTable | Body::FixOperation(_) => Ok(()),
        }
    }

    /// Puts a definition after the others, if it is late.
    fn push_definition(
        &mut self,
        names: &KnownNames,
        stand: Stand,
        name: Name,
        steps: &[Step],
    ) -> Result<(), AllocError>
        requires { stand.spot.field < 8 }
        ensures { OnOk result (self.new ≡ with_late_by stand.place stand.spot steps.now (names_of names.now.table) (Some name) self.old) }
    {
        if !has_later(&names.table, steps) {
            return Ok(());
        }
        let late = late_at(&names.table, stand.spot, name);
        self.push(names, Some(late), true, stand, steps)
    }

    /// Puts a body after the others, if it is a late definition.
    fn push_late(
        &mut self,
        names: &KnownNames,
        stand: Stand,
        body: Body,
        steps: &[Step],
    ) -> Result<(), AllocError>
        requires { stand.spot.field < 8 }
        ensures { OnOk result (self.new ≡ with_late_entry stand.place stand.spot body steps.now (names_of names.now.table) self.old) }
    {
        match body {
            Body::Define(name) => self.push_definition(names, stand, name, steps),
            Body::Nothing | Body::Origin | Body::Decimal | Body::Octal | Body::Field => Ok(()),
            Body::NextPage | Body::Page | Body::Zeros | Body::Text | Body::Listing => Ok(()),
            Body::IfZero | Body::IfNotZero | Body::IfDefined(_) | Body::IfUndefined(_) => Ok(()),
            Body::NoPunch | Body::Punch | Body::Relocate | Body::Unrelocate => Ok(()),
            Body::FileName | Body::Device | Body::Word | Body::Expunge => Ok(()),
            Body::FixTable | Body::FixOperation(_) => Ok(()),
        }
    }

    /// Puts what a statement leaves to be made after the others, from where it stands on: its words, or a late definition.
    pub(crate) fn push_content(
        &mut self,
        options: Options,
        names: &KnownNames,
        stand: Stand,
        content: Content<'_>,
        size: u16,
    ) -> Result<(), AllocError>
        requires { stand.spot.field < 8 }
        ensures { OnOk result (self.new ≡ with_content options names.now stand content.entry size self.old) }
    {
        let Content {
            body,
            steps,
            string,
        } = content;
        let again = body;
        let said = Content {
            body,
            steps,
            string,
        };
        self.push_body(options, names, stand, said, size)?;
        self.push_late(names, stand, again, steps)
    }

    /// Makes the words, by what names stand for at last, after others.
    pub(crate) fn make(
        &self,
        alloc: Global,
        names: &KnownNames,
        made: &mut MadeWords,
    ) -> Result<(), AsmFault>
        ensures { (whole : Result TapeWords Fault) → IsMakingIn whole made.old
            → MakesIn (with_entries_made (own_value names.now.table) (late_values (own_value names.now.table) (is_late names.now) self.now (λ (n : ℕ). None)) self.now whole)
            result made.new }
    {
        let mut late = LateValues::new(alloc);
        late.find(names, &self.heads, &self.steps)?;
        make_all(alloc, names, &mut late, made, &self.heads, &self.steps)
    }

    /// The marks of the punched words, in the order of the source.
    pub(crate) fn marks(&self, alloc: Global) -> Result<Vec<Mark>, AllocError>
        ensures { IfOk result (λ marks. marks.items ≡ marks_of self.now) }
    {
        marks_of(alloc, &self.heads, &self.steps)
    }

    /// What the source's own names stand for at last, by their numbers.
    pub(crate) fn last_values(
        &self,
        alloc: Global,
        names: &KnownNames,
    ) -> Result<BTreeMap<u64, Word>, AllocError>
        ensures { IfOk result (λ values. (n : ℕ) → get nat_cmp values n ≡ last_values (own_value names.now.table) (is_late names.now) self.now n) }
    {
        let mut late = LateValues::new(alloc);
        late.find(names, &self.heads, &self.steps)?;
        let values = late.with_own(names)?;
        Ok(values)
    }
}

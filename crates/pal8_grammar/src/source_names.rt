//! The names of a source, with what EXPUNGE, FIXTAB and FIXMRI change.

ghost use Rattle.std.specs.Prelude.{◌≡◌, ℕ, ◌<◌, None, IfSome, is_some};
ghost use Rattle.pal_lex.specs.Language as pal3;
ghost use Rattle.pal8_grammar.specs.Permanent.{permanent};
ghost use Rattle.pal8_grammar.specs.SourceNames.{DefinesOperation, DefinesTag, DefinesValue, first_names, hard_value, is_fixed, is_kept, is_operation, is_other, is_own_fixed, keeps, kept_value, names_after_expunge, names_after_fixtab, names_of, operation_word, own_value, permanent_in, permanent_value, value_in, value_of};
ghost use Rattle.pal8_grammar.specs.NameSteps.{Frees, Puts, PutsFree};

use crate::permanent_names::{Meaning, Standing, is_operation, permanent};
use pal_sym::SymFault;
use pal8_lex::Name;
use std::alloc::{AllocError, Global};
use std::collections::{BTreeMap, BTreeSet};
use word12::Word;

/// The names of a source with the values that they stand for, and the operations. Permanent names stand for theirs until EXPUNGE.
#[derive(Drop)]
pub struct SourceNames {
    /// The last value that the source gave each name.
    own: BTreeMap<u64, Word>,
    /// Names of the source that are neither tags nor stand before a FIXTAB, and others that have no value yet.
    free: BTreeSet<u64>,
    /// The operations of FIXMRI, since the last EXPUNGE.
    operations: BTreeSet<u64>,
    is_expunged: bool,
}

/// Whether a permanent name keeps its value.
fn keeps(standing: Standing) -> bool
    ensures { result ≡ keeps standing }
{
    match standing {
        Standing::Operation | Standing::Firm => true,
        Standing::Soft => false,
    }
}

fn is_kept(meaning: Option<Meaning>) -> bool
    ensures { result ≡ is_kept meaning }
{
    match meaning {
        Some(meaning) => keeps(meaning.standing),
        None => false,
    }
}

/// The value of a permanent name that isn't soft.
fn hard_value(meaning: Option<Meaning>) -> Option<Word>
    ensures value { result ≡ hard_value meaning }
    ensures range { IfSome result (λ word. word < 0o10000) }
{
    match meaning {
        Some(meaning) => {
            let word = meaning.value;
            let _number = word.get();
            if keeps(meaning.standing) {
                return Some(word);
            }
            None
        }
        None => None,
    }
}

fn value_in(meaning: Option<Meaning>) -> Option<Word>
    ensures value { result ≡ value_in meaning }
    ensures range { IfSome result (λ word. word < 0o10000) }
{
    match meaning {
        Some(meaning) => {
            let word = meaning.value;
            let _number = word.get();
            Some(word)
        }
        None => None,
    }
}

/// Whether a value is known, and isn't this one.
fn is_other(known: Option<Word>, value: Word) -> bool
    ensures { result ≡ is_other known value }
{
    match known {
        Some(known) => known != value,
        None => false,
    }
}

impl SourceNames {
    /// The permanent names alone, with the six operations. It takes no memory.
    pub fn new(alloc: Global) -> SourceNames
        ensures { names_of result ≡ first_names }
    {
        SourceNames {
            own: BTreeMap::new(alloc),
            free: BTreeSet::new(alloc),
            operations: BTreeSet::new(alloc),
            is_expunged: false,
        }
    }

    /// The names that the source gave a value, by their numbers, each with the last one.
    pub fn own_values(&self) -> &BTreeMap<u64, Word>
        ensures { result.now ≡ self.now.own }
    {
        &self.own
    }

    /// The last value that the source gave a name.
    pub fn own_value(&self, name: Name) -> Option<Word>
        ensures value { result ≡ own_value self.now name }
        ensures range { IfSome result (λ word. word < 0o10000) }
    {
        match self.own.get(&name.number()) {
            Some(value) => {
                let word = *value;
                let _number = word.get();
                Some(word)
            }
            None => None,
        }
    }

    /// What a permanent name stands for.
    fn permanent(&self, name: Name) -> Option<Meaning>
        ensures { result ≡ permanent_in (names_of self.now) name }
    {
        if self.is_expunged {
            return None;
        }
        permanent(name)
    }

    /// The value of a name, if it has one: its last definition in the source, or else its permanent value (PAL8, in this project's profile).
    pub fn value(&self, name: Name) -> Option<Word>
        ensures value { result ≡ value_of (names_of self.now) name }
        ensures range { IfSome result (λ word. word < 0o10000) }
    {
        match self.own_value(name) {
            Some(word) => Some(word),
            None => self.permanent_value(name),
        }
    }

    /// The value of a permanent name, unless EXPUNGE took it away, whatever the source defines (PAL8, in this project's profile).
    pub fn permanent_value(&self, name: Name) -> Option<Word>
        ensures value { result ≡ permanent_value (names_of self.now) name }
        ensures range { IfSome result (λ word. word < 0o10000) }
    {
        value_in(self.permanent(name))
    }

    /// The value that a name keeps, if it has one. It is its last definition in the source, or else its permanent value if it isn't soft (PAL8, in
    /// this project's profile).
    pub fn kept_value(&self, name: Name) -> Option<Word>
        ensures value { result ≡ kept_value (names_of self.now) name }
        ensures range { IfSome result (λ word. word < 0o10000) }
    {
        match self.own_value(name) {
            Some(word) => Some(word),
            None => hard_value(self.permanent(name)),
        }
    }

    /// Whether `=` can't give a name another value: a permanent one that isn't soft, a tag, or one that was defined before a FIXTAB (PAL8, in
    /// this project's profile).
    pub fn is_fixed(&self, name: Name) -> bool
        ensures { result ≡ is_fixed (names_of self.now) name }
    {
        is_kept(self.permanent(name)) || self.is_own_fixed(name)
    }

    fn is_own_fixed(&self, name: Name) -> bool
        ensures { result ≡ is_own_fixed self.now name }
    {
        self.own.contains_key(&name.number()) && !self.free.contains(&name.number())
    }

    fn is_operation(&self, name: Name) -> bool
        ensures { result ≡ is_operation self.now name }
    {
        self.operations.contains(&name.number()) || (!self.is_expunged && is_operation(name))
    }

    /// The word of an operation of this name: the six until EXPUNGE, and those of FIXMRI since (PAL8, in this project's profile).
    pub fn operation(&self, name: Name) -> Option<Word>
        ensures word { result ≡ operation_word (names_of self.now) name }
        ensures range { IfSome result (λ word. word < 0o10000) }
    {
        if self.is_operation(name) {
            return self.value(name);
        }
        None
    }

    /// Puts a value of a name. Memory is taken for a new one alone.
    fn put(&mut self, name: Name, value: Word) -> Result<(), AllocError>
        ensures { Puts name value self.old self.new result }
    {
        self.own.insert(name.number(), value)?;
        Ok(())
    }

    /// Sets free a name that has no value.
    fn free_new(&mut self, name: Name) -> Result<(), AllocError>
        ensures { Frees name self.old self.new result }
    {
        if self.own.contains_key(&name.number()) {
            return Ok(());
        }
        self.free.insert(name.number())?;
        Ok(())
    }

    /// Puts a value of a name that isn't fixed by that.
    fn put_free(&mut self, name: Name, value: Word) -> Result<(), AllocError>
        ensures { PutsFree name value self.old self.new result }
    {
        self.free_new(name)?;
        self.put(name, value)?;
        Ok(())
    }

    /// Gives the name of a tag its value, the place of the tag. Where it keeps another value the fault is DT (PAL8, in this project's profile).
    pub fn define_tag(&mut self, name: Name, value: Word) -> Result<(), SymFault>
        ensures { DefinesTag name value self.old self.new result }
    {
        if is_other(self.kept_value(name), value) {
            return Err(SymFault::DT);
        }
        self.put(name, value)?;
        self.free.remove(&name.number());
        Ok(())
    }

    /// Gives a name the value of an expression, as `=` does. Where it is fixed and has another value the fault is RD (PAL8, in this project's
    /// profile).
    pub fn define_value(&mut self, name: Name, value: Word) -> Result<(), SymFault>
        ensures { DefinesValue name value self.old self.new result }
    {
        if self.is_fixed(name) && is_other(self.value(name), value) {
            return Err(SymFault::RD);
        }
        self.put_free(name, value)?;
        Ok(())
    }

    /// Gives a name a value and makes it an operation, as FIXMRI does (PAL8, in this project's profile).
    pub fn define_operation(&mut self, name: Name, value: Word) -> Result<(), AllocError>
        ensures { DefinesOperation name value self.old self.new result }
    {
        let is_new = self.operations.insert(name.number())?;
        match self.put_free(name, value) {
            Ok(()) => Ok(()),
            Err(error) => {
                if is_new {
                    self.operations.remove(&name.number());
                }
                Err(error)
            }
        }
    }

    /// Takes the permanent names and all operations away, as EXPUNGE does. The source's own names stay. It takes no memory (PAL8, in this
    /// project's profile).
    pub fn expunge(&mut self)
        ensures { names_of self.new ≡ names_after_expunge (names_of self.old) }
    {
        self.is_expunged = true;
        self.operations.clear();
    }

    /// Fixes the names that the source has defined, as FIXTAB does. It takes no memory, and its time is that of the names which were defined
    /// since the last one (PAL8, in this project's profile).
    pub fn fix_all(&mut self)
        ensures { names_of self.new ≡ names_after_fixtab (names_of self.old) }
    {
        self.free.clear();
    }
}

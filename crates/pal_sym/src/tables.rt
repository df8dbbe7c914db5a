ghost use Rattle.std.specs.Prelude.{◌≡◌, ℕ, ◌<◌, None, IfSome, is_some};
ghost use Rattle.pal_sym.specs.Permanent.{permanent};
ghost use Rattle.pal_sym.specs.Values.{symbol_value, is_fixed, DefinesTag, DefinesValue, IsSetAgain, MakesRoom};
ghost use Rattle.pal_sym.specs.Steps.{IsRefused};

use crate::entries::{find, insert, search};
use crate::permanent_names::permanent_value;
use crate::symbols::Symbol;
use crate::{SymFault, SymbolName};
use std::alloc::{AllocError, Global};
use std::marker::Model;
use word12::Word;

/// Names with the values that they stand for: the permanent names, and those that were defined.
#[derive(Drop)]
pub struct Symbols {
    entries: Vec<(SymbolName, Symbol)>,
}

impl Model for Symbols {
    ghost use Rattle.std.specs.Prelude.{◌-◌, vec_len, vec_capacity};
    ghost use Rattle.std.specs.FinMap.{from_entries};
    ghost use Rattle.pal_sym.specs.Entries.{Rise};
    ghost use Rattle.pal_sym.specs.SymbolTable.{SymbolTable, table_code};

    ghost Value = { SymbolTable };

    ghost coded = { table_code };

    ghost view = { λ symbols. record {
      defined = from_entries symbols.entries.items;
      room = vec_capacity symbols.entries - vec_len symbols.entries;
    } };

    ghost invariant = { λ symbols. Rise symbols.entries.items };
}

impl Symbols {
    /// The permanent names alone.
    pub fn new(alloc: Global) -> Symbols
        ensures values { (name : ℕ) → symbol_value result name ≡ permanent name }
        ensures fixed { (name : ℕ) → is_fixed result name ≡ is_some (permanent name) }
    {
        Symbols {
            entries: Vec::new(alloc),
        }
    }

    /// The permanent value of a name, if it has one (PAL III Symbolic Assembler manual).
    pub fn permanent(name: SymbolName) -> Option<Word>
        ensures value { result ≡ permanent name }
        ensures range { IfSome result (λ word. word < 0o10000) }
    {
        permanent_value(name)
    }

    /// Makes room for so many new names: that many definitions then take no memory. It doesn't ask which names come. So a
    /// caller that counts names that are there already asks for more than it needs.
    pub fn room(&mut self, names: usize) -> Result<(), AllocError>
        ensures { MakesRoom names self.old self.new result }
    {
        self.entries.reserve(names)?;
        Ok(())
    }

    /// Gives the name of a tag its value, the place of the tag. The name is new, or stands for that value already, as a
    /// permanent name may. Else the fault is DT (PAL III Symbolic Assembler manual, and this project's profile of it).
    pub fn define_tag(&mut self, name: SymbolName, value: Word) -> Result<(), SymFault>
        ensures { DefinesTag name value self.old self.new result }
    {
        match permanent_value(name) {
            Some(known) => unless_other(known, value, SymFault::DT),
            None => self.put_tag(name, value),
        }
    }

    /// Gives a name the value of an expression, as `=` does. It may stand for another value, unless it is a permanent name
    /// or a tag. Then the fault is RD (PAL III Symbolic Assembler manual, and this project's profile of it).
    pub fn define_value(&mut self, name: SymbolName, value: Word) -> Result<(), SymFault>
        ensures { DefinesValue name value self.old self.new result }
    {
        match permanent_value(name) {
            Some(known) => unless_other(known, value, SymFault::RD),
            None => self.put_value(name, value),
        }
    }

    /// Sets the value of a name that was defined, whatever it stands for. A permanent name keeps its value, and a name that
    /// isn't there stays so. It takes no memory.
    pub fn again(&mut self, name: SymbolName, value: Word)
        ensures { IsSetAgain name value self.old self.new }
    {
        match permanent_value(name) {
            Some(_) => {}
            None => self.set(name, value),
        }
    }

    /// The value of a name, permanent or defined, if it has one.
    pub fn value(&self, name: SymbolName) -> Option<Word>
        ensures value { result ≡ symbol_value self.now name }
        ensures range { IfSome result (λ word. word < 0o10000) }
    {
        match permanent_value(name) {
            Some(word) => Some(word),
            None => find(&self.entries, name),
        }
    }

    fn put_tag(&mut self, name: SymbolName, value: Word) -> Result<(), SymFault>
        requires { None ≡ permanent name }
        ensures { DefinesTag name value self.old self.new result }
    {
        let tag = Symbol {
            value,
            is_tag: true,
        };
        match search(&self.entries, name) {
            Ok(place) => {
                if self.entries[place].1.value != value {
                    return Err(SymFault::DT);
                }
                self.entries[place] = (name, tag);
                Ok(())
            }
            Err(place) => {
                insert(&mut self.entries, place, name, tag)?;
                Ok(())
            }
        }
    }

    fn put_value(&mut self, name: SymbolName, value: Word) -> Result<(), SymFault>
        requires { None ≡ permanent name }
        ensures { DefinesValue name value self.old self.new result }
    {
        let symbol = Symbol {
            value,
            is_tag: false,
        };
        match search(&self.entries, name) {
            Ok(place) => {
                let known = self.entries[place].1;
                if known.is_tag {
                    return unless_other(known.value, value, SymFault::RD);
                }
                self.entries[place] = (name, symbol);
                Ok(())
            }
            Err(place) => {
                insert(&mut self.entries, place, name, symbol)?;
                Ok(())
            }
        }
    }

    fn set(&mut self, name: SymbolName, value: Word)
        requires { None ≡ permanent name }
        ensures { IsSetAgain name value self.old self.new }
    {
        match search(&self.entries, name) {
            Ok(place) => {
                let is_tag = self.entries[place].1.is_tag;
                self.entries[place] = (name, Symbol { value, is_tag });
            }
            Err(_) => {}
        }
    }
}

/// The fault of a name that stands for another value, if it does.
fn unless_other(known: Word, value: Word, fault: SymFault) -> Result<(), SymFault>
    ensures { IsRefused fault known value result }
{
    if known == value {
        return Ok(());
    }
    Err(fault)
}

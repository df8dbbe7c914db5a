ghost use Rattle.std.specs.Prelude.{◌≡◌, ◌<◌, ◌+◌, ℕ, [], ◌∷◌, ◌||◌, IfErr, IfOk, OnOk, None, List, drop, is_some, length, replicate, slice_index_or, vec_len};
ghost use Rattle.word12.specs.declared.sizes.TheConstants.{CORE};
ghost use Rattle.pal_sym.specs.Names.{name_number};
ghost use Rattle.pal_sym.specs.Values.{symbol_value};
ghost use Rattle.source_names.specs.declared.faults.NamesFault.TheVariants.{Memory};
ghost use Rattle.flow8.specs.Flow.{word_in};
ghost use Rattle.source_names.specs.Names.{AreNames, Entry, IsFault, Reading, why_taken};
ghost use Rattle.source_names.specs.Steps.{Holds, TakesLine, TakesText};

use crate::faults::NamesFault;
use crate::lines::{
    cell_in, has_tag_form, line_length, name_in, says_nothing, short_name, six_places,
    without_return,
};
use crate::reserved::is_taken;
use pal_faults::LineRefusal;
use pal_sym::{SymbolName, Symbols};
use std::alloc::{AllocError, Global};
use std::marker::Model;
use word12::{CORE, Cell, Word};

/// The names of cells. A contract sees a list of one or none for each cell of core, each in six places, with 0 after it.
#[derive(Drop)]
pub struct CellNames {
    table: Vec<Option<[u8; 6]>>,
}

impl Model for CellNames {
    ghost use Rattle.std.specs.Prelude.{◌≡◌, ℕ, List, Option, length};
    ghost use Rattle.word12.specs.declared.sizes.TheConstants.{CORE};

    ghost Value = { List (Option (List ℕ)) };

    ghost view = { λ n. n.table.items };

    ghost invariant = { λ n. length n.table.items ≡ CORE };
}

impl CellNames {
    /// The name of a cell, if it has one: up to six letters and digits, with 0 after them.
    pub fn get(&self, cell: Cell) -> Option<[u8; 6]>
        ensures { result ≡ slice_index_or self.now cell None }
    {
        self.table[cell.index()]
    }
}

/// The names that a text gives to cells, where a tape gives the cells these words, one or none for each of the 0o100000 cells. Else
/// the first line that is refused, counted from 1, and why (this project's profile).
pub fn names_of(alloc: Global, text: &[u8], words: &[Option<Word>]) -> Result<CellNames, NamesFault>
    requires { length words.now ≡ CORE }
    ensures names { IfOk result (λ names. AreNames (word_in words.now) text.now names) }
    ensures fault { IfErr result (λ fault. IsFault (word_in words.now) text.now fault) }
{
    let mut table = no_names(alloc, CORE)?;
    let mut given = Symbols::new(alloc);
    take_all(&mut table, &mut given, text, words)?;
    Ok(CellNames { table })
}

fn no_names(alloc: Global, count: usize) -> Result<Vec<Option<[u8; 6]>>, AllocError>
    ensures { IfOk result (λ table. table.items ≡ replicate count None) }
{
    let table = vec![in alloc; None; count]?;
    Ok(table)
}

/// Takes the lines of a text, where none was taken before.
fn take_all(
    table: &mut [Option<[u8; 6]>],
    given: &mut Symbols,
    text: &[u8],
    words: &[Option<Word>],
) -> Result<(), NamesFault>
    requires words { length words.now ≡ CORE }
    requires none { Holds table.old given.old [] }
    ensures text { OnOk result (TakesText (word_in words.now) text.now table.new given.new) }
    ensures fault { IfErr result (λ fault. IsFault (word_in words.now) text.now fault) }
{
    let mut rest = text;
    let mut number = 0;
    while !rest.is_empty() {
        let (line, following) = rest.split_at(line_length(rest));
        number += 1;
        take(table, given, without_return(line), number, words)?;
        rest = after_end(following);
    }
    Ok(())
}

/// What stands after the first byte, if there is one.
fn after_end(text: &[u8]) -> &[u8]
    ensures { result.now ≡ drop 1 text.now }
{
    match text {
        [_, others @ ..] => others,
        [] => text,
    }
}

/// Takes the line of this number.
fn take(
    table: &mut [Option<[u8; 6]>],
    given: &mut Symbols,
    line: &[u8],
    number: u64,
    words: &[Option<Word>],
) -> Result<(), NamesFault>
    requires words { length words.now ≡ CORE }
    requires table { length table.old ≡ CORE }
    ensures { (read : Reading) → number ≡ read.lines + 1 → Holds table.old given.old read.entries
        → TakesLine (word_in words.now) read line.now table.new given.new result }
{
    if says_nothing(line) {
        return Ok(());
    }
    let Some(cell) = cell_in(line) else {
        return Err(NamesFault::At(number, LineRefusal::BadLine));
    };
    let name = name_in(line);
    let Some(symbol) = short_name(name) else {
        return Err(NamesFault::At(number, LineRefusal::NoName));
    };
    let is_given = is_given(table, given, cell, symbol);
    if let Some(why) = why_taken(words[cell.index()], is_given, name, symbol) {
        return Err(NamesFault::At(number, why));
    }
    give(table, given, cell, name, symbol)
}

/// Whether a name that is no permanent one, or a cell, was given.
fn is_given(table: &[Option<[u8; 6]>], given: &Symbols, cell: Cell, symbol: SymbolName) -> bool
    requires { length table.now ≡ CORE }
    ensures { result ≡ (is_some (symbol_value given.now symbol)
        || is_some (slice_index_or table.now cell None)) }
{
    given.value(symbol).is_some() || table[cell.index()].is_some()
}

/// Why a name isn't given to a cell with this word or none, where the name or the cell was given before, or wasn't.
fn why_taken(
    word: Option<Word>,
    is_given: bool,
    name: &[u8],
    symbol: SymbolName,
) -> Option<LineRefusal>
    ensures { result ≡ why_taken word is_given name.now symbol }
{
    if is_taken(symbol) {
        return Some(LineRefusal::Permanent);
    }
    if has_tag_form(name) {
        return Some(LineRefusal::Tag);
    }
    if is_given {
        return Some(LineRefusal::Twice);
    }
    if word.is_none() {
        return Some(LineRefusal::NoCell);
    }
    None
}

/// Gives a cell a name that is new.
fn give(
    table: &mut [Option<[u8; 6]>],
    given: &mut Symbols,
    cell: Cell,
    name: &[u8],
    symbol: SymbolName,
) -> Result<(), NamesFault>
    requires { length table.old ≡ CORE }
    ensures ok { (entries : List Entry) → Holds table.old given.old entries → symbol ≡ name_number name.now
        → symbol_value given.old symbol ≡ None
        → OnOk result (Holds table.new given.new (record { cell = cell; name = name.now } ∷ entries)) }
    ensures err { IfErr result (λ fault. fault ≡ Memory) }
{
    given.room(1)?;
    // The name is new, and there is room for it: so this defines it.
    let _defined = given.define_tag(symbol, Word::ZERO);
    table[cell.index()] = Some(six_places(name));
    Ok(())
}

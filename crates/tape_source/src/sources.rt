ghost use Rattle.std.specs.Prelude.{◌≡◌, ℕ, ◌<◌, ◌++◌, ◌∷◌, [], None, Option, List, true, IfOk, IfErr, MatchOption, OnOk, length, replicate, vec_len, slice_index_or};
ghost use Rattle.word12.specs.declared.sizes.TheConstants.{CORE};
ghost use Rattle.bin_tape.specs.Items.{Item};
ghost use Rattle.bin_tape.specs.Map.{IsMapFault, IsMapOf};
ghost use Rattle.bin_tape.specs.Writing.{newest_cell};
ghost use Rattle.flow8.specs.Flow.{word_in};
ghost use Rattle.source_names.specs.Names.{AreNames};
ghost use Rattle.tape_source.specs.Steps.{HoldsMap, IsRefused, IsUnread, look_with};
ghost use Rattle.tape_source.specs.Saying.{IsNoSource, SaysWords};
ghost use Rattle.tape_source.specs.Tags.{is_flagged};
ghost use Rattle.tape_source.specs.Lines.{lines_of};
ghost use Rattle.tape_source.specs.Sources.{AllGiven, IsFirstWithout, IsFlowFault, IsListFault, IsNamedFault, IsNamedSourceFrom, IsNamedSourceOf, IsSourceFrom, IsSourceOf, with_word, words_of_tape};

use crate::ListFault;
use crate::laws::names_of_a_text_are_names_of_their_own;
use crate::lines::put_cell;
use crate::tags::{Tags, tags_of};
use bin_tape::{TapeFault, TapeMap};
use flow8::flow;
use source_names::{CellNames, NamesFault, names_of};
use source_notes::Notes;
use source_notes::laws::notes_are_graphic;
use std::alloc::{AllocError, Global};
use word12::{CORE, Cell, Word};

/// The PAL III source of a BIN tape: a line for each cell that the tape gives a word, by rising field and address. It has
/// `FIELD` where the field changes, an origin where a cell isn't the next, and `$` at its end. Lines end with CR and LF. A
/// cell with a word that a memory reference among the words names is tagged, and named by its tag.
///
/// The source assembles without a fault to the last words that the tape gives its cells. A tape that gives no cell a word
/// is refused: the assembler has a fault for a source of no word (this project's profile).
pub fn source_of(alloc: Global, frames: &[u8]) -> Result<Vec<u8>, ListFault>
    ensures source { IfOk result (λ text. IsSourceOf frames.now text.items) }
    ensures fault { IfErr result (λ fault. IsListFault frames.now fault) }
{
    let words = words_of(alloc, frames)?;
    let code = all_code(alloc, CORE)?;
    let text = source_with(alloc, &words, &code, &None, &None)?;
    Ok(text)
}

/// The same of a program that starts at these cells. Instructions are those words that it reaches, as far as the words say. All other
/// words stand as data. Such a word is the tag of the cell whose address it is, in its own field, where that has one, else a number
/// (this project's reading of a program's flow). Comments show who refers to a cell and the characters of data, and an empty line stands
/// where a program doesn't go on (this project's profile).
///
/// The first start to which the tape gives no word is refused.
pub fn source_from(alloc: Global, frames: &[u8], starts: &[Cell]) -> Result<Vec<u8>, ListFault>
    ensures source { IfOk result (λ text. IsSourceFrom frames.now starts.now text.items) }
    ensures fault { IfErr result (λ fault. IsFlowFault frames.now starts.now fault) }
{
    let words = words_of(alloc, frames)?;
    if let Some(start) = first_without(&words, starts) {
        return Err(ListFault::NoStart(start));
    }
    let code = flow(alloc, &words, starts)?;
    let notes = Notes::new(alloc, &words, &code)?;
    let beside = Some(notes);
    let text = source_with(alloc, &words, &code, &None, &beside)?;
    notes_are_graphic();
    Ok(text)
}

/// The same as `source_of`'s with names for some cells, which a text gives as `source_names` reads it. Each is the tag of its cell, whatever
/// refers to it. It stands for the cell where a tag would (PAL III Symbolic Assembler manual, and this project's profile of it).
///
/// The first line of the names that is refused is reported before a tape of no word is.
pub fn named_source_of(alloc: Global, frames: &[u8], names: &[u8]) -> Result<Vec<u8>, ListFault>
    ensures source { IfOk result (λ text. IsNamedSourceOf frames.now names.now text.items) }
    ensures fault { IfErr result (λ fault. IsNamedFault frames.now [] names.now fault) }
{
    let words = words_of(alloc, frames)?;
    let table = names_in(alloc, &words, names)?;
    let code = all_code(alloc, CORE)?;
    let given = Some(table);
    let text = source_with(alloc, &words, &code, &given, &None)?;
    names_of_a_text_are_names_of_their_own();
    Ok(text)
}

/// The same as `source_from`'s with names for some cells, as `named_source_of` takes them.
///
/// A start to which the tape gives no word is refused before the names are read.
pub fn named_source_from(
    alloc: Global,
    frames: &[u8],
    starts: &[Cell],
    names: &[u8],
) -> Result<Vec<u8>, ListFault>
    ensures source { IfOk result (λ text. IsNamedSourceFrom frames.now starts.now names.now text.items) }
    ensures fault { IfErr result (λ fault. IsNamedFault frames.now starts.now names.now fault) }
{
    let map = words_of(alloc, frames)?;
    if let Some(start) = first_without(&map, starts) {
        return Err(ListFault::NoStart(start));
    }
    let table = names_in(alloc, &map, names)?;
    let code = flow(alloc, &map, starts)?;
    let notes = Notes::new(alloc, &map, &code)?;
    let given = Some(table);
    let beside = Some(notes);
    let text = source_with(alloc, &map, &code, &given, &beside)?;
    names_of_a_text_are_names_of_their_own();
    notes_are_graphic();
    Ok(text)
}

/// The names that a text gives cells with these words, or the first line that is refused.
pub fn names_in(alloc: Global, words: &[Option<Word>], text: &[u8]) -> Result<CellNames, ListFault>
    requires { length words.now ≡ CORE }
    ensures names { IfOk result (λ names. AreNames (word_in words.now) text.now names) }
    ensures fault { IfErr result (λ fault. IsRefused (word_in words.now) text.now fault) }
{
    match names_of(alloc, text, words) {
        Ok(names) => Ok(names),
        Err(NamesFault::At(line, why)) => Err(ListFault::Names(line, why)),
        Err(NamesFault::Memory) => Err(ListFault::Memory),
    }
}

/// The first of these cells that has no word.
pub fn first_without(words: &[Option<Word>], starts: &[Cell]) -> Option<Cell>
    requires { length words.now ≡ CORE }
    ensures { MatchOption result (AllGiven (word_in words.now) starts.now)
        (IsFirstWithout (word_in words.now) starts.now) }
{
    for start in starts {
        if words[start.index()].is_none() {
            return Some(*start);
        }
    }
    None
}

/// All cells are taken for instructions.
#[tactic(auto, using(crate::proofs::TapeLemmas::told_all))]
pub fn all_code(alloc: Global, count: usize) -> Result<Vec<bool>, AllocError>
    ensures code { IfOk result (λ code. (cell : ℕ) → cell < count → is_flagged code.items cell ≡ true) }
    ensures size { IfOk result (λ code. vec_len code ≡ count) }
{
    let code = vec![in alloc; true; count]?;
    Ok(code)
}

/// The source of these words, of which these are instructions, with these names for cells and these notes beside the words.
fn source_with(
    alloc: Global,
    words: &[Option<Word>],
    code: &[bool],
    names: &Option<CellNames>,
    notes: &Option<Notes<'_>>,
) -> Result<Vec<u8>, ListFault>
    requires words { length words.now ≡ CORE }
    requires code { length code.now ≡ CORE }
    ensures source { IfOk result (λ text. SaysWords words.now
        (look_with names.now notes.now (is_flagged code.now)) text.items) }
    ensures fault { IfErr result (λ fault. IsNoSource words.now fault) }
{
    let flags = tags_of(alloc, words, code, names)?;
    let tags = Tags {
        flags: &flags,
        names,
    };
    let mut text = lines_of(alloc, words, code, &tags, notes)?;
    if text.is_empty() {
        return Err(ListFault::NoWord);
    }
    text.extend_from_slice(b"$\r\n")?;
    Ok(text)
}

/// The last word that a tape gives each cell.
pub fn words_of(alloc: Global, frames: &[u8]) -> Result<Vec<Option<Word>>, ListFault>
    ensures size { IfOk result (λ words. vec_len words ≡ CORE) }
    ensures words { IfOk result (λ words. IsMapOf frames.now words.items) }
    ensures fault { IfErr result (λ fault. IsUnread frames.now fault) }
{
    match TapeMap::read(alloc, frames) {
        Ok(map) => {
            let words = words_in(alloc, &map)?;
            Ok(words)
        }
        Err(fault) => Err(fault_of(fault)),
    }
}

/// The words of a map, cell by cell.
fn words_in(alloc: Global, map: &TapeMap) -> Result<Vec<Option<Word>>, AllocError>
    ensures size { IfOk result (λ words. vec_len words ≡ CORE) }
    ensures words { IfOk result (λ words. (cell : ℕ) → cell < CORE
        → slice_index_or words.items cell None ≡ slice_index_or map.now cell None) }
{
    let mut words = Vec::with_capacity(alloc, CORE)?;
    for number in 0u32..CORE as u32 {
        words.push(map.get(Cell::of(number)))?;
    }
    Ok(words)
}

/// A tape's fault, or that memory ran out.
fn fault_of(fault: TapeFault) -> ListFault
    ensures { (frames : List ℕ) → IsMapFault frames fault → IsUnread frames result }
{
    match fault {
        TapeFault::Memory => ListFault::Memory,
        _ => ListFault::Tape(fault),
    }
}

/// The lines of the cells that have a word, by rising cell, where these cells hold instructions, these are tagged, and these notes
/// stand beside their words.
fn lines_of(
    alloc: Global,
    words: &[Option<Word>],
    code: &[bool],
    tags: &Tags<'_>,
    notes: &Option<Notes<'_>>,
) -> Result<Vec<u8>, AllocError>
    requires words { length words.now ≡ CORE }
    requires code { length code.now ≡ CORE }
    requires size { length tags.now.flags.now ≡ CORE }
    ensures { IfOk result (λ text. (items : List Item) → HoldsMap items words.now
        → text.items ≡ lines_of (look_with tags.now.names.now notes.now (is_flagged code.now))
        (is_flagged tags.now.flags.now) (words_of_tape items)) }
{
    let mut text = Vec::new(alloc);
    let mut before = None;
    for number in 0u32..CORE as u32 {
        let word = words[number as usize];
        before = put_next(&mut text, code, tags, notes, before, Cell::of(number), word)?;
    }
    Ok(text)
}

/// Appends the lines of a cell, if it has a word, and answers the last cell that has one.
fn put_next(
    text: &mut Vec<u8>,
    code: &[bool],
    tags: &Tags<'_>,
    notes: &Option<Notes<'_>>,
    before: Option<Cell>,
    cell: Cell,
    word: Option<Word>,
) -> Result<Option<Cell>, AllocError>
    requires code { length code.now ≡ CORE }
    requires tags { length tags.now.flags.now ≡ CORE }
    ensures text { (older : List (ℕ × ℕ))
        → text.old.items ≡ lines_of (look_with tags.now.names.now notes.now (is_flagged code.now))
        (is_flagged tags.now.flags.now) older
        → before ≡ newest_cell older
        → OnOk result (text.new.items
        ≡ lines_of (look_with tags.now.names.now notes.now (is_flagged code.now))
        (is_flagged tags.now.flags.now) (with_word word cell older)) }
    ensures cell { (older : List (ℕ × ℕ)) → before ≡ newest_cell older
        → IfOk result (λ next. next ≡ newest_cell (with_word word cell older)) }
{
    match word {
        Some(word) => {
            put_cell(text, code, tags, notes, before, cell, word)?;
            Ok(Some(cell))
        }
        None => Ok(before),
    }
}

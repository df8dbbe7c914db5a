ghost use Rattle.std.specs.Prelude.{◌≡◌, ◌&&◌, ◌||◌, ◌<◌, ℕ, IfErr, IfOk, is_some, length, not, option_map, vec_len};
ghost use Rattle.word12.specs.declared.sizes.TheConstants.{CORE};
ghost use Rattle.flow8.specs.Flow.{word_in};
ghost use Rattle.source_notes.specs.Notes.{is_flagged};
ghost use Rattle.tape_source.specs.Steps.{name_by};
ghost use Rattle.pal8_source.specs.Sources.{AreInstructions, GivesNames, IsPal8Fault, IsPal8Source, has_some, notes_of};
ghost use Rattle.pal8_source.specs.Steps.{IsLowest, IsSourceOfWords, IsUnnamed};

use crate::Pal8Fault;
use crate::lines::lines_of;
use crate::pools::pooled_cells;
use crate::programs::Program;
use crate::reserved::first_reserved;
use crate::sheets::Sheet;
use flow8::flow;
use source_names::CellNames;
use source_notes::Notes;
use std::alloc::{AllocError, Global};
use tape_source::{ListFault, all_code, first_without, names_in, tags_of, words_of};
use word12::{CORE, Cell, Word};

/// The PAL8 source of a BIN tape, as `assemble --pal8` takes it (PAL8, in this project's profile). It has the lines of the PAL III source but for
/// pools, `PAGE` and `TEXT`. Where a program starts at some cells, just the words that it reaches are instructions. Where a text gives cells names,
/// these are their tags.
///
/// The tape's fault is reported first, then a start without a word, a line of the names, a name that PAL8 reserves, and a tape of no word.
pub fn pal8_source(
    alloc: Global,
    frames: &[u8],
    starts: &[Cell],
    names: &Option<Vec<u8>>,
) -> Result<Vec<u8>, Pal8Fault>
    ensures source { IfOk result (λ text.
        IsPal8Source frames.now starts.now (option_map (λ names. names.items) names.now) text.items) }
    ensures fault { IfErr result (λ fault.
        IsPal8Fault frames.now starts.now (option_map (λ names. names.items) names.now) fault) }
{
    let words = words_of(alloc, frames)?;
    if let Some(start) = first_without(&words, starts) {
        return Err(Pal8Fault::List(ListFault::NoStart(start)));
    }
    let table = table_of(alloc, &words, names)?;
    if let Some(cell) = first_reserved(&table) {
        return Err(Pal8Fault::Reserved(cell));
    }
    let Some(_first) = first_word(&words) else {
        return Err(Pal8Fault::List(ListFault::NoWord));
    };
    let code = code_of(alloc, &words, starts)?;
    let text = source_with(alloc, &words, &code, &table, has_some(starts))?;
    Ok(text)
}

/// The names that a text gives cells, if there is one.
fn table_of(
    alloc: Global,
    words: &[Option<Word>],
    names: &Option<Vec<u8>>,
) -> Result<Option<CellNames>, ListFault>
    requires { length words.now ≡ CORE }
    ensures names { IfOk result (λ table.
        GivesNames (word_in words.now) (option_map (λ names. names.items) names.now) table) }
    ensures fault { IfErr result (λ fault.
        IsUnnamed (word_in words.now) (option_map (λ names. names.items) names.now) fault) }
{
    match names {
        Some(names) => {
            let table = names_in(alloc, words, names)?;
            Ok(Some(table))
        }
        None => Ok(None),
    }
}

/// The lowest cell that has a word.
fn first_word(words: &[Option<Word>]) -> Option<Cell>
    requires { length words.now ≡ CORE }
    ensures { IsLowest (λ cell. is_some (word_in words.now cell)) result }
{
    for number in 0u32..CORE as u32 {
        let cell = Cell::of(number);
        if has_word(words, cell) {
            return Some(cell);
        }
    }
    None
}

/// Whether a cell has a word.
fn has_word(words: &[Option<Word>], cell: Cell) -> bool
    requires { length words.now ≡ CORE }
    ensures { result ≡ is_some (word_in words.now cell) }
{
    words[cell.index()].is_some()
}

/// Whether a start is given.
fn has_some(starts: &[Cell]) -> bool
    ensures { result ≡ has_some starts.now }
{
    match starts {
        [] => false,
        _ => true,
    }
}

/// Which words are instructions: all, or those that a program reaches from its starts.
fn code_of(alloc: Global, words: &[Option<Word>], starts: &[Cell]) -> Result<Vec<bool>, AllocError>
    requires { length words.now ≡ CORE }
    ensures size { IfOk result (λ code. vec_len code ≡ CORE) }
    ensures code { IfOk result (λ code. AreInstructions (word_in words.now) starts.now (is_flagged code.items)) }
{
    if starts.is_empty() {
        return all_code(alloc, CORE);
    }
    flow(alloc, words, starts)
}

/// The source of these words, of which these are instructions.
fn source_with(
    alloc: Global,
    words: &[Option<Word>],
    code: &[bool],
    names: &Option<CellNames>,
    has_starts: bool,
) -> Result<Vec<u8>, AllocError>
    requires words { length words.now ≡ CORE }
    requires code { length code.now ≡ CORE }
    ensures { IfOk result (λ text. IsSourceOfWords words.now code.now names.now has_starts text.items) }
{
    let exempt = kept_cells(alloc, code, names, has_starts)?;
    let program = Program {
        words,
        code,
        exempt: &exempt,
    };
    let pools = pooled_cells(alloc, &program)?;
    let shown = all_but(alloc, code, &pools)?;
    let marked = tags_of(alloc, words, &shown, names)?;
    let flags = all_but(alloc, &marked, &pools)?;
    let notes = notes_of(alloc, words, code, has_starts)?;
    let sheet = Sheet {
        words,
        pools: &pools,
        code: &shown,
        flags: &flags,
        names,
        notes: &notes,
        has_starts,
    };
    let mut text = lines_of(alloc, &sheet)?;
    text.extend_from_slice(b"$\r\n")?;
    Ok(text)
}

/// The notes of words, where a start is given.
fn notes_of<'w>(
    alloc: Global,
    words: &'w [Option<Word>],
    code: &'w [bool],
    has_starts: bool,
) -> Result<Option<Notes<'w>>, AllocError>
    requires words { length words.now ≡ CORE }
    requires code { length code.now ≡ CORE }
    ensures { IfOk result (λ notes. notes ≡ notes_of words.now code.now has_starts) }
{
    if !has_starts {
        return Ok(None);
    }
    let notes = Notes::new(alloc, words, code)?;
    Ok(Some(notes))
}

/// Which cells are no pool's, since they are named or are reached from a start.
fn kept_cells(
    alloc: Global,
    code: &[bool],
    names: &Option<CellNames>,
    has_starts: bool,
) -> Result<Vec<bool>, AllocError>
    requires { length code.now ≡ CORE }
    ensures size { IfOk result (λ exempt. vec_len exempt ≡ CORE) }
    ensures exempt { IfOk result (λ exempt. (cell : ℕ) → cell < CORE → is_flagged exempt.items cell
        ≡ (is_some (name_by names.now cell) || (has_starts && is_flagged code.now cell))) }
{
    let mut exempt = Vec::with_capacity(alloc, CORE)?;
    for number in 0u32..CORE as u32 {
        let is_kept = has_name(names, Cell::of(number)) || (has_starts && code[number as usize]);
        exempt.push(is_kept)?;
    }
    Ok(exempt)
}

/// Whether a cell is given a name.
fn has_name(names: &Option<CellNames>, cell: Cell) -> bool
    ensures { result ≡ is_some (name_by names.now cell) }
{
    match names {
        Some(names) => names.get(cell).is_some(),
        None => false,
    }
}

/// These flags, where others aren't set.
fn all_but(alloc: Global, flags: &[bool], others: &[bool]) -> Result<Vec<bool>, AllocError>
    requires flags { length flags.now ≡ CORE }
    requires others { length others.now ≡ CORE }
    ensures size { IfOk result (λ left. vec_len left ≡ CORE) }
    ensures flags { IfOk result (λ left. (cell : ℕ) → cell < CORE → is_flagged left.items cell
        ≡ (is_flagged flags.now cell && not (is_flagged others.now cell))) }
{
    let mut left = Vec::with_capacity(alloc, CORE)?;
    for number in 0u32..CORE as u32 {
        left.push(flags[number as usize] && !others[number as usize])?;
    }
    Ok(left)
}

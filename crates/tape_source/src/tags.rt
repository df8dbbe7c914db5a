ghost use Rattle.std.specs.Prelude.{◌≡◌, ℕ, ◌<◌, ◌&&◌, ◌++◌, suc, List, IfOk, OnOk, is_some, length, vec_len};
ghost use Rattle.word12.specs.declared.sizes.TheConstants.{CORE};
ghost use Rattle.bin_tape.specs.Items.{Item};
ghost use Rattle.tape_source.specs.References.{is_reference};
ghost use Rattle.flow8.specs.Flow.{word_in};
ghost use Rattle.tape_source.specs.Tags.{is_flagged, tag};
ghost use Rattle.tape_source.specs.Looks.{Look, as_shown, name_or_tag};
ghost use Rattle.tape_source.specs.Steps.{HoldsMap, HoldsFlags, HoldsNames, name_by, tagged_below};

use flow8::referred_cell;
use source_names::{CellNames, visible_name};
use source_notes::is_reference;
use std::alloc::{AllocError, Global};
use word12::{CORE, Cell, Word};

/// Which cells are tagged, and the names that some are given.
#[derive(Drop)]
pub struct Tags<'t> {
    pub flags: &'t [bool],
    pub names: &'t Option<CellNames>,
}

/// Appends a cell's tag: the name that it is given, or else the tag that is made of it.
pub fn put_name(text: &mut Vec<u8>, names: &Option<CellNames>, cell: Cell) -> Result<(), AllocError>
    ensures { OnOk result (text.new.items ≡ text.old.items ++ name_or_tag (name_by names.now) cell) }
{
    match name_of(names, cell) {
        Some(six) => text.extend_from_slice(visible_name(&six)),
        None => text.extend_from_slice(&tag(cell)),
    }
}

/// The name that a cell is given, in six places, if it is given one.
fn name_of(names: &Option<CellNames>, cell: Cell) -> Option<[u8; 6]>
    ensures { as_shown result ≡ name_by names.now cell }
{
    match names {
        Some(names) => names.get(cell),
        None => None,
    }
}

/// The tag that is made of a cell.
fn tag(cell: Cell) -> [u8; 6]
    ensures { result ≡ tag cell }
{
    let [f, a, b, c, d] = cell.octal5();
    [b'A', f, a, b, c, d]
}

/// Which cells are tagged: those with a word that are given a name, or that a memory reference among the instructions names. The
/// instructions are in these cells.
pub fn tags_of(
    alloc: Global,
    words: &[Option<Word>],
    code: &[bool],
    names: &Option<CellNames>,
) -> Result<Vec<bool>, AllocError>
    requires words { length words.now ≡ CORE }
    requires code { length code.now ≡ CORE }
    ensures size { IfOk result (λ tags. vec_len tags ≡ CORE) }
    ensures tags { IfOk result (λ tags. (look : Look) (items : List Item) → HoldsMap items words.now
        → HoldsFlags look.is_code code.now → HoldsNames look.has_name names.now
        → HoldsFlags (tagged_below look items CORE) tags.items) }
{
    let mut tags = named_cells(alloc, words, names)?;
    mark_all(&mut tags, words, code);
    Ok(tags)
}

/// The cells with a word that are given a name.
fn named_cells(
    alloc: Global,
    words: &[Option<Word>],
    names: &Option<CellNames>,
) -> Result<Vec<bool>, AllocError>
    requires { length words.now ≡ CORE }
    ensures size { IfOk result (λ tags. vec_len tags ≡ CORE) }
    ensures tags { IfOk result (λ tags. (cell : ℕ) → cell < CORE → is_flagged tags.items cell
        ≡ (is_some (word_in words.now cell) && is_some (name_by names.now cell))) }
{
    let mut tags = Vec::with_capacity(alloc, CORE)?;
    for number in 0u32..CORE as u32 {
        tags.push(is_named(words, names, Cell::of(number)))?;
    }
    Ok(tags)
}

/// Whether a cell has a word and is given a name.
fn is_named(words: &[Option<Word>], names: &Option<CellNames>, cell: Cell) -> bool
    requires { length words.now ≡ CORE }
    ensures { result ≡ (is_some (word_in words.now cell) && is_some (name_by names.now cell)) }
{
    words[cell.index()].is_some() && name_of(names, cell).is_some()
}

/// Marks the cells that memory references among the instructions name, where none is marked before.
fn mark_all(tags: &mut [bool], words: &[Option<Word>], code: &[bool])
    requires size { length tags.old ≡ CORE }
    requires words { length words.now ≡ CORE }
    requires code { length code.now ≡ CORE }
    ensures { (look : Look) (items : List Item) → HoldsMap items words.now
        → HoldsFlags look.is_code code.now → HoldsFlags (tagged_below look items 0) tags.old
        → HoldsFlags (tagged_below look items CORE) tags.new }
{
    for number in 0u32..CORE as u32 {
        mark(tags, words, code, Cell::of(number));
    }
}

/// Whether a word at an address is an instruction, and a memory reference.
fn refers(is_code: bool, at: Word, word: Word) -> bool
    ensures { result ≡ (is_code && is_reference at word) }
{
    is_code && is_reference(at, word)
}

/// Marks the cell that a cell's word names, if the word is an instruction, a memory reference, and the named cell has a word.
fn mark(tags: &mut [bool], words: &[Option<Word>], code: &[bool], cell: Cell)
    requires size { length tags.old ≡ CORE }
    requires words { length words.now ≡ CORE }
    requires code { length code.now ≡ CORE }
    ensures { (look : Look) (items : List Item) → HoldsMap items words.now
        → HoldsFlags look.is_code code.now → HoldsFlags (tagged_below look items cell) tags.old
        → HoldsFlags (tagged_below look items (suc cell)) tags.new }
{
    let held = words[cell.index()];
    if let Some(word) = held {
        if refers(code[cell.index()], cell.address(), word) {
            let named = referred_cell(cell, word).index();
            tags[named] = words[named].is_some();
        }
    }
}

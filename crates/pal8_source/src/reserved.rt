ghost use Rattle.std.specs.Prelude.{◌≡◌, ◌<◌};
ghost use Rattle.word12.specs.Sixbit.{code_at, name_number};
ghost use Rattle.tape_source.specs.Looks.{as_shown};
ghost use Rattle.tape_source.specs.Steps.{name_by};
ghost use Rattle.pal8_source.specs.Sources.{is_word_of_pal8};
ghost use Rattle.pal8_source.specs.Steps.{IsLowest};

use pal8_grammar::is_reserved;
use pal8_lex::Name;
use source_names::{CellNames, visible_name};
use word12::{CORE, Cell, sixbit};

/// The lowest cell whose name PAL8 reserves.
pub fn first_reserved(table: &Option<CellNames>) -> Option<Cell>
    ensures { IsLowest (λ cell. is_word_of_pal8 (name_by table.now cell)) result }
{
    for number in 0u32..CORE as u32 {
        let cell = Cell::of(number);
        if is_reserved_at(table, cell) {
            return Some(cell);
        }
    }
    None
}

/// Whether a cell is given a name that is a word of PAL8.
fn is_reserved_at(table: &Option<CellNames>, cell: Cell) -> bool
    ensures { result ≡ is_word_of_pal8 (name_by table.now cell) }
{
    match table {
        Some(names) => is_reserved_name(names.get(cell)),
        None => false,
    }
}

/// Whether a name in six places, if there is one, is a word of PAL8.
fn is_reserved_name(name: Option<[u8; 6]>) -> bool
    ensures { result ≡ is_word_of_pal8 (as_shown name) }
{
    match name {
        Some(six) => is_reserved(Name::from_number(name_number(visible_name(&six)))),
        None => false,
    }
}

/// The number that the sixbit codes of six characters make.
fn name_number(name: &[u8]) -> u64
    ensures { result ≡ name_number name.now }
{
    let code = |place| code_at(name, place);
    0o10000000000 * code(0)
        + 0o100000000 * code(1)
        + 0o1000000 * code(2)
        + 0o10000 * code(3)
        + 0o100 * code(4)
        + code(5)
}

/// The sixbit code of a character, 0 to 63, where 0 is that of a missing one.
fn code_at(text: &[u8], place: usize) -> u64
    ensures code { result ≡ code_at text.now place }
    ensures range { result < 0o100 }
{
    match text.get(place) {
        Some(character) => u64::from(sixbit(*character).unwrap_or(0)),
        None => 0,
    }
}

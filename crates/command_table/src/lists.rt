//! What `clap` found for an option that is given several times, where each value is a number.
ghost use Rattle.std.specs.Prelude.{◌≡◌, codes, map, option_map, IfOk, None, Some};
ghost use Rattle.command_table.specs.Found.{cell_of, first_not, place_of, word_of, IsInfo, given_info};
ghost use Rattle.command_table.specs.Values.{IsFirst, IsWell, kind_at, values_in};
ghost use Rattle.command_table.specs.Found as spec;
ghost use Rattle.command_table.specs.Tables.{rows_for};
ghost use Rattle.command_table.specs.declared.table.Form.TheVariants as form;
ghost use Rattle.command_table.specs.declared.table.Kind.TheVariants as kind;

use crate::found::{Read, date_of, texts_in};
use crate::numbers::{cell_in, number_in, word_in};
use crate::table::Verb;
use clap::ArgMatches;
use std::alloc::Global;
use word12::{Cell, MOST_BLOCKS, Word};

/// The cells of an option.
pub fn cells_of(alloc: Global, found: &ArgMatches<'_>, _verb: Verb, id: &str) -> Read<Vec<Cell>>
    requires kind { kind_at id.now (rows_for _verb) ≡ Some (kind.Many form.Cell) }
    requires well { IsWell form.Cell id.now (values_in found.now) }
    ensures { IfOk result (λ cells. map cell_of (spec.values_of id.now (values_in found.now))
        ≡ map (λ cell. Some cell) cells.items) }
{
    cells_in(alloc, texts_in(found, id))
}

/// The cells of texts, each a cell.
fn cells_in(alloc: Global, texts: &[&str]) -> Read<Vec<Cell>>
    requires { first_not form.Cell (map (λ text. text.now) texts.now) ≡ None }
    ensures { IfOk result (λ cells. map cell_of (map (λ text. text.now) texts.now)
        ≡ map (λ cell. Some cell) cells.items) }
{
    let mut cells = Vec::new(alloc);
    for text in texts {
        cells.push(cell_in(text.as_bytes()).unwrap())?;
    }
    Ok(cells)
}

/// The blocks of an option.
pub fn blocks_of(alloc: Global, found: &ArgMatches<'_>, _verb: Verb, id: &str) -> Read<Vec<usize>>
    requires kind { kind_at id.now (rows_for _verb) ≡ Some (kind.Many form.Block) }
    requires well { IsWell form.Block id.now (values_in found.now) }
    ensures { IfOk result (λ blocks. map place_of (spec.values_of id.now (values_in found.now))
        ≡ map (λ block. Some block) blocks.items) }
{
    blocks_in(alloc, texts_in(found, id))
}

/// The blocks of texts, each 0 to 4095.
fn blocks_in(alloc: Global, texts: &[&str]) -> Read<Vec<usize>>
    requires { first_not form.Block (map (λ text. text.now) texts.now) ≡ None }
    ensures { IfOk result (λ blocks. map place_of (map (λ text. text.now) texts.now)
        ≡ map (λ block. Some block) blocks.items) }
{
    let mut blocks = Vec::new(alloc);
    for text in texts {
        blocks.push(number_in(text.as_bytes(), 0, MOST_BLOCKS).unwrap())?;
    }
    Ok(blocks)
}

/// The information words, if any is given: that of a date, or those that are given themselves.
pub fn info_of(alloc: Global, found: &ArgMatches<'_>, verb: Verb) -> Read<Option<Vec<Word>>>
    requires kind { kind_at (codes "info") (rows_for verb) ≡ Some (kind.Many form.Octal) }
    requires well { IsWell form.Octal (codes "info") (values_in found.now) }
    requires date { kind_at (codes "date") (rows_for verb) ≡ Some (kind.One form.Date) }
    requires first_date { IsFirst form.Date (codes "date") (values_in found.now) }
    ensures { IfOk result (λ info.
        IsInfo (values_in found.now) (option_map (λ words. words.items) info)) }
{
    match date_of(found, verb) {
        Some(word) => {
            let mut words = Vec::new(alloc);
            words.push(word)?;
            Ok(Some(words))
        }
        None => given_info(alloc, found, verb),
    }
}

/// The information words that are given themselves.
fn given_info(alloc: Global, found: &ArgMatches<'_>, _verb: Verb) -> Read<Option<Vec<Word>>>
    requires kind { kind_at (codes "info") (rows_for _verb) ≡ Some (kind.Many form.Octal) }
    requires well { IsWell form.Octal (codes "info") (values_in found.now) }
    ensures { IfOk result (λ info. given_info (values_in found.now)
        ≡ option_map (map (λ word. Some word)) (option_map (λ words. words.items) info)) }
{
    match found.get_strs("info") {
        Some(texts) => {
            let words = words_in(alloc, texts)?;
            Ok(Some(words))
        }
        None => Ok(None),
    }
}

/// The words of texts, each a word.
fn words_in(alloc: Global, texts: &[&str]) -> Read<Vec<Word>>
    requires { first_not form.Octal (map (λ text. text.now) texts.now) ≡ None }
    ensures { IfOk result (λ words. map word_of (map (λ text. text.now) texts.now)
        ≡ map (λ word. Some word) words.items) }
{
    let mut words = Vec::new(alloc);
    for text in texts {
        words.push(word_in(text.as_bytes()).unwrap())?;
    }
    Ok(words)
}

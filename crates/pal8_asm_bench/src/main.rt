//! Assembles a PAL8 source on standard input by `pal8_asm`, to hold it to the plain model. The first byte is no part of it: its low bits are the
//! options. It prints each cell that has a word, as field,
//! address and word in octal. Or it prints the code of the first fault with its line, and the byte at which its statement begins. The name
//! or the cell that the fault is about follows, by its number in octal.
#![tactic(auto)]

use pal8_asm::{AsmFault, Place, assemble};
use pal8_places::{Code, Options};
use std::alloc::{AllocError, Global};
use std::io::Read;
use std::process::ExitCode;
use word12::{CORE, Cell, Word};

/// What a cell without a word has.
const NO_WORD: u16 = 0o10000;

fn no_words(alloc: Global, count: usize) -> Result<Vec<u16>, AllocError> {
    let words = vec![in alloc; NO_WORD; count]?;
    Ok(words)
}

/// The words of core.
fn core_of(alloc: Global, pairs: &[(Cell, Word)]) -> Result<Vec<u16>, AllocError> {
    let mut words = no_words(alloc, CORE)?;
    for pair in pairs {
        if let Some(place) = words.get_mut(pair.0.index()) {
            *place = pair.1.get();
        }
    }
    Ok(words)
}

/// Prints the cells that have words.
fn print_core(rt: &mut HostRuntime, words: &[u16]) -> bool {
    let mut cell: u32 = 0;
    for word in words {
        if *word != NO_WORD {
            let printed = println!(rt; "{} {:04o} {:04o}", cell / 0o10000, cell % 0o10000, *word);
            if printed.is_err() {
                return false;
            }
        }
        cell = cell.saturating_add(1) % 0o100000;
    }
    true
}

fn letters_of(code: Code) -> &'static str {
    match code {
        Code::IC => "IC",
        Code::SY => "SY",
        Code::NU => "NU",
        Code::UA(_) => "UA",
        Code::DT(_) => "DT",
        Code::RD => "RD",
        Code::IR => "IR",
        Code::II => "II",
        Code::FD => "FD",
        Code::PG => "PG",
        Code::PF => "PF",
        Code::DZ => "DZ",
        Code::PE | Code::PageClash(_) => "PE",
        Code::ZE | Code::ZeroClash(_) => "ZE",
        Code::RL => "RL",
        Code::PH => "PH",
        Code::NE => "NE",
        Code::NW => "NW",
    }
}

/// What a fault is about: a name, or a cell.
fn about(code: Code) -> Option<u64> {
    match code {
        Code::UA(name) => Some(name),
        Code::DT(name) => Some(name),
        Code::PageClash(cell) | Code::ZeroClash(cell) => Some(cell.index() as u64),
        _ => None,
    }
}

fn print_fault(rt: &mut HostRuntime, code: Code, place: Place) -> bool {
    let again = code;
    let letters = letters_of(code);
    let printed = match about(again) {
        Some(number) => println!(rt;
            "? 5 {} {} {} {:o}",
            letters, place.line, place.start, number
        ),
        None => println!(rt; "? 5 {} {} {}", letters, place.line, place.start),
    };
    printed.is_ok()
}

fn status(is_done: bool) -> ExitCode {
    if is_done {
        ExitCode::SUCCESS
    } else {
        ExitCode::FAILURE
    }
}

/// The options whose bits are set.
fn options_of(bits: u8) -> Options {
    Options {
        is_without_links: bits & 1 != 0,
        is_without_zero: bits & 2 != 0,
        is_without_origin: bits & 4 != 0,
        has_stays: bits & 8 != 0,
    }
}

fn main(rt: HostRuntime) -> ExitCode {
    let mut rt = rt;
    let mut text = Vec::new(rt.alloc());
    if rt.reader().read_to_end(&mut text).is_err() {
        return ExitCode::FAILURE;
    }
    let [bits, source @ ..] = text.as_slice() else {
        return ExitCode::FAILURE;
    };
    match assemble(rt.alloc(), options_of(*bits), source) {
        Ok(pairs) => match core_of(rt.alloc(), &pairs) {
            Ok(words) => status(print_core(&mut rt, &words)),
            Err(_) => ExitCode::FAILURE,
        },
        Err(AsmFault::At(code, place)) => status(print_fault(&mut rt, code, place)),
        Err(AsmFault::Memory) => ExitCode::FAILURE,
    }
}

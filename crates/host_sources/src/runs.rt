//! The letters and digits of a statement that stand together.
ghost use Rattle.std.specs.Prelude.{◌≡◌, ◌≤◌, ◌++◌, ℕ, ◌∷◌, [], List, Option, Some, None, if◌then◌else◌, IfOk, IfSome, OnOk};
ghost use Rattle.std.specs.Option.{option_or};
ghost use Rattle.pal_lex.specs.Text.{text_of, stretch};
ghost use Rattle.pal_lex.specs.Text as spec;
ghost use Rattle.pal_lex.specs.Cutting.{pieces};
ghost use Rattle.pal_lex.specs.Cutting as cut;
ghost use Rattle.word12.specs.Sixbit as sixbit;
ghost use Rattle.host_sources.specs.Runs as runs;
ghost use Rattle.host_sources.specs.RunSteps.{base_of, is_wanted};
ghost use Rattle.host_sources.specs.RunSteps.{TakesDigit, is_number_by, start_by, with_live, illegal_by, IsSearch};

use crate::starts::{comment_after, is_dead};
use pal_sym::SymbolName;
use std::alloc::{AllocError, Global};

/// The name `DECIMAL`, of which six characters count.
const DECIMAL: u64 = 0o040503111501;

/// The name `OCTAL`.
const OCTAL: u64 = 0o170324011400;

/// The name `PAUSE`.
const PAUSE: u64 = 0o200125230500;

/// Which runs are looked for.
#[derive(Clone, Copy)]
pub(crate) enum Wanted {
    /// Those of a name, by the number that its sixbit codes make.
    Name(u64),
    /// Those that begin with a digit and are no number, in decimal or in octal.
    BadNumber(bool),
    /// DECIMAL, OCTAL and PAUSE, which say how what follows is read.
    Reading,
}

/// The run at the end of the bytes so far, and where the first one begins that is looked for, before it.
#[derive(Drop)]
struct Search {
    run: Vec<u8>,
    start: usize,
    first: Option<usize>,
}

/// Where the first run begins that is looked for, in the statement that a byte after a text ends.
pub(crate) fn first_run(
    alloc: Global,
    before: &[u8],
    wanted: &Wanted,
) -> Result<Option<usize>, AllocError>
    ensures { IfOk result (λ at. at ≡ runs.first_run (is_wanted wanted.now)
        (pieces (stretch (text_of before.now)))) }
{
    let mut search = Search {
        run: Vec::new(alloc),
        start: 0,
        first: None,
    };
    let mut comment = false;
    let mut taken = 0;
    while taken < before.len() {
        let byte = before[taken];
        comment = comment_after(comment, byte);
        let dead = is_dead(comment, byte);
        look(&mut search, dead, byte, taken, wanted)?;
        taken += 1;
    }
    close(&mut search, wanted);
    Ok(search.first)
}

/// Takes a byte, which means something or not.
fn look(
    search: &mut Search,
    dead: bool,
    byte: u8,
    place: usize,
    wanted: &Wanted,
) -> Result<(), AllocError>
    ensures { (live : List (ℕ × ℕ)) → IsSearch (is_wanted wanted.now) search.old (pieces live)
        → OnOk result (IsSearch (is_wanted wanted.now) search.new
        (pieces (with_live dead (spec.is_end byte) byte place live))) }
{
    if dead {
        return Ok(());
    }
    if is_end(byte) {
        renew(search);
        return Ok(());
    }
    if is_coded(byte) {
        return grow(search, byte, place);
    }
    if is_legal(byte) {
        close(search, wanted);
    }
    Ok(())
}

/// Begins a statement.
fn renew(search: &mut Search)
    ensures run { search.new.run.items ≡ [] }
    ensures start { search.new.start ≡ 0 }
    ensures found { search.new.first ≡ None }
{
    search.run.clear();
    search.start = 0;
    search.first = None;
}

/// Takes a letter or a digit.
fn grow(search: &mut Search, byte: u8, place: usize) -> Result<(), AllocError>
    ensures run { OnOk result (search.new.run.items ≡ search.old.run.items ++ byte ∷ []) }
    ensures start { OnOk result (search.new.start ≡ start_by search.old.run.items place search.old.start) }
    ensures found { search.new.first ≡ search.old.first }
{
    let start = start_by(&search.run, place, search.start);
    search.run.push(byte)?;
    search.start = start;
    Ok(())
}

/// Where a run begins that a letter or a digit at a place goes on.
fn start_by(run: &[u8], place: usize, start: usize) -> usize
    ensures { result ≡ start_by run.now place start }
{
    match run {
        [] => place,
        [_, ..] => start,
    }
}

/// Ends a run.
fn close(search: &mut Search, wanted: &Wanted)
    ensures run { search.new.run.items ≡ [] }
    ensures start { search.new.start ≡ 0 }
    ensures found { search.new.first ≡ option_or search.old.first
        (if is_wanted wanted.now search.old.run.items then Some search.old.start else None) }
{
    if search.first.is_none() && is_wanted(wanted, &search.run) {
        search.first = Some(search.start);
    }
    search.run.clear();
    search.start = 0;
}

/// Whether a run is one that is looked for.
fn is_wanted(wanted: &Wanted, run: &[u8]) -> bool
    ensures { result ≡ is_wanted wanted.now run.now }
{
    match wanted {
        Wanted::Name(name) => is_name(*name, run),
        Wanted::BadNumber(is_decimal) => is_bad_number(*is_decimal, run),
        Wanted::Reading => { is_name(DECIMAL, run) || is_name(OCTAL, run) || is_name(PAUSE, run) }
    }
}

/// Whether a run spells a name.
fn is_name(name: u64, run: &[u8]) -> bool
    ensures { result ≡ runs.is_name name run.now }
{
    match SymbolName::of(run) {
        Some(symbol) => symbol.number() == name,
        None => false,
    }
}

/// Whether a run begins with a digit, and is no number of twelve bits.
fn is_bad_number(is_decimal: bool, run: &[u8]) -> bool
    ensures { result ≡ runs.is_bad_number (base_of is_decimal) run.now }
{
    match run {
        [] => false,
        [first, ..] => !is_letter(*first) && !is_number(is_decimal, run),
    }
}

/// Whether digits are a number of twelve bits.
fn is_number(is_decimal: bool, run: &[u8]) -> bool
    ensures { result ≡ is_number_by (base_of is_decimal) 0 run.now }
{
    let mut value = 0;
    let mut rest = run;
    while let [digit, others @ ..] = rest {
        match with_digit(is_decimal, value, *digit) {
            Some(next) => value = next,
            None => return false,
        }
        rest = others;
    }
    true
}

/// A number of twelve bits with one digit more, if that is one.
fn with_digit(is_decimal: bool, value: u16, digit: u8) -> Option<u16>
    requires { value ≤ 0o7777 }
    ensures number { (others : List ℕ) → TakesDigit (base_of is_decimal) value digit others result }
    ensures range { IfSome result (λ next. next ≤ 0o7777) }
{
    let base = base_of(is_decimal);
    let digit = u16::from(digit);
    if digit < 0o60 || digit >= 0o60 + base {
        return None;
    }
    let next = base * value + (digit - 0o60);
    if next > 0o7777 {
        return None;
    }
    Some(next)
}

/// The base of numbers.
fn base_of(is_decimal: bool) -> u16
    ensures value { result ≡ base_of is_decimal }
    ensures range { result ≤ 10 }
{
    match is_decimal {
        true => 10,
        false => 8,
    }
}

/// The first byte that is no character of PAL III, with its place, in the statement that a byte after a text ends.
pub(crate) fn first_illegal(before: &[u8]) -> Option<(u8, usize)>
    ensures { result ≡ runs.first_illegal (stretch (text_of before.now)) }
{
    let mut comment = false;
    let mut found = None;
    let mut taken = 0;
    while taken < before.len() {
        let byte = before[taken];
        comment = comment_after(comment, byte);
        let dead = is_dead(comment, byte);
        found = illegal_after(found, dead, byte, taken);
        taken += 1;
    }
    found
}

/// The first such byte of a statement so far, with one byte more, which means something or not.
fn illegal_after(
    found: Option<(u8, usize)>,
    dead: bool,
    byte: u8,
    place: usize,
) -> Option<(u8, usize)>
    ensures { result ≡ illegal_by found dead (spec.is_end byte) byte place }
{
    if dead {
        return found;
    }
    if is_end(byte) {
        return None;
    }
    if found.is_some() || is_legal(byte) {
        return found;
    }
    Some((byte, place))
}

/// Whether a byte ends a statement, where it means something.
pub(crate) fn is_end(byte: u8) -> bool
    ensures { result ≡ spec.is_end byte }
{
    matches!(byte, b';' | b'\r' | b'$')
}

/// Whether a byte is a letter or a digit.
fn is_coded(byte: u8) -> bool
    ensures { result ≡ cut.is_coded byte }
{
    is_letter(byte) || matches!(byte, b'0'..=b'9')
}

fn is_letter(byte: u8) -> bool
    ensures { result ≡ sixbit.is_letter byte }
{
    matches!(byte, b'A'..=b'Z')
}

/// Whether a byte that ends no statement and begins no comment is a character of PAL III.
fn is_legal(byte: u8) -> bool
    ensures { result ≡ cut.is_legal byte }
{
    is_coded(byte) || matches!(byte, b' ' | b'\t' | b'.' | b'+' | b'-' | b'=' | b',' | b'*')
}

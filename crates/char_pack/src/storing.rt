ghost use Rattle.std.specs.Prelude.{◌≡◌, ◌+◌, ◌*◌, ◌++◌, ◌∷◌, ◌↔◌, ◌≤◌, ℕ, List, [], true, false, map, length, IfOk, OnOk, IsErrOf, vec_len};
ghost use Rattle.word12.specs.declared.sizes.TheConstants.{BLOCK};
ghost use Rattle.char_pack.specs.Packing.{words_of_bytes, block_count};
ghost use Rattle.char_pack.specs.StoreSteps.{held_bytes, packed_text, is_plain};
ghost use Rattle.char_pack.specs.Texts as spec;
ghost use Rattle.char_pack.specs.declared.faults.TextFault.TheVariants.{BadText};
ghost use Rattle.char_pack.specs.declared.storing.Held.TheVariants.{Nothing};

use crate::TextFault;
use crate::packing::{BLOCK_FRAMES, push_group, push_zeros};
use crate::texts::CONTROL_Z;
use std::alloc::{AllocError, Global};
use word12::{BLOCK, Word};

const CR: u8 = 0o015;

const LF: u8 = 0o012;

/// The top bit, which a stored character has set.
const TOP_BIT: u8 = 0o200;

/// The frame that ends a text.
const END: u8 = TOP_BIT + CONTROL_Z;

/// Whether a host text can be stored: no byte is above 0177 or control Z (this project's profile).
pub fn is_storable(host: &[u8]) -> bool
    ensures { result ≡ spec.is_storable host.now }
{
    let mut refused = false;
    for byte in host {
        refused |= *byte >= 0o200 || *byte == CONTROL_Z;
    }
    !refused
}

/// The number of characters of a host text in a file, where CR is dropped and LF is CR LF (this project's profile).
pub fn character_count(host: &[u8]) -> usize
    ensures { result ≡ length (spec.host_text host.now) }
{
    let mut count = 0;
    for byte in host {
        count += match *byte {
            CR => 0,
            LF => 2,
            _ => 1,
        };
    }
    count
}

/// The number of blocks of a host text in a file, at least one (this project's profile).
pub fn stored_block_count(host: &[u8]) -> usize
    ensures { result ≡ block_count (length (spec.host_text host.now) + 1) }
{
    character_count(host) / BLOCK_FRAMES + 1
}

/// The words of a host text in a file, whole blocks of 256 words: its characters with 0200 set on each, control Z as
/// 0232, then zeros (this project's profile).
pub fn store(alloc: Global, host: &[u8]) -> Result<Vec<Word>, TextFault>
    ensures words { IfOk result (λ words. words.items ≡ spec.words_of_text host.now) }
    ensures length { IfOk result (λ words. vec_len words
        ≡ BLOCK * block_count (length (spec.host_text host.now) + 1)) }
    ensures bad_text { IsErrOf result BadText ↔ (spec.is_storable host.now ≡ false) }
{
    if !is_storable(host) {
        return Err(TextFault::BadText);
    }
    let words = stored_words(alloc, host)?;
    Ok(words)
}

/// The words of a host text that can be stored.
fn stored_words(alloc: Global, host: &[u8]) -> Result<Vec<Word>, AllocError>
    requires { spec.is_storable host.now ≡ true }
    ensures words { IfOk result (λ words. words.items ≡ spec.words_of_text host.now) }
    ensures length { IfOk result (λ words. vec_len words
        ≡ BLOCK * block_count (length (spec.host_text host.now) + 1)) }
{
    let count = BLOCK * (character_count(host) / BLOCK_FRAMES + 1);
    let mut words = Vec::with_capacity(alloc, count)?;
    push_text(&mut words, host)?;
    let left = count.saturating_sub(words.len());
    push_zeros(&mut words, left)?;
    Ok(words)
}

/// The first frames of a group that does not have three yet.
#[derive(Clone, Copy)]
enum Held {
    Nothing,
    One(u8),
    Two(u8, u8),
}

/// Appends the words of the frames of a host text, and of the control Z after them.
fn push_text(words: &mut Vec<Word>, host: &[u8]) -> Result<(), AllocError>
    requires { spec.is_storable host.now ≡ true }
    ensures { OnOk result (words.new.items ≡ words.old.items
        ++ words_of_bytes (spec.text_frames (spec.host_text host.now))) }
{
    let mut held = Held::Nothing;
    let mut rest = host;
    while let [byte, others @ ..] = rest {
        held = put_byte(words, held, *byte)?;
        rest = push_run(words, held, others)?;
    }
    push_end(words, held)
}

/// Appends the words of groups of plain characters from the beginning of a host text where no frame is held. The answer is
/// what is left of it.
fn push_run<'a>(words: &mut Vec<Word>, held: Held, host: &'a [u8]) -> Result<&'a [u8], AllocError>
    requires { spec.is_storable host.now ≡ true }
    ensures words { IfOk result (λ left. words.new.items ++ packed_text held left.now ≡ words.old.items
        ++ packed_text held host.now) }
    ensures storable { IfOk result (λ left. spec.is_storable left.now ≡ true) }
    ensures shorter { IfOk result (λ left. length left.now ≤ length host.now) }
{
    match held {
        Held::Nothing => push_groups(words, host),
        _ => Ok(host),
    }
}

/// Appends the words of groups of plain characters from the beginning of a host text. The answer is what is left of it.
fn push_groups<'a>(words: &mut Vec<Word>, host: &'a [u8]) -> Result<&'a [u8], AllocError>
    requires { spec.is_storable host.now ≡ true }
    ensures words { IfOk result (λ left. words.new.items ++ packed_text Nothing left.now ≡ words.old.items
        ++ packed_text Nothing host.now) }
    ensures storable { IfOk result (λ left. spec.is_storable left.now ≡ true) }
    ensures shorter { IfOk result (λ left. length left.now ≤ length host.now) }
{
    let mut rest = host;
    while let [first, second, third, others @ ..] = rest {
        if !is_plain(*first) || !is_plain(*second) || !is_plain(*third) {
            return Ok(rest);
        }
        push_group(words, TOP_BIT + *first, TOP_BIT + *second, TOP_BIT + *third)?;
        rest = others;
    }
    Ok(rest)
}

/// Whether a byte is a character as it stands.
#[inline(always)]
fn is_plain(byte: u8) -> bool
    ensures { result ≡ is_plain byte }
{
    byte != CR && byte != LF
}

/// Appends the characters of a host byte after what is held, each with its top bit set. The answer is what is held then.
fn put_byte(words: &mut Vec<Word>, held: Held, byte: u8) -> Result<Held, AllocError>
    requires { spec.may_stand byte ≡ true }
    ensures { IfOk result (λ next. (later : List ℕ) → words.new.items ++ words_of_bytes (held_bytes next ++ later)
        ≡ words.old.items ++ words_of_bytes (held_bytes held
        ++ (map (λ character. 0o200 + character) (spec.line_ends byte) ++ later))) }
{
    match byte {
        CR => Ok(held),
        LF => {
            let held = put_frame(words, held, TOP_BIT + CR)?;
            put_frame(words, held, TOP_BIT + LF)
        }
        _ => put_frame(words, held, TOP_BIT + byte),
    }
}

/// Appends a frame after what is held. The answer is what is held then.
#[inline(always)]
fn put_frame(words: &mut Vec<Word>, held: Held, frame: u8) -> Result<Held, AllocError>
    ensures { IfOk result (λ next. (later : List ℕ) → words.new.items ++ words_of_bytes (held_bytes next ++ later)
        ≡ words.old.items ++ words_of_bytes (held_bytes held ++ frame ∷ later)) }
{
    match held {
        Held::Nothing => Ok(Held::One(frame)),
        Held::One(first) => Ok(Held::Two(first, frame)),
        Held::Two(first, second) => {
            push_group(words, first, second, frame)?;
            Ok(Held::Nothing)
        }
    }
}

/// Appends control Z after what is held, and fills its group with zeros.
fn push_end(words: &mut Vec<Word>, held: Held) -> Result<(), AllocError>
    ensures { OnOk result (words.new.items ≡ words.old.items ++ words_of_bytes (held_bytes held ++ 154 ∷ [])) }
{
    match held {
        Held::Nothing => push_group(words, END, 0, 0),
        Held::One(first) => push_group(words, first, END, 0),
        Held::Two(first, second) => push_group(words, first, second, END),
    }
}

//! The texts of sources, in which statements are made harmless.
ghost use Rattle.std.specs.Prelude.{◌≡◌, ◌++◌, ◌∷◌, [], IfOk, IfErr, OnOk, map};
ghost use Rattle.pal8_tape.specs.Joins.{bytes_in, counts_of, joined_bytes};
ghost use Rattle.pal8_tape.specs.Further.{ended_text, ended_texts, harmless_at};
ghost use Rattle.pal8_tape.specs.MendSteps.{Mends, text_if_last};
ghost use Rattle.pal8_tape.specs.declared.faults.SourceFault.TheVariants.{Memory};

use crate::mending::harmless;
use crate::{Join, SourceFault, is_line_open, join_all};
use pal8_places::Options;
use std::alloc::{AllocError, Global};

/// The texts of sources. Each but the last has its last line ended.
pub(crate) fn ended_texts(alloc: Global, sources: &[&[u8]]) -> Result<Vec<Vec<u8>>, AllocError>
    ensures { IfOk result (λ texts. map (λ text. text.items) texts.items ≡ ended_texts (bytes_in sources.now)) }
{
    let mut texts = Vec::new(alloc);
    let mut rest = sources;
    while let [source, others @ ..] = rest {
        let text = ended_text(alloc, source, others.is_empty())?;
        put_text(&mut texts, text)?;
        rest = others;
    }
    Ok(texts)
}

/// The text of a source, whose last line is ended unless it is the last one.
fn ended_text(alloc: Global, source: &[u8], is_last: bool) -> Result<Vec<u8>, AllocError>
    ensures { IfOk result (λ text. text.items ≡ text_if_last is_last source.now) }
{
    let mut text = Vec::new(alloc);
    text.extend_from_slice(source)?;
    if !is_last && is_line_open(source) {
        text.extend_from_slice(b"\n")?;
    }
    Ok(text)
}

fn put_text(texts: &mut Vec<Vec<u8>>, text: Vec<u8>) -> Result<(), AllocError>
    ensures { OnOk result (map (λ it. it.items) texts.new.items ≡ map (λ it. it.items) texts.old.items ++ text.items ∷ []) }
{
    texts.push(text)?;
    Ok(())
}

/// The join of texts. The only fault is `Memory`.
pub(crate) fn join_texts(
    alloc: Global,
    options: Options,
    texts: &[Vec<u8>],
) -> Result<Join, SourceFault>
    ensures text { IfOk result (λ join. join.text.items ≡ joined_bytes options (map (λ text. text.items) texts.now)) }
    ensures counts { IfOk result (λ join. join.counts.items ≡ counts_of options (map (λ text. text.items) texts.now)) }
    ensures fault { IfErr result (λ fault. fault ≡ Memory) }
{
    let sources = slices_of(alloc, texts)?;
    let join = join_all(alloc, options, &sources)?;
    Ok(join)
}

/// Texts as the functions on sources take them.
fn slices_of<'a>(alloc: Global, texts: &'a [Vec<u8>]) -> Result<Vec<&'a [u8]>, AllocError>
    ensures { IfOk result (λ lent. map (λ it. it.now) lent.items ≡ map (λ text. text.items) texts.now) }
{
    let mut lent = Vec::new(alloc);
    let mut rest = texts;
    while let [text, others @ ..] = rest {
        lend(&mut lent, text.as_slice())?;
        rest = others;
    }
    Ok(lent)
}

fn lend<'a>(lent: &mut Vec<&'a [u8]>, text: &'a [u8]) -> Result<(), AllocError>
    ensures { OnOk result (map (λ it. it.now) lent.new.items ≡ map (λ it. it.now) lent.old.items ++ text.now ∷ []) }
{
    lent.push(text)?;
    Ok(())
}

/// Makes the statement of a text harmless that begins at a place, and answers whether there is such a text. It is the one with this number, from 0.
pub(crate) fn mend(
    alloc: Global,
    texts: &mut Vec<Vec<u8>>,
    passed: bool,
    number: usize,
    start: u64,
) -> Result<bool, AllocError>
    ensures { IfOk result (λ is. Mends (harmless_at passed (map (λ text. text.items) texts.old.items) number start) is texts.new.items) }
{
    if number >= texts.len() {
        return Ok(false);
    }
    match harmless(alloc, &texts[number], passed, start)? {
        Some(next) => {
            texts[number] = next;
            Ok(true)
        }
        None => Ok(false),
    }
}

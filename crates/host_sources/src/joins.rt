//! The text that sources join to.
ghost use Rattle.std.specs.Prelude.{◌≡◌, ◌++◌, ◌∷◌, [], IfOk, IfErr, OnOk};
ghost use Rattle.pal_lex.specs.Text.{text_of};
ghost use Rattle.host_sources.specs.Sources.{texts_of, newest_first, counts_of};
ghost use Rattle.host_sources.specs.Steps.{Puts};
ghost use Rattle.host_sources.specs.declared.faults.SourceFault.TheVariants.{Memory};

use crate::SourceFault;
use crate::pauses::prefix_of;
use source_places::host_text;
use std::alloc::{AllocError, Global};

/// Sources that are one.
#[derive(Drop)]
pub struct Join {
    /// The text that they join to, as a file of a volume keeps it.
    pub text: Vec<u8>,
    /// How many bytes of it are of each source that another follows.
    pub counts: Vec<usize>,
}

/// The join of sources of the host. Each but the last goes on in the next one at its first PAUSE that stands alone (PAL III
/// Symbolic Assembler manual, and this project's profile of it). The only fault is `Memory`.
pub(crate) fn join_all(alloc: Global, sources: &[&[u8]]) -> Result<Join, SourceFault>
    ensures text { IfOk result (λ join. text_of join.text.items ≡ newest_first sources.now) }
    ensures counts { IfOk result (λ join. join.counts.items ≡ counts_of (texts_of sources.now)) }
    ensures fault { IfErr result (λ fault. fault ≡ Memory) }
{
    let mut join = Join {
        text: Vec::new(alloc),
        counts: Vec::new(alloc),
    };
    let mut rest = sources;
    while let [source, others @ ..] = rest {
        let text = host_text(alloc, source)?;
        let goes_on = put(alloc, &mut join, &text, others.is_empty())?;
        if !goes_on {
            return Ok(join);
        }
        rest = others;
    }
    Ok(join)
}

/// Puts a text after others, and answers whether the next one goes on after it.
fn put(alloc: Global, join: &mut Join, text: &[u8], last: bool) -> Result<bool, SourceFault>
    ensures puts { IfOk result
        (λ goes_on. Puts last text.now goes_on join.old.text.items join.new.text.items
        join.old.counts.items join.new.counts.items) }
    ensures fault { IfErr result (λ fault. fault ≡ Memory) }
{
    if last {
        join.text.extend_from_slice(text)?;
        return Ok(false);
    }
    match prefix_of(alloc, text)? {
        None => {
            join.text.extend_from_slice(text)?;
            Ok(false)
        }
        Some(count) => {
            let (prefix, _) = text.split_at(count);
            join.text.extend_from_slice(prefix)?;
            put_count(&mut join.counts, count)?;
            Ok(true)
        }
    }
}

/// Puts a count after others.
fn put_count(counts: &mut Vec<usize>, count: usize) -> Result<(), AllocError>
    ensures { OnOk result (counts.new.items ≡ counts.old.items ++ count ∷ []) }
{
    counts.push(count)?;
    Ok(())
}

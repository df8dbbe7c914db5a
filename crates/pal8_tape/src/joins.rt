//! The text that sources join to.
ghost use Rattle.std.specs.Prelude.{◌≡◌, ◌++◌, ◌∷◌, [], take, IfOk, OnOk};
ghost use Rattle.pal_lex.specs.Text.{text_of};
ghost use Rattle.pal8_asm.specs.Sources.{PassResult};
ghost use Rattle.pal8_tape.specs.Joins.{bytes_in, closing_bytes, counts_of, joined_bytes};
ghost use Rattle.pal8_tape.specs.Passing.{Follows};
ghost use Rattle.pal8_tape.specs.Steps.{Puts, part_bytes};

use crate::JoinFault;
use crate::passes::Pass;
use crate::pauses::{Pause, find_pause, is_line_open};
use pal8_lex::End;
use pal8_places::Options;
use std::alloc::{AllocError, Global};

/// Sources that are one.
#[derive(Drop)]
pub struct Join {
    /// The text that they join to.
    pub text: Vec<u8>,
    /// How many bytes of it are of each source that another follows.
    pub counts: Vec<usize>,
}

/// The join of sources of the host. Each but the last goes on in the next one, at its first PAUSE that is selected and has no tag, or at its end. The
/// next one begins a line of its own. Names, the radix, the location and open brackets go on. A `>` that ends PAUSE closes its bracket, and a `$`
/// that ends it means nothing. The sources are read by these options (PAL8, the assembler of OS/8, in this project's profile).
///
/// After a statement with a fault, and after the `$` that ends the source, no PAUSE counts, and each text is joined whole. It takes time in proportion
/// to the bytes, except that a name is found by halving. The only fault is `Memory`.
pub fn join_all(alloc: Global, options: Options, sources: &[&[u8]]) -> Result<Join, JoinFault>
    ensures text { IfOk result (λ join. join.text.items ≡ joined_bytes options (bytes_in sources.now)) }
    ensures counts { IfOk result (λ join. join.counts.items ≡ counts_of options (bytes_in sources.now)) }
{
    let mut join = Join {
        text: Vec::new(alloc),
        counts: Vec::new(alloc),
    };
    let mut pass = Pass::new(alloc, options);
    let mut rest = sources;
    while let [source, others @ ..] = rest {
        put(alloc, &mut join, &mut pass, source, others.is_empty())?;
        rest = others;
    }
    Ok(join)
}

/// Puts a text after others: the whole, if it is the last one, or up to its PAUSE.
fn put(
    alloc: Global,
    join: &mut Join,
    pass: &mut Pass,
    text: &[u8],
    is_last: bool,
) -> Result<(), JoinFault>
    ensures { (left : PassResult) → Follows pass.old left → OnOk result (Puts is_last left text.now join.old.text.items join.new.text.items
        join.old.counts.items join.new.counts.items pass.new) }
{
    if is_last {
        join.text.extend_from_slice(text)?;
        return Ok(());
    }
    let found = find_pause(alloc, pass, text)?;
    let before = join.text.len();
    put_part(&mut join.text, text, found)?;
    put_count(&mut join.counts, join.text.len().saturating_sub(before))?;
    Ok(())
}

/// Puts a text up to its PAUSE, or the whole one, and ends its last line.
fn put_part(join: &mut Vec<u8>, text: &[u8], found: Option<Pause>) -> Result<(), AllocError>
    ensures { OnOk result (join.new.items ≡ join.old.items ++ part_bytes text.now found) }
{
    match found {
        Some(pause) => {
            join.extend_from_slice(first_bytes(text, pause.count))?;
            join.extend_from_slice(line_end(pause.end))?;
            Ok(())
        }
        None => {
            join.extend_from_slice(text)?;
            if is_line_open(text) {
                join.extend_from_slice(b"\n")?;
            }
            Ok(())
        }
    }
}

/// What stands for PAUSE in a join: the end of a line, and before that the `>` that ends PAUSE, if one does.
fn line_end(end: End) -> &'static [u8]
    ensures { result.now ≡ closing_bytes end ++ 0o12 ∷ [] }
{
    match end {
        End::Close => b">\n",
        End::Semicolon | End::Line | End::Open | End::Dollar => b"\n",
    }
}

/// So many bytes from the beginning of a text, or all of it.
fn first_bytes(text: &[u8], count: usize) -> &[u8]
    ensures { result.now ≡ take count text.now }
{
    if count < text.len() {
        return text.split_at(count).0;
    }
    text
}

/// Puts a count after others.
fn put_count(counts: &mut Vec<usize>, count: usize) -> Result<(), AllocError>
    ensures { OnOk result (counts.new.items ≡ counts.old.items ++ count ∷ []) }
{
    counts.push(count)?;
    Ok(())
}

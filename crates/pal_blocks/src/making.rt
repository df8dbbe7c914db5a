//! A block in the second pass.
ghost use Rattle.std.specs.Prelude.{◌≡◌, ◌++◌, ℕ, Bool, true, Ok, List, length, take};
ghost use Rattle.word12.specs.declared.sizes.TheConstants.{BLOCK};
ghost use Rattle.char_pack.specs.Packing.{frames};
ghost use Rattle.char_pack.specs.Texts.{is_ended};
ghost use Rattle.pal_lex.specs.Text.{text_from};
ghost use Rattle.pal_asm.specs.Places.{Source};
ghost use Rattle.pal_asm.specs.Passing.{HasMade, IsWithin};
ghost use Rattle.pal_blocks.specs.Passing.{text_in, characters_added};
ghost use Rattle.pal_blocks.specs.Steps.{MakesBlock};

use crate::passing::lay_characters;
use char_pack::BLOCK_FRAMES;
use char_pack::laws::joined_text;
use pal_asm::{AsmFault, Pass, make_text};
use word12::{Cell, Word};

/// Takes a block in the second pass, from a place in its characters on. Where memory runs out the place says how many
/// were taken.
pub(crate) fn make_block(
    pass: &mut Pass,
    pairs: &mut Vec<(Cell, Word)>,
    block: &[Word],
    offset: &mut usize,
) -> Result<(), AsmFault>
    requires { length block.now ≡ BLOCK }
    ensures makes { (whole : Source) (prefix given : List ℕ) (several : Bool)
        → HasMade whole pass.old pairs.old.items prefix several
        (text_from (text_in given) (take offset.old (characters_added given block.now))) (is_ended given)
        → IsWithin whole prefix several (text_in (given ++ frames block.now))
        → MakesBlock whole prefix several given block.now offset.new result pass.new pairs.new.items }
    ensures ended { pass.old.is_at_end ≡ true → (result ≡ Ok tt) × (pass.new ≡ pass.old)
        × (pairs.new ≡ pairs.old) }
{
    joined_text();
    if pass.is_at_end {
        return Ok(());
    }
    let mut bytes = [0; BLOCK_FRAMES];
    let count = lay_characters(block, &mut bytes);
    let (text, _) = bytes.split_at(count);
    make_text(pass, pairs, text, offset)?;
    if count < BLOCK_FRAMES {
        pass.is_at_end = true;
    }
    Ok(())
}

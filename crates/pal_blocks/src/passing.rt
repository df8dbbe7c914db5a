//! A block in the first pass.
ghost use Rattle.std.specs.Prelude.{◌≡◌, ◌≤◌, ◌++◌, ℕ, Bool, true, nat_lt, None, OnOk, List, length, take};
ghost use Rattle.word12.specs.declared.sizes.TheConstants.{BLOCK};
ghost use Rattle.char_pack.specs.declared.packing.TheConstants.{BLOCK_FRAMES};
ghost use Rattle.char_pack.specs.Packing.{frames};
ghost use Rattle.char_pack.specs.Texts.{characters, is_ended};
ghost use Rattle.pal_lex.specs.Text.{text_from};
ghost use Rattle.pal_asm.specs.Places.{Source};
ghost use Rattle.pal_asm.specs.Passing.{StandsAfter, HasPassed, Settles};
ghost use Rattle.pal_blocks.specs.Passing.{text_in, characters_added};
ghost use Rattle.pal_blocks.specs.Steps.{PassesBlock};

use char_pack::laws::joined_text;
use char_pack::{BLOCK_FRAMES, CONTROL_Z, frame_at};
use pal_asm::{AsmFault, Pass, pass_text, settle};
use word12::Word;

/// Writes the characters of a block into a buffer, up to the first control Z, and answers how many.
pub(crate) fn lay_characters(block: &[Word], bytes: &mut [u8]) -> usize
    requires block { length block.now ≡ BLOCK }
    requires bytes { length bytes.old ≡ BLOCK_FRAMES }
    ensures range { result ≤ BLOCK_FRAMES }
    ensures same { length bytes.new ≡ BLOCK_FRAMES }
    ensures characters { take result bytes.new ≡ characters (frames block.now) }
    ensures ended { is_ended (frames block.now) ≡ nat_lt result BLOCK_FRAMES }
{
    joined_text();
    let mut count = 0;
    while count < BLOCK_FRAMES {
        let character = frame_at(block, count) % 0o200;
        if character == CONTROL_Z {
            return count;
        }
        bytes[count] = character;
        count += 1;
    }
    count
}

/// Takes a block from a place in its characters on. Where memory runs out the place says how many were taken.
pub(crate) fn pass_block(
    pass: &mut Pass,
    block: &[Word],
    offset: &mut usize,
) -> Result<(), AsmFault>
    requires { length block.now ≡ BLOCK }
    ensures passes { (prefix given : List ℕ) (several : Bool)
        → HasPassed pass.old prefix several
        (text_from (text_in given) (take offset.old (characters_added given block.now))) (is_ended given)
        → PassesBlock prefix several given block.now offset.new result pass.new }
    ensures ended { pass.old.is_at_end ≡ true → (source : Source)
        → StandsAfter pass.old.waiting pass.old.assembler source → Settles source result pass.old pass.new }
    ensures none { OnOk result (pass.new.waiting ≡ None) }
{
    joined_text();
    if pass.is_at_end {
        return settle(pass);
    }
    let mut bytes = [0; BLOCK_FRAMES];
    let count = lay_characters(block, &mut bytes);
    let (text, _) = bytes.split_at(count);
    pass_text(pass, text, offset)?;
    if count < BLOCK_FRAMES {
        pass.is_at_end = true;
    }
    Ok(())
}

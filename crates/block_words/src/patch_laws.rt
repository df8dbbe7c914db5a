//! Laws of patches. Each function does nothing: its contract is the law.
ghost use Rattle.block_words.specs.PatchLaws.{PatchedBack, PatchedTwice};

/// An image in which a word was patched, and then patched back, is as it was.
pub fn patched_back()
    ensures { PatchedBack }
{}

/// An image that was patched twice, the second time with the two words turned round, is as it was.
pub fn patched_twice()
    ensures { PatchedTwice }
{
    patched_back();
}

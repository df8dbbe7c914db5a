//! Laws of three characters in two words, and of texts.

ghost use Rattle.std.specs.Prelude.{◌≡◌, ◌%◌, ◌<◌, ℕ, List, [], ◌++◌, All, length, true, if◌then◌else◌};
ghost use Rattle.char_pack.specs.Packing.{frames, words_of_bytes, IsPacking, packed_blocks, IsBlockPacking};
ghost use Rattle.char_pack.specs.Texts.{characters, is_ended, text, host_text, is_storable, words_of_text, text_frames};

/// Packed bytes read back, and no shorter even list of words has them.
pub fn packed_bytes()
    ensures words { (bytes : List ℕ) → All (λ byte. byte < 256) bytes → IsPacking bytes (words_of_bytes bytes) }
    ensures blocks { (bytes : List ℕ) → All (λ byte. byte < 256) bytes
        → IsBlockPacking bytes (packed_blocks bytes) }
{}

/// The frames of an even list of words give the words back.
pub fn packed_frames()
    ensures { (words : List ℕ) → length words % 2 ≡ 0 → All (λ word. word < 0o10000) words
        → words_of_bytes (frames words) ≡ words }
{}

/// The frames of an even list of words, and those of others after it, are the frames of both. So a file is read block by block.
pub fn joined_frames()
    ensures { (words others : List ℕ) → length words % 2 ≡ 0
        → frames (words ++ others) ≡ frames words ++ frames others }
{}

/// A text goes on in the frames after it exactly where no control Z has come.
pub fn joined_text()
    ensures characters { (frames others : List ℕ)
        → characters (frames ++ others) ≡ characters frames ++
        (if is_ended frames then [] else characters others) }
    ensures ended { (frames others : List ℕ)
        → is_ended (frames ++ others) ≡ (if is_ended frames then true else is_ended others) }
{}

/// Characters whose frames were packed read back. So a host text that was stored reads back as that text, with CR dropped and LF
/// as CR LF.
pub fn stored_text()
    ensures host { (host : List ℕ) → is_storable host ≡ true → text (words_of_text host) ≡ host_text host }
    ensures characters { (chars : List ℕ) → is_storable chars ≡ true
        → text (packed_blocks (text_frames chars)) ≡ chars }
{}

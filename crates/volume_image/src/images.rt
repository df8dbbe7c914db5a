ghost use Rattle.std.specs.Prelude.{◌≡◌, ℕ, ◌+◌, ◌*◌, ◌%◌, ◌<◌, ◌≤◌, length, slice_index, vec_capacity, All, MatchOption, IfOk, IsOk, OnOk, OnErr};
ghost use Rattle.word12.specs.declared.sizes.TheConstants.{BLOCK, MOST_BLOCKS};
ghost use Rattle.volume_image.specs.Image.{image_word, block_word, IsFirstBadWord, IsImageOf, IsNewVolume, new_word};
ghost use Rattle.volume_image.specs.Volume.{IsBlock, IsVolume};

use crate::Block;
use std::alloc::{AllocError, Global};
use word12::{BLOCK, FIRST_FILE_BLOCK, MOST_BLOCKS, Word};

// Takes each word as a number, by which it is known to have twelve bits; a compiler leaves this out.
pub(crate) fn know_words(words: &[Word])
    ensures { (k : ℕ) → slice_index words.now k < 0o10000 }
{
    for word in words {
        let _number = word.get();
    }
}

// The index of the first word that has more than twelve bits.
pub(crate) fn first_bad_word(bytes: &[u8]) -> Option<usize>
    requires { length bytes.now % 2 ≡ 0 }
    ensures { MatchOption result ((k : ℕ) → image_word bytes.now k < 0o10000) (IsFirstBadWord bytes.now) }
{
    for number in 0..bytes.len() / 2 {
        if bytes[2 * number + 1] >= 16 {
            return Some(number);
        }
    }
    None
}

// Fills a slice with the words of an image, from one of them on; of each just the low twelve bits.
fn lay_words(bytes: &[u8], first: usize, words: &mut [Word])
    requires { 2 * (first + length words.old) ≤ length bytes.now }
    ensures { (k : ℕ) → k < length words.new → slice_index words.new k
        ≡ image_word bytes.now (first + k) % 0o10000 }
{
    for k in 0..words.len() {
        let low = u16::from(bytes[2 * (first + k)]);
        let high = u16::from(bytes[2 * (first + k) + 1]);
        words[k] = Word::low(low + 256 * (high % 16));
    }
}

// A block of an image; of each word just the low twelve bits.
fn block_at(bytes: &[u8], number: usize) -> Block
    requires { 512 * number + 512 ≤ length bytes.now }
    ensures { (k : ℕ) → k < BLOCK
        → slice_index result k ≡ image_word bytes.now (BLOCK * number + k) % 0o10000 }
{
    let mut words = [Word::ZERO; BLOCK];
    lay_words(bytes, BLOCK * number, &mut words);
    words
}

// The blocks of an image; of each word just the low twelve bits.
pub(crate) fn blocks_of(alloc: Global, bytes: &[u8], count: usize) -> Result<Vec<Block>, AllocError>
    requires { length bytes.now ≡ 512 * count }
    ensures count { IfOk result (λ blocks. length blocks.items ≡ count) }
    ensures each { IfOk result (λ blocks. All IsBlock blocks.items) }
    ensures words { IfOk result (λ blocks. (n k : ℕ) → n < count → k < BLOCK →
        block_word blocks.items n k ≡ image_word bytes.now (BLOCK * n + k) % 0o10000) }
{
    let mut blocks = Vec::with_capacity(alloc, count)?;
    for number in 0..count {
        blocks.push(block_at(bytes, number))?;
    }
    Ok(blocks)
}

// Puts words into an image, from one of its words on.
fn put_words(words: &[Word], first: usize, bytes: &mut [u8])
    requires { 2 * (first + length words.now) ≤ length bytes.old }
    ensures words { (k : ℕ) → k < length words.now → image_word bytes.new (first + k)
        ≡ slice_index words.now k }
    ensures range { (k : ℕ) → k < length words.now → image_word bytes.new (first + k) < 0o10000 }
    ensures before { (k : ℕ) → k < first → image_word bytes.new k ≡ image_word bytes.old k }
{
    for k in 0..words.len() {
        let number = words[k].get();
        bytes[2 * (first + k)] = (number % 256) as u8;
        bytes[2 * (first + k) + 1] = (number / 256) as u8;
    }
}

// Puts blocks into an image, from its beginning on.
fn put_blocks(blocks: &[Block], bytes: &mut [u8])
    requires size { length bytes.old ≡ 512 * length blocks.now }
    requires each { All IsBlock blocks.now }
    ensures range { (k : ℕ) → k < BLOCK * length blocks.now → image_word bytes.new k < 0o10000 }
    ensures words { (n k : ℕ) → n < length blocks.now → k < BLOCK →
        block_word blocks.now n k ≡ image_word bytes.new (BLOCK * n + k) }
{
    for number in 0..blocks.len() {
        put_words(&blocks[number], BLOCK * number, bytes);
    }
}

// Puts the image of blocks in place of what a vector has.
pub(crate) fn put_image(blocks: &[Block], bytes: &mut Vec<u8>) -> Result<(), AllocError>
    requires { IsVolume blocks.now }
    ensures ok { OnOk result (IsImageOf bytes.new.items blocks.now) }
    ensures err { OnErr result (bytes.new.items ≡ bytes.old.items) }
    ensures room { 512 * length blocks.now ≤ vec_capacity bytes.old → IsOk result }
{
    bytes.resize(512 * blocks.len(), 0)?;
    put_blocks(blocks, bytes);
    Ok(())
}

// Writes the words with which the directory of an empty volume begins.
fn lay_directory(count: usize, words: &mut [Word])
    requires least { 8 ≤ count }
    requires most { count ≤ MOST_BLOCKS }
    requires size { length words.old ≡ BLOCK }
    requires zeros { (k : ℕ) → slice_index words.old k ≡ 0 }
    ensures { (k : ℕ) → slice_index words.new k ≡ new_word count 1 k }
{
    words[0] = Word::low(0o7777);
    words[1] = Word::low(FIRST_FILE_BLOCK as u16);
    words[4] = Word::low(0o7777);
    words[6] = Word::ZERO.minus(Word::low((count - FIRST_FILE_BLOCK) as u16));
}

// A block of an empty volume.
fn new_block(count: usize, number: usize) -> Block
    requires least { 8 ≤ count }
    requires most { count ≤ MOST_BLOCKS }
    ensures { (k : ℕ) → k < BLOCK → slice_index result k ≡ new_word count number k }
{
    let mut words = [Word::ZERO; BLOCK];
    if number == 1 {
        lay_directory(count, &mut words);
    }
    words
}

// The blocks of an empty volume.
pub(crate) fn new_blocks(alloc: Global, count: usize) -> Result<Vec<Block>, AllocError>
    requires least { 8 ≤ count }
    requires most { count ≤ MOST_BLOCKS }
    ensures { IfOk result (λ blocks. IsNewVolume count blocks.items) }
{
    let mut blocks = Vec::with_capacity(alloc, count)?;
    for number in 0..count {
        blocks.push(new_block(count, number))?;
    }
    Ok(blocks)
}

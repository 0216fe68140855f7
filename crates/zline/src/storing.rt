//! Storing a line, and what is said of its words.

ghost use Rattle.std.specs.Prelude.{◌≡◌, ◌+◌, ◌*◌, ◌≤◌, ◌<◌, length};
ghost use Rattle.zdict.specs.Left.{span_of};
ghost use Rattle.zdict.specs.Tokens.{tokens};
ghost use Rattle.zline.specs.Storing.{HasBuffers, block, stored_byte, stored_text, with_blocks, with_bytes, with_line, with_text, words_of};

use arrayvec::ArrayVec;
use zdict::{Token, lookup, tokens};
use zstory::Story;
use ztext::encode_word;

/// How a byte of a line is stored (Z 15 sread).
fn stored_byte(byte: u8) -> u8
    ensures { result ≡ stored_byte byte }
{
    match byte {
        b'A'..=b'Z' => byte + 32,
        b' '..=b'~' => byte,
        _ => b'?',
    }
}

/// What a text buffer of a size takes of a line.
fn stored_text(size: u8, line: &[u8]) -> ArrayVec<u8, 255>
    ensures value { result.items ≡ stored_text size line.now }
    ensures few { length result.items ≤ 254 }
    ensures fits { 1 ≤ size → length result.items < size }
{
    let kept = line.len().min(usize::from(size.saturating_sub(1)));
    let mut text = ArrayVec::new();
    for byte in &line[..kept] {
        text.push(stored_byte(*byte));
    }
    text
}

/// What is said of a word (Z 13.6.3).
fn block(story: &Story, word: Token<'_>) -> [u8; 4]
    requires place { word.place < 255 }
    requires few { length word.bytes.now ≤ 255 }
    ensures { result ≡ block story.now.memory (span_of word.entry) }
{
    let [high, low] = lookup(story, encode_word(word.bytes)).to_be_bytes();
    [high, low, word.bytes.len() as u8, word.place as u8 + 1]
}

/// Puts bytes into memory, from a place on.
fn put_bytes(memory: &mut [u8], place: usize, bytes: &[u8])
    requires { place + length bytes.now ≤ length memory.old }
    ensures { memory.new ≡ with_bytes place bytes.now memory.old }
{
    memory[place..place + bytes.len()].copy_from_slice(bytes);
}

/// Puts a text into the text buffer at a place, and a zero behind it.
fn store_text(memory: &mut [u8], text: usize, stored: &[u8])
    requires { text + 1 + length stored.now < length memory.old }
    ensures { memory.new ≡ with_text text stored.now memory.old }
{
    put_bytes(memory, text + 1, stored);
    memory[text + 1 + stored.len()] = 0;
}

/// Puts what is said of the words of a text, at most so many, from a place on. Answers how many there are.
fn store_blocks(story: &Story, memory: &mut [u8], place: usize, limit: u8, text: &[u8]) -> u8
    requires room { place + 4 * limit ≤ length memory.old }
    requires few { length text.now ≤ 254 }
    ensures memory { memory.new ≡ with_blocks story.now.memory place (words_of story.now.memory limit text.now) memory.old }
    ensures count { result ≡ length (words_of story.now.memory limit text.now) }
{
    let mut words = tokens(story, text);
    let mut count = 0;
    while count < limit {
        let Some(word) = words.next() else {
            return count;
        };
        put_bytes(memory, place + 4 * usize::from(count), &block(story, word));
        count += 1;
    }
    count
}

/// Stores a line of the player in the text buffer at a place, and what is said of its words in the parse buffer at another (Z 15
/// sread). Each begins with a byte that says what it takes: characters with the zero behind them, and words.
#[tactic(auto, unfolding(crate::specs::Storing::with_line))]
pub fn store_line(story: &Story, memory: &mut [u8], text: usize, parse: usize, line: &[u8])
    requires { HasBuffers memory.old text parse }
    ensures { memory.new ≡ with_line story.now.memory text parse line.now memory.old }
{
    let limit = memory[parse];
    let stored = stored_text(memory[text], line);
    store_text(memory, text, stored.as_slice());
    memory[parse + 1] = store_blocks(story, memory, parse + 2, limit, stored.as_slice());
}

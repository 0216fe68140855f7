//! How a routine is called.

ghost use Rattle.std.specs.Prelude.{◌≡◌, ◌≤◌, ◌<◌, ◌+◌, true, length, slice_index};
ghost use Rattle.zstory.specs.Bytes.{byte_at, word_at};
ghost use Rattle.zstate.specs.State.{has_head};
ghost use Rattle.zstate.specs.Step.{initial, laid_over};

use byteorder::{BigEndian, ByteOrder};

/// Whether a routine's head lies whole at a place: a count of at most 15, and so many words (Z 5.2).
#[inline(always)]
pub fn has_head(memory: &[u8], place: usize) -> bool
    requires { length memory.now ≤ 131072 }
    ensures { result ≡ has_head memory.now place }
{
    place < memory.len()
        && memory[place] <= 15
        && place + 1 + 2 * usize::from(memory[place]) <= memory.len()
}

/// The word that a local begins with: its argument, where there is one (Z 5.2.1, 6.4.4).
#[inline(always)]
pub fn local_at(memory: &[u8], place: usize, arguments: &[u16], number: usize) -> u16
    requires head { has_head memory.now place ≡ true }
    requires short { length memory.now ≤ 131072 }
    requires within { number < byte_at memory.now place }
    ensures { result ≡ slice_index (laid_over arguments.now (initial memory.now place)) number }
{
    match arguments.get(number) {
        Some(word) => *word,
        None => read_word(memory, place + 1 + 2 * number),
    }
}

/// The word at a place, its high byte first (Z 2.1).
#[inline(always)]
fn read_word(memory: &[u8], at: usize) -> u16
    requires { at + 2 ≤ length memory.now }
    ensures { result ≡ word_at memory.now at }
{
    BigEndian::read_u16(&memory[at..])
}

//! What a dictionary has to be for its words to be found.

ghost use Rattle.std.specs.Prelude.{◌≡◌, ◌+◌, ◌*◌, ◌≤◌, ◌<◌, ◌↔◌, length, MatchBool, IsSome, IfSome};
ghost use Rattle.zstory.specs.Bytes.{readable_end};
ghost use Rattle.zstory.specs.Dictionary.{IsOrdered, HasFallingEntries, dictionary_end, entry_place, encoded_text, entry_length, entry_count};

use crate::bytes::word_at;
use crate::header;
use byteorder::{BigEndian, ByteOrder};

/// Byte addresses are words, so that nothing is read from here on (Z 1.2.1).
const READABLE_LENGTH: usize = 65_536;

/// The entries of a dictionary that is wholly readable.
#[derive(Clone, Copy)]
pub(crate) struct Entries<'a> {
    memory: &'a [u8],
    first: usize,
    length: usize,
    count: usize,
    ghost first_place: { first ≡ entry_place memory.now 0 },
    ghost one_length: { length ≡ entry_length memory.now },
    ghost all_counted: { count ≡ entry_count memory.now },
    ghost readable: { dictionary_end memory.now ≤ readable_end memory.now },
}

impl<'a> Entries<'a> {
    /// The entries of the dictionary, where it is wholly readable (Z 13.2).
    pub(crate) fn read(memory: &'a [u8]) -> Option<Entries<'a>>
        requires { 64 ≤ length memory.now }
        ensures readable { IsSome result ↔ (dictionary_end memory.now ≤ readable_end memory.now) }
        ensures same { IfSome result (λ e. e.memory.now ≡ memory.now) }
    {
        // The count of separators, the separators, the length of an entry, the count of entries, which is a word.
        let place = usize::from(word_at(memory, header::DICTIONARY));
        let readable = memory.len().min(READABLE_LENGTH);
        if place >= readable {
            return None;
        }
        let separators = usize::from(memory[place]);
        let first = place + 4 + separators;
        if first > readable {
            return None;
        }
        let length = usize::from(memory[place + 1 + separators]);
        let count = usize::from(word_at(memory, place + 2 + separators));
        if first + count * length > readable {
            return None;
        }
        Some(Entries {
            memory,
            first,
            length,
            count,
        })
    }

    /// The length of an entry in bytes.
    pub(crate) fn length(&self) -> usize
        ensures { result ≡ self.now.length }
    {
        self.length
    }

    /// The encoded text of an entry, as a number (Z 13.3).
    fn encoded_text(&self, entry: usize) -> u32
        requires listed { entry < self.now.count }
        requires long { 4 ≤ self.now.length }
        ensures { result ≡ encoded_text self.now.memory.now entry }
    {
        BigEndian::read_u32(&self.memory[self.first + entry * self.length..])
    }

    /// Whether no entry's text is below that of the entry before (Z 13.5).
    pub(crate) fn are_ordered(&self) -> bool
        requires long { 4 ≤ self.now.length }
        ensures { MatchBool result (IsOrdered self.now.memory.now) (HasFallingEntries self.now.memory.now) }
    {
        for entry in 1..self.count {
            if self.encoded_text(entry) < self.encoded_text(entry - 1) {
                return false;
            }
        }
        true
    }
}

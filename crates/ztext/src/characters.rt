//! The Z-characters of a text, one after another.

use std::marker::Model;

/// The Z-characters that are left of the words in bytes. Contracts see their list.
#[derive(Drop)]
pub(crate) struct Characters<'a> {
    // from the word on that the next one is of
    words: &'a [u8],
    // how many of that word's three have been read
    read: u8,
}

impl<'a> Model for Characters<'a> {
    ghost use Rattle.std.specs.Prelude.{ℕ, ◌<◌, List, drop};
    ghost use Rattle.ztext.specs.Words.{characters_in};

    ghost Value = { List ℕ };

    ghost view = { λ c. drop c.read (characters_in c.words.now) };

    ghost invariant = { λ c. c.read < 3 };
}

impl<'a> Characters<'a> {
    ghost use Rattle.std.specs.Prelude.{◌≡◌, ◌<◌, [], ◌∷◌, MatchOption, IfSome};
    ghost use Rattle.ztext.specs.Words.{characters_in};

    /// Those of all the words in bytes.
    pub(crate) fn new(words: &'a [u8]) -> Characters<'a>
        ensures { result ≡ characters_in words.now }
    {
        Characters { words, read: 0 }
    }

    /// The next one, below 32.
    pub(crate) fn next_character(&mut self) -> Option<u8>
        ensures front { MatchOption result (self.old ≡ []) (λ z. self.old ≡ z ∷ self.new) }
        ensures small { IfSome result (λ z. z < 32) }
    {
        let [high, low, after @ ..] = self.words else {
            return None;
        };
        let word = u16::from_be_bytes([*high, *low]);
        let shift = match self.read {
            0 => 10,
            1 => 5,
            _ => 0,
        };
        if self.read == 2 {
            self.words = after;
            self.read = 0;
        } else {
            self.read += 1;
        }
        Some((word >> shift & 0x1f) as u8)
    }
}

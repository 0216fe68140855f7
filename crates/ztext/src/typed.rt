//! The encoded text of a word as it is typed.

ghost use Rattle.std.specs.Prelude.{◌≡◌, ◌+◌, ◌*◌, ◌<◌, ◌≤◌, ◌==◌, ◌++◌, ℕ, [], ◌∷◌, IfSome, drop, length, take, replicate, position, slice_index};
ghost use Rattle.ztext.specs.Alphabets.{small_letters, marks};
ghost use Rattle.ztext.specs.Typed.{character_in, characters_of_code, marked, word_characters, word_code};

use crate::pieces::{MARKS, SMALL_LETTERS};
use std::marker::Model;

// The Z-character that begins the marks, and fills a word up (Z 3.7).
const SHIFT: u8 = 5;

// The Z-character behind that shift with which an escape begins (Z 3.4).
const ESCAPE: u8 = 6;

// What the second word of an encoded text has beside its Z-characters (Z 3.2).
const END: u16 = 0x8000;

// The Z-characters of a word as far as they are known, with fives behind them. Contracts see those that are known.
#[derive(Drop)]
struct WordCharacters {
    characters: [u8; 6],
    count: usize,
}

impl Model for WordCharacters {
    ghost use Rattle.std.specs.Prelude.{◌≡◌, ◌<◌, ◌≤◌, ◌++◌, ℕ, List, replicate, slice_index, take};

    ghost Value = { List ℕ };

    ghost view = { λ w. take w.count w.characters };

    ghost invariant = { λ w. (w.count ≤ 6) × (w.characters ≡ take 6 (take w.count w.characters ++ replicate 6 5)) × ((k : ℕ) → slice_index w.characters k < 32) };
}

impl WordCharacters {
    fn new() -> WordCharacters
        ensures { result ≡ [] }
    {
        WordCharacters {
            characters: [SHIFT; 6],
            count: 0,
        }
    }

    // The next one. Behind the sixth, it is dropped.
    fn push(&mut self, z: u8)
        requires { z < 32 }
        ensures { self.new ≡ take 6 (self.old ++ z ∷ []) }
    {
        if self.count < 6 {
            self.characters[self.count] = z;
            self.count += 1;
        }
    }

    // Those of a code.
    #[tactic(auto, using(crate::proofs::Typing::two_pushed))]
    fn push_code(&mut self, code: u8)
        ensures { self.new ≡ take 6 (self.old ++ characters_of_code code) }
    {
        if code == b' ' {
            self.push(0);
        } else if let Some(z) = letter_character(code) {
            self.push(z);
        } else {
            self.push(SHIFT);
            self.push_marked(code);
        }
    }

    // Those of a code behind the shift to the marks.
    fn push_marked(&mut self, code: u8)
        ensures { self.new ≡ take 6 (self.old ++ marked code) }
    {
        if let Some(z) = mark_character(code) {
            self.push(z);
        } else {
            self.push(ESCAPE);
            self.push(code / 32);
            self.push(code % 32);
        }
    }

    // All six.
    fn filled(self) -> [u8; 6]
        ensures filled { result ≡ take 6 (self ++ replicate 6 5) }
        ensures below { (k : ℕ) → slice_index result k < 32 }
    {
        self.characters
    }
}

// The place of a code in a part of an alphabet.
fn place_in(alphabet: &[u8], code: u8) -> Option<usize>
    ensures place { result ≡ position (λ other. other == code) alphabet.now }
    ensures within { IfSome result (λ place. place < length alphabet.now) }
{
    alphabet.iter().position(|other| *other == code)
}

// The Z-character of a code in a part of an alphabet, by the Z-character of its first.
fn character_in(first: u8, alphabet: &[u8], code: u8) -> Option<u8>
    requires { first + length alphabet.now ≤ 32 }
    ensures character { result ≡ character_in first alphabet.now code }
    ensures below { IfSome result (λ z. z < 32) }
{
    match place_in(alphabet, code) {
        Some(place) => Some(first + place as u8),
        None => None,
    }
}

// The Z-character of a small letter.
#[tactic(auto, unfolding(crate::specs::Alphabets::small_letters))]
fn letter_character(code: u8) -> Option<u8>
    ensures character { result ≡ character_in 6 small_letters code }
    ensures below { IfSome result (λ z. z < 32) }
{
    character_in(6, &SMALL_LETTERS, code)
}

// The Z-character of a mark, but for the beginning of an escape and a newline, which are the first two of the marks.
#[tactic(auto, unfolding(crate::specs::Alphabets::marks))]
fn mark_character(code: u8) -> Option<u8>
    ensures character { result ≡ character_in 8 (drop 2 marks) code }
    ensures below { IfSome result (λ z. z < 32) }
{
    character_in(8, &MARKS[2..], code)
}

// The six Z-characters of a word.
#[tactic(auto, unfolding(crate::specs::Typed::word_characters), using(crate::proofs::Typing::code_pushed))]
fn word_characters(text: &[u8]) -> [u8; 6]
    ensures characters { result ≡ word_characters text.now }
    ensures below { (k : ℕ) → slice_index result k < 32 }
{
    let mut characters = WordCharacters::new();
    for byte in text {
        characters.push_code(byte.to_ascii_lowercase());
    }
    characters.filled()
}

// Three Z-characters in a word, five bits each, the first highest (Z 3.2).
fn three(first: u8, second: u8, third: u8) -> u16
    requires first { first < 32 }
    requires second { second < 32 }
    requires third { third < 32 }
    ensures value { result ≡ 1024 * first + 32 * second + third }
    ensures below { result < 32768 }
{
    1024 * u16::from(first) + 32 * u16::from(second) + u16::from(third)
}

/// The encoded text of a word that is typed, by which the dictionary is searched (Z 3.7): its first six Z-characters in four bytes,
/// filled up with fives. Capitals are taken for small letters; what no alphabet has takes four Z-characters.
#[tactic(auto, unfolding(crate::specs::Typed::word_code))]
pub fn encode_word(text: &[u8]) -> [u8; 4]
    ensures { result ≡ word_code text.now }
{
    let [first, second, third, fourth, fifth, sixth] = word_characters(text);
    let [a, b] = three(first, second, third).to_be_bytes();
    let [c, d] = (END + three(fourth, fifth, sixth)).to_be_bytes();
    [a, b, c, d]
}

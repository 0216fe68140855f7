//! Writing what Z-characters print.

ghost use Rattle.std.specs.Prelude.{◌≡◌, ◌*◌, ◌/◌, ◌%◌, ◌<◌, ◌≤◌, ℕ, List, [], ◌∷◌, Some, Ok, IfSome, Result, vec_capacity};
ghost use Rattle.std.specs.Option.{option_to_list};
ghost use Rattle.ztext.specs.Words.{characters_in};
ghost use Rattle.ztext.specs.Output.{output_of_code};
ghost use Rattle.ztext.specs.Begun.{IsBegun};
ghost use Rattle.ztext.specs.Progress.{piece_printed, characters_printed, printed_from, nested_use, memory_use, IsWritten, LeadsOn};
ghost use Rattle.ztext.specs.declared.error.TextError.{TextError};

use crate::abbreviations::abbreviation_text;
use crate::pieces::{Piece, Step};
use crate::state::State;

/// What the use of an abbreviation prints.
pub(crate) trait Uses {
    ghost printed: { Self → ℕ → Result (List ℕ) TextError };

    /// Writes what the use of an abbreviation prints, by its number. `None` where it has no value or finds no room.
    fn write(&self, number: u8, text: &mut Vec<u8>) -> Option<()>
        ensures capacity { vec_capacity text.old ≤ vec_capacity text.new }
        ensures written { IsWritten (vec_capacity text.old) text.old.items text.new.items result (printed self.now number) };
}

/// In a text: what the abbreviation of a memory prints.
#[derive(Clone, Copy)]
pub(crate) struct InMemory<'a> {
    pub(crate) memory: &'a [u8],
}

impl<'a> Uses for InMemory<'a> {
    ghost printed = { λ uses. memory_use uses.memory.now };

    fn write(&self, number: u8, text: &mut Vec<u8>) -> Option<()> {
        let bytes = abbreviation_text(self.memory, number)?;
        write_words(&Nested, bytes, text)
    }
}

// In an abbreviation's text: no abbreviation may be used (Z 3.3.1).
#[derive(Clone, Copy)]
struct Nested;

impl Uses for Nested {
    ghost printed = { λ _. nested_use };

    fn write(&self, _number: u8, _text: &mut Vec<u8>) -> Option<()> {
        None
    }
}

/// Writes what the words in bytes print. `None` where it stops: at a use that has no value, or where it finds no room.
pub(crate) fn write_words<U: Uses>(uses: &U, words: &[u8], text: &mut Vec<u8>) -> Option<()>
    ensures capacity { vec_capacity text.old ≤ vec_capacity text.new }
    ensures written { IsWritten (vec_capacity text.old) text.old.items text.new.items result (characters_printed (U.printed uses.now) (characters_in words.now)) }
{
    let mut state = State::start();
    let mut rest = words;
    while let [high, low, after @ ..] = rest {
        state = write_word(uses, state, u16::from_be_bytes([*high, *low]), text)?;
        rest = after;
    }
    Some(())
}

// Writes what the three Z-characters of a word print, and answers what has begun then.
#[inline(always)]
fn write_word<U: Uses>(uses: &U, state: State, word: u16, text: &mut Vec<u8>) -> Option<State>
    ensures capacity { vec_capacity text.old ≤ vec_capacity text.new }
    ensures begun { IfSome result (λ begun. IsBegun begun) }
    ensures leads { (zs : List ℕ) → LeadsOn (vec_capacity text.old) text.old.items text.new.items result (printed_from (U.printed uses.now) state (word / 1024 % 32 ∷ word / 32 % 32 ∷ word % 32 ∷ zs)) (λ begun. printed_from (U.printed uses.now) begun zs) }
{
    let (first, second, third) = characters_of(word);
    let state = write_character(uses, state, first, text)?;
    let state = write_character(uses, state, second, text)?;
    write_character(uses, state, third, text)
}

// The Z-characters of a word, three of five bits each, below the top bit (Z 3.2).
fn characters_of(word: u16) -> (u8, u8, u8)
    ensures first { result.0 ≡ word / 1024 % 32 }
    ensures second { result.1 ≡ word / 32 % 32 }
    ensures third { result.2 ≡ word % 32 }
{
    (
        (word >> 10 & 0x1f) as u8,
        (word >> 5 & 0x1f) as u8,
        (word & 0x1f) as u8,
    )
}

// Writes what a Z-character prints, and answers what has begun then.
#[inline(always)]
fn write_character<U: Uses>(uses: &U, state: State, z: u8, text: &mut Vec<u8>) -> Option<State>
    requires { z < 32 }
    ensures capacity { vec_capacity text.old ≤ vec_capacity text.new }
    ensures begun { IfSome result (λ begun. IsBegun begun) }
    ensures leads { (zs : List ℕ) → LeadsOn (vec_capacity text.old) text.old.items text.new.items result (printed_from (U.printed uses.now) state (z ∷ zs)) (λ begun. printed_from (U.printed uses.now) begun zs) }
{
    let Some(byte) = state.byte_at_once(z) else {
        return write_step(uses, state, z, text);
    };
    write_byte(byte, text)?;
    Some(State::start())
}

// Does the same for any Z-character. Few need it, and it stays out of the loop.
#[inline(never)]
fn write_step<U: Uses>(uses: &U, state: State, z: u8, text: &mut Vec<u8>) -> Option<State>
    requires { z < 32 }
    ensures capacity { vec_capacity text.old ≤ vec_capacity text.new }
    ensures begun { IfSome result (λ begun. IsBegun begun) }
    ensures leads { (zs : List ℕ) → LeadsOn (vec_capacity text.old) text.old.items text.new.items result (printed_from (U.printed uses.now) state (z ∷ zs)) (λ begun. printed_from (U.printed uses.now) begun zs) }
{
    match state.begun().step(z) {
        Step::Begins(begun) => Some(State::new(begun)),
        Step::Completes(piece) => {
            write_piece(uses, piece, text)?;
            Some(State::start())
        }
    }
}

// Writes what a piece prints.
fn write_piece<U: Uses>(uses: &U, piece: Piece, text: &mut Vec<u8>) -> Option<()>
    ensures capacity { vec_capacity text.old ≤ vec_capacity text.new }
    ensures written { IsWritten (vec_capacity text.old) text.old.items text.new.items result (piece_printed (U.printed uses.now) piece) }
{
    match piece {
        Piece::Code(code) => write_code(code, text),
        Piece::Abbreviation(number) => uses.write(number, text),
    }
}

// Writes what a ZSCII code prints.
fn write_code(code: u16, text: &mut Vec<u8>) -> Option<()>
    ensures capacity { vec_capacity text.old ≤ vec_capacity text.new }
    ensures written { IsWritten (vec_capacity text.old) text.old.items text.new.items result (Ok (output_of_code code)) }
{
    match output_byte(code) {
        Some(byte) => write_byte(byte, text),
        None => Some(()),
    }
}

// Writes a byte.
fn write_byte(byte: u8, text: &mut Vec<u8>) -> Option<()>
    ensures capacity { vec_capacity text.old ≤ vec_capacity text.new }
    ensures written { IsWritten (vec_capacity text.old) text.old.items text.new.items result (Ok (byte ∷ [])) }
{
    text.push(byte).ok()
}

/// The byte that a ZSCII code prints, if any: none for 0, byte 10 for 13, itself from 32 to 126, and `?` for every other
/// code, above 255 too (Z 3.8; the last is own).
pub fn output_byte(code: u16) -> Option<u8>
    ensures { option_to_list result ≡ output_of_code code }
{
    match code {
        0 => None,
        13 => Some(b'\n'),
        32..=126 => Some(code as u8),
        _ => Some(b'?'),
    }
}

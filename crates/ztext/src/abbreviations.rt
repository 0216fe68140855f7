//! The abbreviations of a memory.

ghost use Rattle.std.specs.Prelude.{◌≡◌, ◌+◌, ◌*◌, ◌<◌, ◌≤◌, ◌↔◌, length, take, drop, IsSome, IfSome, option_map};
ghost use Rattle.std.specs.Option.{option_copied};
ghost use Rattle.zstory.specs.Bytes.{word_at};
ghost use Rattle.ztext.specs.Abbreviations.{readable_word, abbreviation_at, IsPlainAbbreviation};

use crate::length::text_length;
use crate::plain::is_plain;

// The place in the header of the abbreviations table's address (Z 1.1, 11.1).
const TABLE: usize = 0x18;

// How many bytes of memory a byte address reaches.
const READABLE: usize = 65_536;

/// Where a text lies in memory.
#[derive(Clone, Copy, Debug, PartialEq, Eq)]
pub struct TextSpan {
    /// The place of its first byte.
    pub place: usize,
    /// How many bytes it has, up to and with its end word.
    pub size: usize,
}

/// Where the text of an abbreviation lies, by its number, where the text is whole in memory and uses no abbreviation
/// (Z 3.3). `None` elsewhere, and where a word that leads to it isn't whole in memory.
pub fn plain_abbreviation(memory: &[u8], number: u8) -> Option<TextSpan>
    ensures plain { IsSome result ↔ IsPlainAbbreviation memory.now number }
    ensures text { IfSome result (λ span. abbreviation_at memory.now number ≡ Some (take span.size (drop span.place memory.now))) }
    ensures place { IfSome result (λ span. span.place ≡ 2 * word_at memory.now (word_at memory.now 0x18 + 2 * number)) }
    ensures within { IfSome result (λ span. span.place + span.size ≤ length memory.now) }
    // The table's word, too, is whole in memory.
    ensures entry { IfSome result (λ _. word_at memory.now 0x18 + 2 * number + 1 < length memory.now) }
{
    let span = abbreviation_span(memory, number)?;
    if is_plain(&memory[span.place..span.place + span.size]) {
        Some(span)
    } else {
        None
    }
}

/// The bytes of an abbreviation's text, by its number. `None` where the text or a word that leads to it isn't whole in
/// memory.
pub(crate) fn abbreviation_text(memory: &[u8], number: u8) -> Option<&[u8]>
    ensures { option_copied result ≡ abbreviation_at memory.now number }
{
    let span = abbreviation_span(memory, number)?;
    Some(&memory[span.place..span.place + span.size])
}

// Where the text of an abbreviation lies, where it and the words that lead to it are whole in memory.
#[tactic(auto, using(crate::proofs::Texts::text_at_taken))]
fn abbreviation_span(memory: &[u8], number: u8) -> Option<TextSpan>
    ensures text { abbreviation_at memory.now number ≡ option_map (λ span. take span.size (drop span.place memory.now)) result }
    ensures place { IfSome result (λ span. span.place ≡ 2 * word_at memory.now (word_at memory.now 0x18 + 2 * number)) }
    ensures within { IfSome result (λ span. span.place + span.size ≤ length memory.now) }
    ensures entry { IfSome result (λ _. word_at memory.now 0x18 + 2 * number + 1 < length memory.now) }
{
    let table = readable_word(memory, TABLE)?;
    let word = readable_word(memory, usize::from(table) + 2 * usize::from(number))?;
    let place = 2 * usize::from(word);
    let size = text_length(memory, place)?;
    Some(TextSpan { place, size })
}

// The word at a place of readable memory.
fn readable_word(memory: &[u8], at: usize) -> Option<u16>
    ensures { result ≡ readable_word memory.now at }
{
    match memory[..memory.len().min(READABLE)].get(at..)? {
        [high, low, ..] => Some(u16::from_be_bytes([*high, *low])),
        _ => None,
    }
}

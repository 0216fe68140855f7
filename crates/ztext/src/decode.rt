//! Decoding.

ghost use Rattle.std.specs.Prelude.{◌≡◌, ◌+◌, ◌<◌, ◌≤◌, ◌↔◌, ◌++◌, length, Some, Ok, Err, IfOk, IfErr, IsOk, OnOk, OnErr, IsOkAnd, IsErrOf, vec_len, vec_capacity};
ghost use Rattle.ztext.specs.Words.{length_at};
ghost use Rattle.ztext.specs.Output.{output_at};
ghost use Rattle.ztext.specs.Progress.{first_error, error_of, all_joined, memory_use, piece_output};

use crate::abbreviations::abbreviation_text;
use crate::error::TextError;
use crate::length::text_bytes;
use crate::pieces::{Piece, Pieces};
use crate::plain::is_plain;
use crate::writing::{InMemory, write_words};

/// Appends what the text at a place of memory prints, and answers its length in bytes, up to and with its end word
/// (Z 3). `memory` is the machine's as it is at that moment, whose header says where the abbreviations are. An error
/// leaves the buffer as it was.
///
/// The high bytes of each text are gone over for its end, and then its characters once, with no list of them and no
/// allocation but the buffer's growth. So a text costs its own length and that of each abbreviation that it uses, as
/// often as it uses it. Where writing stops, its characters are gone over once more, for the error that is declared first.
pub fn decode_into(memory: &[u8], at: usize, text: &mut Vec<u8>) -> Result<usize, TextError>
    ensures length { IfOk result (λ size. length_at memory.now at ≡ Some size) }
    ensures appended { OnOk result (IsOkAnd (output_at memory.now at) (λ output. text.new.items ≡ text.old.items ++ output)) }

    // E1 comes before E2, and stands for a text or a word that the output needs.
    ensures outside { IsErrOf result TextError.Outside ↔ IsErrOf (output_at memory.now at) TextError.Outside }
    ensures nested { IsErrOf result TextError.NestedAbbreviation ↔ IsErrOf (output_at memory.now at) TextError.NestedAbbreviation }
    // Only an output that outgrows the buffer's capacity is refused.
    ensures refused { IsErrOf result TextError.OutOfMemory → IsOkAnd (output_at memory.now at) (λ output. vec_capacity text.old < vec_len text.old + length output) }

    ensures unchanged { OnErr result (text.new.items ≡ text.old.items) }
    ensures capacity { vec_capacity text.old ≤ vec_capacity text.new }
{
    let Some(bytes) = text_bytes(memory, at) else {
        return Err(TextError::Outside);
    };
    let start = text.len();
    let Some(()) = write_words(&InMemory { memory }, bytes, text) else {
        text.truncate(start);
        return Err(error_of_text(memory, Pieces::new(bytes)));
    };
    Ok(bytes.len())
}

/// Whether the text at a place of memory can be decoded; where it can't, the error that `decode_into` has for it (Z 3). No memory is
/// taken, and none is wanted: the error is never `OutOfMemory`.
///
/// It costs what decoding costs: the text's own length and that of each abbreviation that it uses, as often as it uses it.
pub fn judge_text(memory: &[u8], at: usize) -> Result<(), TextError>
    ensures ok { OnOk result (IsOk (output_at memory.now at)) }
    ensures err { IfErr result (λ e. output_at memory.now at ≡ Err e) }
{
    let Some(bytes) = text_bytes(memory, at) else {
        return Err(TextError::Outside);
    };
    match error_of_text(memory, Pieces::new(bytes)) {
        TextError::OutOfMemory => Ok(()),
        error => Err(error),
    }
}

// The error that stands where the pieces of a text can't be written: of those of its abbreviations the one that is declared
// first, and want of memory where there is none.
fn error_of_text(memory: &[u8], mut pieces: Pieces<'_>) -> TextError
    ensures { result ≡ error_of (all_joined (piece_output memory.now) pieces.entry) }
{
    let mut error = TextError::OutOfMemory;
    while let Some(piece) = pieces.next_piece() {
        if let Piece::Abbreviation(number) = piece {
            error = first_error(error, error_of_use(memory, number));
        }
    }
    error
}

// The error that the use of an abbreviation answers for, if not want of memory.
fn error_of_use(memory: &[u8], number: u8) -> TextError
    ensures { result ≡ error_of (memory_use memory.now number) }
{
    let Some(bytes) = abbreviation_text(memory, number) else {
        return TextError::Outside;
    };
    if is_plain(bytes) {
        TextError::OutOfMemory
    } else {
        TextError::NestedAbbreviation
    }
}

// The one of two errors that is declared first.
fn first_error(one: TextError, other: TextError) -> TextError
    ensures { result ≡ first_error one other }
{
    match one {
        TextError::Outside => TextError::Outside,
        TextError::NestedAbbreviation if other == TextError::Outside => TextError::Outside,
        TextError::NestedAbbreviation => TextError::NestedAbbreviation,
        TextError::OutOfMemory => other,
    }
}

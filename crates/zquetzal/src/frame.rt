//! One frame of a save.

ghost use Rattle.std.specs.Prelude.{◌≡◌, ◌+◌, ◌*◌, ◌/◌, ◌<◌, ◌≤◌, length, slice_index, IfOk};
ghost use Rattle.zquetzal.specs.Reading.{frame_at, framed, supplied_by, words_of};
ghost use Rattle.zquetzal.specs.View.{Gives, seen_frame};

use crate::error::SaveError;
use crate::limits::{FRAME_HEAD, MOST_LOCALS};
use byteorder::{BigEndian, ByteOrder};

/// A frame of a save, lent.
#[derive(Clone, Copy)]
pub struct SavedFrame<'a> {
    /// Where its return goes, below 2 to the 24th.
    pub return_place: u32,
    /// The variable that takes its result.
    pub result: u8,
    /// How many arguments were supplied, at most 3.
    pub supplied: u8,
    /// At most 15 words, each of two bytes, the high one first.
    pub locals: &'a [u8],
    /// The words of the stack, each of two bytes, the bottom one first.
    pub stack: &'a [u8],
}

/// How many words the bytes are.
pub fn word_count(words: &[u8]) -> usize
    ensures { result ≡ length (words_of words.now) }
{
    words.len() / 2
}

/// One of the words that the bytes are, counted from 0.
pub fn word(words: &[u8], number: usize) -> u16
    requires { number < length (words_of words.now) }
    ensures { result ≡ slice_index (words_of words.now) number }
{
    let (_, rest) = words.split_at(2 * number);
    BigEndian::read_u16(rest)
}

/// How many arguments a mask tells (Q 4, own).
fn supplied_by(mask: u8) -> Result<u8, SaveError>
    ensures { Gives (λ x. x) result (supplied_by mask) }
{
    match mask {
        0b000 => Ok(0),
        0b001 => Ok(1),
        0b011 => Ok(2),
        0b111 => Ok(3),
        _ => Err(SaveError::Frames),
    }
}

/// The frame at the front of the bytes, and what follows it (Q 4).
#[tactic(auto, unfolding(crate::specs::Reading::frame_at))]
pub(crate) fn frame_of(bytes: &[u8]) -> Result<(SavedFrame<'_>, &[u8]), SaveError>
    ensures value { Gives (λ x. (seen_frame x.0, x.1.now)) result (frame_at bytes.now) }
    ensures shorter { IfOk result (λ x. length x.1.now < length bytes.now) }
{
    if bytes.len() < FRAME_HEAD {
        return Err(SaveError::Frames);
    }
    let flags = bytes[3];
    if flags > MOST_LOCALS {
        return Err(SaveError::Frames);
    }
    let supplied = supplied_by(bytes[5])?;
    let stack = BigEndian::read_u16(&bytes[6..]);
    framed(bytes, supplied, flags, stack, &bytes[FRAME_HEAD..])
}

/// The frame with that head, and with so many locals and words of stack at the front of `body`.
#[tactic(auto, unfolding(crate::specs::Reading::framed))]
fn framed<'a>(
    head: &'a [u8],
    supplied: u8,
    locals: u8,
    stack: u16,
    body: &'a [u8],
) -> Result<(SavedFrame<'a>, &'a [u8]), SaveError>
    requires { 8 ≤ length head.now }
    ensures value { Gives (λ x. (seen_frame x.0, x.1.now)) result (framed head.now supplied locals stack body.now) }
    ensures shorter { IfOk result (λ x. length x.1.now ≤ length body.now) }
{
    let locals_length = 2 * usize::from(locals);
    let stack_length = 2 * usize::from(stack);
    if body.len() < locals_length + stack_length {
        return Err(SaveError::Frames);
    }
    let (locals, behind) = body.split_at(locals_length);
    let (stack, rest) = behind.split_at(stack_length);
    let frame = SavedFrame {
        return_place: BigEndian::read_u24(head),
        result: head[4],
        supplied,
        locals,
        stack,
    };
    Ok((frame, rest))
}

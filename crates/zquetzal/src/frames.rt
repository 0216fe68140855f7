//! The frames of a save, one by one.

ghost use Rattle.std.specs.Prelude.{◌≡◌, ◌+◌, ◌-◌, Ok};
ghost use Rattle.zquetzal.specs.Reading.{are_frames, is_first};
ghost use Rattle.zquetzal.specs.View.{Gives, count_within, count_of, frames_in, frames_left, seen_frame};

use crate::error::SaveError;
use crate::frame::{SavedFrame, frame_of, word_count};
use crate::limits::MOST_FRAMES;

/// The frames of a save, the oldest first. Contracts see what is left of them.
#[derive(Clone, Copy)]
pub struct Frames<'a> {
    rest: &'a [u8],
}

impl<'a> Frames<'a> {
    /// The frames that the bytes are.
    pub(crate) fn new(stacks: &'a [u8]) -> Frames<'a>
        ensures { frames_left result ≡ frames_in stacks.now }
    {
        Frames { rest: stacks }
    }
}

impl<'a> Iterator for Frames<'a> {
    ghost use Rattle.std.specs.Iterator.{YieldsFirstBy, item_count};
    ghost use Rattle.zquetzal.specs.View.{frames_left, seen_frame};

    type Item = SavedFrame<'a>;

    ghost next_gives = { YieldsFirstBy seen_frame frames_left };

    ghost remaining = { item_count frames_left };

    fn next(&mut self) -> Option<SavedFrame<'a>> {
        let Ok((frame, rest)) = frame_of(self.rest) else {
            return None;
        };
        self.rest = rest;
        Some(frame)
    }
}

/// Whether nothing called the frame, and it has no locals.
fn is_first(frame: SavedFrame<'_>) -> bool
    ensures { result ≡ is_first (seen_frame frame.entry) }
{
    frame.return_place == 0
        && frame.result == 0
        && frame.supplied == 0
        && word_count(frame.locals) == 0
}

/// Whether the frame at the front of the bytes, which are frames, is such a one.
fn begins_with_first(stacks: &[u8]) -> bool
    ensures { result ≡ are_frames (frames_in stacks.now) }
{
    match frame_of(stacks) {
        Ok((frame, _)) => is_first(frame),
        Err(_) => false,
    }
}

/// How many frames the bytes are, of which there may be no more than 4,097.
fn counted(stacks: &[u8]) -> Result<usize, SaveError>
    ensures { Gives (λ n. n) result (count_within MOST_FRAMES stacks.now) }
{
    let mut count = 0;
    let mut rest = stacks;
    while !rest.is_empty() {
        if count == MOST_FRAMES {
            return Err(SaveError::Frames);
        }
        let (_, after) = frame_of(rest)?;
        count += 1;
        rest = after;
    }
    Ok(count)
}

/// How many frames the bytes are, of which the oldest is the first.
pub(crate) fn count_frames(stacks: &[u8]) -> Result<usize, SaveError>
    ensures { Gives (λ n. n) result (count_of stacks.now) }
{
    let count = counted(stacks)?;
    if !begins_with_first(stacks) {
        return Err(SaveError::Frames);
    }
    Ok(count)
}

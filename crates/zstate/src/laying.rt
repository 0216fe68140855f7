//! The frames of a save, packed.

ghost use Rattle.std.specs.Prelude.{◌≡◌, ◌+◌, ◌++◌, ◌≤◌, [], length, map, reverse, IfOk, OnOk, vec_len, vec_capacity};
ghost use Rattle.zquetzal.specs.Reading.{words_of};
ghost use Rattle.std.specs.List.{AllByRecursion};
ghost use Rattle.zquetzal.specs.Saved.{AreFrames, IsFrame};
ghost use Rattle.zquetzal.specs.View.{frames_left, seen_frame};
ghost use Rattle.zstate.specs.Packed.{above, chain_from, piled, with_top};
ghost use Rattle.zstate.specs.Saves.{taken_frame};

use crate::frames::{Frames, ROOM};
use crate::head::Head;
use std::alloc::{AllocError, Global};
use std::mem;
use zquetzal::{Frames as SavedFrames, SavedFrame, word, word_count};

impl Frames {
    /// The frames of a save.
    pub(crate) fn of_save(alloc: Global, saved: SavedFrames<'_>) -> Result<Frames, AllocError>
        requires { AreFrames (frames_left saved) }
        ensures { IfOk result (λ frames. frames ≡ chain_from (map taken_frame (frames_left saved.entry))) }
    {
        let mut left = saved;
        let mut frames = Frames::first(alloc);
        if let Some(oldest) = left.next() {
            frames.pile_words(oldest.stack)?;
        }
        frames.pile_frames(left)?;
        Ok(frames)
    }

    /// Puts frames of a save above the newest, the lowest first. Want of memory leaves some of them out.
    fn pile_frames(&mut self, saved: SavedFrames<'_>) -> Result<(), AllocError>
        requires { AllByRecursion IsFrame (frames_left saved) }
        ensures { OnOk result (self.new ≡ piled (map taken_frame (frames_left saved.entry)) self.old) }
    {
        let mut left = saved;
        while let Some(frame) = left.next() {
            self.begin_saved(frame)?;
            self.pile_words(frame.stack)?;
        }
        Ok(())
    }

    /// Puts the frame of a save above the newest, with nothing on its stack yet. Want of memory changes nothing.
    fn begin_saved(&mut self, frame: SavedFrame<'_>) -> Result<(), AllocError>
        requires { length (words_of frame.locals.now) ≤ 15 }
        ensures { OnOk result (self.new ≡ above (record (taken_frame (seen_frame frame.entry)) { stack = [] }) self.old) }
    {
        self.callers.reserve(1)?;
        self.words.reserve(ROOM)?;
        self.words.push_reserved(0);
        let head = Head {
            base: self.words.len(),
            return_place: frame.return_place,
            result: frame.result,
            supplied: frame.supplied,
            count: word_count(frame.locals) as u8,
        };
        put_words(&mut self.words, frame.locals);
        let caller = mem::replace(&mut self.newest, head);
        self.callers.push_reserved(caller);
        Ok(())
    }

    /// Puts words on the stack of the newest frame, the lowest first. Want of memory leaves some of them out.
    fn pile_words(&mut self, words: &[u8]) -> Result<(), AllocError>
        ensures { OnOk result (self.new ≡ with_top (reverse (words_of words.now) ++ self.old.newest.stack) self.old) }
    {
        for number in 0..word_count(words) {
            self.exchange(0, word(words, number))?;
        }
        Ok(())
    }
}

/// Puts the words of a save behind others.
fn put_words(words: &mut Vec<u16>, saved: &[u8])
    requires { vec_len words.old + length (words_of saved.now) ≤ vec_capacity words.old }
    ensures { words.new.items ≡ words.old.items ++ words_of saved.now }
{
    for number in 0..word_count(saved) {
        words.push_reserved(word(saved, number));
    }
}

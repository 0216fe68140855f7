//! A save that was read.

ghost use Rattle.std.specs.Prelude.{◌≡◌, ◌<◌, ◌^◌, length};
ghost use Rattle.zquetzal.specs.Saved.{AreFrames};
ghost use Rattle.zquetzal.specs.View.{frames_in, frames_left};

use crate::frames::Frames;
use std::marker::Model;

/// What a save tells. It borrows the bytes of the save, and takes no memory.
#[derive(Drop)]
pub struct SaveView<'a> {
    memory: &'a [u8],
    place: u32,
    stacks: &'a [u8],
    frame_count: usize,
}

impl<'a> Model for SaveView<'a> {
    ghost use Rattle.std.specs.Prelude.{◌≡◌, ◌<◌, ◌^◌, length};
    ghost use Rattle.zquetzal.specs.Saved.{Saved, AreFrames};
    ghost use Rattle.zquetzal.specs.View.{frames_in};

    ghost Value = { Saved };

    ghost view = { λ v. record { memory = v.memory.now; place = v.place; frames = frames_in v.stacks.now } };

    ghost invariant = { λ v. (v.frame_count ≡ length (frames_in v.stacks.now)) × AreFrames (frames_in v.stacks.now) × (v.place < 2 ^ 24) };
}

impl<'a> SaveView<'a> {
    pub(crate) fn new(
        memory: &'a [u8],
        place: u32,
        stacks: &'a [u8],
        frame_count: usize,
    ) -> SaveView<'a>
        requires counted { frame_count ≡ length (frames_in stacks.now) }
        requires frames { AreFrames (frames_in stacks.now) }
        requires low { place < 2 ^ 24 }
        ensures { result ≡ record { memory = memory.now; place = place; frames = frames_in stacks.now } }
    {
        SaveView {
            memory,
            place,
            stacks,
            frame_count,
        }
    }

    /// Dynamic memory.
    pub fn memory(&self) -> &'a [u8]
        ensures { result.now ≡ self.now.memory }
    {
        self.memory
    }

    /// Where play goes on: the address of the branch data of `save` (own).
    pub fn place(&self) -> u32
        ensures value { result ≡ self.now.place }
        ensures low { result < 2 ^ 24 }
    {
        self.place
    }

    /// How many frames there are, 1 to 4,097.
    pub fn frame_count(&self) -> usize
        ensures value { result ≡ length self.now.frames }
        ensures frames { AreFrames self.now.frames }
    {
        self.frame_count
    }

    /// The frames, the oldest first.
    pub fn frames(&self) -> Frames<'a>
        ensures value { frames_left result ≡ self.now.frames }
        ensures frames { AreFrames self.now.frames }
    {
        Frames::new(self.stacks)
    }
}

//! What has to be known of a machine, so that it can be saved.

ghost use Rattle.std.specs.Prelude.{◌≡◌, ◌<◌, ◌≤◌, ◌^◌, Some, length, slice_get};
ghost use Rattle.zquetzal.specs.Saved.{Saved, IsFrame};
ghost use Rattle.zquetzal.specs.declared.origin.Origin.{Origin as SavedOrigin};
ghost use Rattle.zquetzal.specs.View.{given_frame};

use crate::limits::MOST_FRAMES;
use crate::origin::Origin;

/// A frame, lent to be written.
#[derive(Clone, Copy)]
pub struct FrameParts<'a> {
    /// Where its return goes, below 2 to the 24th.
    pub return_place: u32,
    /// The variable that takes its result.
    pub result: u8,
    /// How many arguments were supplied, at most 3.
    pub supplied: u8,
    /// At most 15 words.
    pub locals: &'a [u16],
    /// At most 65,535 words, the top last.
    pub stack: &'a [u16],
}

/// What can be saved. Contracts see what a save of it tells.
pub trait SaveParts {
    /// What is said of the story.
    ghost origin: { Self → SavedOrigin };

    /// What the save tells.
    ghost saved: { Self → Saved };

    /// What is said of the story.
    fn origin(&self) -> Origin
        ensures { result ≡ origin self.now };

    /// Dynamic memory, which ends below 65,536 (Z 1.1).
    fn memory(&self) -> &[u8]
        ensures value { result.now ≡ (saved self.now).memory }
        ensures short { length result.now < 65536 };

    /// Where play goes on: the address of the branch data of `save` (own).
    fn place(&self) -> u32
        ensures value { result ≡ (saved self.now).place }
        ensures low { result < 2 ^ 24 };

    /// How many frames there are.
    fn frame_count(&self) -> usize
        ensures value { result ≡ length (saved self.now).frames }
        ensures most { result ≤ MOST_FRAMES };

    /// A frame, of which the oldest is 0.
    fn frame(&self, number: usize) -> FrameParts<'_>
        requires { number < length (saved self.now).frames }
        ensures value { slice_get (saved self.now).frames number ≡ Some (given_frame result) }
        ensures frame { IsFrame (given_frame result) };
}

//! Places that are closed, and places that stay as they are.

ghost use Rattle.std.specs.Prelude.{◌≡◌};
ghost use Rattle.zstory.specs.LoadedStory.{static_base};
ghost use Rattle.zpairs.specs.Fixed.{AreClosed, AreFixed};

use crate::frozen::MARK_BYTES;
use zcert::Range;
use zdomain::Marks;
use zstory::Story;

/// A story and ranges of bytes that stay as they are, with marks for each byte of dynamic memory: whether it is closed, and whether no play
/// changes it.
#[derive(Clone, Copy)]
pub struct Marked<'a> {
    pub story: &'a Story,
    /// Where static memory begins.
    pub base: usize,
    pub ghost behind: { base ≡ static_base story.now },
    pub ranges: &'a [Range],
    pub closed: &'a Marks<MARK_BYTES>,
    pub fixed: &'a Marks<MARK_BYTES>,
    pub ghost still: { AreFixed story.now closed.now fixed.now },
    pub ghost marked: { AreClosed (record { story = story.now; ranges = ranges.now }) closed.now },
}

impl<'a> Marked<'a> {
    ghost use Rattle.std.specs.Prelude.{◌≡◌, ◌<◌, ◌+◌, ◌&&◌};
    ghost use Rattle.zpairs.specs.Fixed.{is_closed, is_fixed};
    ghost use Rattle.zpairs.specs.Frozen.{told_by};

    /// Whether the byte at a place is closed, so that no store may write it. All of static memory is.
    #[inline(always)]
    pub fn is_closed(self, place: usize) -> bool
        ensures { result ≡ is_closed (record { story = self.entry.story.now; ranges = self.entry.ranges.now }) place }
    {
        place >= self.base || self.closed.has(place)
    }

    /// Whether no play changes the byte at a place: it is closed, and no instruction changes it without asking.
    #[inline(always)]
    pub fn is_fixed(self, place: usize) -> bool
        ensures { result ≡ is_fixed (record { story = self.entry.story.now; ranges = self.entry.ranges.now }) place }
    {
        place >= self.base || self.fixed.has(place)
    }

    /// Whether no play changes the bytes of the word at a place. One look at the marks tells it where both lie in dynamic memory.
    #[inline(always)]
    pub fn is_word_fixed(self, place: usize) -> bool
        requires { place < 65536 }
        ensures { result ≡ (is_fixed (told_by self.entry.story.now self.entry.ranges.now) place && is_fixed (told_by self.entry.story.now self.entry.ranges.now) (place + 1)) }
    {
        if place + 1 < self.base {
            return self.fixed.has_both(place);
        }
        self.is_fixed(place) && self.is_fixed(place + 1)
    }
}

//! Places that stay as they are.

ghost use Rattle.std.specs.Prelude.{◌≡◌, ◌<◌, ◌||◌, ℕ};
ghost use Rattle.zpairs.specs.Frozen.{AreMarked, frozen_by, is_inside};
ghost use Rattle.zdomain.specs.Marks.{is_marked};

use zcert::Range;
use zdomain::Marks;

/// How many places ranges can reach.
pub const PLACES: usize = 65_536;

/// How many bytes have a bit for each of them, and for the place behind: so that each place has a next one.
pub(crate) const MARK_BYTES: usize = 8_193;

/// Marks the places of ranges, and no others. Each place of each range is gone over once.
pub(crate) fn mark_ranges(marks: &mut Marks<MARK_BYTES>, ranges: &[Range])
    ensures { AreMarked ranges.now marks.new }
{
    *marks = Marks::none();
    let mut left = ranges;
    while let [range, rest @ ..] = left {
        mark(marks, *range);
        left = rest;
    }
}

/// Marks the places of a range.
fn mark(marks: &mut Marks<MARK_BYTES>, range: Range)
    ensures { (p : ℕ) → p < 65536 → is_marked marks.new p ≡ (is_marked marks.old p || is_inside p range) }
{
    for place in usize::from(range.first)..usize::from(range.last) + 1 {
        marks.add(place);
    }
}

//! Where texts begin that no play changes.

ghost use Rattle.std.specs.Prelude.{◌≡◌, ◌<◌, ◌+◌, ◌&&◌, ◌||◌, ◌==◌, ℕ};
ghost use Rattle.zdomain.specs.Marks.{is_marked};
ghost use Rattle.zpairs.specs.Fixed.{is_fixed};
ghost use Rattle.zruns.specs.Texts.{AreTextMarks, begins_text};

use zdomain::Marks;
use zpairs::Marked;

/// The least high byte of a word that ends a text (Z 3.2).
const END: u8 = 0x80;

/// How many bytes have a bit for each place that memory can have: there are at most 131,072 (Z 1.1.4).
pub(crate) const MARK_BYTES: usize = 16_384;

/// Marks each place where a text begins that no play changes, and no other. Memory is gone over once, from its end on.
pub(crate) fn mark_texts(marks: &mut Marks<MARK_BYTES>, marked: Marked<'_>)
    ensures { AreTextMarks (record { story = marked.entry.story.now; ranges = marked.entry.ranges.now }) marks.new }
{
    *marks = Marks::none();
    let mut at = marked.story.length();
    let mut behind_fixed = marked.is_fixed(at);
    while at > 0 {
        at -= 1;
        let fixed = marked.is_fixed(at);
        let begins = begins_text(marked, at, fixed, behind_fixed, marks.has(at + 2));
        mark_if(marks, at, begins);
        behind_fixed = fixed;
    }
}

/// Marks a place, if something holds there.
fn mark_if(marks: &mut Marks<MARK_BYTES>, place: usize, holds: bool)
    requires { place < 131072 }
    ensures { (p : ℕ) → is_marked marks.new p ≡ (is_marked marks.old p || (holds && p == place)) }
{
    if holds {
        marks.add(place);
    }
}

/// Whether such a text begins at a place, by whether no play changes its first byte and its second, and whether one begins behind its first
/// word.
fn begins_text(
    marked: Marked<'_>,
    place: usize,
    fixed: bool,
    next_fixed: bool,
    behind: bool,
) -> bool
    requires place { place < 131072 }
    requires first { fixed ≡ is_fixed (record { story = marked.story.now; ranges = marked.ranges.now }) place }
    requires second { next_fixed ≡ is_fixed (record { story = marked.story.now; ranges = marked.ranges.now }) (place + 1) }
    ensures { result ≡ begins_text (record { story = marked.entry.story.now; ranges = marked.entry.ranges.now }) place behind }
{
    let memory = marked.story.memory();
    place + 1 < memory.len() && (fixed && next_fixed) && (memory[place] >= END || behind)
}

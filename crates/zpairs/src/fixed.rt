//! Which bytes no play changes.

ghost use Rattle.std.specs.Prelude.{◌≡◌, ◌<◌, ◌+◌, ℕ};
ghost use Rattle.zstory.specs.Objects.{object_place};
ghost use Rattle.zdomain.specs.Marks.{is_marked};
ghost use Rattle.zpairs.specs.Fixed.{AreFixed, AreMarkedToo, any_below, is_changing, is_within};

use crate::closed::{FLAGS_2, mark};
use crate::frozen::MARK_BYTES;
use zdomain::Marks;
use zstory::{DEFAULTS_LENGTH, GLOBALS_LENGTH, OBJECT_ENTRY_LENGTH, Story};

/// How many bytes of an object's entry are its attributes and its place in the tree (Z 12.3.1).
const STATE_LENGTH: usize = 7;

/// Marks each byte of dynamic memory that is marked as closed and that no instruction changes without asking.
pub(crate) fn mark_fixed(marks: &mut Marks<MARK_BYTES>, story: &Story, closed: &Marks<MARK_BYTES>)
    ensures { AreFixed story.now closed.now marks.new }
{
    let _memory = story.memory(); // a word says where static memory begins
    mark_changing(marks, story);
    marks.turn_within(closed);
}

/// Marks what instructions change without asking: Flags 2, the globals, and each object's attributes and its place in the tree.
fn mark_changing(marks: &mut Marks<MARK_BYTES>, story: &Story)
    ensures { (p : ℕ) → p < 65536 → is_marked marks.new p ≡ is_changing story.now p }
{
    *marks = Marks::none();
    mark(marks, FLAGS_2, 2);
    mark(marks, story.globals(), GLOBALS_LENGTH);
    mark_states(marks, story);
}

/// Marks the attributes of each object and its place in the tree.
fn mark_states(marks: &mut Marks<MARK_BYTES>, story: &Story)
    ensures { AreMarkedToo marks.old marks.new (λ p. any_below story.now.objects (λ below. is_within (object_place story.now.memory (below + 1)) 7 p)) }
{
    let _memory = story.memory(); // a word says where static memory begins
    let first = story.object_table() + DEFAULTS_LENGTH;
    for below in 0..story.objects() {
        mark(
            marks,
            first + OBJECT_ENTRY_LENGTH * usize::from(below),
            STATE_LENGTH,
        );
    }
}

//! Which bytes of a story an instruction may change without asking.

ghost use Rattle.std.specs.Prelude.{◌≡◌, ◌↔◌, ◌+◌, ◌-◌, ◌*◌, ◌/◌, ◌%◌, ◌≤◌, ◌<◌, IsTrue, MatchOption};
ghost use Rattle.zstory.specs.LoadedStory.{object_table};
ghost use Rattle.zstory.specs.Objects.{object_place};
ghost use Rattle.zplace.specs.Bytes.{IsWithin, IsObjectState, IsChanging, IsUnchanging};
ghost use Rattle.zplace.specs.Apart.{AreApart, HasNoObjectState};

use zstory::{DEFAULTS_LENGTH, GLOBALS_LENGTH, OBJECT_ENTRY_LENGTH, Story};

/// Where Flags 2 stands in the header, a word (Z 11.1).
const FLAGS_2: usize = 0x10;

/// How many bytes of an entry, from its first on, instructions on objects change: the attributes, and the numbers of
/// parent, sibling and child (Z 12.3.1).
const STATE_LENGTH: usize = 7;

/// Whether none of so many bytes from a place on is one that instructions may change without asking (own). The few runs of
/// such bytes are gone over, and not each byte.
#[tactic(auto, using(crate::proofs::Changing::unchanging_where))]
pub fn is_unchanging(story: &Story, from: usize, size: usize) -> bool
    requires { from + size ≤ 131072 }
    ensures { IsTrue result ↔ IsUnchanging story.now from size }
{
    let flags = is_apart(from, size, FLAGS_2, 2);
    let globals = is_apart(from, size, story.globals(), GLOBALS_LENGTH);
    let objects = has_no_object_state(story, from, size);
    flags && globals && objects
}

/// Whether so many bytes from one place on, and so many from another on, have none in common.
#[tactic(auto, using(crate::proofs::Changing::apart_where))]
pub(crate) fn is_apart(from: usize, size: usize, other: usize, others: usize) -> bool
    requires { 0 < others }
    ensures { IsTrue result ↔ AreApart from size other others }
{
    size == 0 || ends_before(from, size, other) || ends_before(other, others, from)
}

/// Whether so many bytes from one place on end at another or before it.
fn ends_before(from: usize, size: usize, to: usize) -> bool
    ensures { IsTrue result ↔ from + size ≤ to }
{
    from <= to && size <= to - from
}

/// Whether none of so many bytes from a place on is one of an object's attributes or of its place in the tree. Of the entries
/// that they reach, all such bytes lie before or behind them only where they are the last bytes of one entry.
#[tactic(auto, using(crate::proofs::Changing::no_state_where))]
fn has_no_object_state(story: &Story, from: usize, size: usize) -> bool
    requires { from + size ≤ 131072 }
    ensures { IsTrue result ↔ HasNoObjectState story.now from size }
{
    let entries = OBJECT_ENTRY_LENGTH * usize::from(story.objects());
    let low = past_defaults(story, from);
    let high = past_defaults(story, from + size).min(entries);
    low >= high || is_behind_state(low, high)
}

/// How far a place lies behind the byte where the entry of the first object begins, and 0 before it.
fn past_defaults(story: &Story, place: usize) -> usize
    ensures { result ≡ place - (object_table story.now + 62) }
{
    place
        .saturating_sub(story.object_table())
        .saturating_sub(DEFAULTS_LENGTH)
}

/// Whether the bytes of entries from one up to another are the last ones of one entry.
fn is_behind_state(low: usize, high: usize) -> bool
    requires { low ≤ 131072 }
    ensures { IsTrue result ↔ ((7 ≤ low % 9) × (high ≤ low / 9 * 9 + 9)) }
{
    low % OBJECT_ENTRY_LENGTH >= STATE_LENGTH
        && high <= low / OBJECT_ENTRY_LENGTH * OBJECT_ENTRY_LENGTH + OBJECT_ENTRY_LENGTH
}

/// Whether an instruction may change the byte at a place without asking: it is one of Flags 2, of the globals, or of an
/// object's attributes and its place in the tree (own).
pub fn is_changing(story: &Story, place: usize) -> bool
    ensures { IsTrue result ↔ IsChanging story.now place }
{
    is_within(FLAGS_2, 2, place)
        || is_within(story.globals(), GLOBALS_LENGTH, place)
        || is_object_state(story, place)
}

/// Whether the byte is one of an object's attributes or of its place in the tree.
fn is_object_state(story: &Story, place: usize) -> bool
    ensures { IsTrue result ↔ IsObjectState story.now place }
{
    match behind_defaults(story, place) {
        Some(behind) => {
            behind / OBJECT_ENTRY_LENGTH < usize::from(story.objects())
                && behind % OBJECT_ENTRY_LENGTH < STATE_LENGTH
        }
        None => false,
    }
}

/// How far a place lies behind the byte where the entry of the first object begins.
fn behind_defaults(story: &Story, place: usize) -> Option<usize>
    ensures { MatchOption result (place < object_place story.now.memory 1) (λ behind. place ≡ object_place story.now.memory 1 + behind) }
{
    place
        .checked_sub(story.object_table())?
        .checked_sub(DEFAULTS_LENGTH)
}

/// Whether a place is one of so many from another on.
fn is_within(from: usize, size: usize, place: usize) -> bool
    ensures { IsTrue result ↔ IsWithin from size place }
{
    from <= place && place - from < size
}

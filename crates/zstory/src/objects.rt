//! How many objects a story has.

ghost use Rattle.std.specs.Prelude.{◌+◌, ◌≤◌, length};
ghost use Rattle.zstory.specs.Header.{static_base};
ghost use Rattle.zstory.specs.Objects.{IsObjectCount};

use crate::bytes::word_at;
use crate::header;
use crate::header::{DEFAULTS_LENGTH, OBJECT_ENTRY_LENGTH};

/// Where in its entry the address of an object's property table stands (Z 12.3.1).
const PROPERTY_TABLE: usize = 7;

/// Counts the objects: up to the first whose entry ends above the static base or above the property table of an
/// object up to it, and at most 255 (own).
pub(crate) fn object_count(memory: &[u8]) -> u8
    requires header { 64 ≤ length memory.now }
    requires dynamic { static_base memory.now ≤ length memory.now }
    ensures { IsObjectCount memory.now result }
{
    let mut limit = usize::from(word_at(memory, header::STATIC_BASE));
    let mut place = usize::from(word_at(memory, header::OBJECT_TABLE)) + DEFAULTS_LENGTH;
    for object in 0..u8::MAX {
        let end = place + OBJECT_ENTRY_LENGTH;
        if end > limit {
            return object;
        }
        limit = limit.min(usize::from(word_at(memory, place + PROPERTY_TABLE)));
        if end > limit {
            return object;
        }
        place = end;
    }
    u8::MAX
}

//! The sets that the routines of a block are tried with: they decide how often a rule is asked, and never what is answered.

ghost use Rattle.std.specs.Prelude.{◌+◌, ◌≤◌};

use crate::callees::byte_at;
use zcert::{Certificate, Spelled};
use zdomain::Domain;
use zstory::Story;

/// A set in which an argument may lie for each routine of a block: what their locals of an index have in common. The sets of one
/// instruction at a time may be made in the room.
pub(crate) fn tried_set<V: Spelled>(
    story: &Story,
    certificate: &Certificate<V>,
    count: u16,
    base: u16,
    index: usize,
    room: &mut V::Room,
) -> V
    requires { base + count ≤ 65536 }
{
    let mut set = V::any();
    for offset in 0..count {
        let place = 2 * u32::from(base + offset);
        let Some(common) = common_with(story, certificate, place, index, set, room) else {
            return set;
        };
        set = common;
    }
    set
}

/// What a set has in common with the local of an index, if the routine at a place has it, of the words that this may begin with.
fn common_with<V: Spelled>(
    story: &Story,
    certificate: &Certificate<V>,
    place: u32,
    index: usize,
    set: V,
    room: &mut V::Room,
) -> Option<V>
    requires { place ≤ 131070 }
{
    certificate.routine_index(place)?;
    let words = u32::from(byte_at(story.memory(), place as usize));
    let first = certificate.instruction_at(place + 1 + 2 * words, room)?;
    match first.locals.get(index) {
        Some(local) => set.meet(*local),
        None => Some(set),
    }
}

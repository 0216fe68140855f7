//! What is wrong first with a certificate.

ghost use Rattle.std.specs.Prelude.{MatchOption};
ghost use Rattle.zcheck.specs.Passes.{IsCause, IsRefused, Passes};

use crate::refusal::Refusal;
use crate::story_rules::broken_story_rule;
use zcert::{Certificate, Spelled};
use zrule::judge_in;
use zruns::{Room, Tables};
use zstory::Story;
use ztext::TextEnds;

/// What is wrong first with a certificate for a story, and `None` where it passes (own). It takes no memory, and is
/// never `OutOfMemory`.
#[inline(never)]
pub fn examine<V: Spelled>(story: &Story, certificate: &Certificate<V>) -> Option<Refusal>
    ensures { MatchOption result (Passes V.operations story.now certificate.now) (IsCause V.operations story.now certificate.now) }
{
    if let Some(rule) = broken_story_rule(story, certificate) {
        return Some(Refusal::Story(rule));
    }
    let mut room = Room::new();
    let tables = Tables::new(story, certificate.ranges(), &mut room);
    let mut ends = TextEnds::new(story.memory());
    let mut sets = V::room();
    let mut others = V::room(); // for the places that an instruction leads to
    for index in 0..certificate.instruction_count() {
        let listed = certificate.instruction(index, &mut sets);
        if let Err(rule) = judge_in(
            story,
            &tables,
            certificate,
            &listed,
            index + 1,
            &mut ends,
            None,
            &mut others,
        ) {
            return Some(Refusal::Instruction(listed.address, rule));
        }
    }
    None
}

/// What is answered for want of memory: what is wrong first, where something is.
pub(crate) fn refusal_without_memory<V: Spelled>(
    story: &Story,
    certificate: &Certificate<V>,
) -> Refusal
    ensures { IsRefused V.operations story.now certificate.now result }
{
    match examine(story, certificate) {
        Some(refusal) => refusal,
        None => Refusal::OutOfMemory,
    }
}

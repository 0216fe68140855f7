//! Stories that are accepted with a certificate that marks instructions.

ghost use Rattle.std.specs.Prelude.{◌≡◌, IfErr, IfOk, IfSome, MatchOption};
ghost use Rattle.zrule.specs.Blocks.{AreBlocks};
ghost use Rattle.zrule.specs.Claims.{claims_of};
ghost use Rattle.zcheck.specs.Marks.{FaultsAtMarksAlone, IsRefusedWhereUnmarked, IsUnmarkedCause, PassesWhereUnmarked};

use crate::checking::{loaded_soundly, well_spelled};
use crate::refusal::Refusal;
use crate::story_rules::broken_story_rule;
use std::alloc::Global;
use std::marker::Model;
use zcert::{Certificate, Spelled};
use zdomain::Interval;
use zrule::{Blocks, judge_in};
use zruns::{Room, Tables};
use zstory::Story;
use ztext::TextEnds;

/// A story with a certificate that passes, but that nothing is asked where it marks an instruction. Contracts see it as a `MarkedOver V`.
#[derive(Drop)]
pub struct Marked<V: Spelled = Interval> {
    story: Story,
    certificate: Certificate<V>,
}

impl<V: Spelled> Model for Marked<V> {
    ghost use Rattle.zcheck.specs.Marks.{MarkedOver, PassesWhereUnmarked};

    ghost Value = { MarkedOver V };

    ghost view = { λ m. record { story = m.story; certificate = m.certificate } };

    ghost invariant = { λ m. PassesWhereUnmarked V.operations m.story m.certificate };
}

impl<V: Spelled> Marked<V> {
    /// The story.
    pub fn story(&self) -> &Story
        ensures value { result.now ≡ self.now.story }
        ensures passes { PassesWhereUnmarked V.operations self.now.story self.now.certificate }
    {
        &self.story
    }

    /// Its certificate.
    pub fn certificate(&self) -> &Certificate<V>
        ensures value { result.now ≡ self.now.certificate }
        ensures passes { PassesWhereUnmarked V.operations self.now.story self.now.certificate }
    {
        &self.certificate
    }
}

/// Accepts a story with a certificate that passes but where it marks an instruction, and else says what is wrong first (own).
///
/// Whatever is typed, drawn or answered, and however long it is played: where every place may be played, a fault is at a marked place, or
/// behind one from which play went on in a state that the certificate doesn't describe. Both are taken over; a refusal hands nothing back.
/// `OutOfMemory` is answered only for a certificate that passes so.
pub fn check_marked<V: Spelled>(
    alloc: Global,
    story: Story,
    certificate: Certificate<V>,
) -> Result<Marked<V>, Refusal>
    ensures story { IfOk result (λ m. m.story ≡ story) }
    ensures certificate { IfOk result (λ m. m.certificate ≡ certificate) }
    ensures passes { IfOk result (λ m. PassesWhereUnmarked V.operations story certificate) }
    ensures refused { IfErr result (IsRefusedWhereUnmarked V.operations story certificate) }
    ensures faults { IfOk result (FaultsAtMarksAlone V.operations) }
{
    let Ok(blocks) = Blocks::new(alloc, &story, &certificate) else {
        return Err(refused_without_memory(&story, &certificate));
    };
    if let Some(refusal) = examine_unmarked(&story, &certificate, Some(&blocks)) {
        return Err(refusal);
    }
    loaded_soundly(&story);
    well_spelled(&certificate);
    Ok(Marked { story, certificate })
}

/// What is answered for want of memory: what is wrong first, where something is.
fn refused_without_memory<V: Spelled>(story: &Story, certificate: &Certificate<V>) -> Refusal
    ensures { IsRefusedWhereUnmarked V.operations story.now certificate.now result }
{
    match examine_unmarked(story, certificate, None) {
        Some(refusal) => refusal,
        None => Refusal::OutOfMemory,
    }
}

/// What is wrong first with a certificate for a story, but where it marks, and `None` where it passes so (own). It takes no memory, and is
/// never `OutOfMemory`.
#[inline(never)]
pub fn examine_unmarked<'c, V: Spelled>(
    story: &'c Story,
    certificate: &'c Certificate<V>,
    blocks: Option<&'c Blocks<V>>,
) -> Option<Refusal>
    requires told { IfSome blocks (λ told. AreBlocks V.operations (claims_of V.operations certificate.now) story.now told.now) }
    ensures { MatchOption result (PassesWhereUnmarked V.operations story.now certificate.now) (IsUnmarkedCause V.operations story.now certificate.now) }
{
    if let Some(rule) = broken_story_rule(story, certificate) {
        return Some(Refusal::Story(rule));
    }
    let mut room = Room::new();
    let tables = Tables::new(story, certificate.ranges(), &mut room);
    let mut ends = TextEnds::new(story.memory());
    let mut sets = V::room();
    let mut others = V::room(); // for the places that an instruction leads to
    for index in 0..certificate.instruction_count() {
        let listed = certificate.instruction(index, &mut sets);
        if listed.is_marked {
            continue;
        }
        if let Err(rule) = judge_in(
            story,
            &tables,
            certificate,
            &listed,
            index + 1,
            &mut ends,
            blocks,
            &mut others,
        ) {
            return Some(Refusal::Instruction(listed.address, rule));
        }
    }
    None
}

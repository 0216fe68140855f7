//! The listing of a certificate, made while its instructions are judged.

ghost use Rattle.std.specs.Prelude.{◌≡◌, ◌≤◌, [], IfOk, IfErr, length, vec_capacity};
ghost use Rattle.zcert.specs.Spelling.{HasSpelling};
ghost use Rattle.zrule.specs.Blocks.{AreBlocks};
ghost use Rattle.zrule.specs.Claims.{claims_of};
ghost use Rattle.zcheck.specs.declared.refusal.StoryRule.{StoryRule as ARule};
ghost use Rattle.zcheck.specs.Acceptance.{IsListingOf, AreRecords, AreRoutines};
ghost use Rattle.zcheck.specs.Passes.{IsRefused, KeepsStory, Passes};

use crate::examining::refusal_without_memory;
use crate::refusal::Refusal;
use crate::story_rules::broken_story_rule;
use std::alloc::{AllocError, Global};
use zcert::{Certificate, Spelled};
use zlist::{Listing, Record};
use zrule::{Blocks, judge_in};
use zruns::{Room, Tables};
use zstory::Story;
use ztext::TextEnds;

/// The listing of a certificate that passes, and else what is wrong first. Want of memory is answered only for a
/// certificate that passes. Each instruction is decoded once.
pub(crate) fn judged_listing<V: Spelled>(
    alloc: Global,
    story: &Story,
    certificate: &Certificate<V>,
) -> Result<Listing, Refusal>
    ensures passes { IfOk result (λ _. Passes V.operations story.now certificate.now) }
    ensures lists { IfOk result (λ listing. IsListingOf story.now certificate.now listing) }
    ensures refused { IfErr result (IsRefused V.operations story.now certificate.now) }
{
    let records = judged_records(alloc, story, certificate)?;
    let routines = routines_of(alloc, certificate)?;
    let listing = Listing::new(alloc, records, routines)?;
    Ok(listing)
}

/// The listed instructions as the story spells them. Their room, and what is known of routines block by block, come first, so that
/// a certificate that doesn't pass is refused for what is wrong with it, and not for want of memory.
fn judged_records<V: Spelled>(
    alloc: Global,
    story: &Story,
    certificate: &Certificate<V>,
) -> Result<Vec<Record>, Refusal>
    ensures passes { IfOk result (λ _. Passes V.operations story.now certificate.now) }
    ensures records { IfOk result (λ records. AreRecords story.now certificate.now records.items) }
    ensures refused { IfErr result (IsRefused V.operations story.now certificate.now) }
{
    let Ok(records) = Vec::with_capacity(alloc, certificate.instruction_count()) else {
        return Err(refusal_without_memory(story, certificate));
    };
    let Ok(blocks) = Blocks::new(alloc, story, certificate) else {
        return Err(refusal_without_memory(story, certificate));
    };
    if let Some(rule) = broken_story_rule(story, certificate) {
        return Err(Refusal::Story(rule));
    }
    each_judged(story, certificate, &blocks, records)
}

/// The listed instructions as the story spells them, in these records.
fn each_judged<V: Spelled>(
    story: &Story,
    certificate: &Certificate<V>,
    blocks: &Blocks<V>,
    mut records: Vec<Record>,
) -> Result<Vec<Record>, Refusal>
    requires story_rules { (rule : ARule) → KeepsStory V.operations story.now certificate.now rule }
    requires told { AreBlocks V.operations (claims_of V.operations certificate.now) story.now blocks.now }
    requires none_yet { records.items ≡ [] }
    requires room { length certificate.now.instructions ≤ vec_capacity records }
    ensures passes { IfOk result (λ _. Passes V.operations story.now certificate.now) }
    ensures records { IfOk result (λ records. AreRecords story.now certificate.now records.items) }
    ensures refused { IfErr result (IsRefused V.operations story.now certificate.now) }
{
    let mut room = Room::new();
    let tables = Tables::new(story, certificate.ranges(), &mut room);
    let mut ends = TextEnds::new(story.memory());
    let mut sets = V::room();
    let mut others = V::room(); // for the places that an instruction leads to
    for index in 0..certificate.instruction_count() {
        let listed = certificate.instruction(index, &mut sets);
        let instruction = match judge_in(
            story,
            &tables,
            certificate,
            &listed,
            index + 1,
            &mut ends,
            Some(blocks),
            &mut others,
        ) {
            Ok(instruction) => instruction,
            Err(rule) => return Err(Refusal::Instruction(listed.address, rule)),
        };
        records.push_reserved(Record {
            address: listed.address,
            routine: listed.routine,
            instruction,
        });
    }
    Ok(records)
}

/// The addresses of the routines.
fn routines_of<V: Spelled>(
    alloc: Global,
    certificate: &Certificate<V>,
) -> Result<Vec<u32>, AllocError>
    ensures addresses { IfOk result (λ routines. AreRoutines certificate.now routines.items) }
    ensures keeps { HasSpelling V.format certificate.now }
{
    let mut routines = Vec::with_capacity(alloc, certificate.routines().len())?;
    for routine in certificate.routines() {
        routines.push(routine.address)?;
    }
    Ok(routines)
}

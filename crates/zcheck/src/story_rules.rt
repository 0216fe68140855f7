//! The rules on a story and its tables.

ghost use Rattle.std.specs.Prelude.{◌≡◌, ◌↔◌, IsTrue, MatchOption};
ghost use Rattle.std.specs.List.{All, AllByRecursion};
ghost use Rattle.zstory.specs.LoadedStory.{first_instruction};
ghost use Rattle.zrule.specs.Claims.{claims_of};
ghost use Rattle.zrule.specs.Rules.{HasFirstPlace};
ghost use Rattle.zcheck.specs.declared.refusal.StoryRule.{StoryRule as ARule};
ghost use Rattle.zcert.specs.Listed.{listed_at, seen};
ghost use Rattle.zcheck.specs.Bare.{IsBare};
ghost use Rattle.zcheck.specs.Passes.{HasHead, KeepsStory, IsLowestStoryRule};

use crate::objects::has_tree;
use crate::refusal::StoryRule;
use crate::tables::{has_abbreviations, has_disjoint_tables, has_globals};
use zcert::{Certificate, Instruction, Routine, Spelled};
use zplace::has_property_tables;
use zrule::hold_anyway;
use zstory::Story;

/// The rules by their numbers.
const RULES: [StoryRule; 8] = [
    StoryRule::Identity,
    StoryRule::FirstPlace,
    StoryRule::RoutineHeads,
    StoryRule::FirstGlobals,
    StoryRule::PropertyTables,
    StoryRule::Tree,
    StoryRule::Abbreviations,
    StoryRule::Tables,
];

/// The lowest rule that the story breaks.
pub(crate) fn broken_story_rule<V: Spelled>(
    story: &Story,
    certificate: &Certificate<V>,
) -> Option<StoryRule>
    ensures { MatchOption result ((rule : ARule) → KeepsStory V.operations story.now certificate.now rule) (IsLowestStoryRule V.operations story.now certificate.now) }
{
    for rule in RULES {
        if !keeps(story, certificate, rule) {
            return Some(rule);
        }
    }
    None
}

/// Whether the story keeps a rule.
fn keeps<V: Spelled>(story: &Story, certificate: &Certificate<V>, rule: StoryRule) -> bool
    ensures { IsTrue result ↔ KeepsStory V.operations story.now certificate.now rule }
{
    match rule {
        StoryRule::Identity => certificate.identity() == story.identity(),
        StoryRule::FirstPlace => has_first_place(story, certificate),
        StoryRule::RoutineHeads => has_heads(story, certificate),
        StoryRule::FirstGlobals => has_globals(story, certificate),
        StoryRule::PropertyTables => has_property_tables(story),
        StoryRule::Tree => has_tree(story),
        StoryRule::Abbreviations => has_abbreviations(story),
        StoryRule::Tables => has_disjoint_tables(story, certificate),
    }
}

/// Whether the first place is listed as the main code begins, and the facts there hold of all that the globals may have.
fn has_first_place<V: Spelled>(story: &Story, certificate: &Certificate<V>) -> bool
    ensures { IsTrue result ↔ HasFirstPlace V.operations (claims_of V.operations certificate.now) story.now }
{
    let place = first_place(story);
    is_listed_bare(certificate, place) && hold_anyway(certificate, place)
}

/// Whether an instruction is listed at an address, in the main code, with no local and an empty stack.
fn is_listed_bare<V: Spelled>(certificate: &Certificate<V>, address: u32) -> bool
    ensures { IsTrue result ↔ MatchOption (listed_at certificate.now.instructions address) ⊥ IsBare }
{
    let mut room = V::room();
    match certificate.instruction_at(address, &mut room) {
        Some(first) => is_bare(&first),
        None => false,
    }
}

/// The address of the first instruction.
fn first_place(story: &Story) -> u32
    ensures { result ≡ first_instruction story.now }
{
    let _end = story.length(); // below which it lies, at most 131,072
    story.first_instruction() as u32
}

/// Whether an instruction is in the main code, with no local and an empty stack.
fn is_bare<V: Spelled>(listed: &Instruction<'_, V>) -> bool
    ensures { IsTrue result ↔ IsBare (seen listed.now) }
{
    listed.routine == 0 && listed.locals.is_empty() && listed.slots.is_empty()
}

/// Whether each routine's head is where it is stated.
fn has_heads<V: Spelled>(story: &Story, certificate: &Certificate<V>) -> bool
    ensures { IsTrue result ↔ AllByRecursion (HasHead story.now) certificate.now.routines }
{
    has_each_head(story, certificate.routines())
}

/// Whether each of these routines has its head.
fn has_each_head<V: Spelled>(story: &Story, routines: &[Routine<V>]) -> bool
    ensures { IsTrue result ↔ All (HasHead story.now) routines.now }
{
    routines.iter().all(|routine| has_head(story, *routine))
}

/// Whether a routine's head lies at an even place of static memory, whole and with the stated count of locals.
fn has_head<V: Spelled>(story: &Story, routine: Routine<V>) -> bool
    ensures { IsTrue result ↔ HasHead story.now routine }
{
    let memory = story.memory();
    let place = routine.address as usize;
    if place < story.static_base() || place >= memory.len() {
        return false;
    }
    let words = 2 * usize::from(routine.locals);
    place % 2 == 0 && memory[place] == routine.locals && words < memory.len() - place
}

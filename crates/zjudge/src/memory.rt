//! The dynamic memory of a save.

ghost use Rattle.std.specs.Prelude.{◌≡◌, ◌↔◌, ◌≤◌, ◌<◌, ℕ, IsTrue, length};
ghost use Rattle.zstory.specs.LoadedStory.{static_base};
ghost use Rattle.std.specs.List.{AllByRecursion};
ghost use Rattle.zdomain.specs.Domain.{In};
ghost use Rattle.zrule.specs.Claims.{claims_of};
ghost use Rattle.zrule.specs.Described.{HaveFacts};
ghost use Rattle.zrule.specs.Rules.{HasGlobals, global_in};
ghost use Rattle.zjudge.specs.Memory.{AreGlobals, HasLinks, IsDescribedMemory};

use crate::kept::are_closed_kept;
use zcert::{Certificate, Fact, Spelled};
use zstory::{DEFAULTS_LENGTH, OBJECT_ENTRY_LENGTH, Story};

/// Where the number of an object's parent stands in its entry, with those of its sibling and its first child behind it (Z 12.3.1).
const LINKS: usize = 4;

/// Whether globals lie in their sets, links of objects lead to objects, and what no play changes is as loaded.
pub(crate) fn is_memory_described<V: Spelled>(
    story: &Story,
    certificate: &Certificate<V>,
    saved: &[u8],
) -> bool
    requires whole { length saved.now ≡ static_base story.now }
    ensures { IsTrue result ↔ IsDescribedMemory V.operations (claims_of V.operations certificate.now) story.now saved.now }
{
    has_globals(story, certificate, saved)
        && has_tree(story, saved)
        && are_closed_kept(story, certificate.ranges(), saved)
}

/// Whether each global lies in its set.
fn has_globals<V: Spelled>(story: &Story, certificate: &Certificate<V>, saved: &[u8]) -> bool
    requires whole { length saved.now ≡ static_base story.now }
    ensures { IsTrue result ↔ HasGlobals V.operations (claims_of V.operations certificate.now) story.now saved.now }
{
    let sets = certificate.globals();
    for index in 0..sets.len() {
        if !sets[index].contains(global_at(story, saved, index)) {
            return false;
        }
    }
    true
}

/// Whether what is stated of globals at an address holds.
pub(crate) fn have_facts<V: Spelled>(
    story: &Story,
    certificate: &Certificate<V>,
    saved: &[u8],
    address: u32,
) -> bool
    requires whole { length saved.now ≡ static_base story.now }
    ensures { IsTrue result ↔ HaveFacts V.operations (claims_of V.operations certificate.now) story.now saved.now address }
{
    hold_in(story, certificate.facts_at(address), saved)
}

/// Whether each of some facts does.
fn hold_in<V: Spelled>(story: &Story, facts: &[Fact<V>], saved: &[u8]) -> bool
    requires whole { length saved.now ≡ static_base story.now }
    requires few { AreGlobals facts.now }
    ensures { IsTrue result ↔ AllByRecursion (λ f. In V.operations f.values (global_in story.now saved.now f.global)) facts.now }
{
    match facts {
        [] => true,
        [fact, rest @ ..] => {
            fact.values
                .contains(global_at(story, saved, usize::from(fact.global)))
                && hold_in(story, rest, saved)
        }
    }
}

/// The value of a global, counted from variable 16.
fn global_at(story: &Story, saved: &[u8], index: usize) -> u16
    requires whole { length saved.now ≡ static_base story.now }
    requires few { index < 240 }
    ensures { result ≡ global_in story.now saved.now index }
{
    let place = story.globals() + 2 * index;
    u16::from_be_bytes([saved[place], saved[place + 1]])
}

/// Whether each link of each object leads to an object, or to none.
fn has_tree(story: &Story, saved: &[u8]) -> bool
    requires whole { length saved.now ≡ static_base story.now }
    ensures { IsTrue result ↔ ((object : ℕ) → 1 ≤ object → object ≤ story.now.objects → HasLinks story.now saved.now object) }
{
    for below in 0..story.objects() {
        if !has_links(story, saved, below + 1) {
            return false;
        }
    }
    true
}

/// Whether each link of one object does.
fn has_links(story: &Story, saved: &[u8], object: u8) -> bool
    requires whole { length saved.now ≡ static_base story.now }
    requires least { 1 ≤ object }
    requires most { object ≤ story.now.objects }
    ensures { IsTrue result ↔ HasLinks story.now saved.now object }
{
    let objects = story.objects();
    let entry = OBJECT_ENTRY_LENGTH * (usize::from(object) - 1);
    let place = story.object_table() + DEFAULTS_LENGTH + entry + LINKS;
    saved[place] <= objects && saved[place + 1] <= objects && saved[place + 2] <= objects
}

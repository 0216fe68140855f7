//! How often the code of a story meets opcodes that aren't played.

ghost use Rattle.std.specs.Prelude.{◌≡◌, ◌↔◌, ◌<◌, IfOk, IsTrue, length};
ghost use Rattle.zinfo.specs.Unplayed.{AreCountsOf, IsCountOf, IsMet};
ghost use Rattle.zinfo.specs.Walked.{IsWalked};

use crate::facts::Unplayed;
use crate::standing::Standing;
use crate::walk::{Walk, walk_story};
use std::alloc::{AllocError, Global};
use zcode::{DecodeError, Excluded};
use zstory::Story;

/// Whether an opcode that isn't played stands at an address to which code leads.
fn is_met(
    walk: &Walk,
    story: &Story,
    standing: &Standing<'_>,
    opcode: Excluded,
    address: usize,
) -> bool
    requires walked { IsWalked story.now walk.now }
    requires standing { standing.now ≡ story.now.memory }
    requires inside { address < length story.now.memory }
    ensures { IsTrue result ↔ IsMet story.now opcode address }
{
    match standing.at(address) {
        Err(DecodeError::NotInProfile(found)) => found == opcode && walk.has(address),
        _ => false,
    }
}

/// At how many addresses an opcode that isn't played is met.
#[tactic(auto, using(crate::proofs::Counted::none_counted))]
fn count(walk: &Walk, story: &Story, standing: &Standing<'_>, opcode: Excluded) -> usize
    requires walked { IsWalked story.now walk.now }
    requires standing { standing.now ≡ story.now.memory }
    ensures { IsCountOf story.now opcode result }
{
    let mut count = 0;
    for address in 0..story.length() {
        if is_met(walk, story, standing, opcode, address) {
            count += 1;
        }
    }
    count
}

/// At how many addresses each of the opcodes that aren't played is met, where code leads if they are passed over: from the first
/// instruction on by jumps, both ways of branches, constant calls, and behind each of those opcodes (own). Fails only for want of memory.
pub fn unplayed(alloc: Global, story: &Story) -> Result<Unplayed, AllocError>
    ensures { IfOk result (AreCountsOf story.now) }
{
    let _length = story.length(); // at most 131,072
    let standing = Standing::new(alloc, story.memory())?;
    let walk = walk_story(alloc, story, &standing)?;
    Ok(Unplayed {
        split_window: count(&walk, story, &standing, Excluded::SplitWindow),
        set_window: count(&walk, story, &standing, Excluded::SetWindow),
        output_stream: count(&walk, story, &standing, Excluded::OutputStream),
        input_stream: count(&walk, story, &standing, Excluded::InputStream),
        sound_effect: count(&walk, story, &standing, Excluded::SoundEffect),
    })
}

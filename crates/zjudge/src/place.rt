//! The place where play would go on.

ghost use Rattle.std.specs.Prelude.{◌≡◌, ◌≤◌, ◌-ℤ◌, drop, pos, true};
ghost use Rattle.zcode.specs.Operation.{operation_of};
ghost use Rattle.zstate.specs.State.{scope_only};
ghost use Rattle.zstate.specs.Step.{decoded, fetch};
ghost use Rattle.zstate.specs.Saves.{is_save, saves};
ghost use Rattle.zcode.specs.Reading.{instruction_at};

use zcode::{Opcode, Operation, decode};
use zlist::Listing;
use zstory::Story;

/// Whether a `save` is listed at the byte before a place, by memory as it was loaded.
pub(crate) fn is_save_before(story: &Story, listing: &Listing, place: u32) -> bool
    ensures value { result ≡ saves (fetch (scope_only listing.now) (pos place -ℤ pos 1) story.now.memory) }
    ensures above { result ≡ true → 1 ≤ place }
{
    let Some(at) = place.checked_sub(1) else {
        return false; // no byte is before the first
    };
    let at = at as usize;
    listing.contains(at) && is_save_at(story, at)
}

/// Whether the instruction at a place is a `save`.
fn is_save_at(story: &Story, place: usize) -> bool
    ensures { result ≡ saves (decoded (instruction_at (drop place story.now.memory))) }
{
    match decode(story.memory(), place) {
        Ok(instruction) => is_save(instruction.opcode()),
        Err(_) => false,
    }
}

/// Whether an opcode saves.
fn is_save(opcode: Opcode) -> bool
    ensures { result ≡ is_save (operation_of opcode) }
{
    match opcode.operation() {
        Operation::Save => true,
        _ => false,
    }
}

//! The properties of an object by their numbers.

ghost use Rattle.std.specs.Prelude.{◌≡◌, ◌+◌, ◌/◌, ◌%◌, ◌<◌, ℕ, Some, None, slice_index_or};
ghost use Rattle.zobj.specs.Properties.{list_place};
ghost use Rattle.zpairs.specs.Rows.{AreFound, IsObjectRow, IsRow, first_of, if_number};

use crate::blocks::{COLUMNS, OBJECT_CELLS};
use zobj::{Property, list_place, property_at};
use zstory::Story;

/// The properties of a list by their numbers, the first of each. The list is gone over once.
fn row_of(memory: &[u8], first: usize) -> [Option<Property>; COLUMNS]
    ensures { IsRow memory.now first result }
{
    let mut row = [None; COLUMNS];
    let mut at = first;
    while let Some(property) = property_at(memory, at) {
        keep_first(&mut row, property);
        at = usize::from(property.place) + usize::from(property.length);
    }
    row
}

/// Takes a property for its number, where none is there yet.
fn keep_first(row: &mut [Option<Property>; COLUMNS], property: Property)
    requires { property.number < 32 }
    ensures { (n : ℕ) → n < 33 → slice_index_or row.new n None ≡ first_of (slice_index_or row.old n None) (if_number n property) }
{
    let number = usize::from(property.number);
    if row[number].is_none() {
        row[number] = Some(property);
    }
}

/// The properties of an object, less 1, by their numbers, if the story has it.
#[tactic(auto, using(crate::proofs::ByNumber::of_object, crate::proofs::Tables::entry_there))]
fn object_row(story: &Story, below: u8) -> [Option<Property>; COLUMNS]
    ensures { IsObjectRow story.now below result }
{
    if below < story.objects() {
        let memory = story.memory();
        row_of(memory, list_place(memory, below + 1))
    } else {
        [None; COLUMNS]
    }
}

/// Makes a row that of a place of the table: it is that of the place before, or else of the next object.
fn renew(story: &Story, row: &mut [Option<Property>; COLUMNS], k: usize)
    requires few { k < 8448 }
    requires same { (k % 33 ≡ 0 → ⊥) → IsObjectRow story.now (k / 33) row.old }
    ensures { IsObjectRow story.now (k / 33) row.new }
{
    if k % COLUMNS == 0 {
        *row = object_row(story, (k / COLUMNS) as u8);
    }
}

/// Makes a table that of each object's property of each number.
pub(crate) fn find_properties(found: &mut [Option<Property>; OBJECT_CELLS], story: &Story)
    ensures { AreFound story.now found.new }
{
    let mut row = [None; COLUMNS];
    for k in 0..COLUMNS * usize::from(story.objects()) {
        renew(story, &mut row, k);
        found[k] = row[k % COLUMNS];
    }
}

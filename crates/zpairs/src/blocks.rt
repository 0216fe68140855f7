//! Tables of what is known of objects, one by one and block by block.

ghost use Rattle.std.specs.Prelude.{◌≡◌, ◌<◌};
ghost use Rattle.zpairs.specs.Blocks.{AreBlocks, block_cell, object_cell};
ghost use Rattle.zpairs.specs.Rows.{AreFound};

use crate::cell::Cell;
use crate::finding::cell_of;
use crate::marked::Marked;
use zobj::Property;

/// How many objects a block has.
pub(crate) const BLOCK_LENGTH: u8 = 16;

/// How many numbers each object is asked for: those that a size byte can have, and one more, which no property has.
pub(crate) const COLUMNS: usize = 33;

/// How many properties as many objects can have as 16 blocks, one for each number.
pub(crate) const OBJECT_CELLS: usize = 8448;

/// How many cells 16 blocks have: each object lies in one of them.
pub(crate) const BLOCK_CELLS: usize = 528;

/// What is known of an object, less 1, and a number, if the story has it, by the properties of all.
pub(crate) fn object_cell(
    marked: Marked<'_>,
    found: &[Option<Property>; OBJECT_CELLS],
    below: usize,
    number: u16,
) -> Cell
    requires few { below < 256 }
    requires small { number < 33 }
    requires there { AreFound marked.story.now found.now }
    ensures { result ≡ object_cell (record { story = marked.entry.story.now; ranges = marked.entry.ranges.now }) below number }
{
    if below < usize::from(marked.story.objects()) {
        cell_of(
            &marked,
            number,
            &found[COLUMNS * below + usize::from(number)],
        )
    } else {
        Cell::NONE
    }
}

/// Makes cells what is known of each block and each number.
pub(crate) fn fill_blocks(
    cells: &mut [Cell; BLOCK_CELLS],
    marked: Marked<'_>,
    found: &[Option<Property>; OBJECT_CELLS],
)
    requires { AreFound marked.story.now found.now }
    ensures { AreBlocks (record { story = marked.entry.story.now; ranges = marked.entry.ranges.now }) cells.new }
{
    for k in 0..BLOCK_CELLS {
        cells[k] = block_cell(marked, found, k / COLUMNS, (k % COLUMNS) as u16);
    }
}

/// What is known of a block and a number.
fn block_cell(
    marked: Marked<'_>,
    found: &[Option<Property>; OBJECT_CELLS],
    block: usize,
    number: u16,
) -> Cell
    requires few { block < 16 }
    requires small { number < 33 }
    requires there { AreFound marked.story.now found.now }
    ensures { result ≡ block_cell (record { story = marked.entry.story.now; ranges = marked.entry.ranges.now }) block number }
{
    if usize::from(BLOCK_LENGTH) * block < usize::from(marked.story.objects()) {
        merged_in(marked, found, block, number)
    } else {
        Cell::NONE
    }
}

/// What is known of the objects of a block and a number, one by one.
#[tactic(auto, unfolding(crate::specs::Blocks::merged_below))]
fn merged_in(
    marked: Marked<'_>,
    found: &[Option<Property>; OBJECT_CELLS],
    block: usize,
    number: u16,
) -> Cell
    requires few { block < 16 }
    requires small { number < 33 }
    requires there { AreFound marked.story.now found.now }
    ensures { result ≡ block_cell (record { story = marked.entry.story.now; ranges = marked.entry.ranges.now }) block number }
{
    let mut cell = Cell::NONE;
    for place in 0..usize::from(BLOCK_LENGTH) {
        let below = usize::from(BLOCK_LENGTH) * block + place;
        cell = cell.merge(object_cell(marked, found, below, number));
    }
    cell
}

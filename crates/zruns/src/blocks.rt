//! What is known of blocks of addresses.

ghost use Rattle.std.specs.Prelude.{◌≡◌, ◌<◌, slice_index_or};
ghost use Rattle.zruns.specs.Blocks.{AreBlocks, block_cell};
ghost use Rattle.zruns.specs.Runs.{no_cell};

use crate::cell::Cell;
use crate::piece::piece_cell;
use zarray::Width;
use zpairs::Marked;

/// How many addresses a block has.
pub(crate) const BLOCK_LENGTH: usize = 256;

/// How many blocks all byte addresses make.
pub(crate) const BLOCKS: usize = 256;

/// Makes cells what is known of the elements that begin in each block.
pub(crate) fn fill_blocks(cells: &mut [Cell; BLOCKS], marked: Marked<'_>, width: Width)
    ensures { AreBlocks (record { story = marked.entry.story.now; ranges = marked.entry.ranges.now }) width cells.new }
{
    for block in 0..BLOCKS {
        cells[block] = block_cell(marked, width, block);
    }
}

/// What stands in a table of blocks at an index, and nothing behind its last.
pub(crate) fn cell_in(cells: &[Cell; BLOCKS], index: usize) -> Cell
    ensures { result ≡ slice_index_or cells.now index no_cell }
{
    match cells.get(index) {
        Some(cell) => *cell,
        None => Cell::NONE,
    }
}

/// What is known of those of one block. Behind memory it is the same of all, and none is gone over.
fn block_cell(marked: Marked<'_>, width: Width, block: usize) -> Cell
    requires { block < 256 }
    ensures { result ≡ block_cell (record { story = marked.entry.story.now; ranges = marked.entry.ranges.now }) width block }
{
    let memory = marked.story.memory();
    if memory.len() <= BLOCK_LENGTH * block {
        return Cell::BEHIND;
    }
    piece_cell(marked, width, BLOCK_LENGTH * block, BLOCK_LENGTH)
}

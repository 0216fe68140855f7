//! What is known of elements side by side.

ghost use Rattle.std.specs.Prelude.{◌≡◌, ◌≤◌, ◌+◌};
ghost use Rattle.zruns.specs.Blocks.{piece_cell};

use crate::cell::Cell;
use crate::element::{are_fixed, are_open, value_at};
use zarray::Width;
use zpairs::{Ends, Marked};

/// What is known of the elements at so many addresses from one on. Each thing is asked apart, and no longer than it holds.
pub(crate) fn piece_cell(marked: Marked<'_>, width: Width, from: usize, size: usize) -> Cell
    requires { from + size ≤ 65536 }
    ensures { result ≡ piece_cell (record { story = marked.entry.story.now; ranges = marked.entry.ranges.now }) width from size }
{
    Cell {
        is_open: each_open(marked, width, from, size),
        fixed: each_fixed(marked, width, from, size),
        ends: ends_of(marked, width, from, size),
    }
}

/// Whether each byte of each is open.
fn each_open(marked: Marked<'_>, width: Width, from: usize, size: usize) -> bool
    requires { from + size ≤ 65536 }
    ensures { result ≡ (piece_cell (record { story = marked.entry.story.now; ranges = marked.entry.ranges.now }) width from size).is_open }
{
    for more in 0..size {
        if !are_open(marked, width, from + more) {
            return false;
        }
    }
    true
}

/// Whether no play changes a byte of any. In static memory none is asked.
fn each_fixed(marked: Marked<'_>, width: Width, from: usize, size: usize) -> bool
    requires { from + size ≤ 65536 }
    ensures { result ≡ (piece_cell (record { story = marked.entry.story.now; ranges = marked.entry.ranges.now }) width from size).fixed }
{
    let _memory = marked.story.memory(); // a word says where static memory begins
    if from >= marked.story.static_base() {
        return true;
    }
    for more in 0..size {
        if !are_fixed(marked, width, from + more) {
            return false;
        }
    }
    true
}

/// The ends of what they are in the story.
#[tactic(auto, unfolding(crate::specs::Runs::merged_below))]
fn ends_of(marked: Marked<'_>, width: Width, from: usize, size: usize) -> Ends
    requires { from + size ≤ 65536 }
    ensures { result ≡ (piece_cell (record { story = marked.entry.story.now; ranges = marked.entry.ranges.now }) width from size).ends }
{
    let memory = marked.story.memory();
    let mut ends = Ends::NONE;
    for more in 0..size {
        ends = ends.join(Ends::exactly(value_at(width, memory, from + more)));
    }
    ends
}

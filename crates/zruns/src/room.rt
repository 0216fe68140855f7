//! Room for the tables of a story.

use crate::blocks::BLOCKS;
use crate::cell::Cell;
use crate::text_marks::MARK_BYTES;
use zdomain::Marks;
use zpairs::{Ends, PropertyRoom};

/// What stands where nothing is told yet. All of it is zero, so that many take one fill of memory, and no move.
const BLANK: Cell = Cell {
    is_open: false,
    fixed: false,
    ends: Ends::BLANK,
};

/// Room for the tables of a story. It is made once and filled where it stands, since it is large: to move it would cost more than all else that is
/// done for a small story.
#[derive(Drop)]
pub struct Room {
    pub(crate) properties: PropertyRoom,
    pub(crate) runs: RunRoom,
    pub(crate) texts: TextRoom,
}

/// That for runs of addresses.
#[derive(Drop)]
pub(crate) struct RunRoom {
    pub(crate) bytes: [Cell; BLOCKS],
    pub(crate) words: [Cell; BLOCKS],
}

/// That for texts.
#[derive(Drop)]
pub(crate) struct TextRoom {
    pub(crate) marks: Marks<MARK_BYTES>,
    pub(crate) bytes: [bool; BLOCKS],
    pub(crate) packed: [bool; BLOCKS],
}

impl Room {
    /// One in which nothing is told yet.
    pub fn new() -> Room {
        Room {
            properties: PropertyRoom::new(),
            runs: RunRoom {
                bytes: [BLANK; BLOCKS],
                words: [BLANK; BLOCKS],
            },
            texts: TextRoom {
                marks: Marks::none(),
                bytes: [false; BLOCKS],
                packed: [false; BLOCKS],
            },
        }
    }
}

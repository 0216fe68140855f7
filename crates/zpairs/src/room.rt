//! Room for what is known of a story's properties.

use crate::blocks::{BLOCK_CELLS, OBJECT_CELLS};
use crate::cell::Cell;
use crate::frozen::MARK_BYTES;
use zdomain::Marks;
use zobj::Property;

/// Room for what is known of a story's properties, some 90 KB. It is made once and filled where it stands: to move it would cost more than
/// all else that is done for a small story.
#[derive(Drop)]
pub struct PropertyRoom {
    pub(crate) closed: Marks<MARK_BYTES>,
    pub(crate) fixed: Marks<MARK_BYTES>,
    pub(crate) found: [Option<Property>; OBJECT_CELLS],
    pub(crate) blocks: [Cell; BLOCK_CELLS],
}

impl PropertyRoom {
    /// One in which nothing is told yet.
    pub fn new() -> PropertyRoom {
        PropertyRoom {
            closed: Marks::none(),
            fixed: Marks::none(),
            found: [None; OBJECT_CELLS],
            blocks: [Cell::BLANK; BLOCK_CELLS],
        }
    }
}
